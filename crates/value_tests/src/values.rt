ghost use Rattle.ds_value.specs.Kinds.{IsKind};
ghost use Rattle.ds_value.specs.Canonical.{IsShort};

use ds_value::{
    Bytes, Kind, NoMemory, TextFault, Value, canonical, copy_value, read_text, write_text,
};
use std::alloc::Global;
use std::test::Fail;

/// The text that is written for what a text spells.
fn rewritten(alloc: Global, kind: &Kind, text: &[u8]) -> Result<Bytes, TextFault>
    requires { IsKind kind.now }
{
    let value = read_text(alloc, kind, text)?;
    let mut written = Bytes::new(alloc);
    write_text(alloc, kind, &value, &mut written)?;
    Ok(written)
}

fn is_written(alloc: Global, kind: &Kind, text: &[u8], expected: &[u8]) -> Result<bool, Fail>
    requires { IsKind kind.now }
{
    Ok(rewritten(alloc, kind, text)?.as_slice() == expected)
}

fn is_refused(alloc: Global, kind: &Kind, text: &[u8]) -> bool
    requires { IsKind kind.now }
{
    match rewritten(alloc, kind, text) {
        Err(TextFault::Bad) => true,
        _ => false,
    }
}

#[test]
fn whole_numbers(rt: HostRuntime) -> Result<(), Fail> {
    let alloc = rt.alloc();
    let byte = &Kind::Int(8);
    assert!(rt; is_written(alloc, byte, b"-128", b"-128")?);
    assert!(rt; is_written(alloc, byte, b"+007", b"7")?);
    assert!(rt; is_refused(alloc, byte, b"128"));
    assert!(rt; is_refused(alloc, byte, b"1 "));
    let long = &Kind::UInt(64);
    assert!(rt;
        is_written(
            alloc,
            long,
            b"18446744073709551615",
            b"18446744073709551615"
        )?
    );
    assert!(rt; is_refused(alloc, long, b"-0"));
    Ok(())
}

#[test]
fn decimals(rt: HostRuntime) -> Result<(), Fail> {
    let alloc = rt.alloc();
    let price = &Kind::Dec { p: 4, s: 2 };
    assert!(rt; is_written(alloc, price, b"-0.000", b"0.00")?);
    assert!(rt; is_written(alloc, price, b"+1.5", b"1.50")?);
    assert!(rt; is_written(alloc, price, b"-0.05", b"-0.05")?);
    assert!(rt; is_refused(alloc, price, b"1.234"));
    assert!(rt; is_refused(alloc, price, b"100"));
    assert!(rt; is_refused(alloc, price, b"1."));
    Ok(())
}

#[test]
fn texts_and_dates(rt: HostRuntime) -> Result<(), Fail> {
    let alloc = rt.alloc();
    assert!(rt;
        is_written(
            alloc,
            &Kind::Text {
                max: 3,
                fixed: true
            },
            b"a",
            b"a  "
        )?
    );
    assert!(rt;
        is_written(
            alloc,
            &Kind::Text {
                max: 3,
                fixed: false
            },
            b"a",
            b"a"
        )?
    );
    assert!(rt;
        is_refused(
            alloc,
            &Kind::Text {
                max: 3,
                fixed: true
            },
            b"abcd"
        )
    );
    assert!(rt; is_written(alloc, &Kind::Date, b"2024-02-29", b"2024-02-29")?);
    assert!(rt; is_refused(alloc, &Kind::Date, b"1900-02-29"));
    assert!(rt; is_refused(alloc, &Kind::Date, b"2024-2-29"));
    Ok(())
}

fn day_of(alloc: Global, text: &[u8]) -> Result<i32, Fail> {
    match read_text(alloc, &Kind::Date, text)? {
        Value::Date(day) => Ok(day),
        _ => Err(Fail::from("no date")),
    }
}

#[test]
fn days_are_counted_from_1970(rt: HostRuntime) -> Result<(), Fail> {
    let alloc = rt.alloc();
    assert_eq!(rt; day_of(alloc, b"1970-01-01")?, 0);
    assert_eq!(rt; day_of(alloc, b"1969-12-31")?, -1);
    assert_eq!(rt; day_of(alloc, b"2000-03-01")?, 11_017);
    assert_eq!(rt; day_of(alloc, b"0001-01-01")?, -719_162);
    assert_eq!(rt; day_of(alloc, b"9999-12-31")?, 2_932_896);
    Ok(())
}

fn canonical_of(alloc: Global, value: &Value) -> Result<Bytes, NoMemory>
    requires { IsShort value.now }
{
    let copy = copy_value(alloc, value)?;
    let mut bytes = Bytes::new(alloc);
    canonical(alloc, &copy, &mut bytes)?;
    Ok(bytes)
}

#[test]
fn canonical_bytes(rt: HostRuntime) -> Result<(), Fail> {
    let alloc = rt.alloc();
    let minus_two = canonical_of(alloc, &Value::Int(-2))?;
    assert_eq!(rt;
        minus_two.as_slice(),
        [1, 255, 255, 255, 255, 255, 255, 255, 254].as_slice()
    );
    let null = canonical_of(alloc, &Value::Null)?;
    assert_eq!(rt; null.as_slice(), [0].as_slice());
    let count = canonical_of(alloc, &Value::UInt(258))?;
    assert_eq!(rt; count.as_slice(), [2, 0, 0, 0, 0, 0, 0, 1, 2].as_slice());
    let units = canonical_of(alloc, &Value::Dec(-2))?;
    assert_eq!(rt; units.as_slice().len(), 17);
    assert_eq!(rt; units.as_slice().first(), Some(&3));
    assert_eq!(rt; units.as_slice().last(), Some(&254));
    let day = canonical_of(alloc, &Value::Date(1))?;
    assert_eq!(rt; day.as_slice(), [5, 0, 0, 0, 1].as_slice());
    let letters = Bytes::from_vec(b"hi".to_vec(alloc)?);
    let text = canonical_of(alloc, &Value::Text(letters))?;
    assert_eq!(rt; text.as_slice(), [4, 0, 0, 0, 2, 104, 105].as_slice());
    Ok(())
}
