ghost use Rattle.std.specs.Prelude.{◌≡◌, ◌∷◌, [], ◌≤◌, IfOk};
ghost use Rattle.ds_value.specs.Canonical.{IsShort};
ghost use Rattle.ds_place.specs.Places.{IsWhole};

use ds_place::{Place, fnv, partition_of};
use ds_schema::Row;
use ds_value::{Bytes, Copied, Items, Value};
use std::alloc::Global;
use std::test::Fail;

#[test]
fn published_vectors(rt: HostRuntime) {
    assert_eq!(rt; fnv(b""), 0xcbf2_9ce4_8422_2325);
    assert_eq!(rt; fnv(b"a"), 0xaf63_dc4c_8601_ec8c);
    assert_eq!(rt; fnv(b"foobar"), 0x8594_4171_f739_67e8);
}

fn single(alloc: Global, value: Value) -> Result<Row, Fail>
    ensures { IfOk result (λ row. row ≡ value ∷ []) }
{
    let mut values = Vec::new(alloc);
    values.push(value)?;
    Ok(Row::from_vec(values))
}

fn hashed(alloc: Global, value: Value, n: u32) -> Result<u32, Fail>
    requires short { IsShort value }
    requires some { 1 ≤ n }
{
    let mut columns = Items::new(alloc);
    columns.push(0)?;
    let place = Place::Hash(columns).copied()?;
    let row = single(alloc, value)?;
    Ok(partition_of(&place, &row, n))
}

fn remaining(alloc: Global, value: Value, n: u32) -> Result<u32, Fail>
    requires whole { IsWhole value }
    requires short { IsShort value }
    requires some { 1 ≤ n }
{
    let place = Place::Modulus(0).copied()?;
    let row = single(alloc, value)?;
    Ok(partition_of(&place, &row, n))
}

#[test]
fn partitions(rt: HostRuntime) -> Result<(), Fail> {
    let alloc = rt.alloc();
    for k in 0..256_u32 {
        assert_eq!(rt; hashed(alloc, Value::Int(i64::from(k)), 4)?, 3 * k % 4);
    }
    assert_eq!(rt; hashed(alloc, Value::Null, 1000)?, 455);
    assert_eq!(rt; hashed(alloc, Value::Int(-1), 1000)?, 604);
    assert_eq!(rt; hashed(alloc, Value::UInt(1), 1000)?, 402);
    assert_eq!(rt; hashed(alloc, Value::Dec(-12345), 1000)?, 962);
    assert_eq!(rt;
        hashed(
            alloc,
            Value::Text(Bytes::from_vec(b"ab".to_vec(alloc)?)),
            1000
        )?,
        998
    );
    assert_eq!(rt; hashed(alloc, Value::Date(-1), 1000)?, 980);
    assert_eq!(rt; remaining(alloc, Value::Int(-7), 4)?, 1);
    assert_eq!(rt; remaining(alloc, Value::Int(i64::MIN), 3)?, 1);
    assert_eq!(rt; remaining(alloc, Value::UInt(u64::MAX), 10)?, 5);
    assert_eq!(rt; remaining(alloc, Value::Null, 4)?, 0);
    Ok(())
}
