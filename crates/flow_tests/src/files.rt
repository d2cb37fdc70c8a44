ghost use Rattle.std.specs.Prelude.{IfOk};
ghost use Rattle.ds_text.specs.Forms.{FormFits};

use ds_port::{FailsAt, Failures, MemSink, MemSource, NeverFails};
use ds_schema::{Schema, read_schema};
use ds_text::{Form, form_fits};
use ds_value::Items;
use flow_files::{FileFault, Tally, export_rows, import_rows};
use op_base::{Fault, FaultKind};
use std::alloc::Global;
use std::test::Fail;

/// A file of `a: int32; b: nullable string[max=4]` with commas, what is written of its rows in
/// columns of 2 and 3 bytes, the number of faults, and the least fault.
static FILES: [(&[u8], &[u8], u64, Option<(u32, FaultKind, u64)>, &[u8]); 8] = [
    (b"", b"", 0, None, b""),
    (b"1,ab\n2,\r\n3,c", b" 1ab \n 2   \n 3c  \n", 0, None, b""),
    (
        b"1,ab\nx,cd\n2,efg\n",
        b" 1ab \n 2efg\n",
        1,
        Some((4, FaultKind::BadRecord, 2)),
        b"x,cd",
    ),
    (
        b"\n1,ab\n1\n",
        b" 1ab \n",
        2,
        Some((4, FaultKind::BadRecord, 1)),
        b"",
    ),
    (
        b"7,abcd\n8,a\n",
        b" 8a  \n",
        1,
        Some((9, FaultKind::Unwritable, 0)),
        b"\x01\0\0\0\0\0\0\0\x07\x04\0\0\0\x04abcd",
    ),
    (
        b"-10,\n200,\n5,\n",
        b" 5   \n",
        2,
        Some((9, FaultKind::Unwritable, 0)),
        b"\x01\0\0\0\0\0\0\0\xc8\0",
    ),
    (
        b"7,abcd\n8,abcde\n8,b",
        b" 8b  \n",
        2,
        Some((4, FaultKind::BadRecord, 2)),
        b"8,abcde",
    ),
    (
        b"1,0123456789012345678901234567890123456789012345678901234567890123456789\n",
        b"",
        1,
        Some((4, FaultKind::BadRecord, 1)),
        b"1,01234567890123456789012345678901234567890123456789012345678901",
    ),
];

/// The schema of the files, and the forms in which they are read and written.
#[derive(Drop)]
struct Ways {
    schema: Schema,
    commas: Form,
    columns: Form,
}

fn two_forms(alloc: Global) -> Result<Ways, Fail>
    ensures commas { IfOk result (λ w. FormFits w.schema w.commas) }
    ensures columns { IfOk result (λ w. FormFits w.schema w.columns) }
{
    let schema = read_schema(alloc, b"record ( a: int32; b: nullable string[max=4]; )")?;
    let commas = Form::Delimited(b',');
    let columns = Form::Fixed(Items::from_vec(vec![in alloc; 2, 3]?));
    if !form_fits(&schema, &commas) || !form_fits(&schema, &columns) {
        return Err(Fail::from("no form"));
    }
    Ok(Ways {
        schema,
        commas,
        columns,
    })
}

/// Imports a file with the operator 4, and exports its rows with the operator 9.
fn carry<P: Failures, Q: Failures>(
    alloc: Global,
    ways: &Ways,
    source: MemSource<P>,
    sink: &mut MemSink<Q>,
) -> Result<Tally, FileFault>
    requires commas { FormFits ways.now.schema ways.now.commas }
    requires columns { FormFits ways.now.schema ways.now.columns }
{
    let mut tally = Tally::new();
    let (_source, made) = import_rows(
        alloc,
        4,
        false,
        &ways.schema,
        &ways.commas,
        source,
        &mut tally,
    );
    export_rows(
        alloc,
        9,
        &ways.schema,
        &ways.columns,
        made?.rows.as_slice(),
        sink,
        &mut tally,
    )?;
    Ok(tally)
}

/// Whether the least fault is this one.
fn is_least(least: &Option<Fault>, wanted: Option<(u32, FaultKind, u64)>, bytes: &[u8]) -> bool {
    match least {
        None => wanted.is_none(),
        Some(fault) => {
            wanted == Some((fault.op, fault.kind, fault.place)) && fault.bytes.as_slice() == bytes
        }
    }
}

#[test]
fn files_become_rows_and_rows_files(rt: HostRuntime) -> Result<(), Fail> {
    let alloc = rt.alloc();
    let ways = two_forms(alloc)?;
    for (text, wanted, faults, least, bytes) in &FILES {
        let source = MemSource::new(text.to_vec(alloc)?, NeverFails);
        let mut sink = MemSink::new(alloc, None, NeverFails);
        let tally = carry(alloc, &ways, source, &mut sink)?;
        assert!(rt;
            sink.bytes() == *wanted && tally.faults == *faults,
            "{text:?}"
        );
        assert!(rt; is_least(&tally.least, *least, bytes), "{text:?}");
    }
    Ok(())
}

/// Whether a read or a write that fails at this number stops both, and nothing is written.
fn is_stopped(alloc: Global, ways: &Ways, read: u64, written: u64) -> Result<bool, Fail>
    requires commas { FormFits ways.now.schema ways.now.commas }
    requires columns { FormFits ways.now.schema ways.now.columns }
{
    let failing = FailsAt::new(vec![in alloc; read]?);
    let source = MemSource::new(b"1,a\n".to_vec(alloc)?, failing);
    let mut sink = MemSink::new(alloc, None, FailsAt::new(vec![in alloc; written]?));
    let carried = carry(alloc, ways, source, &mut sink);
    Ok(
        matches!(carried, Err(FileFault::Device))
            && sink.bytes().is_empty()
            && sink.has_failed() == (written == 0),
    )
}

#[test]
fn a_failing_device_stops_both(rt: HostRuntime) -> Result<(), Fail> {
    let alloc = rt.alloc();
    let ways = two_forms(alloc)?;
    assert!(rt; is_stopped(alloc, &ways, 0, 9)?);
    assert!(rt; is_stopped(alloc, &ways, 1, 9)?);
    assert!(rt; is_stopped(alloc, &ways, 9, 0)?);
    Ok(())
}
