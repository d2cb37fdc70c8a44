ghost use Rattle.std.specs.Prelude.{◌≡◌, ◌++◌, All, IfOk, OnOk};
ghost use Rattle.std.specs.List.{flat_map};
ghost use Rattle.ds_value.specs.Canonical.{canonical_bytes, IsShort};
ghost use Rattle.ds_schema.specs.Rows.{val};
ghost use Rattle.op_base.specs.Columns.{no_row};
ghost use Rattle.op_base.specs.Emits.{Adds};
ghost use Rattle.op_lookup.specs.Looked.{missing_fault};
ghost use Rattle.op_lookup.specs.Table.{if_missing};

use ds_schema::Row;
use ds_value::{Bytes, Copied, NoMemory, Value, canonical};
use op_base::{Emit, Fault, FaultKind, Missing};
use std::alloc::Global;

/// The bytes that a fault keeps.
const KEPT: usize = 64;

/// A row followed by the values of another.
pub fn with_values(row: Row, more: &Row) -> Result<Row, NoMemory>
    ensures { IfOk result (λ whole. whole ≡ row ++ more.now) }
{
    let mut values = row.into_vec();
    for value in more.as_slice() {
        values.push(value.copied()?)?;
    }
    Ok(Row::from_vec(values))
}

/// A row followed by a null for each of some columns.
fn with_nulls(row: Row, cols: &[u32]) -> Result<Row, NoMemory>
    ensures { IfOk result (λ whole. whole ≡ row ++ val cols.now no_row) }
{
    let mut values = row.into_vec();
    for _col in cols {
        values.push(Value::Null)?;
    }
    Ok(Row::from_vec(values))
}

/// The canonical bytes of a row.
fn row_bytes(alloc: Global, row: &Row) -> Result<Bytes, NoMemory>
    requires { All IsShort row.now }
    ensures { IfOk result (λ bytes. bytes ≡ flat_map canonical_bytes row.now) }
{
    let mut bytes = Bytes::new(alloc);
    for value in row.as_slice() {
        canonical(alloc, value, &mut bytes)?;
    }
    Ok(bytes)
}

fn missing_fault(alloc: Global, row: &Row) -> Result<Fault, NoMemory>
    requires { All IsShort row.now }
    ensures { IfOk result (λ fault. fault ≡ missing_fault row.now) }
{
    let mut bytes = row_bytes(alloc, row)?;
    bytes.truncate(KEPT);
    Ok(Fault {
        op: 0,
        kind: FaultKind::Missing,
        place: 0,
        bytes,
    })
}

/// Does with a main row what is to be done where its key has no reference row.
pub fn send_missing(
    alloc: Global,
    missing: Missing,
    others: &[u32],
    row: Row,
    emit: &mut Emit,
) -> Result<(), NoMemory>
    requires { All IsShort row }
    ensures { OnOk result (Adds emit.old emit.new (if_missing missing others.now row)) }
{
    match missing {
        Missing::Continue => {
            emit.send(0, with_nulls(row, others)?)?;
            Ok(())
        }
        Missing::Drop => Ok(()),
        Missing::Fail => {
            emit.fault(missing_fault(alloc, &row)?);
            Ok(())
        }
        Missing::Reject => {
            emit.send(1, row)?;
            Ok(())
        }
    }
}
