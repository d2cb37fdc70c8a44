ghost use Rattle.std.specs.Prelude.{◌≡◌, ◌++◌, true, All, IfOk, OnOk, take};
ghost use Rattle.std.specs.List.{AllByRecursion, flat_map};
ghost use Rattle.ds_value.specs.Canonical.{canonical_bytes, IsShort};
ghost use Rattle.ds_schema.specs.Schemas.{IsField, row_fits};
ghost use Rattle.flow_files.specs.Lines.{bad_record, file_too_long, line_row};
ghost use Rattle.flow_files.specs.Texts.{unwritable};

use ds_port::DeviceFault;
use ds_schema::{Field, Row};
use ds_value::{Bytes, NoMemory, Value, canonical};
use op_base::{Fault, FaultKind};
use std::alloc::Global;

/// Why a file wasn't read or written to its end.
#[derive(Clone, Copy, Debug, PartialEq, Eq)]
pub enum FileFault {
    Device,
    Memory,
}

impl From<DeviceFault> for FileFault {
    ghost use Rattle.flow_files.specs.declared.fault.FileFault.TheVariants as fault;

    ghost from_gives = { λ _ made. made ≡ fault.Device };

    fn from(_: DeviceFault) -> Self {
        FileFault::Device
    }
}

impl From<NoMemory> for FileFault {
    ghost use Rattle.flow_files.specs.declared.fault.FileFault.TheVariants as fault;

    ghost from_gives = { λ _ made. made ≡ fault.Memory };

    fn from(_: NoMemory) -> Self {
        FileFault::Memory
    }
}

/// The bytes that a fault keeps.
const KEPT: usize = 64;

/// The fault of a line that spells no row.
#[tactic(auto, using(std::proofs::lemmas::List::take_min))]
pub fn bad_record(alloc: Global, op: u32, number: u64, line: &[u8]) -> Result<Fault, NoMemory>
    ensures { IfOk result (λ fault. fault ≡ bad_record op number line.now) }
{
    let mut bytes = Bytes::new(alloc);
    bytes.append(&line[..KEPT.min(line.len())])?;
    Ok(Fault {
        op,
        kind: FaultKind::BadRecord,
        place: number,
        bytes,
    })
}

/// The bytes that the row of a bad line keeps.
const KEPT_IN_ROW: usize = 65_536;

/// The row of a line that spells no row.
#[tactic(auto, using(std::proofs::lemmas::List::take_min))]
pub fn line_row(alloc: Global, line: &[u8]) -> Result<Row, NoMemory>
    ensures { IfOk result (λ row. row ≡ line_row line.now) }
{
    let mut bytes = Bytes::new(alloc);
    bytes.append(&line[..KEPT_IN_ROW.min(line.len())])?;
    Ok(Row::from_vec(vec![in alloc; Value::Text(bytes)]?))
}

/// The fault of a file that is too long.
pub fn file_too_long(alloc: Global, op: u32) -> Fault
    ensures { result ≡ file_too_long op }
{
    Fault {
        op,
        kind: FaultKind::FileTooLong,
        place: 0,
        bytes: Bytes::new(alloc),
    }
}

/// The canonical bytes of a row.
fn row_bytes(alloc: Global, row: &Row) -> Result<Bytes, NoMemory>
    requires { All IsShort row.now }
    ensures { IfOk result (λ bytes. bytes ≡ flat_map canonical_bytes row.now) }
{
    let mut bytes = Bytes::new(alloc);
    for value in row.as_slice() {
        canonical(alloc, value, &mut bytes)?;
    }
    Ok(bytes)
}

/// The fault of a row that can't be written.
#[tactic(auto, using(crate::proofs::Rows::row_is_short))]
pub fn unwritable(alloc: Global, op: u32, fields: &[Field], row: &Row) -> Result<Fault, NoMemory>
    requires fields { AllByRecursion IsField fields.now }
    requires fits { row_fits fields.now row.now ≡ true }
    ensures { IfOk result (λ fault. fault ≡ unwritable op row.now) }
{
    let mut bytes = row_bytes(alloc, row)?;
    bytes.truncate(KEPT);
    Ok(Fault {
        op,
        kind: FaultKind::Unwritable,
        place: 0,
        bytes,
    })
}
