ghost use Rattle.std.specs.Prelude.{◌≡◌, IfOk};
ghost use Rattle.op_base.specs.Faults.{fault_cmp, kind_number};

use ds_value::{Bytes, Copied, NoMemory};
use std::cmp::Ordering;

/// What is wrong with a record, in the order in which kinds of faults are compared.
#[derive(Clone, Copy, Debug, PartialEq, Eq)]
pub enum FaultKind {
    BadRecord,
    Overflow,
    ZeroDivisor,
    NullUsed,
    TooLong,
    Missing,
    Unwritable,
    BadBlock,
    Misplaced,
    CountWrong,
    FileTooLong,
}

/// A fault of the operator with the number `op`: where in the input it is, and the first
/// 64 of the bytes that show it.
#[derive(Debug, Drop)]
pub struct Fault {
    pub op: u32,
    pub kind: FaultKind,
    pub place: u64,
    pub bytes: Bytes,
}

impl Copied for Fault {
    fn copied(&self) -> Result<Fault, NoMemory> {
        Ok(Fault {
            op: self.op,
            kind: self.kind,
            place: self.place,
            bytes: self.bytes.copied()?,
        })
    }
}

fn kind_number(kind: FaultKind) -> u8
    ensures { result ≡ kind_number kind }
{
    match kind {
        FaultKind::BadRecord => 0,
        FaultKind::Overflow => 1,
        FaultKind::ZeroDivisor => 2,
        FaultKind::NullUsed => 3,
        FaultKind::TooLong => 4,
        FaultKind::Missing => 5,
        FaultKind::Unwritable => 6,
        FaultKind::BadBlock => 7,
        FaultKind::Misplaced => 8,
        FaultKind::CountWrong => 9,
        FaultKind::FileTooLong => 10,
    }
}

/// The order of faults: by operator, then by kind, place and bytes.
pub fn fault_cmp(a: &Fault, b: &Fault) -> Ordering
    ensures { result ≡ fault_cmp a.now b.now }
{
    a.op.cmp(&b.op)
        .then(kind_number(a.kind).cmp(&kind_number(b.kind)))
        .then(a.place.cmp(&b.place))
        .then(a.bytes.as_slice().cmp(b.bytes.as_slice()))
}
