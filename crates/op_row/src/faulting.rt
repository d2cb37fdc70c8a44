ghost use Rattle.std.specs.Prelude.{◌≡◌, ◌≢◌, true, All, IfOk};
ghost use Rattle.std.specs.List.{flat_map, AllByRecursion};
ghost use Rattle.ds_value.specs.Canonical.{canonical_bytes, IsShort};
ghost use Rattle.ds_schema.specs.Schemas.{IsField, row_fits};
ghost use Rattle.expr_table.specs.declared.arg.EvalFault.TheVariants as eval;
ghost use Rattle.op_row.specs.Judging.{fault_kind, row_fault};

use ds_expr::EvalFault;
use ds_schema::{Field, Row};
use ds_value::{Bytes, NoMemory, canonical};
use op_base::{Fault, FaultKind};
use std::alloc::Global;

/// The bytes that a fault keeps.
const KEPT: usize = 64;

/// The kind of a fault. Want of memory has none.
pub fn kind_of(why: EvalFault) -> Result<FaultKind, NoMemory>
    ensures kind { IfOk result (λ kind. kind ≡ fault_kind why) }
    ensures no_memory { IfOk result (λ kind. why ≢ eval.Memory) }
{
    match why {
        EvalFault::Overflow => Ok(FaultKind::Overflow),
        EvalFault::ZeroDivisor => Ok(FaultKind::ZeroDivisor),
        EvalFault::NullUsed => Ok(FaultKind::NullUsed),
        EvalFault::TooLong => Ok(FaultKind::TooLong),
        EvalFault::Memory => Err(NoMemory),
    }
}

/// The canonical bytes of a row.
fn row_bytes(alloc: Global, row: &Row) -> Result<Bytes, NoMemory>
    requires { All IsShort row.now }
    ensures { IfOk result (λ bytes. bytes ≡ flat_map canonical_bytes row.now) }
{
    let mut bytes = Bytes::new(alloc);
    for value in row.as_slice() {
        canonical(alloc, value, &mut bytes)?;
    }
    Ok(bytes)
}

/// The fault of a row on which an expression has no value.
#[tactic(auto, using(crate::proofs::Short::row_is_short))]
pub fn row_fault(
    alloc: Global,
    fields: &[Field],
    kind: FaultKind,
    row: &Row,
) -> Result<Fault, NoMemory>
    requires fields { AllByRecursion IsField fields.now }
    requires fits { row_fits fields.now row.now ≡ true }
    ensures { IfOk result (λ fault. fault ≡ row_fault kind row.now) }
{
    let mut bytes = row_bytes(alloc, row)?;
    bytes.truncate(KEPT);
    Ok(Fault {
        op: 0,
        kind,
        place: 0,
        bytes,
    })
}
