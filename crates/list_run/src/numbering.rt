//! Faults with their operator's number, and the lesser of them.

ghost use Rattle.std.specs.Prelude.{◌≡◌, ◌++◌, List, Some, None};
ghost use Rattle.op_base.specs.declared.fault.Fault.{Fault as Wrong};
ghost use Rattle.op_base.specs.Emits.{least_of, lesser};
ghost use Rattle.flow_graph.specs.RowRules.{at_op};
ghost use Rattle.list_run.specs.Found.{at_op_if};

use op_base::{Fault, fault_cmp};

/// The fault with the number of its operator.
fn numbered(op: u32, fault: Fault) -> Fault
    ensures { result ≡ at_op op fault }
{
    Fault {
        op,
        kind: fault.kind,
        place: fault.place,
        bytes: fault.bytes,
    }
}

pub(crate) fn numbered_if(op: u32, fault: Option<Fault>) -> Option<Fault>
    ensures { result ≡ at_op_if op fault }
{
    match fault {
        None => None,
        Some(fault) => Some(numbered(op, fault)),
    }
}

/// The lesser of two faults.
fn lesser(a: Fault, b: Fault) -> Fault
    ensures { result ≡ lesser (Some a) b }
{
    if fault_cmp(&b, &a).is_lt() { b } else { a }
}

/// The least of some faults and of others.
#[tactic(auto, using(crate::proofs::Leasts::least_left, crate::proofs::Leasts::least_right, crate::proofs::Leasts::least_both))]
pub(crate) fn least_of_both(a: Option<Fault>, b: Option<Fault>) -> Option<Fault>
    ensures { (fs gs : List Wrong) → a ≡ least_of None fs → b ≡ least_of None gs → result ≡ least_of None (fs ++ gs) }
{
    match (a, b) {
        (None, b) => b,
        (a, None) => a,
        (Some(a), Some(b)) => Some(lesser(a, b)),
    }
}
