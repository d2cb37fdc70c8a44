ghost use Rattle.std.specs.Prelude.{◌≡◌, ◌++◌, [], IfOk, OnOk};
ghost use Rattle.op_chain.specs.InTurn.{handed_rows, elsewhere};

use ds_schema::Row;
use ds_value::{Items, NoMemory};
use op_base::{Emit, Sent};
use std::alloc::Global;
use std::mem;

/// Takes the rows out of what was emitted; the faults stay.
pub(crate) fn set_aside(emit: &mut Emit) -> Items<Sent>
    ensures rows { result ≡ emit.old.sent }
    ensures none { emit.new.sent ≡ [] }
    ensures faults { emit.new.faults ≡ emit.old.faults }
    ensures least { emit.new.least ≡ emit.old.least }
{
    let none = Items::new(emit.sent.allocator());
    mem::replace(&mut emit.sent, none)
}

/// The rows of output 0. The others are put behind what was emitted before.
fn part(alloc: Global, sent: Vec<Sent>, before: &mut Items<Sent>) -> Result<Vec<Row>, NoMemory>
    ensures rows { IfOk result (λ rows. rows.items ≡ handed_rows sent.items) }
    ensures others { OnOk result (before.new ≡ before.old ++ elsewhere sent.items) }
{
    let mut rows = Vec::new(alloc);
    for it in sent {
        if it.port == 0 {
            rows.push(it.row)?;
        } else {
            before.push(it)?;
        }
    }
    Ok(rows)
}

/// Takes the rows of output 0 out of what was emitted, and puts the others behind what was emitted before.
pub(crate) fn take_handed(before: Items<Sent>, emit: &mut Emit) -> Result<Vec<Row>, NoMemory>
    ensures rows { IfOk result (λ rows. rows.items ≡ handed_rows emit.old.sent) }
    ensures others { OnOk result (emit.new.sent ≡ before ++ elsewhere emit.old.sent) }
    ensures faults { OnOk result (emit.new.faults ≡ emit.old.faults) }
    ensures least { OnOk result (emit.new.least ≡ emit.old.least) }
{
    let mut before = before;
    let alloc = before.allocator();
    let sent = set_aside(emit);
    let rows = part(alloc, sent.into_vec(), &mut before)?;
    emit.sent = before;
    Ok(rows)
}
