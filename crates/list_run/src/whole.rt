//! An operator with one port, over all rows of a partition.

ghost use Rattle.std.specs.Prelude.{◌≡◌, ◌++◌, ◌∷◌, [], true, List, OnOk, IfOk, map};
ghost use Rattle.streams.specs.Streams.{Feed, Out, Gives, emits, rows_out};
ghost use Rattle.op_base.specs.declared.fault.Fault.{Fault as AnyFault};
ghost use Rattle.op_base.specs.Columns.{Row as Cells};
ghost use Rattle.op_base.specs.Emits.{Adds, rows_sent};
ghost use Rattle.list_run.specs.Fed.{IsOnePort, row_feeds, sent_rows};

use ds_schema::Row;
use ds_value::{Items, NoMemory};
use op_base::{Emit, Operator, Sent};
use std::alloc::Global;

fn feed_all<O: Operator>(op: &mut O, rows: Items<Row>, emit: &mut Emit) -> Result<(), NoMemory>
    requires fresh { O.Stands op.old [] }
    requires one { IsOnePort (O.stream op.old) }
    requires suits { (feeds : List (Feed Cells)) → O.suits op.old feeds ≡ true }
    ensures stream { OnOk result (O.stream op.new ≡ O.stream op.old) }
    ensures suits { OnOk result (O.suits op.new ≡ O.suits op.old) }
    ensures stands { OnOk result (O.Stands op.new (row_feeds rows)) }
    ensures emits { OnOk result (Adds emit.old emit.new (emits (O.stream op.old) (row_feeds rows))) }
{
    for row in rows.into_vec() {
        op.feed(0, row, emit)?;
    }
    Ok(())
}

/// The rows that were sent, on whichever output.
fn into_rows(alloc: Global, sent: Items<Sent>) -> Result<Items<Row>, NoMemory>
    ensures { IfOk result (λ rows. rows ≡ sent_rows sent) }
{
    let mut rows = Items::new(alloc);
    for one in sent.into_vec() {
        rows.push(one.row)?;
    }
    Ok(rows)
}

/// What the operator gives of all rows.
pub(crate) fn run_whole<O: Operator + Drop>(
    alloc: Global,
    op: O,
    rows: Items<Row>,
) -> Result<Items<Row>, NoMemory>
    requires fresh { O.Stands op [] }
    requires one { IsOnePort (O.stream op) }
    requires suits { (feeds : List (Feed Cells)) → O.suits op feeds ≡ true }
    ensures { IfOk result (λ given. (outs : List (Out Cells AnyFault)) × Gives (O.stream op) (λ i. rows) outs × (given ≡ rows_out outs)) }
{
    let mut op = op;
    let mut emit = Emit::new(alloc);
    feed_all(&mut op, rows, &mut emit)?;
    op.end(0, &mut emit)?;
    op.finish(&mut emit)?;
    let given = into_rows(alloc, emit.sent)?;
    Ok(given)
}
