ghost use Rattle.std.specs.Prelude.{◌≡◌, List, OnOk};
ghost use Rattle.streams.specs.Streams.{Feed, all_ended};
ghost use Rattle.op_base.specs.Columns.{Row as Cells};
ghost use Rattle.op_base.specs.WholeLists.{row_feeds};
ghost use Rattle.op_chain.specs.InTurn.{handed_feeds, MayHandOn, StepsBy, EmitsAll};

use ds_schema::Row;
use ds_value::NoMemory;
use op_base::{Emit, Operator, Want};

fn feed_rows<O: Operator>(op: &mut O, rows: Vec<Row>, emit: &mut Emit) -> Result<(), NoMemory>
    requires { MayHandOn (O.stream op.old) (O.suits op.old) (O.Stands op.old) (row_feeds rows.items) }
    ensures stream { OnOk result (O.stream op.new ≡ O.stream op.old) }
    ensures suits { OnOk result (O.suits op.new ≡ O.suits op.old) }
    ensures stands { OnOk result (StepsBy (O.Stands op.old) (O.Stands op.new) (row_feeds rows.items)) }
    ensures emits { OnOk result (EmitsAll (O.stream op.old) (O.Stands op.old) (row_feeds rows.items) emit.old emit.new) }
{
    for row in rows {
        op.feed(0, row, emit)?;
    }
    Ok(())
}

/// Feeds an operator of one port these rows, and the end where it is over.
pub(crate) fn feed_along<O: Operator>(
    op: &mut O,
    rows: Vec<Row>,
    over: bool,
    emit: &mut Emit,
) -> Result<(), NoMemory>
    requires { MayHandOn (O.stream op.old) (O.suits op.old) (O.Stands op.old) (handed_feeds rows.items over) }
    ensures stream { OnOk result (O.stream op.new ≡ O.stream op.old) }
    ensures suits { OnOk result (O.suits op.new ≡ O.suits op.old) }
    ensures stands { OnOk result (StepsBy (O.Stands op.old) (O.Stands op.new) (handed_feeds rows.items over)) }
    ensures emits { OnOk result (EmitsAll (O.stream op.old) (O.Stands op.old) (handed_feeds rows.items over) emit.old emit.new) }
{
    feed_rows(op, rows, emit)?;
    if !over {
        return Ok(());
    }
    op.end(0, emit)?;
    Ok(())
}

/// Whether all its ports have ended.
pub(crate) fn is_over<O: Operator>(op: &O) -> bool
    ensures { (feeds : List (Feed Cells)) → O.Stands op.now feeds → result ≡ all_ended (O.stream op.now) feeds }
{
    match op.wants() {
        Want::Nothing => true,
        Want::Any => false,
        Want::Port(_) => false,
    }
}
