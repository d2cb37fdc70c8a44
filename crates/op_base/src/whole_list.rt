ghost use Rattle.std.specs.Prelude.{◌≡◌, [], OnOk, IfOk};
ghost use Rattle.streams.specs.Streams.{Gives, emits};
ghost use Rattle.op_base.specs.Emits.{Adds};
ghost use Rattle.op_base.specs.WholeLists.{row_feeds, list_feeds, SuitsEach, HasEmitted};

use crate::{Emit, Operator};
use ds_schema::Row;
use ds_value::NoMemory;
use std::alloc::Global;

fn feed_rows<O: Operator>(op: &mut O, rows: Vec<Row>, emit: &mut Emit) -> Result<(), NoMemory>
    requires stands { O.Stands op.old [] }
    requires one { (O.stream op.old).ports ≡ 1 }
    requires suits { SuitsEach (O.suits op.old) [] (list_feeds rows.items) }
    ensures stream { OnOk result (O.stream op.new ≡ O.stream op.old) }
    ensures suits { OnOk result (O.suits op.new ≡ O.suits op.old) }
    ensures stands { OnOk result (O.Stands op.new (row_feeds rows.items)) }
    ensures emits { OnOk result (Adds emit.old emit.new (emits (O.stream op.old) (row_feeds rows.items))) }
{
    for row in rows {
        op.feed(0, row, emit)?;
    }
    Ok(())
}

/// What an operator of one input emits for a list of rows and its end. The operator was fed
/// nothing before, and isn't fed again.
pub fn run_list<O: Operator>(alloc: Global, op: &mut O, rows: Vec<Row>) -> Result<Emit, NoMemory>
    requires stands { O.Stands op.old [] }
    requires one { (O.stream op.old).ports ≡ 1 }
    requires suits { SuitsEach (O.suits op.old) [] (list_feeds rows.items) }
    ensures emitted { IfOk result (λ emit. HasEmitted emit (emits (O.stream op.old) (list_feeds rows.items))) }
    ensures gives { OnOk result (Gives (O.stream op.old) (λ _. rows.items) (emits (O.stream op.old) (list_feeds rows.items))) }
{
    let mut emit = Emit::new(alloc);
    feed_rows(op, rows, &mut emit)?;
    op.end(0, &mut emit)?;
    op.finish(&mut emit)?;
    Ok(emit)
}
