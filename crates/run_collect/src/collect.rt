ghost use Rattle.std.specs.Prelude.{◌≡◌, ◌<◌, ◌^◌, length, map, IfOk};
ghost use Rattle.ds_schema.specs.Rows.{row_cmp};
ghost use Rattle.op_base.specs.Lists.{in_turn};
ghost use Rattle.op_base.specs.declared.emit.Sent.{Sent as SentRow};
ghost use Rattle.op_collect.specs.Merged.{merged};

use ds_schema::{KeyList, Row};
use ds_value::{Items, NoMemory};
use op_base::Sent;
use op_collect::{round, sort_merge};
use run_ports::run_ports;
use std::alloc::Global;

/// The rows that were sent, whatever the outputs.
fn rows_of(alloc: Global, sent: Items<Sent>) -> Result<Items<Row>, NoMemory>
    ensures { IfOk result (λ rows. rows ≡ map (λ (s : SentRow). s.row) sent) }
{
    let mut rows = Items::new(alloc);
    for sent in sent.into_vec() {
        rows.push(sent.row)?;
    }
    Ok(rows)
}

/// The merge of lists by keys: always the least first row, a tie to the first list that has it.
pub fn merge_lists(
    alloc: Global,
    keys: KeyList,
    lists: Items<Items<Row>>,
) -> Result<Items<Row>, NoMemory>
    requires some { 0 < length lists }
    requires few { length lists < 2 ^ 32 }
    ensures { IfOk result (λ rows. rows ≡ merged (row_cmp keys) lists) }
{
    let lists = lists.into_vec();
    let mut op = sort_merge(alloc, lists.len() as u32, keys)?;
    let emit = run_ports(alloc, &mut op, lists)?;
    rows_of(alloc, emit.sent)
}

/// One row of each list in turn; a list that has ended is passed over.
pub fn take_turns(alloc: Global, lists: Items<Items<Row>>) -> Result<Items<Row>, NoMemory>
    requires some { 0 < length lists }
    requires few { length lists < 2 ^ 32 }
    ensures { IfOk result (λ rows. rows ≡ in_turn lists) }
{
    let lists = lists.into_vec();
    let mut op = round(alloc, lists.len() as u32)?;
    let emit = run_ports(alloc, &mut op, lists)?;
    rows_of(alloc, emit.sent)
}
