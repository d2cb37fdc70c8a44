//! The lists of partitions, by port and by output.

ghost use Rattle.std.specs.Prelude.{◌≡◌, ◌<◌, ◌∷◌, ◌++◌, [], ℕ, OnOk, IfOk, get_or, length, map};
ghost use Rattle.std.specs.List.{range_with_len};
ghost use Rattle.flow_graph.specs.Runs.{slice};
ghost use Rattle.list_run.specs.Made.{degree_of};
ghost use Rattle.list_run.specs.Worked.{AreWithin, TakesPartition, sent_to};

use crate::held::take_at;
use crate::lanes::{Partitions, empty_lists, put_row};
use ds_schema::Row;
use ds_value::{Items, NoMemory};
use op_base::Sent;
use std::alloc::Global;

/// Puts each row behind those of its output.
fn split(sent: Items<Sent>, lists: &mut Vec<Items<Row>>) -> Result<(), NoMemory>
    requires { AreWithin (length lists.old.items) sent }
    ensures count { OnOk result (length lists.new.items ≡ length lists.old.items) }
    ensures each { OnOk result ((q : ℕ) → q < length lists.old.items → get_or lists.new.items q [] ≡ get_or lists.old.items q [] ++ sent_to q sent) }
{
    for one in sent.into_vec() {
        put_row(lists, one.port, one.row)?;
    }
    Ok(())
}

/// Puts each list behind the partitions of its output.
fn add_partition(
    alloc: Global,
    lists: Vec<Items<Row>>,
    outs: &mut Vec<Partitions>,
) -> Result<(), NoMemory>
    ensures count { OnOk result (length outs.new.items ≡ length outs.old.items) }
    ensures each { OnOk result ((q : ℕ) → q < length outs.old.items → get_or outs.new.items q [] ≡ get_or outs.old.items q [] ++ get_or lists.items q [] ∷ []) }
{
    let mut lists = lists;
    for at in 0..outs.len() {
        let rows = take_at(alloc, &mut lists, at);
        outs[at].push(rows)?;
    }
    Ok(())
}

/// Puts what was sent of a partition behind the partitions before it, by output.
pub(crate) fn take_partition(
    alloc: Global,
    sent: Items<Sent>,
    outs: &mut Vec<Partitions>,
) -> Result<(), NoMemory>
    requires { AreWithin (length outs.old.items) sent }
    ensures { OnOk result (TakesPartition sent outs.old.items outs.new.items) }
{
    let mut lists = empty_lists(alloc, outs.len())?;
    split(sent, &mut lists)?;
    add_partition(alloc, lists, outs)?;
    Ok(())
}

/// As many partitions as input 0 has.
fn degree_of(inputs: &[Partitions]) -> usize
    ensures { result ≡ degree_of inputs.now }
{
    match inputs.first() {
        Some(lists) => lists.as_slice().len(),
        None => 0,
    }
}

/// By partition, its lists by port.
pub(crate) fn by_partition(
    alloc: Global,
    inputs: Vec<Partitions>,
) -> Result<Vec<Partitions>, NoMemory>
    ensures { IfOk result (λ slices. slices.items ≡ map (λ p. slice p inputs.items) (range_with_len 0 (degree_of inputs.items))) }
{
    let mut slices = empty_lists(alloc, degree_of(inputs.as_slice()))?;
    for lists in inputs {
        add_partition(alloc, lists.into_vec(), &mut slices)?;
    }
    Ok(slices)
}
