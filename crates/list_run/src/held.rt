//! The lists that wait on their way through a flow.

ghost use Rattle.std.specs.Prelude.{◌≡◌, ◌<◌, [], length, get_or, set, IfOk};

use crate::lanes::{Partitions, empty_lists};
use crate::tally::Tally;
use ds_value::{Items, NoMemory};
use std::alloc::Global;
use std::mem;

/// By link, what waits for its consumer, and how many rows were put on it; by operator, what came
/// at an export; and the faults of the operators between imports
/// and exports.
#[derive(Drop)]
pub(crate) struct Held {
    pub waiting: Vec<Partitions>,
    pub counts: Vec<u64>,
    pub sinks: Vec<Partitions>,
    pub tally: Tally,
}

fn no_counts(alloc: Global, count: usize) -> Result<Vec<u64>, NoMemory>
    ensures { IfOk result (λ counts. length counts.items ≡ count) }
{
    let mut counts = Vec::with_capacity(alloc, count)?;
    for _ in 0..count {
        counts.push(0)?;
    }
    Ok(counts)
}

impl Held {
    ghost use Rattle.std.specs.Prelude.{IfOk};
    ghost use Rattle.list_run.specs.Found.{Tallies};

    /// Nothing is held yet.
    pub fn new(alloc: Global, links: usize, ops: usize) -> Result<Held, NoMemory>
        ensures waiting { IfOk result (λ held. length held.waiting.items ≡ links) }
        ensures counts { IfOk result (λ held. length held.counts.items ≡ links) }
        ensures sinks { IfOk result (λ held. length held.sinks.items ≡ ops) }
        ensures tally { IfOk result (λ held. Tallies [] held.tally) }
    {
        Ok(Held {
            waiting: empty_lists(alloc, links)?,
            counts: no_counts(alloc, links)?,
            sinks: empty_lists(alloc, ops)?,
            tally: Tally::new(),
        })
    }
}

/// Takes a list out of its place.
pub(crate) fn take_at<T: Drop>(alloc: Global, lists: &mut Vec<Items<T>>, at: usize) -> Items<T>
    ensures list { result ≡ get_or lists.old.items at [] }
    ensures rest { lists.new.items ≡ set lists.old.items at [] }
{
    if at < lists.len() {
        mem::replace(&mut lists[at], Items::new(alloc))
    } else {
        Items::new(alloc)
    }
}
