ghost use Rattle.std.specs.Prelude.{◌≡◌, ◌<◌, ℕ, true, not, map, set, option_map, Some, None, IfOk, OnOk, IfSome, IfNone, length, []};
ghost use Rattle.streams.specs.Streams.{sends};
ghost use Rattle.streams.specs.Operators.{merge_stream, Front};
ghost use Rattle.ds_schema.specs.Rows.{row_cmp};
ghost use Rattle.op_base.specs.Columns.{Row as Cells};
ghost use Rattle.op_base.specs.Emits.{Adds};
ghost use Rattle.op_collect.specs.Standing.{IsFirst};
ghost use Rattle.op_collect.specs.Merging.{asks, asks_at, rows_at, row_at, row_of, is_before, least_of, due, left_after};

use ds_schema::{KeyList, Row, compare_rows};
use ds_value::NoMemory;
use op_base::{Emit, Operator, Want};
use std::alloc::Global;
use std::mem;

/// What an input has: nothing yet, a row that waits, or no row any more.
#[derive(Debug, Drop)]
pub enum Lane {
    Empty,
    Waiting(Row),
    Over,
}

impl Lane {
    fn is_empty(&self) -> bool
        ensures { result ≡ asks self.now }
    {
        matches!(self, Lane::Empty)
    }
}

/// The least row of all inputs by the keys, a tie to the smaller input, as soon as each input
/// that hasn't ended has a row.
#[derive(Debug, Drop)]
pub struct SortMerge {
    ports: u32,
    keys: KeyList,
    lanes: Vec<Lane>,
    ghost some: { 0 < ports },
    ghost each: { length lanes.items ≡ ports },
}

/// An empty lane for each input.
fn empty_lanes(alloc: Global, ports: u32) -> Result<Vec<Lane>, NoMemory>
    ensures each { IfOk result (λ lanes. length lanes.items ≡ ports) }
    ensures empty { IfOk result (λ lanes. (i : ℕ) → i < ports → asks_at lanes.items i ≡ true) }
{
    let mut lanes = Vec::new(alloc);
    for _port in 0..ports {
        lanes.push(Lane::Empty)?;
    }
    Ok(lanes)
}

impl SortMerge {
    pub(crate) fn new(alloc: Global, ports: u32, keys: KeyList) -> Result<SortMerge, NoMemory>
        requires { 0 < ports }
        ensures stream { IfOk result (λ op. ⟦<SortMerge as Operator>⟧.stream op ≡ merge_stream ports (row_cmp keys)) }
        ensures stands { IfOk result (λ op. ⟦<SortMerge as Operator>⟧.Stands op []) }
    {
        let lanes = empty_lanes(alloc, ports)?;
        Ok(SortMerge { ports, keys, lanes })
    }

    /// The first port that has nothing.
    fn first_empty(&self) -> Option<u32>
        ensures { IsFirst (λ i. not (asks_at self.now.lanes.items i)) 0 self.now.ports result }
    {
        for port in 0..self.ports {
            if self.lanes[port as usize].is_empty() {
                return Some(port);
            }
        }
        None
    }

    /// The row that waits on a port.
    fn waiting(&self, port: u32) -> Option<&Row>
        ensures some { IfSome result (λ row. row_at self.now.lanes.items port ≡ Some row.now) }
        ensures none { IfNone result (row_at self.now.lanes.items port ≡ None) }
    {
        match self.lanes.get(port as usize) {
            Some(Lane::Waiting(row)) => Some(row),
            _ => None,
        }
    }

    /// Whether a row waits on a port that is less than the one on another, if one is named.
    fn is_less(&self, port: u32, least: Option<u32>) -> bool
        ensures { result ≡ is_before self.now.keys (row_at self.now.lanes.items port) (row_of self.now.lanes.items least) }
    {
        match self.waiting(port) {
            None => false,
            Some(row) => match least {
                None => true,
                Some(other) => match self.waiting(other) {
                    None => true,
                    Some(best) => compare_rows(&self.keys, row, best).is_lt(),
                },
            },
        }
    }

    /// The port whose row is the least of those that wait.
    fn least(&self) -> Option<u32>
        ensures port { result ≡ option_map (λ (b : Front Cells). b.port) (least_of self.now.keys self.now.lanes.items) }
        ensures within { IfSome result (λ port. port < self.now.ports) }
    {
        let mut least = None;
        for port in 0..self.ports {
            if self.is_less(port, least) {
                least = Some(port);
            }
        }
        least
    }
}

impl SortMerge {
    /// Sends the row that waits on a port.
    fn take(&mut self, port: u32, emit: &mut Emit) -> Result<(), NoMemory>
        requires { port < self.old.ports }
        ensures keys { OnOk result (self.new.keys ≡ self.old.keys) }
        ensures ports { OnOk result (self.new.ports ≡ self.old.ports) }
        ensures lanes { OnOk result (self.new.lanes.items ≡ set self.old.lanes.items port Lane.Empty) }
        ensures sent { OnOk result (Adds emit.old emit.new (map (sends 0) (rows_at self.old.lanes.items port))) }
    {
        if let Lane::Waiting(row) = mem::replace(&mut self.lanes[port as usize], Lane::Empty) {
            emit.send(0, row)?;
        }
        Ok(())
    }

    /// Sends the least row, if each port that hasn't ended has one.
    fn settle(&mut self, emit: &mut Emit) -> Result<(), NoMemory>
        ensures keys { OnOk result (self.new.keys ≡ self.old.keys) }
        ensures ports { OnOk result (self.new.ports ≡ self.old.ports) }
        ensures lanes { OnOk result (self.new.lanes.items ≡ left_after self.old.keys self.old.lanes.items) }
        ensures sent { OnOk result (Adds emit.old emit.new (due self.old.keys self.old.lanes.items)) }
    {
        if self.first_empty().is_some() {
            return Ok(());
        }
        match self.least() {
            None => Ok(()),
            Some(port) => {
                self.take(port, emit)?;
                Ok(())
            }
        }
    }
}

impl Operator for SortMerge {
    ghost use Rattle.std.specs.Prelude.{true};
    ghost use Rattle.op_collect.specs.Merging.{MergeStands};
    ghost use Rattle.op_collect.specs.AreStreams.{sort_merge_is};

    ghost stream = { λ s. merge_stream s.ports (row_cmp s.keys) };

    ghost suits = { λ s feeds. true };

    ghost Stands = { λ s feeds. MergeStands s.ports s.keys s.lanes.items feeds };

    ghost is_stream = { λ s. sort_merge_is s.ports s.keys s.some };

    fn wants(&self) -> Want {
        match self.first_empty() {
            Some(port) => Want::Port(port),
            None => Want::Nothing,
        }
    }

    fn feed(&mut self, port: u32, row: Row, emit: &mut Emit) -> Result<(), NoMemory> {
        self.lanes[port as usize] = Lane::Waiting(row);
        self.settle(emit)?;
        Ok(())
    }

    fn end(&mut self, port: u32, emit: &mut Emit) -> Result<(), NoMemory> {
        self.lanes[port as usize] = Lane::Over;
        self.settle(emit)?;
        Ok(())
    }

    fn finish(&mut self, _emit: &mut Emit) -> Result<(), NoMemory> {
        Ok(())
    }
}
