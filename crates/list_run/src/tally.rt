ghost use Rattle.std.specs.Prelude.{◌<◌, ◌^◌};

use crate::numbering::{least_of_both, numbered_if};
use op_base::Fault;

/// As many faults as are counted.
const COUNTED: u64 = 0x7fff_ffff_ffff_ffff;

/// How many faults there were, as far as they are counted, and the least of them.
#[derive(Debug, Drop)]
pub(crate) struct Tally {
    pub faults: u64,
    pub least: Option<Fault>,
    ghost few: { faults < 2 ^ 63 },
}

impl Tally {
    ghost use Rattle.std.specs.Prelude.{◌≡◌, List, [], None, length, map};
    ghost use Rattle.op_base.specs.declared.fault.Fault.{Fault as Wrong};
    ghost use Rattle.op_base.specs.Emits.{counted, least_of};
    ghost use Rattle.flow_graph.specs.RowRules.{at_op};
    ghost use Rattle.list_run.specs.Found.{AreUnnumbered, Grows, Tallies};

    pub fn new() -> Tally
        ensures { Tallies [] result }
    {
        Tally {
            faults: 0,
            least: None,
        }
    }

    /// Adds so many faults of an operator, with the least of them, which have its number from
    /// here on.
    pub fn add(&mut self, op: u32, faults: u64, least: Option<Fault>)
        ensures { (more : List Wrong) → faults ≡ counted 0 (length more) → least ≡ least_of None more → AreUnnumbered more → Grows self.old self.new (map (at_op op) more) }
    {
        self.faults = self.faults.saturating_add(faults).min(COUNTED);
        self.least = least_of_both(self.least.take(), numbered_if(op, least));
    }
}
