ghost use Rattle.std.specs.Prelude.{◌<◌, ◌^◌};

use op_base::{Fault, fault_cmp};

/// As many faults as are counted.
const COUNTED: u64 = 0x7fff_ffff_ffff_ffff;

/// How many faults there were, as far as they are counted, and the least of them.
#[derive(Debug, Drop)]
pub struct Tally {
    pub faults: u64,
    pub least: Option<Fault>,
    ghost few: { faults < 2 ^ 63 },
}

impl Tally {
    ghost use Rattle.std.specs.Prelude.{◌≡◌, ◌++◌, ◌∷◌, List, [], None, length};
    ghost use Rattle.op_base.specs.declared.fault.Fault.{Fault as Wrong};
    ghost use Rattle.op_base.specs.Emits.{counted, least_of};
    ghost use Rattle.flow_files.specs.Tallies.{IsLeast, IsLeastOf, Tallies, Grows};

    pub fn new() -> Tally
        ensures { Tallies [] result }
    {
        Tally {
            faults: 0,
            least: None,
        }
    }

    /// The lesser of two faults.
    #[tactic(auto, using(crate::proofs::Growing::left_least, crate::proofs::Growing::right_least))]
    fn lesser(a: Fault, b: Fault) -> Fault
        ensures { (fs gs : List Wrong) → IsLeast a fs → IsLeast b gs → IsLeast result (fs ++ gs) }
    {
        if fault_cmp(&b, &a).is_lt() { b } else { a }
    }

    /// The least of some faults and of others.
    #[tactic(auto, using(crate::proofs::Growing::only_left, crate::proofs::Growing::only_right))]
    fn least(a: Option<Fault>, b: Option<Fault>) -> Option<Fault>
        ensures { (fs gs : List Wrong) → IsLeastOf a fs → IsLeastOf b gs → IsLeastOf result (fs ++ gs) }
    {
        match (a, b) {
            (None, b) => b,
            (a, None) => a,
            (Some(a), Some(b)) => Some(Tally::lesser(a, b)),
        }
    }

    /// Adds so many faults, with the least of them.
    fn join(&mut self, faults: u64, least: Option<Fault>)
        ensures { (more : List Wrong) → faults ≡ counted 0 (length more) → IsLeastOf least more → Grows self.old self.new more }
    {
        self.faults = self.faults.saturating_add(faults).min(COUNTED);
        self.least = Tally::least(self.least.take(), least);
    }

    pub fn add(&mut self, fault: Fault)
        ensures { Grows self.old self.new (fault ∷ []) }
    {
        self.join(1, Some(fault));
    }

    /// Adds what an operator emitted: the number of faults as far as it is counted, and the least.
    pub fn add_emitted(&mut self, faults: u64, least: Option<Fault>)
        ensures { (more : List Wrong) → faults ≡ counted 0 (length more) → least ≡ least_of None more → Grows self.old self.new more }
    {
        self.join(faults, least);
    }
}
