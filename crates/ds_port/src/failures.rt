ghost use Rattle.std.specs.Prelude.{◌≡◌, ◌↔◌, ◌≤◌, ◌-◌, ◌^◌, ℕ, min, List, [], false, IsTrue, IfOk};
ghost use Rattle.std.proofs.Common.{zero-le};
ghost use Rattle.std.proofs.Math.Nat.{min-le_right};
ghost use Rattle.ds_port.specs.Causes.{HasCause};
ghost use Rattle.ds_port.specs.Failing.{IsCounted, NextFails, StartsAnew};

use ds_value::{Items, NoMemory};
use std::alloc::Global;

/// Which calls of an object in memory fail.
pub trait Failures: Drop {
    /// How many have failed.
    ghost count: { Self → ℕ };

    /// The numbers of the calls that fail, counted from 0.
    ghost numbers: { Self → List ℕ };

    /// The number of the next call; where no number is listed, none is counted.
    ghost calls: { Self → ℕ };

    /// Whether the next call fails.
    fn fails(&mut self) -> bool
        ensures listed { IsTrue result ↔ NextFails numbers calls self.old }
        ensures counted { IsCounted numbers calls self.old self.new }
        ensures kept { result ≡ false → count self.new ≡ count self.old }
        ensures cause { HasCause (count self.old) (count self.new) (IsTrue result) };

    fn faults(&self) -> u64
        ensures { result ≡ count self.now };

    /// The same for an object of its own, which has not been called yet.
    fn renewed(&self, alloc: Global) -> Result<Self, NoMemory>
    where
        Self: Sized,
        ensures anew { IfOk result (λ fresh. StartsAnew numbers calls self.now fresh) }
        ensures faults { IfOk result (λ fresh. count fresh ≡ 0) };

    /// No count is greater.
    ghost bounded: { (f : Self) → count f ≤ 2 ^ 64 - 1 };
}

/// No call fails.
#[derive(Clone, Copy, Debug)]
pub struct NeverFails;

impl Failures for NeverFails {
    ghost count = { λ _. 0 };

    ghost numbers = { λ _. [] };

    ghost calls = { λ _. 0 };

    ghost bounded = { λ _. zero-le };

    fn fails(&mut self) -> bool {
        false
    }

    fn faults(&self) -> u64 {
        0
    }

    fn renewed(&self, _alloc: Global) -> Result<NeverFails, NoMemory> {
        Ok(NeverFails)
    }
}

/// The calls with these numbers fail, counted from 0.
#[derive(Drop)]
pub struct FailsAt {
    numbers: Items<u64>,
    calls: u64,
    faults: u64,
}

impl FailsAt {
    pub fn new(numbers: Vec<u64>) -> FailsAt
        ensures numbers { result.numbers ≡ numbers.items }
        ensures calls { result.calls ≡ 0 }
        ensures faults { result.faults ≡ 0 }
    {
        FailsAt {
            numbers: Items::from_vec(numbers),
            calls: 0,
            faults: 0,
        }
    }
}

impl Failures for FailsAt {
    ghost count = { λ f. min f.faults (2 ^ 64 - 1) };

    ghost numbers = { λ f. f.numbers };

    ghost calls = { λ f. f.calls };

    ghost bounded = { λ f. min-le_right f.faults (2 ^ 64 - 1) };

    fn fails(&mut self) -> bool {
        let fails = self.numbers.as_slice().contains(&self.calls);
        self.calls = self.calls.saturating_add(1);
        if fails {
            self.faults = self.faults.saturating_add(1);
        }
        fails
    }

    fn faults(&self) -> u64 {
        self.faults
    }

    fn renewed(&self, alloc: Global) -> Result<FailsAt, NoMemory> {
        let numbers = self.numbers.as_slice().to_vec(alloc)?;
        Ok(FailsAt {
            numbers: Items::from_vec(numbers),
            calls: 0,
            faults: 0,
        })
    }
}
