ghost use Rattle.std.specs.Prelude.{◌<◌, ◌^◌};

use crate::{Fault, fault_cmp};
use ds_schema::Row;
use ds_value::{Items, NoMemory};
use std::alloc::Global;
use std::cmp::Ordering;

/// A row on an output.
#[derive(Debug, Drop)]
pub struct Sent {
    pub port: u32,
    pub row: Row,
}

/// What was emitted: the rows in their order, the number of faults as far as it is counted,
/// and the least fault.
#[derive(Debug, Drop)]
pub struct Emit {
    pub sent: Items<Sent>,
    pub faults: u64,
    pub least: Option<Fault>,
    ghost few: { faults < 2 ^ 63 },
}

/// As many faults as are counted.
const COUNTED: u64 = 0x7fff_ffff_ffff_ffff;

impl Emit {
    ghost use Rattle.std.specs.Prelude.{◌≡◌, ◌∷◌, [], OnOk, OnErr};
    ghost use Rattle.streams.specs.Streams.{sends, fails};
    ghost use Rattle.op_base.specs.Emits.{Adds, IsFresh};

    pub fn new(alloc: Global) -> Emit
        ensures { IsFresh result }
    {
        Emit {
            sent: Items::new(alloc),
            faults: 0,
            least: None,
        }
    }

    pub fn send(&mut self, port: u32, row: Row) -> Result<(), NoMemory>
        ensures ok { OnOk result (Adds self.old self.new (sends port row ∷ [])) }
        ensures err { OnErr result (Adds self.old self.new []) }
    {
        self.sent.push(Sent { port, row })
    }

    pub fn fault(&mut self, fault: Fault)
        ensures { Adds self.old self.new (fails fault ∷ []) }
    {
        if self.faults < COUNTED {
            self.faults += 1;
        }
        let is_least = match &self.least {
            None => true,
            Some(least) => fault_cmp(&fault, least) == Ordering::Less,
        };
        if is_least {
            self.least = Some(fault);
        }
    }
}
