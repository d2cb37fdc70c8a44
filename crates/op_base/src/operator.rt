ghost use Rattle.std.specs.Prelude.{◌≡◌, List, Bool, OnOk, [], true};
ghost use Rattle.streams.specs.Streams.{Feed, all_ended, IsStream};
ghost use Rattle.op_base.specs.Columns.{Row as Cells};
ghost use Rattle.op_base.specs.Emits.{Adds};
ghost use Rattle.op_base.specs.Standing.{RowStream, row_feed, end_feed, Answers, MayFeed, Steps, Emits};

use crate::{Emit, Fault, Sent};
use ds_schema::Row;
use ds_value::NoMemory;

/// Which of its ports an operator can be fed next.
#[derive(Clone, Copy, Debug, PartialEq, Eq)]
pub enum Want {
    Port(u32),
    /// Each port that hasn't ended.
    Any,
    Nothing,
}

/// What works on rows that come at its ports. It stands for the items that it was fed, and
/// emits what its stream gives for each. After `NoMemory` it isn't used again.
pub trait Operator {
    /// What it is. No call changes it.
    ghost stream: { Self → RowStream };

    /// Whether these feeds suit it: their rows have the columns and values that it works on. No call changes it.
    ghost suits: { Self → List (Feed Cells) → Bool };

    /// It was fed these items.
    ghost Stands: { Self → List (Feed Cells) → Type 0 };

    fn wants(&self) -> Want
        ensures { (feeds : List (Feed Cells)) → Stands self.now feeds → Answers result (stream self.now) feeds };

    fn feed(&mut self, port: u32, row: Row, emit: &mut Emit) -> Result<(), NoMemory>
        requires { MayFeed (stream self.old) (suits self.old) (Stands self.old) (row_feed port row) }
        ensures stream { OnOk result (stream self.new ≡ stream self.old) }
        ensures suits { OnOk result (suits self.new ≡ suits self.old) }
        ensures stands { OnOk result (Steps (Stands self.old) (Stands self.new) (row_feed port row)) }
        ensures emits { OnOk result (Emits (stream self.old) (Stands self.old) (row_feed port row) emit.old emit.new) };

    fn end(&mut self, port: u32, emit: &mut Emit) -> Result<(), NoMemory>
        requires { MayFeed (stream self.old) (suits self.old) (Stands self.old) (end_feed port) }
        ensures stream { OnOk result (stream self.new ≡ stream self.old) }
        ensures suits { OnOk result (suits self.new ≡ suits self.old) }
        ensures stands { OnOk result (Steps (Stands self.old) (Stands self.new) (end_feed port)) }
        ensures emits { OnOk result (Emits (stream self.old) (Stands self.old) (end_feed port) emit.old emit.new) };

    /// Nothing more is emitted.
    fn finish(&mut self, emit: &mut Emit) -> Result<(), NoMemory>
        requires { (feeds : List (Feed Cells)) × Stands self.old feeds × (all_ended (stream self.old) feeds ≡ true) }
        ensures stream { OnOk result (stream self.new ≡ stream self.old) }
        ensures suits { OnOk result (suits self.new ≡ suits self.old) }
        ensures stands { OnOk result ((feeds : List (Feed Cells)) → Stands self.old feeds → Stands self.new feeds) }
        ensures emits { OnOk result (Adds emit.old emit.new []) };

    ghost is_stream: { (s : Self) → IsStream (stream s) };
}
