//! A whole call of the program.

ghost use Rattle.std.specs.Prelude.{◌≡◌, ◌≤◌, ◌⊎◌, codes, map, string_bytes, IsTrue};
ghost use Rattle.ds_port.specs.Causes.{Rose};
ghost use Rattle.osh_ends.specs.Leaves.{IsExact, IsComplete, Tells};
ghost use Rattle.osh.specs.Calls.{Calls, IsNoCommand, IsStatus, WordsDecide};
ghost use Rattle.osh.specs.Says.{Says};

use crate::serve::serve;
use ds_port::{Files, Sink};
use osh_call::{Answer, say, status};
use std::alloc::Global;

/// What the program ends with.
#[derive(Clone, Copy, Debug, PartialEq, Eq)]
pub struct Status(pub u8);

/// Does what the words say, and answers the status.
pub fn osh_still<F: Files, O: Sink, E: Sink>(
    alloc: Global,
    words: &[String],
    files: &mut F,
    out: &mut O,
    err: &mut E,
) -> Status
    ensures calls { Calls (map string_bytes words.now)
        (record { tells = F.tells; old = F.holds files.old; new = F.holds files.new; before = F.faults files.old; now = F.faults files.new })
        (record { tells = O.tells; old = O.held out.old; new = O.held out.new; before = O.faults out.old; now = O.faults out.new })
        (record { tells = E.tells; old = E.held err.old; new = E.held err.new; before = E.faults err.old; now = E.faults err.new })
        result.0 }
    ensures exact { IsTrue F.tells → IsExact (map string_bytes words.now) (F.holds files.old) result.0 }
    ensures complete { IsTrue F.tells → IsComplete (map string_bytes words.now) (F.holds files.old) (Rose (F.faults files.old) (F.faults files.new) ⊎ Rose (O.faults out.old) (O.faults out.new)) result.0 }

    // These hold of files that tell nothing too.
    ensures says { Says result.0
        (record { tells = O.tells; old = O.held out.old; new = O.held out.new; before = O.faults out.old; now = O.faults out.new })
        (record { tells = E.tells; old = E.held err.old; new = E.held err.new; before = E.faults err.old; now = E.faults err.new }) }
    ensures lent { F.lent files.new ≡ F.lent files.old }
    ensures later { (F.faults files.old ≤ F.faults files.new) × (O.faults out.old ≤ O.faults out.new) × (E.faults err.old ≤ E.faults err.new) }
    ensures statuses { IsStatus result.0 }
    ensures words { WordsDecide (map string_bytes words.now) result.0 }
    ensures idle { IsNoCommand (map string_bytes words.now) → (files.new ≡ files.old) × (out.new ≡ out.old) }
    ensures device { result.0 ≡ 10 → Rose (F.faults files.old) (F.faults files.new) ⊎ Rose (O.faults out.old) (O.faults out.new) }
{
    osh_once::one_status();
    let answer = serve(alloc, words, files, out);
    let said = say(alloc, err, answer);
    Status(status(&said))
}

/// Ends a call whose words found no memory.
pub fn lack_memory<E: Sink>(alloc: Global, err: &mut E) -> Status
    ensures status { result.0 ≡ 12 }
    ensures line { IsTrue E.tells → Tells (codes "osh: memory\n") (E.faults err.old) (E.faults err.new) (E.held err.old) (E.held err.new) }
{
    let answer = say(alloc, err, Answer::Memory);
    Status(status(&answer))
}
