//! All of a call but its line on err.

ghost use Rattle.std.specs.Prelude.{◌≡◌, ◌≤◌, ◌⊎◌, map, string_bytes, IsTrue};
ghost use Rattle.ds_port.specs.Causes.{Rose};
ghost use Rattle.osh_ends.specs.Ends.{Commands, ComesTo};
ghost use Rattle.osh_call.specs.Answers.{IsOfCommand, IsSilent, Serves};
ghost use Rattle.osh_words.specs.declared.command.Command.{Command as Spelled};
ghost use Rattle.osh_words.specs.Spelled.{Spells};
ghost use Rattle.osh.specs.Calls.{IsNoCommand, IsUnbuilt};

use ds_port::{Files, Sink};
use osh_call::{Answer, check};
use osh_run::run;
use osh_words::{Command, WordFault, read_words};
use std::alloc::Global;

/// Does what a command says.
fn obey<F: Files, O: Sink>(alloc: Global, files: &mut F, out: &mut O, command: &Command) -> Answer
    ensures serves { IsTrue F.tells → Serves (Commands (F.holds files.old) command.now) (F.holds files.old) (F.holds files.new) O.tells (O.held out.old) (O.held out.new) (Rose (F.faults files.old) (F.faults files.new)) (Rose (O.faults out.old) (O.faults out.new)) result }
    ensures device { result ≡ Answer.Device → Rose (F.faults files.old) (F.faults files.new) ⊎ Rose (O.faults out.old) (O.faults out.new) }
    ensures command { IsOfCommand result }
    ensures silent { IsSilent result → out.new ≡ out.old }
    ensures lent { F.lent files.new ≡ F.lent files.old }
    ensures files_later { F.faults files.old ≤ F.faults files.new }
    ensures out_later { O.faults out.old ≤ O.faults out.new }
    ensures unbuilt { IsUnbuilt command.now → result ≡ Answer.Unbuilt }
{
    match command {
        Command::Check(flow) => check(alloc, files, out, flow),
        Command::Run {
            serial,
            flow,
            config,
            ..
        } => {
            if *serial {
                run(alloc, files, out, flow, config)
            } else {
                Answer::Unbuilt
            }
        }
        Command::Score(..) | Command::Meaning(_) | Command::Gen { .. } => Answer::Unbuilt,
    }
}

/// Does what the words say.
pub fn serve<F: Files, O: Sink>(
    alloc: Global,
    words: &[String],
    files: &mut F,
    out: &mut O,
) -> Answer
    ensures serves { IsTrue F.tells → Serves (ComesTo (map string_bytes words.now) (F.holds files.old)) (F.holds files.old) (F.holds files.new) O.tells (O.held out.old) (O.held out.new) (Rose (F.faults files.old) (F.faults files.new)) (Rose (O.faults out.old) (O.faults out.new)) result }
    ensures device { result ≡ Answer.Device → Rose (F.faults files.old) (F.faults files.new) ⊎ Rose (O.faults out.old) (O.faults out.new) }
    ensures silent { IsSilent result → out.new ≡ out.old }
    ensures lent { F.lent files.new ≡ F.lent files.old }
    ensures files_later { F.faults files.old ≤ F.faults files.new }
    ensures out_later { O.faults out.old ≤ O.faults out.new }
    ensures none { IsNoCommand (map string_bytes words.now) → (result ≡ Answer.Usage) ⊎ (result ≡ Answer.Memory) }
    ensures only { result ≡ Answer.Usage → IsNoCommand (map string_bytes words.now) }
    ensures unbuilt { (c : Spelled) → Spells (map string_bytes words.now) c → IsUnbuilt c → (result ≡ Answer.Unbuilt) ⊎ (result ≡ Answer.Memory) }
    ensures idle { IsNoCommand (map string_bytes words.now) → (files.new ≡ files.old) × (out.new ≡ out.old) }
{
    match read_words(alloc, words) {
        Ok(command) => obey(alloc, files, out, &command),
        Err(WordFault::Usage) => Answer::Usage,
        Err(WordFault::Memory) => Answer::Memory,
    }
}
