ghost use Rattle.std.specs.Prelude.{◌≡◌};
ghost use Rattle.osh_words.specs.declared.command.WordFault.TheVariants.{Memory};

use ds_value::{Name, NoMemory};

/// What the program is to do.
#[derive(Debug, Drop)]
pub enum Command {
    /// Prints the verdict on a flow.
    Check(Name),
    /// Prints the score of a flow on a configuration.
    Score(Name, Name),
    /// Prints the records that a flow gives each of its sinks.
    Meaning(Name),
    /// Runs a flow on a configuration, with queues of `cap` messages and up to `spill` messages of each
    /// queue in memory.
    Run {
        serial: bool,
        cap: u32,
        spill: u32,
        flow: Name,
        config: Name,
    },
    /// Makes a workload of `n` orders from the seed `x`, and runs it.
    Gen {
        n: u32,
        x: u64,
    },
}

#[derive(Clone, Copy, Debug, PartialEq, Eq)]
pub enum WordFault {
    /// The words are no command.
    Usage,
    Memory,
}

impl From<NoMemory> for WordFault {
    ghost from_gives = { λ _ e. e ≡ Memory };

    fn from(_: NoMemory) -> Self {
        WordFault::Memory
    }
}
