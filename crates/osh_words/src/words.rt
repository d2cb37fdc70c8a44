ghost use Rattle.std.specs.Prelude.{◌≡◌, map, string_bytes, IfOk, IfErr};
ghost use Rattle.osh_words.specs.declared.command.WordFault.TheVariants.{Usage};
ghost use Rattle.osh_words.specs.declared.command.Command.{Command as Spelled};
ghost use Rattle.osh_words.specs.Spelled.{Spells};
ghost use Rattle.osh_words.specs.Read.{Reads, check_of, score_of, meaning_of, run_of, run_with, gen_of, command_of};

use crate::command::{Command, WordFault};
use crate::options::{Options, leading_options};
use crate::word::{file, number};
use std::alloc::Global;

fn check(alloc: Global, words: &[String]) -> Result<Command, WordFault>
    ensures { Reads result (check_of (map string_bytes words.now)) }
{
    match words {
        [flow] => Ok(Command::Check(file(alloc, flow.as_bytes())?)),
        _ => Err(WordFault::Usage),
    }
}

fn score(alloc: Global, words: &[String]) -> Result<Command, WordFault>
    ensures { Reads result (score_of (map string_bytes words.now)) }
{
    match words {
        [flow, config] => {
            let flow = file(alloc, flow.as_bytes())?;
            let config = file(alloc, config.as_bytes())?;
            Ok(Command::Score(flow, config))
        }
        _ => Err(WordFault::Usage),
    }
}

fn meaning(alloc: Global, words: &[String]) -> Result<Command, WordFault>
    ensures { Reads result (meaning_of (map string_bytes words.now)) }
{
    match words {
        [flow] => Ok(Command::Meaning(file(alloc, flow.as_bytes())?)),
        _ => Err(WordFault::Usage),
    }
}

fn run_with(alloc: Global, options: Options, words: &[String]) -> Result<Command, WordFault>
    ensures { Reads result (run_with options (map string_bytes words.now)) }
{
    match words {
        [flow, config] => {
            let flow = file(alloc, flow.as_bytes())?;
            let config = file(alloc, config.as_bytes())?;
            Ok(Command::Run {
                serial: options.serial,
                cap: options.cap.unwrap_or(64),
                spill: options.spill.unwrap_or(16),
                flow,
                config,
            })
        }
        _ => Err(WordFault::Usage),
    }
}

#[tactic(auto, unfolding(crate::specs::Read::run_of))]
fn run(alloc: Global, words: &[String]) -> Result<Command, WordFault>
    ensures { Reads result (run_of (map string_bytes words.now)) }
{
    let (options, rest) = leading_options(words);
    run_with(alloc, options, rest)
}

fn gen_(words: &[String]) -> Result<Command, WordFault>
    ensures { Reads result (gen_of (map string_bytes words.now)) }
{
    match words {
        [count, seed] => {
            let Some(n) = number(count.as_str(), 7, 1_000_000) else {
                return Err(WordFault::Usage);
            };
            let Some(x) = number(seed.as_str(), 0, 9_999_999_999_999_999_999) else {
                return Err(WordFault::Usage);
            };
            Ok(Command::Gen { n: n as u32, x })
        }
        _ => Err(WordFault::Usage),
    }
}

#[tactic(auto, unfolding(crate::specs::Read::command_of))]
fn command(alloc: Global, words: &[String]) -> Result<Command, WordFault>
    ensures { Reads result (command_of (map string_bytes words.now)) }
{
    let [word, rest @ ..] = words else {
        return Err(WordFault::Usage);
    };
    if word.as_str() == "check" {
        return check(alloc, rest);
    }
    if word.as_str() == "score" {
        return score(alloc, rest);
    }
    if word.as_str() == "meaning" {
        return meaning(alloc, rest);
    }
    if word.as_str() == "run" {
        return run(alloc, rest);
    }
    if word.as_str() == "gen" {
        return gen_(rest);
    }
    Err(WordFault::Usage)
}

/// The command that the words behind the program's name spell; Usage where they spell none.
#[tactic(auto, using(crate::proofs::Sound::read_is_spelled, crate::proofs::Sound::refused_is_unspelled))]
pub fn read_words(alloc: Global, words: &[String]) -> Result<Command, WordFault>
    ensures ok { IfOk result (λ c. Spells (map string_bytes words.now) c) }
    ensures usage { IfErr result (λ e. e ≡ Usage → (c : Spelled) → Spells (map string_bytes words.now) c → ⊥) }
{
    command(alloc, words)
}
