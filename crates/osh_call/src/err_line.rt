//! The line of an answer on err, and its status.

ghost use Rattle.std.specs.Prelude.{◌≡◌, ◌≤◌, ◌⊎◌, IsTrue, IfOk, IfErr};
ghost use Rattle.osh_ends.specs.Leaves.{Tells};
ghost use Rattle.osh_call.specs.Saying.{err_line, answer_status, HasLine, HasPlain, IsMade, SaidAs};

use crate::answer::Answer;
use ds_port::Sink;
use ds_value::{Bytes, NoMemory};
use flow_outputs::print;
use osh_ends::{absent_line, config_line, flow_line, mismatch_line, players_line, shape_line};
use std::alloc::Global;

fn tell<E: Sink>(err: &mut E, line: &[u8])
    ensures line { IsTrue E.tells → Tells line.now (E.faults err.old) (E.faults err.new) (E.held err.old) (E.held err.new) }
    ensures later { E.faults err.old ≤ E.faults err.new }
{
    // A fault of err changes no answer.
    let _ = print(err, line);
}

/// The line of an answer that is made of numbers or a name.
fn made_line(alloc: Global, answer: &Answer) -> Result<Option<Bytes>, NoMemory>
    ensures line { IfOk result (λ line. HasLine line answer.now) }
    ensures made { IfErr result (λ _. IsMade answer.now) }
{
    let mut line = Bytes::new(alloc);
    match answer {
        Answer::BadFlow { at, why } => line.append(flow_line(alloc, *at, *why)?.as_bytes())?,
        Answer::BadConfig { at, why } => line.append(config_line(alloc, *at, *why)?.as_bytes())?,
        Answer::BadShape { why, op } => line.append(shape_line(alloc, *why, *op)?.as_bytes())?,
        Answer::Mismatch { link, from, to } => {
            line.append(mismatch_line(alloc, *link, *from, *to)?.as_bytes())?
        }
        Answer::Crowded { players } => line.append(players_line(alloc, *players)?.as_bytes())?,
        Answer::Absent(name) => return Ok(Some(absent_line(alloc, name)?)),
        _ => return Ok(None),
    }
    Ok(Some(line))
}

/// The line of any other answer; none where nothing is said.
fn plain_line(answer: &Answer) -> &'static [u8]
    ensures { HasPlain answer.now result.now }
{
    match answer {
        Answer::Usage => b"osh: usage\n",
        Answer::Unbuilt => b"osh: unbuilt\n",
        Answer::Device => b"osh: device\n",
        Answer::Memory => b"osh: memory\n",
        _ => b"",
    }
}

/// Writes the line of an answer on err. Where there is no memory for it, the answer is that.
pub fn say<E: Sink>(alloc: Global, err: &mut E, answer: Answer) -> Answer
    ensures said { SaidAs answer result }
    ensures line { IsTrue E.tells → Tells (err_line result) (E.faults err.old) (E.faults err.new) (E.held err.old) (E.held err.new) }
    ensures later { E.faults err.old ≤ E.faults err.new }
{
    match made_line(alloc, &answer) {
        Ok(Some(line)) => {
            tell(err, line.as_slice());
            answer
        }
        Ok(None) => {
            tell(err, plain_line(&answer));
            answer
        }
        Err(_) => {
            tell(err, b"osh: memory\n");
            Answer::Memory
        }
    }
}

/// The status of an answer.
pub fn status(answer: &Answer) -> u8
    ensures { result ≡ answer_status answer.now }
{
    match answer {
        Answer::Done | Answer::Checked => 0,
        Answer::Usage => 1,
        Answer::BadFlow { .. } => 2,
        Answer::BadConfig { .. } => 3,
        Answer::BadShape { .. } => 4,
        Answer::Refused => 5,
        Answer::Mismatch { .. } | Answer::Crowded { .. } => 6,
        Answer::Absent(_) => 7,
        Answer::Unbuilt => 8,
        Answer::Faulty => 9,
        Answer::Device => 10,
        Answer::Memory => 12,
    }
}
