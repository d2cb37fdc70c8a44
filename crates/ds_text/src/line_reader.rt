ghost use Rattle.std.specs.Prelude.{◌≡◌, ◌≤◌, ◌<◌, ◌^◌, ◌+◌, ◌-◌, ◌++◌, ◌∷◌, ℕ, [], true, false, length, take, drop, vec_len, IsTrue, IsErr, IfOk, IfErr, OnOk, OnErr, Ok, Err, IfSome, IfNone, get_or, ◌==◌};
ghost use Rattle.ds_port.specs.Causes.{HasCause};
ghost use Rattle.ds_text.specs.Lines.{lines_of, without_return, IsFree, LinesAgain};
ghost use Rattle.ds_text.specs.Readers.{Reader, Reads, remaining};
ghost use Rattle.ds_text.specs.Pieces.{Takes, kept, EndsAt};

use ds_port::Source;
use ds_value::{Bytes, NoMemory};
use memchr::memchr;
use std::alloc::Global;
use std::marker::Model;

/// The bytes that are taken at most.
const MOST: u64 = 1 << 40;

const PIECE: usize = 65_536;

/// The bytes of a line that are given at most, one more than it may have.
const SHOWN: usize = 2_097_153;

#[derive(Clone, Copy, Debug, PartialEq, Eq)]
pub enum LineEnd {
    Line,
    End,
}

#[derive(Clone, Copy, Debug, PartialEq, Eq)]
pub enum LineFault {
    Device,
    Memory,
    FileTooLong,
}

/// The lines of a source, one after the other.
#[derive(Drop)]
pub struct Lines<S: Source> {
    source: S,
    buf: Vec<u8>,
    at: usize,
    end: usize,
    taken: u64,
}

impl<S: Source> Model for Lines<S> {
    ghost use Rattle.std.specs.Prelude.{◌≤◌, ◌^◌, ◌+◌, ◌-◌, ◌++◌, take, drop, vec_len};
    ghost use Rattle.ds_text.specs.Readers.{Reader};

    ghost Value = { Reader };

    ghost view = { λ l. record {
      left = take (l.end - l.at) (drop l.at l.buf.items) ++ S.rest l.source;
      room = 2 ^ 40 - l.taken + (l.end - l.at);
      held = l.end - l.at;
      faults = S.faults l.source;
    } };

    ghost invariant = { λ l. (l.at ≤ l.end) × (l.end ≤ vec_len l.buf) × (l.taken ≤ 2 ^ 40) };
}

/// Puts bytes behind what is kept of a line.
#[tactic(auto, using(crate::proofs::PieceLemmas::kept_room))]
fn keep(into: &mut Bytes, more: &[u8]) -> Result<(), NoMemory>
    requires { length into.old ≤ 2_097_154 }
    ensures { OnOk result (into.new ≡ kept (into.old ++ more.now)) }
{
    let free = SHOWN + 1 - into.as_slice().len();
    let count = more.len().min(free);
    into.append(&more[..count])
}

fn ends_with_return(bytes: &[u8]) -> bool
    ensures { result ≡ (get_or bytes.now (length bytes.now - 1) 0 == 13) }
{
    match bytes.last() {
        Some(b) => *b == 13,
        None => false,
    }
}

/// How many bytes a line has without the byte 13 at its end.
#[tactic(auto, using(crate::proofs::PieceLemmas::len_without_return))]
fn line_len(bytes: &[u8]) -> usize
    ensures { result ≡ length (without_return bytes.now) }
{
    if ends_with_return(bytes) {
        bytes.len().saturating_sub(1)
    } else {
        bytes.len()
    }
}

/// A line as it is given, of what was kept.
#[tactic(auto, using(crate::proofs::PieceLemmas::shown_front))]
fn finish(into: &mut Bytes)
    ensures { into.new ≡ take 2_097_153 (without_return into.old) }
{
    let len = line_len(into.as_slice()).min(SHOWN);
    into.truncate(len);
}

/// Where the line ends in a piece.
fn end_of_line(bytes: &[u8]) -> Option<usize>
    ensures found { IfSome result (λ n. EndsAt bytes.now n) }
    ensures open { IfNone result (IsFree bytes.now) }
{
    memchr(b'\n', bytes)
}

/// Takes the next bytes of the source, and how many they are.
fn fill<S: Source>(source: &mut S, buf: &mut Vec<u8>, taken: u64) -> Result<usize, LineFault>
    requires { taken ≤ 2 ^ 40 }
    ensures bound { IfOk result (λ n. (n ≤ vec_len buf.new) × (taken + n ≤ 2 ^ 40)) }
    ensures told { IsTrue S.tells
        → IfOk result (λ n. S.rest source.old ≡ take n buf.new.items ++ S.rest source.new) }
    ensures none { IsTrue S.tells → result ≡ Ok 0 → S.rest source.old ≡ [] }
    ensures full { result ≡ Err LineFault.FileTooLong → taken ≡ 2 ^ 40 }
    ensures long { IsTrue S.tells → result ≡ Err LineFault.FileTooLong → 0 < length (S.rest source.old) }
    ensures cause { HasCause (S.faults source.old) (S.faults source.new) (result ≡ Err LineFault.Device) }
{
    if taken == MOST {
        return probe(source);
    }
    let count = (MOST - taken).min(PIECE as u64) as usize;
    match buf.resize(count, 0) {
        Ok(()) => {}
        Err(_) => return Err(LineFault::Memory),
    }
    match source.read(buf) {
        Ok(n) => Ok(n),
        Err(_) => Err(LineFault::Device),
    }
}

/// Whether a source has no byte left, where no more may be taken.
fn probe<S: Source>(source: &mut S) -> Result<usize, LineFault>
    ensures told { IsTrue S.tells → IfOk result (λ _. (S.rest source.old ≡ []) × (S.rest source.new ≡ [])) }
    ensures zero { IfOk result (λ n. n ≡ 0) }
    ensures long { IsTrue S.tells → result ≡ Err LineFault.FileTooLong → 0 < length (S.rest source.old) }
    ensures cause { HasCause (S.faults source.old) (S.faults source.new) (result ≡ Err LineFault.Device) }
{
    let mut one = [0u8; 1];
    match source.read(&mut one) {
        Ok(0) => Ok(0),
        Ok(_) => Err(LineFault::FileTooLong),
        Err(_) => Err(LineFault::Device),
    }
}

/// What is written as lines is read as these lines.
#[tactic(auto, using(crate::proofs::Again::lines_again))]
pub fn lines_again()
    ensures { LinesAgain }
{}

impl<S: Source> Lines<S> {
    pub fn new(alloc: Global, source: S) -> Lines<S>
        ensures left { result.left ≡ S.rest source }
        ensures lines { remaining result ≡ lines_of (S.rest source) }
        ensures room { result.room ≡ 2 ^ 40 }
        ensures held { result.held ≡ 0 }
        ensures faults { result.faults ≡ S.faults source }
    {
        Lines {
            source,
            buf: Vec::new(alloc),
            at: 0,
            end: 0,
            taken: 0,
        }
    }

    /// The source, without the bytes that were taken from it.
    pub fn into_inner(self) -> S
        ensures rest { IsTrue S.tells → S.rest result ≡ drop self.held self.left }
        ensures faults { S.faults result ≡ self.faults }
    {
        let Lines { source, .. } = self;
        source
    }

    /// Whether a byte is left. Then one stands in the buffer.
    fn ready(&mut self) -> Result<bool, LineFault>
        ensures told { IsTrue S.tells → IfOk result (λ _. self.new.left ≡ self.old.left) }
        ensures more { IfOk result (λ more. IsTrue more → 0 < self.new.held) }
        ensures room { self.new.room ≡ self.old.room }
        ensures none { IsTrue S.tells → result ≡ Ok false → self.old.left ≡ [] }
        ensures full { result ≡ Err LineFault.FileTooLong → self.old.room ≡ 0 }
        ensures long { IsTrue S.tells → result ≡ Err LineFault.FileTooLong → 0 < length self.old.left }
        ensures cause { HasCause self.old.faults self.new.faults (result ≡ Err LineFault.Device) }
    {
        if self.at < self.end {
            return Ok(true);
        }
        self.at = 0;
        self.end = 0;
        match fill(&mut self.source, &mut self.buf, self.taken) {
            Ok(count) => {
                self.end = count;
                self.taken += count as u64;
                Ok(count > 0)
            }
            Err(fault) => Err(fault),
        }
    }

    /// Takes a piece of a line from the buffer, and whether its end was there.
    fn take_piece(&mut self, into: &mut Bytes) -> Result<bool, NoMemory>
        requires some { 0 < self.old.held }
        requires kept { length into.old ≤ 2_097_154 }
        ensures found { result ≡ Ok true → Takes self.old self.new (10 ∷ []) into.old into.new }
        ensures open { result ≡ Ok false → Takes self.old self.new [] into.old into.new }
        ensures faults { self.new.faults ≡ self.old.faults }
    {
        let piece = &self.buf[self.at..self.end];
        match end_of_line(piece) {
            Some(len) => {
                keep(into, &piece[..len])?;
                self.at += len + 1;
                Ok(true)
            }
            None => {
                keep(into, piece)?;
                self.at = self.end;
                Ok(false)
            }
        }
    }

    /// The next line without its end. After an error only `into_inner` is of use.
    pub fn next_line(&mut self, into: &mut Bytes) -> Result<LineEnd, LineFault>
        ensures line { IsTrue S.tells → Reads result (remaining self.old) into.new (remaining self.new) }
        ensures short { IfOk result (λ _. length into.new ≤ 2_097_153) }

        // These hold of a source that tells nothing too.
        ensures progress { result ≡ Ok LineEnd.Line → self.new.room < self.old.room }
        ensures full { result ≡ Err LineFault.FileTooLong → self.new.room ≡ 0 }
        ensures cause { HasCause self.old.faults self.new.faults (result ≡ Err LineFault.Device) }
    {
        into.clear();
        let mut begun = false;
        loop {
            match self.ready() {
                Ok(true) => {}
                Ok(false) => {
                    if !begun {
                        return Ok(LineEnd::End);
                    }
                    finish(into);
                    return Ok(LineEnd::Line);
                }
                Err(fault) => return Err(fault),
            }
            match self.take_piece(into) {
                Ok(true) => {
                    finish(into);
                    return Ok(LineEnd::Line);
                }
                Ok(false) => {}
                Err(_) => return Err(LineFault::Memory),
            }
            begun = true;
        }
    }
}
