//! What a command prints on out.

ghost use Rattle.std.specs.Prelude.{◌≡◌, ◌++◌, ◌<◌, IfOk, OnOk, string_bytes};
ghost use Rattle.osh_ends.specs.Reports.{count_line, kind_name, digit, hexadecimal, bytes_text, faults_line, least_head, least_line};

use ds_value::{Bytes, NoMemory};
use op_base::{Fault, FaultKind};
use std::alloc::{AllocError, Global};

/// The greatest number of rows or faults that is given.
const MOST: u64 = i64::MAX as u64;

/// Puts a line behind the text.
pub fn put(text: &mut Bytes, line: &str) -> Result<(), NoMemory>
    ensures { OnOk result (text.new ≡ text.old ++ line.now) }
{
    text.append(line.as_bytes())
}

fn count_line(alloc: Global, link: u32, rows: u64) -> Result<String, AllocError>
    ensures { IfOk result (λ text. string_bytes text ≡ count_line link rows) }
{
    let count = rows.min(MOST);
    format!(in alloc; "count {link} {count}\n")
}

/// The number of rows of a link.
pub fn put_count(alloc: Global, text: &mut Bytes, link: u32, rows: u64) -> Result<(), NoMemory>
    ensures { OnOk result (text.new ≡ text.old ++ count_line link rows) }
{
    put(text, count_line(alloc, link, rows)?.as_str())
}

fn faults_line(alloc: Global, faults: u64) -> Result<String, AllocError>
    ensures { IfOk result (λ text. string_bytes text ≡ faults_line faults) }
{
    let count = faults.min(MOST);
    format!(in alloc; "faults {count}\n")
}

fn kind_name(kind: FaultKind) -> &'static str
    ensures { result.now ≡ kind_name kind }
{
    match kind {
        FaultKind::BadRecord => "BadRecord",
        FaultKind::Overflow => "Overflow",
        FaultKind::ZeroDivisor => "ZeroDivisor",
        FaultKind::NullUsed => "NullUsed",
        FaultKind::TooLong => "TooLong",
        FaultKind::Missing => "Missing",
        FaultKind::Unwritable => "Unwritable",
        FaultKind::BadBlock => "BadBlock",
        FaultKind::Misplaced => "Misplaced",
        FaultKind::CountWrong => "CountWrong",
        FaultKind::FileTooLong => "FileTooLong",
    }
}

/// A hexadecimal digit.
fn digit(n: u8) -> u8
    requires { n < 16 }
    ensures { result ≡ digit n }
{
    if n < 10 { b'0' + n } else { b'a' - 10 + n }
}

fn put_hexadecimal(text: &mut Bytes, bytes: &[u8]) -> Result<(), NoMemory>
    ensures { OnOk result (text.new ≡ text.old ++ hexadecimal bytes.now) }
{
    for byte in bytes {
        text.push(digit(*byte / 16))?;
        text.push(digit(*byte % 16))?;
    }
    Ok(())
}

/// Two digits for each byte, or a dash where there is none.
fn put_bytes(text: &mut Bytes, bytes: &[u8]) -> Result<(), NoMemory>
    ensures { OnOk result (text.new ≡ text.old ++ bytes_text bytes.now) }
{
    if bytes.is_empty() {
        return put(text, "-");
    }
    put_hexadecimal(text, bytes)
}

/// What the least line has before the bytes.
fn least_head(alloc: Global, fault: &Fault) -> Result<String, AllocError>
    ensures { IfOk result (λ text. string_bytes text ≡ least_head fault.now) }
{
    let (op, name, place) = (fault.op, kind_name(fault.kind), fault.place);
    format!(in alloc; "least op {op} {name} {place} ")
}

fn put_least(alloc: Global, text: &mut Bytes, fault: &Fault) -> Result<(), NoMemory>
    ensures { OnOk result (text.new ≡ text.old ++ least_line fault.now) }
{
    put(text, least_head(alloc, fault)?.as_str())?;
    put_bytes(text, fault.bytes.as_slice())?;
    put(text, "\n")
}

/// How many faults there are, and the least of them.
pub fn put_faults(
    alloc: Global,
    text: &mut Bytes,
    faults: u64,
    least: &Fault,
) -> Result<(), NoMemory>
    ensures { OnOk result (text.new ≡ text.old ++ (faults_line faults ++ least_line least.now)) }
{
    put(text, faults_line(alloc, faults)?.as_str())?;
    put_least(alloc, text, least)
}
