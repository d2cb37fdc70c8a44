//! Reading the type of a field.

ghost use Rattle.std.specs.Prelude.{◌≡◌, ◌≤◌, Some, None, IfOk, if◌then◌else◌};
ghost use Rattle.std.specs.Str.Parse.{digits_value};
ghost use Rattle.ds_lex.specs.Lexemes.{lexeme};
ghost use Rattle.ds_lex.specs.Reading.{moved};
ghost use Rattle.ds_schema.specs.SchemaReading.{decimal_at, equals_at, fixed_at, is_size, kind_at, kind_behind, length_at, no_type, plain_kind, scale_at, size_at, text_at};

use crate::schema_text::fault::SchemaWhy;
use ds_lex::{Cursor, Lexeme, Refusal, Sort, is_digit};
use ds_value::Kind;

/// A number from low to high, in digits alone. Zeros may lead.
pub fn size_of(low: u32, high: u32, bytes: &[u8]) -> Option<u32>
    ensures { result ≡ (if is_size low high bytes.now then Some (digits_value 10 bytes.now) else None) }
{
    let mut value: u32 = 0;
    for byte in bytes {
        if !is_digit(*byte) {
            return None;
        }
        let more = u64::from(value) * 10 + u64::from(*byte - b'0');
        if u64::from(high) < more {
            return None;
        }
        value = more as u32;
    }
    if bytes.is_empty() || value < low {
        return None;
    }
    Some(value)
}

pub fn refuse<W>(token: Lexeme<'_>, why: W) -> Refusal<W>
    ensures { result ≡ Refusal.At token.entry.at why }
{
    Refusal::At { at: token.at, why }
}

#[tactic(auto, unfolding(crate::specs::SchemaReading::size_at))]
fn size(low: u32, high: u32, cursor: &mut Cursor<'_>) -> Result<u32, Refusal<SchemaWhy>>
    ensures read { moved result cursor.new ≡ size_at low high cursor.old }
    ensures bound { IfOk result (λ n. n ≤ high) }
{
    let number = cursor.expect_sort(Sort::Number, SchemaWhy::Syntax)?;
    match size_of(low, high, number.bytes) {
        Some(value) => Ok(value),
        None => Err(refuse(number, SchemaWhy::Size)),
    }
}

#[tactic(auto, unfolding(crate::specs::SchemaReading::scale_at))]
fn scale(p: u32, cursor: &mut Cursor<'_>) -> Result<u32, Refusal<SchemaWhy>>
    requires { p ≤ 38 }
    ensures read { moved result cursor.new ≡ scale_at p cursor.old }
    ensures bound { IfOk result (λ s. s ≤ p) }
{
    if cursor.accept(b",") {
        return size(0, p, cursor);
    }
    Ok(0)
}

#[tactic(auto, unfolding(crate::specs::SchemaReading::decimal_at))]
fn decimal(cursor: &mut Cursor<'_>) -> Result<Kind, Refusal<SchemaWhy>>
    ensures { moved result cursor.new ≡ decimal_at cursor.old }
{
    cursor.expect(b"[", SchemaWhy::Syntax)?;
    let p = size(1, 38, cursor)?;
    let s = scale(p, cursor)?;
    cursor.expect(b"]", SchemaWhy::Syntax)?;
    Ok(Kind::Dec {
        p: p as u8,
        s: s as u8,
    })
}

#[tactic(auto, unfolding(crate::specs::SchemaReading::fixed_at, crate::specs::SchemaReading::equals_at))]
fn fixed(cursor: &mut Cursor<'_>) -> Result<bool, Refusal<SchemaWhy>>
    ensures { moved result cursor.new ≡ fixed_at cursor.old }
{
    if cursor.accept(b"max") {
        cursor.expect(b"=", SchemaWhy::Syntax)?;
        return Ok(false);
    }
    Ok(true)
}

#[tactic(auto, unfolding(crate::specs::SchemaReading::length_at))]
fn length(cursor: &mut Cursor<'_>) -> Result<Kind, Refusal<SchemaWhy>>
    ensures { moved result cursor.new ≡ length_at cursor.old }
{
    let fixed = fixed(cursor)?;
    let max = size(1, 65536, cursor)?;
    cursor.expect(b"]", SchemaWhy::Syntax)?;
    Ok(Kind::Text { max, fixed })
}

#[tactic(auto, unfolding(crate::specs::SchemaReading::text_at))]
fn text(cursor: &mut Cursor<'_>) -> Result<Kind, Refusal<SchemaWhy>>
    ensures { moved result cursor.new ≡ text_at cursor.old }
{
    if cursor.accept(b"[") {
        return length(cursor);
    }
    Ok(Kind::Text {
        max: 4096,
        fixed: false,
    })
}

fn plain_kind(word: &[u8]) -> Option<Kind>
    ensures { result ≡ plain_kind word.now }
{
    match word {
        b"int8" => Some(Kind::Int(8)),
        b"int16" => Some(Kind::Int(16)),
        b"int32" => Some(Kind::Int(32)),
        b"int64" => Some(Kind::Int(64)),
        b"uint8" => Some(Kind::UInt(8)),
        b"uint16" => Some(Kind::UInt(16)),
        b"uint32" => Some(Kind::UInt(32)),
        b"uint64" => Some(Kind::UInt(64)),
        b"date" => Some(Kind::Date),
        _ => None,
    }
}

fn no_type(word: Lexeme<'_>) -> SchemaWhy
    ensures { result ≡ no_type (lexeme word.entry) }
{
    match word.sort {
        Sort::Word => SchemaWhy::NoType,
        _ => SchemaWhy::Syntax,
    }
}

#[tactic(auto, unfolding(crate::specs::SchemaReading::kind_behind))]
fn kind_behind(word: Lexeme<'_>, cursor: &mut Cursor<'_>) -> Result<Kind, Refusal<SchemaWhy>>
    ensures { moved result cursor.new ≡ kind_behind (plain_kind word.entry.bytes.now) (lexeme word.entry) cursor.old }
{
    if let Some(kind) = plain_kind(word.bytes) {
        return Ok(kind);
    }
    if word.bytes == b"decimal".as_slice() {
        return decimal(cursor);
    }
    if word.bytes == b"string".as_slice() {
        return text(cursor);
    }
    Err(refuse(word, no_type(word)))
}

/// The type of a field.
#[tactic(auto, unfolding(crate::specs::SchemaReading::kind_at))]
pub fn parse_kind(cursor: &mut Cursor<'_>) -> Result<Kind, Refusal<SchemaWhy>>
    ensures { moved result cursor.new ≡ kind_at cursor.old }
{
    let word = cursor.token::<SchemaWhy>()?;
    kind_behind(word, cursor)
}
