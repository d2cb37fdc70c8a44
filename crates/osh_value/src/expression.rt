//! Expressions, of which the bytes are kept, and the columns that are set by them.

ghost use Rattle.std.specs.Prelude.{◌≡◌, ◌+◌, take, drop, IfOk};
ghost use Rattle.std.specs.Result.{is_ok};
ghost use Rattle.ds_lex.specs.Lexemes.{lexeme, lexemes};
ghost use Rattle.ds_lex.specs.Reading.{Moves};
ghost use Rattle.expr_read.specs.Reading.{expr_of};
ghost use Rattle.osh_value.specs.Values.{kept_expression, last_of, set_to, set_value, spanned, target_at};

use ds_lex::{Cursor, LexedText, Lexeme, Mode, Stop, lex};
use ds_schema::{Field, SchemaWhy, parse_field};
use ds_value::{Bytes, NoMemory};
use expr_read::{ExprFault, parse};
use flow_graph::SetSpec;
use std::alloc::Global;

/// The text up to the end of so many bytes at a place.
fn through(text: &[u8], at: usize, len: usize) -> &[u8]
    ensures { result.now ≡ take (at + len) text.now }
{
    if text.len() <= at || text.len() - at <= len {
        return text;
    }
    &text[..at + len]
}

/// The text from a place on.
fn from(text: &[u8], at: usize) -> &[u8]
    ensures { result.now ≡ drop at text.now }
{
    if text.len() <= at {
        return &[];
    }
    &text[at..]
}

/// The text behind the byte at a place.
fn behind(text: &[u8], at: usize) -> &[u8]
    ensures { result.now ≡ drop (at + 1) text.now }
{
    if text.len() <= at {
        return &[];
    }
    &text[at + 1..]
}

fn last_of<'a>(first: Lexeme<'a>, more: &[Lexeme<'a>]) -> Lexeme<'a>
    ensures { lexeme result ≡ last_of (lexeme first.entry) (lexemes more.now) }
{
    let mut last = first;
    for token in more {
        last = *token;
    }
    last
}

fn spanned<'a>(text: &'a [u8], tokens: &[Lexeme<'_>]) -> &'a [u8]
    ensures { result.now ≡ spanned text.now (lexemes tokens.now) }
{
    match tokens {
        [] => &[],
        [first, more @ ..] => {
            let last = last_of(*first, more);
            from(through(text, last.at, last.bytes.len()), first.at)
        }
    }
}

/// Whether the text spells an expression.
fn is_expression(alloc: Global, text: &[u8]) -> Result<bool, NoMemory>
    ensures { IfOk result (λ is. is ≡ is_ok (expr_of text.now)) }
{
    match parse(alloc, text) {
        Ok(_) => Ok(true),
        Err(ExprFault::Syntax { at: _ }) => Ok(false),
        Err(ExprFault::Memory) => Err(NoMemory),
    }
}

/// What is kept of an expression; none where the text spells none.
#[tactic(auto, unfolding(crate::specs::Values::kept_expression))]
pub fn kept_expression(alloc: Global, text: &[u8]) -> Result<Option<Bytes>, NoMemory>
    ensures { IfOk result (λ kept. kept ≡ kept_expression text.now) }
{
    if !is_expression(alloc, text)? {
        return Ok(None);
    }
    let LexedText { lexemes, bad: _ } = lex(alloc, Mode::Inner, text)?;
    let kept = Vec::from_slice(alloc, spanned(text, lexemes.as_slice()))?;
    Ok(Some(Bytes::from_vec(kept)))
}

/// The column that is set, and the place of the `=` behind it.
#[tactic(auto, unfolding(crate::specs::Values::target_at))]
fn target(alloc: Global, cursor: &mut Cursor<'_>) -> Result<(Field, usize), Stop<SchemaWhy>>
    ensures { Moves result cursor.new (target_at cursor.old) }
{
    let field = parse_field(alloc, cursor)?;
    let equals = cursor.expect(b"=", SchemaWhy::Syntax)?;
    Ok((field, equals.at))
}

fn set_to(alloc: Global, field: Field, text: &[u8]) -> Result<Option<SetSpec>, NoMemory>
    ensures { IfOk result (λ set. set ≡ set_to field (kept_expression text.now)) }
{
    match kept_expression(alloc, text)? {
        Some(expr) => Ok(Some(SetSpec { field, expr })),
        None => Ok(None),
    }
}

/// A column with the expression that sets it, where the text says one.
#[tactic(auto, unfolding(crate::specs::Values::set_value))]
pub fn set_value(alloc: Global, text: &[u8]) -> Result<Option<SetSpec>, NoMemory>
    ensures { IfOk result (λ set. set ≡ set_value text.now) }
{
    let LexedText { lexemes, bad: _ } = lex(alloc, Mode::Inner, text)?;
    let mut cursor = Cursor::new(lexemes.as_slice());
    match target(alloc, &mut cursor) {
        Ok((field, at)) => set_to(alloc, field, behind(text, at)),
        Err(Stop::Refused(_)) => Ok(None),
        Err(Stop::Memory) => Err(NoMemory),
    }
}
