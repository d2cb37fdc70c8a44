//! Expressions from tokens. A reader that doesn't go on leaves its cursor at the token with which it doesn't.

ghost use Rattle.std.specs.Prelude.{◌≡◌, [], IfOk, length};
ghost use Rattle.ds_lex.specs.Lexemes.{lexeme};
ghost use Rattle.expr_read.specs.Reading.{Moves, args_at, behind, bracket_at, call_from, chain_at, chained, close_at, closed, closes, comma_at, content, inner_at, is_comma, link_at, links_at, most_links, named_from, next_what, opens, part_at, signed_at, unary_at};

use crate::halt::Halt;
use crate::tree::{Expr, Infix, Link, Prefix};
use crate::what::{Level, What, joins, what_of};
use ds_lex::{Cursor, Lexeme};
use ds_value::Bytes;
use sqlite_items::{Boxed, Items};
use std::alloc::{AllocError, Global};

fn skip(cursor: &mut Cursor<'_>)
    ensures { cursor.new ≡ behind cursor.old }
{
    match cursor.rest() {
        [] => {}
        [_, more @ ..] => *cursor = Cursor::new(more),
    }
}

/// What the next token is.
fn next(cursor: &Cursor<'_>) -> What
    ensures { result ≡ next_what cursor.now }
{
    match cursor.rest() {
        [] => What::Other,
        [token, ..] => what_of(*token),
    }
}

/// The sign of the level that comes, if one does.
fn link(cursor: &Cursor<'_>, level: Level) -> Option<Link>
    ensures { result ≡ link_at level cursor.now }
{
    match cursor.rest() {
        [] => None,
        [token, ..] => match what_of(*token) {
            What::Sign(sign) if joins(level, sign) => Some(Link { at: token.at, sign }),
            _ => None,
        },
    }
}

fn most_links(level: Level, len: usize) -> usize
    ensures { result ≡ most_links level len }
{
    match level {
        Level::Compare => 1,
        _ => len,
    }
}

fn copied(alloc: Global, bytes: &[u8]) -> Result<Bytes, AllocError>
    ensures { IfOk result (λ copy. copy ≡ bytes.now) }
{
    Ok(Bytes::from_vec(Vec::from_slice(alloc, bytes)?))
}

fn content(bytes: &[u8]) -> &[u8]
    ensures { result.now ≡ content bytes.now }
{
    match bytes {
        [_, inside @ .., _] => inside,
        _ => &[],
    }
}

fn chained(alloc: Global, first: Expr, links: Items<(Link, Expr)>) -> Result<Expr, AllocError>
    ensures { IfOk result (λ e. e ≡ chained first links) }
{
    if links.is_empty() {
        return Ok(first);
    }
    Ok(Expr::Chain(Boxed::new(alloc, first)?, links))
}

fn opens(what: What) -> bool
    ensures { result ≡ opens what }
{
    matches!(what, What::Open)
}

fn closes(what: What) -> bool
    ensures { result ≡ closes what }
{
    matches!(what, What::Close)
}

fn is_comma(what: What) -> bool
    ensures { result ≡ is_comma what }
{
    matches!(what, What::Comma)
}

/// Passes over a closing bracket.
fn close(cursor: &mut Cursor<'_>) -> Result<(), Halt>
    ensures { Moves result cursor.new (close_at cursor.old) }
{
    if !closes(next(cursor)) {
        return Err(Halt::Stuck);
    }
    skip(cursor);
    Ok(())
}

/// Passes over a comma, where one comes.
fn comma(cursor: &mut Cursor<'_>) -> bool
    ensures { (result, cursor.new) ≡ comma_at cursor.old }
{
    let comes = is_comma(next(cursor));
    if comes {
        skip(cursor);
    }
    comes
}

/// Arguments before a closing bracket.
fn closed(args: Items<Expr>, cursor: &mut Cursor<'_>) -> Result<Items<Expr>, Halt>
    ensures { Moves result cursor.new (closed (args, cursor.old)) }
{
    close(cursor)?;
    Ok(args)
}

/// Operands of a level, with its signs between them.
#[cycle(grammar)]
#[tactic(auto, unfolding(crate::specs::Reading::chain_from))]
pub fn chain(alloc: Global, depth: u8, level: Level, cursor: &mut Cursor<'_>) -> Result<Expr, Halt>
    ensures { Moves result cursor.new (chain_at depth level cursor.old) }
{
    let first = part(alloc, depth, level, cursor)?;
    let most = most_links(level, cursor.len());
    let links = links(alloc, depth, level, most, cursor)?;
    Ok(chained(alloc, first, links)?)
}

#[cycle(grammar)]
fn links(
    alloc: Global,
    depth: u8,
    level: Level,
    most: usize,
    cursor: &mut Cursor<'_>,
) -> Result<Items<(Link, Expr)>, Halt>
    ensures { Moves result cursor.new (links_at most level (part_at depth level) [] cursor.old) }
{
    let mut found = Items::new(alloc);
    for _round in 0..most {
        let Some(link) = link(cursor, level) else {
            return Ok(found);
        };
        skip(cursor);
        let operand = match part(alloc, depth, level, cursor) {
            Ok(operand) => operand,
            Err(halt) => return Err(halt),
        };
        found.push((link, operand))?;
    }
    Ok(found)
}

/// An operand of a level.
#[cycle(grammar)]
fn part(alloc: Global, depth: u8, level: Level, cursor: &mut Cursor<'_>) -> Result<Expr, Halt>
    ensures { Moves result cursor.new (part_at depth level cursor.old) }
{
    match level {
        Level::Or => chain(alloc, depth, Level::And, cursor),
        Level::And => chain(alloc, depth, Level::Compare, cursor),
        Level::Compare => chain(alloc, depth, Level::Sum, cursor),
        Level::Sum => chain(alloc, depth, Level::Product, cursor),
        Level::Product => unary(alloc, depth, cursor),
    }
}

/// A sign with its operand, brackets, a literal, a column or a call. Inside it at most `depth`
/// brackets and signs are open at an atom.
#[cycle(grammar)]
#[tactic(auto, using(crate::proofs::Operands::unary_is))]
fn unary(alloc: Global, depth: u8, cursor: &mut Cursor<'_>) -> Result<Expr, Halt>
    ensures { Moves result cursor.new (unary_at depth cursor.old) }
{
    let Some(token) = cursor.peek() else {
        return Err(Halt::Stuck);
    };
    match what_of(token) {
        What::Number => {
            skip(cursor);
            Ok(Expr::Number(token.at, copied(alloc, token.bytes)?))
        }
        What::Quoted => {
            skip(cursor);
            Ok(Expr::Quoted(token.at, copied(alloc, content(token.bytes))?))
        }
        What::Word => {
            skip(cursor);
            named(alloc, depth, token, cursor)
        }
        What::Open => bracket(alloc, depth, cursor),
        What::Not => signed(alloc, depth, Prefix::Not, token.at, cursor),
        What::Sign(Infix::Minus) => signed(alloc, depth, Prefix::Minus, token.at, cursor),
        _ => Err(Halt::Stuck),
    }
}

/// A sign, which comes, with its operand.
#[cycle(grammar)]
#[tactic(auto, unfolding(crate::specs::Reading::signed_at))]
fn signed(
    alloc: Global,
    depth: u8,
    sign: Prefix,
    at: usize,
    cursor: &mut Cursor<'_>,
) -> Result<Expr, Halt>
    ensures { Moves result cursor.new (signed_at depth sign at cursor.old) }
{
    if depth == 0 {
        return Err(Halt::Stuck);
    }
    skip(cursor);
    let operand = unary(alloc, depth - 1, cursor)?;
    Ok(Expr::Signed(at, sign, Boxed::new(alloc, operand)?))
}

/// Brackets, of which the first comes.
#[cycle(grammar)]
#[tactic(auto, unfolding(crate::specs::Reading::bracket_at))]
fn bracket(alloc: Global, depth: u8, cursor: &mut Cursor<'_>) -> Result<Expr, Halt>
    ensures { Moves result cursor.new (bracket_at depth cursor.old) }
{
    if depth == 0 {
        return Err(Halt::Stuck);
    }
    skip(cursor);
    let inside = chain(alloc, depth - 1, Level::Or, cursor)?;
    close(cursor)?;
    Ok(inside)
}

/// A column, or a call where a bracket comes.
#[cycle(grammar)]
#[tactic(auto, unfolding(crate::specs::Reading::named_from))]
fn named(alloc: Global, depth: u8, name: Lexeme<'_>, cursor: &mut Cursor<'_>) -> Result<Expr, Halt>
    ensures { Moves result cursor.new (named_from (inner_at depth) (lexeme name.entry) cursor.old) }
{
    let at = name.at;
    let bytes = copied(alloc, name.bytes)?;
    if !opens(next(cursor)) {
        return Ok(Expr::Column(at, bytes));
    }
    skip(cursor);
    let args = call(alloc, depth, cursor)?;
    Ok(Expr::Call(at, bytes, args))
}

/// The arguments of a call up to its closing bracket, behind the opening one.
#[cycle(grammar)]
#[tactic(auto, unfolding(crate::specs::Reading::call_from))]
fn call(alloc: Global, depth: u8, cursor: &mut Cursor<'_>) -> Result<Items<Expr>, Halt>
    ensures { Moves result cursor.new (call_from (inner_at depth) cursor.old) }
{
    if closes(next(cursor)) {
        skip(cursor);
        return Ok(Items::new(alloc));
    }
    args(alloc, depth, cursor)
}

/// One or more arguments.
#[cycle(grammar)]
fn args(alloc: Global, depth: u8, cursor: &mut Cursor<'_>) -> Result<Items<Expr>, Halt>
    ensures { Moves result cursor.new (args_at (length cursor.old) (inner_at depth) [] cursor.old) }
{
    let count = cursor.len();
    let mut found = Items::new(alloc);
    for _round in 0..count {
        let arg = match inner(alloc, depth, cursor) {
            Ok(arg) => arg,
            Err(halt) => return Err(halt),
        };
        found.push(arg)?;
        if !comma(cursor) {
            return closed(found, cursor);
        }
    }
    Err(Halt::Stuck)
}

/// An expression inside brackets, where there is room for one.
#[cycle(grammar)]
#[tactic(auto, unfolding(crate::specs::Reading::inner_at))]
fn inner(alloc: Global, depth: u8, cursor: &mut Cursor<'_>) -> Result<Expr, Halt>
    ensures { Moves result cursor.new (inner_at depth cursor.old) }
{
    if depth == 0 {
        return Err(Halt::Stuck);
    }
    chain(alloc, depth - 1, Level::Or, cursor)
}
