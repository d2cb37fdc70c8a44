//! Reading methods.

ghost use Rattle.std.specs.Prelude.{◌≡◌};
ghost use Rattle.ds_lex.specs.Lexemes.{lexeme};
ghost use Rattle.ds_lex.specs.Reading.{Moves};
ghost use Rattle.osh_read.specs.Methods.{behind_at, bracket_at, closed_at, flag_at, flag_named, kind_at, method_at, method_named};

use crate::fault::OshWhy;
use crate::token::refuse;
use ds_lex::{Cursor, Lexeme, Sort, Stop};
use ds_schema::{parse_keys, parse_name, parse_names};
use flow_graph::{Flag, Method};
use std::alloc::Global;

fn flag_named(word: &[u8]) -> Option<Flag>
    ensures { result ≡ flag_named word.now }
{
    if word == b"set".as_slice() {
        Some(Flag::Set)
    } else if word == b"clear".as_slice() {
        Some(Flag::Clear)
    } else if word == b"prop".as_slice() {
        Some(Flag::Prop)
    } else {
        None
    }
}

/// The method without names that is called so.
fn method_named(word: &[u8]) -> Option<Method>
    ensures { result ≡ method_named word.now }
{
    if word == b"auto".as_slice() {
        Some(Method::Auto)
    } else if word == b"same".as_slice() {
        Some(Method::Same)
    } else if word == b"rr".as_slice() {
        Some(Method::RoundRobin)
    } else if word == b"entire".as_slice() {
        Some(Method::Entire)
    } else if word == b"any".as_slice() {
        Some(Method::Any)
    } else if word == b"ordered".as_slice() {
        Some(Method::Ordered)
    } else {
        None
    }
}

/// What a kind of method takes.
#[tactic(auto, unfolding(crate::specs::Methods::kind_at))]
fn kind(alloc: Global, word: Lexeme<'_>, cursor: &mut Cursor<'_>) -> Result<Method, Stop<OshWhy>>
    ensures { Moves result cursor.new (kind_at (lexeme word.entry) cursor.old) }
{
    if word.bytes == b"hash".as_slice() {
        return Ok(Method::Hash(parse_names(alloc, cursor, OshWhy::Syntax)?));
    }
    if word.bytes == b"modulus".as_slice() {
        return Ok(Method::Modulus(parse_name(alloc, cursor, OshWhy::Syntax)?));
    }
    if word.bytes == b"merge".as_slice() {
        return Ok(Method::Merge(parse_keys(alloc, cursor, OshWhy::Syntax)?));
    }
    match method_named(word.bytes) {
        Some(method) => Ok(method),
        None => Err(refuse(word, OshWhy::Syntax)),
    }
}

/// A flag, where one comes.
#[tactic(auto, unfolding(crate::specs::Methods::flag_at))]
fn flag(cursor: &mut Cursor<'_>) -> Flag
    ensures { (result, cursor.new) ≡ flag_at cursor.old }
{
    if cursor.accept(b"set") {
        return Flag::Set;
    }
    if cursor.accept(b"clear") {
        return Flag::Clear;
    }
    let _written = cursor.accept(b"prop");
    Flag::Prop
}

#[tactic(auto, unfolding(crate::specs::Methods::closed_at))]
fn closed(
    method: Method,
    flag: Flag,
    cursor: &mut Cursor<'_>,
) -> Result<(Method, Flag), Stop<OshWhy>>
    ensures { Moves result cursor.new (closed_at method flag cursor.old) }
{
    cursor.expect(b"]", OshWhy::Syntax)?;
    Ok((method, flag))
}

/// Behind the bracket of a method.
#[tactic(auto, unfolding(crate::specs::Methods::bracket_at, crate::specs::Methods::behind_at))]
fn bracket(alloc: Global, cursor: &mut Cursor<'_>) -> Result<(Method, Flag), Stop<OshWhy>>
    ensures { Moves result cursor.new (bracket_at cursor.old) }
{
    let word = cursor.expect_sort(Sort::Word, OshWhy::Syntax)?;
    match flag_named(word.bytes) {
        Some(flag) => closed(Method::Auto, flag, cursor),
        None => {
            let kind = kind(alloc, word, cursor)?;
            let flag = flag(cursor);
            closed(kind, flag, cursor)
        }
    }
}

/// A method, where one comes.
#[tactic(auto, unfolding(crate::specs::Methods::method_at))]
pub fn method(alloc: Global, cursor: &mut Cursor<'_>) -> Result<(Method, Flag), Stop<OshWhy>>
    ensures { Moves result cursor.new (method_at cursor.old) }
{
    if cursor.accept(b"[") {
        return bracket(alloc, cursor);
    }
    Ok((Method::Auto, Flag::Prop))
}
