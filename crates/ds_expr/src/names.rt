//! The functions that words and signs name.

ghost use Rattle.std.specs.Prelude.{◌≡◌};
ghost use Rattle.std.specs.Str.{bytes_eq};
ghost use Rattle.ds_expr.specs.Names.{fn_named, infix_name, prefix_name};

use expr_read::{Infix, Prefix};
use expr_table::FnName;

pub fn is(word: &[u8], name: &[u8]) -> bool
    ensures { result ≡ bytes_eq word.now name.now }
{
    word == name
}

/// The function whose name stands before a bracket.
#[tactic(auto, unfolding(crate::specs::Names::fn_named))]
pub fn fn_named(word: &[u8]) -> Option<FnName>
    ensures { result ≡ fn_named word.now }
{
    if is(word, b"isnull") {
        Some(FnName::IsNull)
    } else if is(word, b"ifnull") {
        Some(FnName::IfNull)
    } else if is(word, b"if") {
        Some(FnName::If)
    } else if is(word, b"abs") {
        Some(FnName::Abs)
    } else if is(word, b"sign") {
        Some(FnName::Sign)
    } else if is(word, b"round") {
        Some(FnName::Round)
    } else if is(word, b"least") {
        Some(FnName::Least)
    } else if is(word, b"greatest") {
        Some(FnName::Greatest)
    } else if is(word, b"length") {
        Some(FnName::Length)
    } else if is(word, b"concat") {
        Some(FnName::Concat)
    } else if is(word, b"substr") {
        Some(FnName::Substr)
    } else if is(word, b"trim") {
        Some(FnName::Trim)
    } else if is(word, b"text") {
        Some(FnName::Text)
    } else if is(word, b"year") {
        Some(FnName::Year)
    } else if is(word, b"month") {
        Some(FnName::Month)
    } else if is(word, b"day") {
        Some(FnName::Day)
    } else if is(word, b"daynumber") {
        Some(FnName::DayNumber)
    } else if is(word, b"adddays") {
        Some(FnName::AddDays)
    } else {
        None
    }
}

pub fn infix_name(sign: Infix) -> FnName
    ensures { result ≡ infix_name sign }
{
    match sign {
        Infix::Or => FnName::Or,
        Infix::And => FnName::And,
        Infix::Equal => FnName::Equal,
        Infix::NotEqual => FnName::NotEqual,
        Infix::Less => FnName::Less,
        Infix::LessEqual => FnName::AtMost,
        Infix::Greater => FnName::Greater,
        Infix::GreaterEqual => FnName::AtLeast,
        Infix::Plus => FnName::Plus,
        Infix::Minus => FnName::Minus,
        Infix::Times => FnName::Times,
        Infix::Over => FnName::Divide,
        Infix::Rest => FnName::Remainder,
    }
}

pub fn prefix_name(sign: Prefix) -> FnName
    ensures { result ≡ prefix_name sign }
{
    match sign {
        Prefix::Minus => FnName::Minus,
        Prefix::Not => FnName::Not,
    }
}
