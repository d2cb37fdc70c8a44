//! What tokens are to an expression.

ghost use Rattle.std.specs.Prelude.{◌≡◌};
ghost use Rattle.ds_lex.specs.Lexemes.{lexeme};
ghost use Rattle.expr_read.specs.Marks.{infix_of, joins, mark_of, what_of};

use crate::tree::Infix;
use ds_lex::{Lexeme, Sort};

#[derive(Clone, Copy, Debug, PartialEq, Eq)]
pub enum What {
    Number,
    Quoted,
    Word,
    Open,
    Close,
    Comma,
    Not,
    Sign(Infix),
    Other,
}

/// How tightly signs bind, the loosest first.
#[derive(Clone, Copy, Debug, PartialEq, Eq)]
pub enum Level {
    Or,
    And,
    Compare,
    Sum,
    Product,
}

fn infix_of(bytes: &[u8]) -> Option<Infix>
    ensures { result ≡ infix_of bytes.now }
{
    match bytes {
        b"||" => Some(Infix::Or),
        b"&&" => Some(Infix::And),
        b"==" => Some(Infix::Equal),
        b"!=" => Some(Infix::NotEqual),
        b"<" => Some(Infix::Less),
        b"<=" => Some(Infix::LessEqual),
        b">" => Some(Infix::Greater),
        b">=" => Some(Infix::GreaterEqual),
        b"+" => Some(Infix::Plus),
        b"-" => Some(Infix::Minus),
        b"*" => Some(Infix::Times),
        b"/" => Some(Infix::Over),
        b"%" => Some(Infix::Rest),
        _ => None,
    }
}

fn mark_of(bytes: &[u8]) -> What
    ensures { result ≡ mark_of bytes.now }
{
    match bytes {
        b"(" => What::Open,
        b")" => What::Close,
        b"," => What::Comma,
        b"!" => What::Not,
        _ => match infix_of(bytes) {
            Some(sign) => What::Sign(sign),
            None => What::Other,
        },
    }
}

/// What the token is.
pub fn what_of(token: Lexeme<'_>) -> What
    ensures { result ≡ what_of (lexeme token.entry) }
{
    match token.sort {
        Sort::Number => What::Number,
        Sort::Quoted => What::Quoted,
        Sort::Word => What::Word,
        Sort::Sign => mark_of(token.bytes),
        Sort::Opt => What::Other,
    }
}

/// Whether the sign joins operands of the level.
pub fn joins(level: Level, sign: Infix) -> bool
    ensures { result ≡ joins level sign }
{
    match level {
        Level::Or => matches!(sign, Infix::Or),
        Level::And => matches!(sign, Infix::And),
        Level::Compare => matches!(
            sign,
            Infix::Equal
                | Infix::NotEqual
                | Infix::Less
                | Infix::LessEqual
                | Infix::Greater
                | Infix::GreaterEqual
        ),
        Level::Sum => matches!(sign, Infix::Plus | Infix::Minus),
        Level::Product => matches!(sign, Infix::Times | Infix::Over | Infix::Rest),
    }
}
