//! Expression trees.

use ds_value::Bytes;
use sqlite_items::{Boxed, Items};

/// A sign between two operands.
#[derive(Clone, Copy, Debug, PartialEq, Eq)]
pub enum Infix {
    Or,
    And,
    Equal,
    NotEqual,
    Less,
    LessEqual,
    Greater,
    GreaterEqual,
    Plus,
    Minus,
    Times,
    Over,
    Rest,
}

/// A sign before its operand.
#[derive(Clone, Copy, Debug, PartialEq, Eq)]
pub enum Prefix {
    Minus,
    Not,
}

/// A sign between two operands, with its place.
#[derive(Clone, Copy, Debug, PartialEq, Eq)]
pub struct Link {
    pub at: usize,
    pub sign: Infix,
}

/// An expression. Each node has the place of its own token: its literal, its column's name, the
/// name before its bracket, or its sign. Brackets make no node.
#[cycle(tree)]
#[derive(Debug, Drop)]
pub enum Expr {
    /// A number's digits, with its point.
    Number(usize, Bytes),
    /// What stands between the quotes.
    Quoted(usize, Bytes),
    Column(usize, Bytes),
    Call(usize, Bytes, Items<Expr>),
    Signed(usize, Prefix, Boxed<Expr>),
    /// Operands of signs of one level, taken together from the left. So a long sum is no deep tree.
    Chain(Boxed<Expr>, Items<(Link, Expr)>),
}
