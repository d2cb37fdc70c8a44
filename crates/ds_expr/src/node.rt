//! Typed expressions.

use expr_table::{Arg, FnName, Shape};
use sqlite_items::{Boxed, Items};

/// What is known of a node: its shape, its scale, which is 0 where the shape isn't Num, and the
/// number that it is, where it is a literal without a point.
#[derive(Clone, Copy, Debug, PartialEq, Eq)]
pub struct Typing {
    pub shape: Shape,
    pub scale: u8,
    pub literal: Option<u128>,
}

/// A row of the table, with the scales of the arguments to which it is applied.
#[derive(Debug, Drop)]
pub struct Applied {
    pub name: FnName,
    pub row: u32,
    pub scales: Items<u8>,
}

/// A node of a typed expression.
#[cycle(node)]
#[derive(Debug, Drop)]
pub enum Node {
    /// A text, a date, or a number of units of this scale.
    Literal(Arg, u8),
    Column(u32),
    Call(Applied, Items<Node>),
    /// Rows of two arguments, applied from the left.
    Chain(Boxed<Node>, Items<(Applied, Node)>),
}

/// A node, and what is known of it.
#[derive(Debug, Drop)]
pub struct TypedNode {
    pub node: Node,
    pub typing: Typing,
}

/// Nodes, and what is known of each.
#[derive(Debug, Drop)]
pub struct Nodes {
    pub nodes: Items<Node>,
    pub typings: Items<Typing>,
}

/// A row that is applied, and what is known of its result.
#[derive(Debug, Drop)]
pub struct Use {
    pub applied: Applied,
    pub typing: Typing,
}

/// Operands that are joined from the left, and what is known of them together.
#[derive(Debug, Drop)]
pub struct Joined {
    pub first: Node,
    pub links: Items<(Applied, Node)>,
    pub typing: Typing,
}
