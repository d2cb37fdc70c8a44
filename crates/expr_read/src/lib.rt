//! Expressions as trees, and reading them from text.
#![tactic(auto)]

mod fault;
mod halt;
pub mod laws;
mod operand;
mod tree;
mod what;
mod whole;

pub use fault::ExprFault;
pub use tree::{Expr, Infix, Link, Prefix};
pub use whole::parse;
