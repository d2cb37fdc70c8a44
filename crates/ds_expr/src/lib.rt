//! Expressions over a schema: typed, evaluated on rows, assigned to fields.
#![tactic(auto)]

mod assigning;
mod checking;
mod evaluating;
mod fault;
mod laws;
mod literal;
mod names;
mod node;
mod typed;
mod typing;

pub use assigning::{assign, can_assign};
pub use checking::check;
pub use evaluating::eval;
pub use expr_read::{Expr, ExprFault, Infix, Link, Prefix, parse};
pub use expr_table::{Arg, EvalFault, Shape};
pub use fault::TypeFault;
pub use laws::dates_are_spelled;
pub use node::{Applied, Node, Typing};
pub use typed::{Typed, copy_typed, shape_of};
