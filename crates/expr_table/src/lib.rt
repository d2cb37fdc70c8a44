//! The table of the functions and operators of expressions, and their exact values.
#![tactic(auto)]

mod applied;
mod arg;
mod arithmetic;
mod choose;
mod compare;
mod dates;
mod entry;
mod find;
mod holder;
mod laws;
mod number;
mod rows;
mod scale;
mod single;
mod texts;

pub use applied::apply;
pub use arg::{Arg, EvalFault};
pub use entry::{Entry, FnName, Shape};
pub use find::find_row;
pub use holder::Table;
pub use laws::{nulls_are_exact, results_fit};
pub use rows::table;
pub use scale::result_scale;
