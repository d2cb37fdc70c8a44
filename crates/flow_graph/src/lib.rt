//! Flows: operators with their options, the links between them, and what is known of a link.
#![tactic(auto)]

mod columns;
mod flow;
pub mod laws;
mod op_kind;
mod parts;
mod route;
mod shaped;
mod state;

pub use columns::{ColSet, columns_of, is_in, lies};
pub use flow::{Flag, Flow, LinkSpec, Mark, Method, OpSpec};
pub use op_kind::{AggSpec, OpKind, SetSpec};
pub use parts::{OpParts, Stored};
pub use route::{Choice, Route};
pub use shaped::Shaped;
pub use state::{Spot, State};
