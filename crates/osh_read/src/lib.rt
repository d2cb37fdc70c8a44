//! Reading flows.
#![tactic(auto)]

mod fault;
mod flow;
mod links;
mod method;
mod options;
mod stage;
mod stages;
mod token;

pub use fault::{OshFault, OshWhy};
pub use flow::read_flow;
pub use stages::plain_mark;
