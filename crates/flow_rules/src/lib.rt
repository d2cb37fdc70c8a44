//! What the checker infers of a flow's links, and why it may be believed.
#![tactic(auto)]

mod checker;
pub mod laws;
mod need;
mod needs;
mod routed;
mod verdict;

pub use checker::{choices, infer};
pub use need::Need;
pub use routed::is_routed;
pub use verdict::Verdict;
