//! What the crates of operators share: faults, what an operator emits, the trait of operators,
//! and the definitions of what they mean.
#![tactic(auto)]

mod emit;
mod fault;
pub mod laws;
mod missing;
mod operator;
mod whole_list;

pub use emit::{Emit, Sent};
pub use fault::{Fault, FaultKind, fault_cmp};
pub use missing::Missing;
pub use operator::{Operator, Want};
pub use whole_list::run_list;
