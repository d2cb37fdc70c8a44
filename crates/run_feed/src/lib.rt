//! From an accepted verdict to the lists of a run: the files that imports read, their rows, and
//! the run over them.
#![tactic(auto)]

mod fault;
mod feeding;
mod finding;
mod imports;
mod inputs;
mod links;

pub use fault::InputFault;
pub use feeding::feed;
pub use finding::find_inputs;
pub use inputs::{Inputs, settle_inputs};
