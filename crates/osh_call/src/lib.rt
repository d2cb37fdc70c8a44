//! The stages of a call of the program.
#![tactic(auto)]

mod answer;
mod checking;
mod err_line;
mod stages;
mod telling;

pub use answer::Answer;
pub use checking::{judged, shaped};
pub use err_line::{say, status};
pub use stages::{absent, flow_at, nodes_at};
pub use telling::{check, tell};
