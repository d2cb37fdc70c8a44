//! What a call of the program may come to, and the texts that tell of it.
#![tactic(auto)]

mod built_flow;
mod reports;
mod say;

pub use built_flow::is_built;
pub use reports::{put, put_count, put_faults};
pub use say::{absent_line, config_line, flow_line, mismatch_line, players_line, shape_line};
