//! What a run needs of a flow and a configuration, and the texts that tell of it.
#![tactic(auto)]

mod columns;
mod degrees;
mod lines;
mod links;
mod score;
mod score_lines;
mod states;
mod verdict;

pub use degrees::{MOST_PLAYERS, ScoreFault, degree, players, seat};
pub use score::score_text;
pub use verdict::verdict_text;
