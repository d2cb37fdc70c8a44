//! What is known of an operator's outputs and of a flow's links.
#![tactic(auto)]

mod carry;
mod outline;
mod outputs;
mod places;
mod routes;
mod rows;
mod sorts;
mod states;

pub use outline::{Outline, keys_of, outline_at};
pub use places::{agrees_in, key_place, placed_in, same_place};
pub use rows::{first_state, no_state};
pub use sorts::no_keys;
pub use states::{
    all_states, choice_at, into_seq, link_at, link_count, links_into, output_at, state_at,
    states_at,
};
