use crate::Need;
use ds_value::Items;
use flow_graph::{Choice, State};

/// What the checker says of a flow: the state and the choice for each link, or the least link
/// that misses a part of a need, its first missed part, and the state that misses it.
#[derive(Debug, Drop)]
pub enum Verdict {
    Accepted {
        states: Items<State>,
        choices: Items<Choice>,
    },
    Refused {
        link: u32,
        need: Need,
        have: State,
    },
}
