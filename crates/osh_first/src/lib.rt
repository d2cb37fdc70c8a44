//! Where a text that is refused stops being a flow: each function does nothing, and its contract
//! is the law.
#![tactic(auto)]

mod laws;

pub use laws::refused_texts_stop;
