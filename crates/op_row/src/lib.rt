//! The operators that work row by row.
#![tactic(auto)]

mod copying;
mod faulting;
mod keeping;
pub mod laws;
mod makers;
mod setting;
mod sifting;
mod switching;
mod transforming;

pub use copying::Copier;
pub use keeping::Modify;
pub use makers::{copier, filter, modify, switcher, transform};
pub use setting::Set;
pub use sifting::Filter;
pub use switching::Switcher;
pub use transforming::Transform;
