//! The values of options.
#![tactic(auto)]

mod cases;
mod expression;
mod laws;
mod lists;
mod name;
mod setting;
mod value;

pub use laws::one_value_is_spelled;
pub use name::{content, name_of, owned_name, push};
pub use setting::{Setting, kind_of};
pub use value::{OptValue, value_of};
