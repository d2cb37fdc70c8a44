//! Reading a configuration.
#![tactic(auto)]

mod config;
mod entry;
mod fault;
pub mod laws;
mod node;
mod quoted;
mod whole;

pub use config::{Config, Node, default_nodes, is_default};
pub use fault::{ConfigFault, ConfigWhy};
pub use whole::read_config;
