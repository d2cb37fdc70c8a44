//! Messages, and the ways of a player: a lane is a way out, a queue a way in.
#![tactic(auto)]

mod link;
mod list_link;
mod list_queue;
mod net;
mod parcel;

pub use link::Link;
pub use list_link::ListLink;
pub use list_queue::ListQueue;
pub use net::{ListNet, QueueShape, Seat, list_net};
pub use parcel::{Full, Parcel};
