//! Rows as bytes, both ways, and batches of rows, which are kept as their bytes.
#![tactic(auto)]

mod batches;
pub mod laws;
mod make_batch;
mod message;
mod pack;
mod unpack;
mod value_bytes;

pub use batches::Batch;
pub use make_batch::batch;
pub use message::Msg;
pub use pack::pack_row;
pub use unpack::unpack_row;
