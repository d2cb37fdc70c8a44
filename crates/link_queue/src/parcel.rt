//! Messages on their way.
use ds_pack::Msg;

/// A message in a queue, and the partition that put it there.
#[derive(Drop)]
pub struct Parcel {
    pub from: u32,
    pub msg: Msg,
}

/// The message that found its queue full.
#[derive(Drop)]
pub struct Full {
    pub back: Msg,
}
