//! One queue as a list.
ghost use Rattle.std.specs.Prelude.{◌≡◌, ◌<◌, ◌≤◌, [], ◌∷◌, ◌++◌, length, MatchResult, MatchOption, IfOk};
ghost use Rattle.link_queue.specs.Told.{Fits, FitsMsg};

use crate::parcel::{Full, Parcel};
use ds_pack::Msg;
use ds_schema::Schema;
use ds_value::NoMemory;
use std::alloc::Global;
use std::collections::VecDeque;
use std::marker::Model;

/// A queue: the schema of its link, its producer's degree, and room for its capacity.
#[derive(Drop)]
pub struct ListQueue {
    list: VecDeque<Parcel>,
    cap: usize,
    schema: Schema,
    degree: u32,
}

impl Model for ListQueue {
    ghost use Rattle.link_queue.specs.Queues.{Queue, queue_told, QueueHolds};

    ghost Value = { Queue };

    ghost view = { queue_told };

    ghost invariant = { QueueHolds };
}

impl ListQueue {
    /// An empty queue. Its room is made here, so that a put takes no memory.
    pub fn new(
        alloc: Global,
        cap: usize,
        schema: Schema,
        degree: u32,
    ) -> Result<ListQueue, NoMemory>
        ensures { IfOk result (λ q. q ≡ record { capacity = cap; schema = schema; degree = degree; parcels = [] }) }
    {
        let list = VecDeque::with_capacity(alloc, cap)?;
        Ok(ListQueue {
            list,
            cap,
            schema,
            degree,
        })
    }

    /// Puts a message of this partition at the back, where there is room.
    pub fn put(&mut self, from: u32, msg: Msg) -> Result<(), Full>
        requires from { from < self.old.degree }
        requires fits { FitsMsg self.old.schema msg }
        ensures { MatchResult result
            (λ _. (self.new ≡ record self.old { parcels = self.old.parcels ++ record { from = from; msg = msg } ∷ [] }) × (length self.old.parcels < self.old.capacity))
            (λ full. (full.back ≡ msg) × (self.new ≡ self.old) × (self.old.capacity ≤ length self.old.parcels)) }
    {
        if self.list.len() >= self.cap {
            return Err(Full { back: msg });
        }
        self.list.push_back_reserved(Parcel { from, msg });
        Ok(())
    }

    /// Takes the front parcel.
    pub fn take(&mut self) -> Option<Parcel>
        ensures { MatchOption result
            ((self.new ≡ self.old) × (self.old.parcels ≡ []))
            (λ x. Fits self.old.schema self.old.degree x × (self.old.parcels ≡ x ∷ self.new.parcels) × (self.new ≡ record self.old { parcels = self.new.parcels })) }
    {
        self.list.pop_front()
    }
}
