//! The queues of a whole plan as lists.
ghost use Rattle.std.specs.Prelude.{◌≡◌, ◌<◌, ◌≤◌, length, IfOk, MatchResult, MatchOption};
ghost use Rattle.link_queue.specs.Told.{FitsMsg};
ghost use Rattle.link_queue.specs.Link.{AtPlace, HasPut, HasRefusedPut, HasTaken, HasRefusedTake};
ghost use Rattle.link_queue.specs.Seats.{AreSeats};
ghost use Rattle.link_queue.specs.Listed.{empty_net, told_of, SameNet};
ghost use Rattle.link_queue.specs.Making.{AreMade};

use crate::list_queue::ListQueue;
use crate::parcel::{Full, Parcel};
use ds_pack::Msg;
use ds_schema::Schema;
use ds_value::{Items, NoMemory};
use std::alloc::Global;
use std::marker::Model;

/// The ways of one player: which partition it is, and by number the queues into which its lanes lead and those that it takes from.
#[derive(Drop)]
pub struct Seat {
    pub partition: u32,
    pub lanes: Items<u32>,
    pub queues: Items<u32>,
}

/// What a queue is made for: the schema of its link, and the degree of its producer.
#[derive(Drop)]
pub struct QueueShape {
    pub schema: Schema,
    pub degree: u32,
}

/// The queues of a plan, and the ways of its players.
#[derive(Drop)]
pub struct ListNet {
    cap: usize,
    seats: Vec<Seat>,
    queues: Vec<ListQueue>,
}

impl Model for ListNet {
    ghost use Rattle.link_queue.specs.Listed.{NetTold, net_told, NetHolds};

    ghost Value = { NetTold };

    ghost view = { net_told };

    ghost invariant = { NetHolds };
}

fn empty_queues(
    alloc: Global,
    shapes: Vec<QueueShape>,
    cap: usize,
) -> Result<Vec<ListQueue>, NoMemory>
    ensures { IfOk result (λ queues. AreMade cap shapes.items queues.items) }
{
    let mut queues = Vec::with_capacity(alloc, shapes.len())?;
    for shape in shapes {
        let QueueShape { schema, degree } = shape;
        queues.push(ListQueue::new(alloc, cap, schema, degree)?)?;
    }
    Ok(queues)
}

/// The empty queues of a plan, each with room for `cap` parcels.
pub fn list_net(
    alloc: Global,
    seats: Vec<Seat>,
    shapes: Vec<QueueShape>,
    cap: u32,
) -> Result<ListNet, NoMemory>
    requires ways { AreSeats shapes.items seats.items }
    requires some { 1 ≤ cap }
    ensures { IfOk result (λ net. net ≡ empty_net cap seats.items shapes.items) }
{
    let queues = empty_queues(alloc, shapes, cap as usize)?;
    Ok(ListNet {
        cap: cap as usize,
        seats,
        queues,
    })
}

impl ListNet {
    /// Puts a message of a player at the back of the queue of its lane.
    pub(crate) fn put(&mut self, player: u32, lane: u32, msg: Msg) -> Result<(), Full>
        requires lane { lane < length (told_of player self.old).lanes }
        requires fits { AtPlace lane (λ l. FitsMsg l.schema msg) (told_of player self.old).lanes }
        ensures same { SameNet self.old self.new }
        ensures did { MatchResult result
            (λ _. HasPut lane msg (told_of player self.old) (told_of player self.new))
            (λ full. (full.back ≡ msg) × HasRefusedPut lane (told_of player self.old) (told_of player self.new)) }
    {
        let seat = &self.seats[player as usize];
        let from = seat.partition;
        let queue = seat.lanes.as_slice()[lane as usize];
        self.queues[queue as usize].put(from, msg)
    }

    /// Takes the front parcel of a player's queue.
    pub(crate) fn take(&mut self, player: u32, queue: u32) -> Option<Parcel>
        requires queue { queue < length (told_of player self.old).queues }
        ensures same { SameNet self.old self.new }
        ensures did { MatchOption result
            (HasRefusedTake queue (told_of player self.old) (told_of player self.new))
            (λ x. HasTaken queue x (told_of player self.old) (told_of player self.new)) }
    {
        let seat = &self.seats[player as usize];
        let number = seat.queues.as_slice()[queue as usize];
        self.queues[number as usize].take()
    }
}
