//! What a player sees of its ways.
ghost use Rattle.std.specs.Prelude.{◌≡◌, ◌<◌, length, MatchResult, MatchOption};
ghost use Rattle.link_queue.specs.Told.{Told, FitsMsg};
ghost use Rattle.link_queue.specs.Link.{AtPlace, HasPut, HasRefusedPut, HasTaken, HasRefusedTake};

use crate::parcel::{Full, Parcel};
use ds_pack::Msg;

/// The ways of a player. Neither call takes memory.
pub trait Link {
    ghost told: { Self → Told };

    /// What no call changes.
    ghost same: { Self → Self → Type 0 };

    /// Puts a message at the back of the lane's queue.
    fn put(&mut self, lane: u32, msg: Msg) -> Result<(), Full>
        requires lane { lane < length (told self.old).lanes }
        requires fits { AtPlace lane (λ l. FitsMsg l.schema msg) (told self.old).lanes }
        ensures same { same self.old self.new }
        ensures did { MatchResult result
            (λ _. HasPut lane msg (told self.old) (told self.new))
            (λ full. (full.back ≡ msg) × HasRefusedPut lane (told self.old) (told self.new)) };

    /// Takes the parcel at the front of the queue.
    fn take(&mut self, queue: u32) -> Option<Parcel>
        requires queue { queue < length (told self.old).queues }
        ensures same { same self.old self.new }
        ensures did { MatchOption result
            (HasRefusedTake queue (told self.old) (told self.new))
            (λ x. HasTaken queue x (told self.old) (told self.new)) };

    ghost same_self: { (a : Self) → same a a };

    ghost same_then: { (a b c : Self) → same a b → same b c → same a c };
}
