//! The listed queues as one player sees them.
ghost use Rattle.std.specs.Prelude.{◌≡◌, ◌<◌, length};

use crate::link::Link;
use crate::net::ListNet;
use crate::parcel::{Full, Parcel};
use ds_pack::Msg;

/// A net's queues, seen from one player.
#[derive(Drop)]
pub struct ListLink<'n> {
    net: &'n mut ListNet,
    player: u32,
}

impl ListNet {
    /// The queues as this player sees them.
    pub fn seen_from(&mut self, player: u32) -> ListLink<'_>
        requires { player < length self.old.seats }
        ensures same { result.net.ghost_name ≡ self.entry.ghost_name }
        ensures seen { (result.player ≡ player) × (result.net.now ≡ self.old) }
    {
        ListLink { net: self, player }
    }
}

impl<'n> Link for ListLink<'n> {
    ghost use Rattle.std.proofs.Common.{◌≡◌, ◌∙◌, refl};
    ghost use Rattle.link_queue.specs.Listed.{told_of, SameNet};

    ghost told = { λ s. told_of s.player s.net.now };

    ghost same = { λ s t. (t.net.ghost_name ≡ s.net.ghost_name) × (t.player ≡ s.player) × SameNet s.net.now t.net.now };

    ghost same_self = { λ a. (refl, refl, (refl, refl, refl)) };

    ghost same_then = { λ a b c h k. (k.0 ∙ h.0, k.1 ∙ h.1, (k.2.0 ∙ h.2.0, k.2.1 ∙ h.2.1, k.2.2 ∙ h.2.2)) };

    fn put(&mut self, lane: u32, msg: Msg) -> Result<(), Full> {
        self.net.put(self.player, lane, msg)
    }

    fn take(&mut self, queue: u32) -> Option<Parcel> {
        self.net.take(self.player, queue)
    }
}
