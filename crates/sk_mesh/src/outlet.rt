//! The end of a ring that pushes.

ghost use Rattle.std.specs.Prelude.{◌≡◌, ◌+◌, ◌<◌, ◌≤◌, [], ◌∷◌, ◌++◌, length, IsOk, OnOk, IfErr};
ghost use mathlib.Core.List.{IsPrefix};
ghost use Rattle.sk_mesh.specs.Rings.{Outgoing};

use crate::inlet::Inlet;
use rtrb::Producer;
use sk_msg::Message;
use std::marker::Model;

/// Where messages go into a ring. Contracts see which ring it is, what was pushed, and how many
/// slots are known to be free.
#[derive(Drop)]
pub(crate) struct Outlet {
    ring: Producer<Message>,
    /// The slots that were free at the last look, less those filled since.
    free: usize,
}

impl Model for Outlet {
    ghost use Rattle.std.specs.Prelude.{◌≤◌};
    ghost use Rattle.rtrb.specs.Ring.{known_free};
    ghost use Rattle.sk_mesh.specs.Rings.{Outgoing, ring_of};

    ghost Value = { Outgoing };

    ghost view = { λ o. record { ring = ring_of o.ring.end; room = o.ring.capacity; pushed = o.ring.end.past; free = o.free } };

    ghost invariant = { λ o. o.free ≤ known_free o.ring };
}

impl Outlet {
    ghost use Rattle.rtrb.specs.Ring.{sent, known_free, producer_capacity};
    ghost use Rattle.sk_mesh.specs.Rings.{ring_of};

    /// The outlet of a ring to which nothing was pushed.
    pub(crate) fn new(ring: Producer<Message>, free: usize) -> Outlet
        requires { free ≤ known_free ring }
        ensures { result ≡ record { ring = ring_of ring.end; room = producer_capacity ring; pushed = sent ring; free = free } }
    {
        Outlet { ring, free }
    }

    /// Pushes a message. Where no slot is known to be free it looks at the ring, and hands the
    /// message back where there is none.
    pub(crate) fn push(&mut self, message: Message) -> Result<(), Message>
        ensures ring { (self.new.ring ≡ self.old.ring) × (self.new.room ≡ self.old.room) }
        ensures ok { OnOk result (self.new.pushed ≡ self.old.pushed ++ message ∷ []) }
        ensures full { IfErr result (λ back. (back ≡ message) × (self.new.pushed ≡ self.old.pushed) × (self.old.free ≡ 0) × (self.new.free ≡ 0)) }
        ensures known { 0 < self.old.free → IsOk result × (self.old.free ≡ self.new.free + 1) }
    {
        if self.free == 0 {
            self.free = self.ring.slots();
        }
        if self.free == 0 {
            return Err(message);
        }
        self.ring.push_reserved(message);
        self.free -= 1;
        Ok(())
    }

    /// Looks at the ring from both ends.
    pub(crate) fn beside(&mut self, inlet: &mut Inlet)
        requires { self.old.ring ≡ inlet.old.ring }
        ensures outlet { self.new ≡ record self.old { free = self.new.free } }
        ensures inlet { inlet.new ≡ record inlet.old { waiting = inlet.new.waiting } }
        ensures slots { self.new.free + length self.new.pushed ≡ self.new.room + length inlet.new.popped }
        ensures order { inlet.new.popped ++ inlet.new.waiting ≡ self.new.pushed }
        ensures more { self.old.free ≤ self.new.free }
        ensures longer { IsPrefix inlet.old.waiting inlet.new.waiting }
    {
        self.free = self.ring.slots_beside(&mut inlet.ring);
        inlet.ring.slots_beside(&mut self.ring);
    }
}
