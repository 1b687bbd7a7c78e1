//! The end of a ring that pops.

ghost use Rattle.std.specs.Prelude.{◌≡◌, List, [], ◌∷◌, ◌++◌, Some, IfSome, IfNone};
ghost use Rattle.sk_msg.specs.declared.content.Content.{Content};
ghost use Rattle.sk_mesh.specs.Rings.{Incoming};

use rtrb::Consumer;
use sk_msg::Message;
use std::marker::Model;

/// Where messages come out of a ring. Contracts see which ring it is, what was popped, and the
/// messages that are known to wait in it.
#[derive(Drop)]
pub(crate) struct Inlet {
    pub(crate) ring: Consumer<Message>,
}

impl Model for Inlet {
    ghost use Rattle.sk_mesh.specs.Rings.{Incoming, ring_of};

    ghost Value = { Incoming };

    ghost view = { λ i. record { ring = ring_of i.ring.end; popped = i.ring.end.past; waiting = i.ring.end.ahead } };
}

impl Inlet {
    ghost use Rattle.rtrb.specs.Ring.{received, known_items};
    ghost use Rattle.sk_mesh.specs.Rings.{ring_of};

    /// The inlet of this ring.
    pub(crate) fn new(ring: Consumer<Message>) -> Inlet
        ensures { result ≡ record { ring = ring_of ring.end; popped = received ring; waiting = known_items ring } }
    {
        Inlet { ring }
    }

    /// Pops the oldest message. Where none is known to wait it looks at the ring.
    pub(crate) fn pop(&mut self) -> Option<Message>
        ensures ring { self.new.ring ≡ self.old.ring }
        ensures some { IfSome result (λ message. self.new.popped ≡ self.old.popped ++ message ∷ []) }
        ensures none { IfNone result ((self.new.popped ≡ self.old.popped) × (self.old.waiting ≡ []) × (self.new.waiting ≡ [])) }
        ensures known { (first : Content) (rest : List Content) → self.old.waiting ≡ first ∷ rest → (result ≡ Some first) × (self.new.waiting ≡ rest) }
    {
        if self.ring.cached_slots() == 0 && self.ring.slots() == 0 {
            return None;
        }
        Some(self.ring.pop_known())
    }
}
