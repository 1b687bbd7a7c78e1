//! A participant's ends of all its rings.

use crate::ring_pair::{RingPair, look, pop_from, push_to};
use sk_base::WantOfMemory;
use sk_msg::Message;
use std::alloc::Global;
use std::marker::Model;

/// One participant's ends of the rings to and from each other participant of a mesh. They can move
/// to another thread. Contracts see them as an account, plain data: whose they are, of which rings,
/// and per peer what was pushed, what was popped, how many slots are known to be free and which
/// messages are known to wait.
#[derive(Drop)]
pub struct Ends {
    number: u32,
    /// In number order, with none at the own number.
    pairs: Vec<Option<RingPair>>,
}

impl Model for Ends {
    ghost use Rattle.sk_mesh.specs.Places.{Account};

    ghost Value = { Account };

    ghost view = { λ e. record { number = e.number; pairs = e.pairs.items } };
}

impl Ends {
    ghost use Rattle.std.specs.Prelude.{◌≡◌, ◌<◌, ◌+◌, List, [], ◌∷◌, ◌++◌, Some, None, IsOk, OnOk, IfErr, IfSome, IfNone};
    ghost use mathlib.Core.List.{IsPrefix};
    ghost use Rattle.sk_msg.specs.declared.content.Content.{Content};
    ghost use Rattle.sk_mesh.specs.Places.{size, place, IsPeer, AreOfOneMesh};
    ghost use Rattle.sk_mesh.specs.Growth.{Meet};
    ghost use Rattle.sk_mesh.specs.Ends.{pushed, popped, free, waiting, OnlyPushes, OnlyPops, Looks, Agrees, Knows};

    /// The ends of a participant that has no peer yet.
    pub(crate) fn alone(alloc: Global, number: u32) -> Ends
        ensures { result ≡ record { number = number; pairs = [] } }
    {
        Ends {
            number,
            pairs: Vec::new(alloc),
        }
    }

    /// Joins two participants by a ring each way, with room for so many messages each.
    pub(crate) fn meet(
        &mut self,
        alloc: Global,
        newcomer: &mut Ends,
        capacity: usize,
    ) -> Result<(), WantOfMemory>
        ensures { OnOk result (Meet capacity self.old self.new newcomer.old newcomer.new) }
    {
        let (near, far) = RingPair::two_sides(alloc, capacity)?;
        self.pairs.push(Some(near))?;
        newcomer.pairs.push(Some(far))?;
        Ok(())
    }

    /// Leaves the place of its own number, the next one, empty.
    pub(crate) fn skip_itself(&mut self) -> Result<(), WantOfMemory>
        ensures { OnOk result (self.new ≡ record self.old { pairs = self.old.pairs ++ None ∷ [] }) }
    {
        self.pairs.push(None)?;
        Ok(())
    }

    /// The participant's number.
    pub fn number(&self) -> u32
        ensures { result ≡ self.now.number }
    {
        self.number
    }

    /// How many participants the mesh has.
    pub fn size(&self) -> usize
        ensures { result ≡ size (place self.now) }
    {
        self.pairs.len()
    }

    /// Pushes a message to the ring to this peer, another one of the mesh. Where no slot is known
    /// to be free it looks at the ring, and hands the message back where there is none.
    pub fn push(&mut self, peer: u32, message: Message) -> Result<(), Message>
        requires { IsPeer (place self.old) peer }
        ensures only { OnlyPushes self.old self.new peer }
        ensures ok { OnOk result (pushed self.new peer ≡ pushed self.old peer ++ message ∷ []) }
        ensures full { IfErr result (λ back. (back ≡ message)
            × (pushed self.new peer ≡ pushed self.old peer)
            × (free self.old peer ≡ 0) × (free self.new peer ≡ 0)) }
        ensures known { 0 < free self.old peer →
            IsOk result × (free self.old peer ≡ free self.new peer + 1) }
    {
        push_to(&mut self.pairs[peer as usize], message)
    }

    /// Pops the oldest message from the ring of this peer, another one of the mesh. Where none is
    /// known to wait it looks at the ring.
    pub fn pop(&mut self, peer: u32) -> Option<Message>
        requires { IsPeer (place self.old) peer }
        ensures only { OnlyPops self.old self.new peer }
        ensures some { IfSome result (λ message.
            popped self.new peer ≡ popped self.old peer ++ message ∷ []) }
        ensures none { IfNone result ((popped self.new peer ≡ popped self.old peer)
            × (waiting self.old peer ≡ []) × (waiting self.new peer ≡ [])) }
        ensures known { (first : Content) (rest : List Content) →
            waiting self.old peer ≡ first ∷ rest →
            (result ≡ Some first) × (waiting self.new peer ≡ rest) }
    {
        pop_from(&mut self.pairs[peer as usize])
    }

    /// Looks at the two rings between two participants of one mesh from both sides: all that was
    /// pushed and not popped is then known to wait, and all other slots are known to be free.
    pub fn beside(&mut self, other: &mut Ends)
        requires { AreOfOneMesh (place self.old) (place other.old) }
        ensures mine { Looks self.old self.new other.old.number }
        ensures theirs { Looks other.old other.new self.old.number }
        ensures in_order { IsPrefix (popped other.new self.old.number) (pushed self.new other.old.number)
            × IsPrefix (popped self.new other.old.number) (pushed other.new self.old.number) }
        ensures agrees { Agrees self.old other.old × Agrees other.old self.old }
        ensures knows { Knows self.new other.new × Knows other.new self.new }
    {
        let here = self.number as usize;
        let there = other.number as usize;
        look(&mut self.pairs[there], &mut other.pairs[here]);
    }
}
