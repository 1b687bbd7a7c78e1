//! A participant in its seat.

ghost use Rattle.std.specs.Prelude.{◌≡◌, false, None, replicate, IfOk};
ghost use Rattle.sk_sim.specs.Wiring.{IsTied, IsBounded};

use crate::turns;
use crate::wired::Wired;
use sk_base::WantOfMemory;
use sk_law::{Setup, what_is_put_is_bounded};
use sk_mesh::Ends;
use sk_msg::{Entry, Message};
use sk_node::{App, Node, Turned};
use std::alloc::Global;

/// A participant with its app and its ends of the rings to and from its peers.
///
/// `turn` is all that it does by itself; it never waits. What it puts goes to the rings as far as they
/// have room; the rest waits here, per peer in order, and goes first at the next turn. After want of
/// memory each turn answers want of memory again.
///
/// Until then its type keeps that, per peer, the messages that its journal got are those popped, and
/// those that it put are those pushed followed by those that wait; and that its journal is lawful and so
/// few messages were put to each peer that rounds come to an end.
#[derive(Drop)]
pub struct Seat<A: App> {
    wired: Wired,
    app: A,
    failed: bool,
    ghost tied: { failed ≡ false → IsTied wired },
    ghost bounded: { failed ≡ false → IsBounded wired.node.kept },
}

impl<A: App> Seat<A> {
    ghost use Rattle.std.specs.Prelude.{◌≡◌, ◌<◌, ◌≤◌, ◌^◌, [], true, false, length, IsTrue, IsErr, IfOk, OnOk, OnErr, IfSome};
    ghost use Rattle.sk_msg.specs.Each.{each_after};
    ghost use Rattle.sk_msg.specs.Rules.{is_step_size, is_new_name};
    ghost use Rattle.sk_pubsub.specs.Announcing.{are_numbered};
    ghost use Rattle.sk_law.specs.Blocks.{making};
    ghost use Rattle.sk_mesh.specs.Places.{place, size, AreOfOneMesh};
    ghost use Rattle.sk_mesh.specs.Ends.{Looks, Knows};
    ghost use Rattle.sk_sim.specs.Wiring.{IsFresh};
    ghost use Rattle.sk_sim.specs.Cards.{card_of, counts};
    ghost use Rattle.sk_sim.specs.Answers.{Turns};
    ghost use Rattle.sk_sim.specs.Views.{View, view, IsUnturned};

    /// A participant that has said to each peer who it is, and has taken no turn. The app isn't called.
    pub fn new(alloc: Global, setup: Setup, app: A, ends: Ends) -> Result<Seat<A>, WantOfMemory>
    where
        A: Drop,
        requires own { setup.number < length setup.names }
        requires few { length setup.names ≤ 32 }
        requires names { IsTrue (each_after is_new_name [] setup.names) }
        requires required { IfSome setup.required (λ names. IsTrue (each_after is_new_name [] names)) }
        requires step { IfSome setup.step (λ size. IsTrue (is_step_size size)) }
        requires duration { setup.duration ≤ 2 ^ 61 }
        requires services { length setup.services ≤ 64 }
        requires numbered { IsTrue (are_numbered 0 setup.services) }
        requires blocking { setup.is_async ≡ false }
        requires ready { setup.ready_async ≡ false }
        requires number { ends.number ≡ setup.number }
        requires size { size (place ends) ≡ length setup.names }
        requires fresh { IsFresh ends }
        ensures unturned { IfOk result (λ seat. IsUnturned (view seat)) }
        ensures ends { IfOk result (λ seat. seat.wired.ends ≡ ends) }
        ensures setup { IfOk result (λ seat. seat.wired.node.kept.setup ≡ setup) }
        ensures app { IfOk result (λ seat. seat.app ≡ app) }
    {
        let held = no_messages(alloc, ends.size())?;
        what_is_put_is_bounded();
        let node = Node::new(alloc, setup)?;
        let _ = node.journal();
        Ok(Seat {
            wired: Wired { node, ends, held },
            app,
            failed: false,
        })
    }

    /// One turn: pushes what waits, in peer order, to each peer until its ring hands back; takes at most
    /// one message of each open peer, in peer order; has the participant take its turn; and pushes
    /// again.
    ///
    /// - `Entries`: so many entries came; none where it moved a message alone, or called a ready handler
    ///   that asked for nothing.
    /// - `Counted`: a pause count went down, and that was all.
    /// - `Finished`: nothing was to do, and nothing follows.
    /// - `Quiet`: nothing was to do, and something may follow: somebody else is waited for.
    pub fn turn(&mut self) -> Result<Turned, WantOfMemory>
        ensures place { place self.new.wired.ends ≡ place self.old.wired.ends }
        ensures sound { OnOk result ((self.old.failed ≡ false) × (self.new.failed ≡ false)) }
        ensures ok { IfOk result (λ turned. Turns turned self.old.wired self.new.wired (A.lists self.old.app) (A.lists self.new.app)) }
        ensures err { OnErr result (self.new.failed ≡ true) }
        ensures stopped { self.old.failed ≡ true → IsErr result × (self.new ≡ self.old) }
        ensures origin { A.origin self.new.app ≡ A.origin self.old.app }
    {
        if self.failed {
            return Err(WantOfMemory);
        }
        match turns::turn(&mut self.wired, &mut self.app) {
            Ok(turned) => Ok(turned),
            Err(error) => {
                self.failed = true;
                Err(error)
            }
        }
    }

    /// Looks at the rings between the two from both sides: all that is in them, and each free slot, is
    /// known then.
    pub fn beside(&mut self, other: &mut Seat<A>)
        requires { AreOfOneMesh (place self.old.wired.ends) (place other.old.wired.ends) }
        ensures views { (view self.new ≡ view self.old) × (view other.new ≡ view other.old) }
        ensures looks { Looks self.old.wired.ends self.new.wired.ends other.old.wired.ends.number × Looks other.old.wired.ends other.new.wired.ends self.old.wired.ends.number }
        ensures knows { Knows self.new.wired.ends other.new.wired.ends × Knows other.new.wired.ends self.new.wired.ends }
    {
        self.wired.ends.beside(&mut other.wired.ends);
    }

    /// The journal. What waits is dropped, and so is the app.
    pub fn close(self) -> Vec<Entry>
    where
        A: Drop,
        ensures { result.items ≡ self.wired.node.kept.past.journal }
    {
        self.wired.node.close()
    }
}

/// So many places without a message.
fn no_messages(alloc: Global, count: usize) -> Result<Vec<Option<Message>>, WantOfMemory>
    ensures { IfOk result (λ held. held.items ≡ replicate count None) }
{
    let mut held = Vec::new(alloc);
    for _ in 0..count {
        held.push(None)?;
    }
    Ok(held)
}
