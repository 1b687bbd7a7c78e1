//! The two rings between a participant and one peer.

ghost use Rattle.std.specs.Prelude.{◌≡◌, ◌+◌, ◌<◌, [], ◌∷◌, ◌++◌, List, Some, IsOk, IfOk, OnOk, IfErr, IfSome, IfNone};
ghost use Rattle.sk_msg.specs.declared.content.Content.{Content};
ghost use Rattle.sk_mesh.specs.Places.{way_at, AreFacing};
ghost use Rattle.sk_mesh.specs.Pairs.{pushed_by, popped_by, free_by, waiting_by, IsSameWay, SamePops, SamePushes, Looked, KnowsRing};

use crate::inlet::Inlet;
use crate::outlet::Outlet;
use rtrb::RingBuffer;
use sk_base::WantOfMemory;
use sk_msg::Message;
use std::alloc::Global;

/// A participant's ends of the ring to a peer and of the ring from it.
#[derive(Drop)]
pub(crate) struct RingPair {
    pub(crate) to: Outlet,
    pub(crate) from: Inlet,
}

impl RingPair {
    ghost use Rattle.std.specs.Prelude.{Some, IfOk};
    ghost use Rattle.sk_mesh.specs.Places.{way_of, AreFacing};
    ghost use Rattle.sk_mesh.specs.Pairs.{IsNew};

    /// The two sides of two new rings with room for so many messages each.
    pub(crate) fn two_sides(
        alloc: Global,
        capacity: usize,
    ) -> Result<(RingPair, RingPair), WantOfMemory>
        ensures facing { IfOk result (λ sides. AreFacing (Some (way_of sides.0)) (Some (way_of sides.1))) }
        ensures new { IfOk result (λ sides. IsNew capacity sides.0 × IsNew capacity sides.1) }
    {
        let (there, arrives) = ring(alloc, capacity)?;
        let (back, returns) = ring(alloc, capacity)?;
        let near = RingPair {
            to: there,
            from: returns,
        };
        let far = RingPair {
            to: back,
            from: arrives,
        };
        Ok((near, far))
    }
}

/// A new ring.
fn ring(alloc: Global, capacity: usize) -> Result<(Outlet, Inlet), WantOfMemory>
    ensures same { IfOk result (λ ends. ends.1.ring ≡ ends.0.ring) }
    ensures outlet { IfOk result (λ ends. (ends.0.pushed ≡ []) × (ends.0.free ≡ capacity) × (ends.0.room ≡ capacity)) }
    ensures inlet { IfOk result (λ ends. (ends.1.popped ≡ []) × (ends.1.waiting ≡ [])) }
{
    let (producer, consumer) = RingBuffer::<Message>::new(alloc, capacity)?;
    Ok((Outlet::new(producer, capacity), Inlet::new(consumer)))
}

/// Pushes a message to the ring to a peer. Where there is no such ring it is handed back.
pub(crate) fn push_to(pair: &mut Option<RingPair>, message: Message) -> Result<(), Message>
    ensures way { IsSameWay pair.old pair.new }
    ensures pops { SamePops pair.old pair.new }
    ensures ok { OnOk result (pushed_by pair.new ≡ pushed_by pair.old ++ message ∷ []) }
    ensures full { IfErr result (λ back. (back ≡ message) × (pushed_by pair.new ≡ pushed_by pair.old)
        × (free_by pair.old ≡ 0) × (free_by pair.new ≡ 0)) }
    ensures known { 0 < free_by pair.old → IsOk result × (free_by pair.old ≡ free_by pair.new + 1) }
{
    match pair {
        Some(pair) => pair.to.push(message),
        None => Err(message),
    }
}

/// Pops the oldest message from the ring of a peer. Where there is no such ring there is none.
pub(crate) fn pop_from(pair: &mut Option<RingPair>) -> Option<Message>
    ensures way { IsSameWay pair.old pair.new }
    ensures pushes { SamePushes pair.old pair.new }
    ensures some { IfSome result (λ message. popped_by pair.new ≡ popped_by pair.old ++ message ∷ []) }
    ensures none { IfNone result ((popped_by pair.new ≡ popped_by pair.old)
        × (waiting_by pair.old ≡ []) × (waiting_by pair.new ≡ [])) }
    ensures known { (first : Content) (rest : List Content) → waiting_by pair.old ≡ first ∷ rest →
        (result ≡ Some first) × (waiting_by pair.new ≡ rest) }
{
    match pair {
        Some(pair) => pair.from.pop(),
        None => None,
    }
}

/// Looks at the two rings between two participants from both sides.
pub(crate) fn look(mine: &mut Option<RingPair>, theirs: &mut Option<RingPair>)
    requires { AreFacing (way_at mine.old) (way_at theirs.old) }
    ensures mine { Looked mine.old mine.new }
    ensures theirs { Looked theirs.old theirs.new }
    ensures there { KnowsRing mine.new theirs.new }
    ensures back { KnowsRing theirs.new mine.new }
{
    if let Some(mine) = mine
        && let Some(theirs) = theirs
    {
        mine.to.beside(&mut theirs.from);
        theirs.to.beside(&mut mine.from);
    }
}
