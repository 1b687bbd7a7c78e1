//! What waits is pushed to the rings.

ghost use Rattle.std.specs.Prelude.{◌≡◌, ◌<◌, ◌≤◌, ◌⊎◌, ◌++◌, [], ◌∷◌, None, length, IfSome, IfNone, IsTrue, IsFalse};
ghost use Rattle.sk_mesh.specs.Places.{place, size, IsPeer};
ghost use Rattle.sk_mesh.specs.Ends.{pushed, free, OnlyPushes};
ghost use Rattle.sk_sim.specs.Wiring.{OnlyOut, waits_of, IsTied};
ghost use Rattle.sk_sim.specs.Parts.{Pushes, PushesNext, PushesOne};

use crate::wired::Wired;
use sk_mesh::Ends;
use sk_msg::Message;
use sk_node::Node;

/// The next message for this number: the one that its ring handed back, else the first that waits
/// in the participant.
fn next(node: &mut Node, held: &mut Option<Message>, number: u32) -> Option<Message>
    requires there { number < length node.old.kept.out }
    ensures only { OnlyOut node.old node.new number }
    ensures some { IfSome result (λ message. (waits_of node.old.kept held.old number ≡ message ∷ waits_of node.new.kept held.new number) × (held.new ≡ None)) }
    ensures none { IfNone result ((waits_of node.old.kept held.old number ≡ []) × (waits_of node.new.kept held.new number ≡ []) × (held.new ≡ None)) }
{
    match held {
        Some(_) => held.take(),
        None => match node.take_out(number) {
            Some(message) => Some(message),
            None => None,
        },
    }
}

/// Pushes what waits for this peer, until its ring hands a message back. Answers whether one was
/// moved.
fn push_to(node: &mut Node, ends: &mut Ends, held: &mut Option<Message>, peer: u32) -> bool
    requires peer { IsPeer (place ends.old) peer }
    requires there { peer < length node.old.kept.out }
    ensures only { OnlyOut node.old node.new peer }
    ensures ring { OnlyPushes ends.old ends.new peer }
    ensures all { pushed ends.new peer ++ waits_of node.new.kept held.new peer ≡ pushed ends.old peer ++ waits_of node.old.kept held.old peer }
    ensures more { length (pushed ends.old peer) ≤ length (pushed ends.new peer) }
    ensures moved { IsTrue result → length (pushed ends.old peer) < length (pushed ends.new peer) }
    ensures done { (waits_of node.new.kept held.new peer ≡ []) ⊎ (free ends.new peer ≡ 0) }
    ensures still { IsFalse result → (pushed ends.new peer ≡ pushed ends.old peer) × ((waits_of node.old.kept held.old peer ≡ []) ⊎ (free ends.old peer ≡ 0)) }
{
    let mut moved = false;
    while let Some(message) = next(node, held, peer) {
        match ends.push(peer, message) {
            Ok(()) => moved = true,
            Err(back) => {
                *held = Some(back);
                return moved;
            }
        }
    }
    moved
}

/// The same for each peer, in their order.
pub fn push_all(wired: &mut Wired) -> bool
    requires tied { IsTied wired.old }
    ensures tied { IsTied wired.new }
    ensures pushes { Pushes result wired.old wired.new (size (place wired.old.ends)) }
{
    let own = wired.ends.number();
    let count = wired.ends.size() as u32;
    let mut moved = false;
    for peer in 0..count {
        moved = push_next(wired, peer, own, moved);
    }
    moved
}

/// The same for this one, where it isn't the participant itself. Answers whether a message was moved
/// here or before.
fn push_next(wired: &mut Wired, peer: u32, own: u32, moved: bool) -> bool
    requires tied { IsTied wired.old }
    requires own { own ≡ wired.old.ends.number }
    requires within { peer < size (place wired.old.ends) }
    ensures tied { IsTied wired.new }
    ensures place { place wired.new.ends ≡ place wired.old.ends }
    ensures pushes { PushesNext moved result wired.old wired.new peer }
{
    if peer == own {
        return moved;
    }
    let pushed = push_one(wired, peer);
    moved || pushed
}

/// For one of them.
fn push_one(wired: &mut Wired, peer: u32) -> bool
    requires tied { IsTied wired.old }
    requires peer { IsPeer (place wired.old.ends) peer }
    ensures tied { IsTied wired.new }
    ensures pushes { PushesOne result wired.old wired.new peer }
{
    let held = &mut wired.held[peer as usize];
    let moved = push_to(&mut wired.node, &mut wired.ends, held, peer);
    let _ = wired.node.journal();
    moved
}
