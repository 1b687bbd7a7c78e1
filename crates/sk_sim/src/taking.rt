//! Messages are taken from the rings.

ghost use Rattle.std.specs.Prelude.{◌≡◌, ◌<◌, IfOk};
ghost use Rattle.sk_mesh.specs.Places.{place, size, IsPeer};
ghost use Rattle.sk_sim.specs.Wiring.{IsTied};
ghost use Rattle.sk_sim.specs.Parts.{Takes, TakesAll, TakesNext};

use crate::wired::Wired;
use sk_base::WantOfMemory;
use sk_law::what_is_put_is_bounded;
use sk_node::App;

/// Takes a message of this peer, if it is open and one is there. Answers whether one was taken.
fn take_one<A: App>(wired: &mut Wired, app: &mut A, peer: u32) -> Result<bool, WantOfMemory>
    requires tied { IsTied wired.old }
    requires peer { IsPeer (place wired.old.ends) peer }
    ensures place { place wired.new.ends ≡ place wired.old.ends }
    ensures ok { IfOk result (λ moved. Takes moved wired.old wired.new (A.lists app.old) (A.lists app.new) peer) }
    ensures origin { A.origin app.new ≡ A.origin app.old }
{
    if !wired.node.is_open(peer) {
        return Ok(false);
    }
    let Some(message) = wired.ends.pop(peer) else {
        return Ok(false);
    };
    what_is_put_is_bounded();
    wired.node.take(peer, message, app)?;
    let _ = wired.node.journal();
    Ok(true)
}

/// The same of each peer, in their order.
pub fn take_each<A: App>(wired: &mut Wired, app: &mut A) -> Result<bool, WantOfMemory>
    requires tied { IsTied wired.old }
    ensures place { place wired.new.ends ≡ place wired.old.ends }
    ensures ok { IfOk result (λ moved. TakesAll moved wired.old wired.new (A.lists app.old) (A.lists app.new) (size (place wired.old.ends))) }
    ensures origin { A.origin app.new ≡ A.origin app.old }
{
    let own = wired.ends.number();
    let count = wired.ends.size() as u32;
    let mut moved = false;
    for peer in 0..count {
        moved = take_next(wired, app, peer, own, moved)?;
    }
    Ok(moved)
}

/// The same of this one, where it isn't the participant itself. Answers whether a message was taken
/// here or before.
fn take_next<A: App>(
    wired: &mut Wired,
    app: &mut A,
    peer: u32,
    own: u32,
    moved: bool,
) -> Result<bool, WantOfMemory>
    requires tied { IsTied wired.old }
    requires own { own ≡ wired.old.ends.number }
    requires within { peer < size (place wired.old.ends) }
    ensures place { place wired.new.ends ≡ place wired.old.ends }
    ensures ok { IfOk result (λ now. TakesNext moved now wired.old wired.new (A.lists app.old) (A.lists app.new) peer) }
    ensures origin { A.origin app.new ≡ A.origin app.old }
{
    if peer == own {
        return Ok(moved);
    }
    let taken = take_one(wired, app, peer)?;
    Ok(taken || moved)
}
