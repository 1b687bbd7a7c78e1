//! Looks at the rings from both sides.

ghost use Rattle.std.specs.Prelude.{◌≡◌, ◌+◌, ◌<◌, length};
ghost use Rattle.sk_mesh.specs.Places.{IsMesh};
ghost use Rattle.sk_sim.specs.Views.{views, cards, places, NoneFailed};
ghost use Rattle.sk_sim.specs.Sees.{LooksAt, SeesTo};

use crate::seat::Seat;
use sk_node::App;

/// Two seats look at the rings between them.
fn look_between<A: App>(seats: &mut [Seat<A>], i: usize, j: usize)
    requires order { i < j }
    requires within { j < length seats.old }
    requires mesh { IsMesh (places (cards seats.old)) }
    requires sound { NoneFailed (views seats.old) }
    ensures low { LooksAt i j seats.old seats.new }
    ensures high { LooksAt j i seats.old seats.new }
{
    let (front, back) = seats.split_at_mut(j);
    front[i].beside(&mut back[0]);
}

/// One seat looks at the rings between it and the next one, where that is another one.
fn look_at<A: App>(seats: &mut [Seat<A>], i: usize, k: usize)
    requires first { i < length seats.old }
    requires second { k < length seats.old }
    requires mesh { IsMesh (places (cards seats.old)) }
    requires sound { NoneFailed (views seats.old) }
    ensures views { views seats.new ≡ views seats.old }
    ensures sees { SeesTo i k seats.old → SeesTo i (k + 1) seats.new }
{
    if i < k {
        look_between(seats, i, k);
        return;
    }
    if k < i {
        look_between(seats, k, i);
    }
}

/// One seat, the `i`th, looks at its rings beside every other seat: of each message in them, and of each
/// free slot, it knows then. Nothing else changes. A turn is told what its answer means for all of them
/// only if the seat looked around just before. It costs a look at each ring.
pub fn look_around<A: App>(seats: &mut [Seat<A>], i: usize)
    requires within { i < length seats.old }
    requires mesh { IsMesh (places (cards seats.old)) }
    requires sound { NoneFailed (views seats.old) }
    ensures views { views seats.new ≡ views seats.old }
    ensures sees { SeesTo i (length seats.old) seats.new }
{
    let count = seats.len();
    for k in 0..count {
        look_at(seats, i, k);
    }
}
