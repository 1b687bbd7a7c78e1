//! All seats in one hand.

ghost use Rattle.std.specs.Prelude.{◌≡◌, true, false, IfOk, OnOk, length};
ghost use Rattle.sk_mesh.specs.Places.{IsMesh};
ghost use Rattle.sk_sim.specs.Views.{views, cards, places, NoneFailed, AreUnturned};
ghost use Rattle.sk_sim.specs.Rounds.{Round, AllStill, AllFinished, AllWentOn, together as together_of};
ghost use Rattle.sk_sim.specs.Runs.{AreAlike, IsRun};

use crate::looks::look_around;
use crate::seat::Seat;
use sk_base::WantOfMemory;
use sk_law_world::{all_ready_before_running, none_out_of_order, puts_are_in_order, world_is_safe};
use sk_node::{App, Turned};

/// What the seats did in a round.
#[derive(Clone, Copy, PartialEq, Eq, Debug, Drop)]
enum Together {
    /// One of them did something.
    Moved,
    /// None did, and not all are finished.
    Still,
    /// All are finished.
    Done,
}

/// Each seat takes one turn in number order, again and again, until all are finished or none has
/// anything to do. Before a turn the seat looks at its rings beside every other seat. Answers the
/// seats and whether all are finished.
///
/// It always returns: with each round that goes on less is left to do, by what the limits of journals
/// leave. A message costs a push, a pop and an entry; a round costs a look at each ring.
pub fn turn_rounds<A: App + Drop>(seats: Vec<Seat<A>>) -> Result<(Vec<Seat<A>>, bool), WantOfMemory>
    requires mesh { IsMesh (places (cards seats.items)) }
    requires unturned { AreUnturned (views seats.items) }
    requires alike { AreAlike (views seats.items) }
    ensures run { IfOk result (λ answer. IsRun answer.1 (views seats.items) (views answer.0.items)) }
{
    let mut seats = seats;
    let finished = turn_all(seats.as_mut_slice())?;
    Ok((seats, finished))
}

/// The same over a slice, with the laws of worlds at hand.
fn turn_all<A: App>(seats: &mut [Seat<A>]) -> Result<bool, WantOfMemory>
    requires mesh { IsMesh (places (cards seats.old)) }
    requires unturned { AreUnturned (views seats.old) }
    requires alike { AreAlike (views seats.old) }
    ensures run { IfOk result (λ finished. IsRun finished (views seats.old) (views seats.new)) }
{
    world_is_safe();
    all_ready_before_running();
    none_out_of_order();
    puts_are_in_order();
    turn_until(seats)
}

/// Rounds until all are finished or none does anything.
fn turn_until<A: App>(seats: &mut [Seat<A>]) -> Result<bool, WantOfMemory>
    requires mesh { IsMesh (places (cards seats.old)) }
    requires sound { NoneFailed (views seats.old) }
    ensures places { OnOk result (places (cards seats.new) ≡ places (cards seats.old)) }
    ensures sound { OnOk result (NoneFailed (views seats.new)) }
    ensures went { OnOk result (AllWentOn (views seats.old) (views seats.new)) }
    ensures still { OnOk result (AllStill (cards seats.new)) }
    ensures finished { IfOk result (λ all. all ≡ true → AllFinished (cards seats.new)) }
    ensures unfinished { IfOk result (λ all. all ≡ false → AllFinished (cards seats.new) → ⊥) }
{
    'rounds: loop {
        match turn_round(seats)? {
            Together::Moved => {}
            Together::Still => return Ok(false),
            Together::Done => return Ok(true),
        }
    }
}

/// Each seat takes one turn, in number order.
fn turn_round<A: App>(seats: &mut [Seat<A>]) -> Result<Together, WantOfMemory>
    requires mesh { IsMesh (places (cards seats.old)) }
    requires sound { NoneFailed (views seats.old) }
    ensures places { OnOk result (places (cards seats.new) ≡ places (cards seats.old)) }
    ensures sound { OnOk result (NoneFailed (views seats.new)) }
    ensures went { OnOk result (AllWentOn (views seats.old) (views seats.new)) }
    ensures round { IfOk result (λ together. Round together (cards seats.old) (cards seats.new) (length seats.old)) }
{
    let mut so_far = Together::Done;
    let count = seats.len();
    for i in 0..count {
        look_around(seats, i);
        let did = seats[i].turn()?;
        so_far = with(did, so_far);
    }
    Ok(so_far)
}

/// What they did together, with one more.
fn with(did: Turned, so_far: Together) -> Together
    ensures { result ≡ together_of did so_far }
{
    match did {
        Turned::Entries(_) => Together::Moved,
        Turned::Counted => Together::Moved,
        Turned::Quiet => match so_far {
            Together::Moved => Together::Moved,
            Together::Still => Together::Still,
            Together::Done => Together::Still,
        },
        Turned::Finished => so_far,
    }
}
