//! A run whose turns are made here.

ghost use Rattle.std.specs.Prelude.{◌<◌, OnOk, length};
ghost use Rattle.sk_mesh.specs.Places.{IsMesh};
ghost use Rattle.sk_sim.specs.Views.{views, cards, places, NoneFailed};

use crate::outcome::Outcome;
use sk_base::{Name, WantOfMemory};
use sk_msg::{Entry, State};
use sk_node::Turned;
use sk_script::{Part, Scenario, read_scenario};
use sk_sim::{Scripted, Seat, look_around, seats};
use sk_text::world_text;
use std::alloc::Global;
use std::test::Fail;

/// A run of these scenarios is over after fewer rounds.
const MOST_ROUNDS: u32 = 100_000;

/// What the participants of this scenario come to, each turned in its seat.
pub fn by_hand(alloc: Global, scenario: &str) -> Result<Outcome, Fail> {
    let read = read_scenario(alloc, scenario.as_bytes())?;
    outcome(alloc, &read.scenario)
}

/// The same of a scenario that was read.
fn outcome(alloc: Global, scenario: &Scenario) -> Result<Outcome, Fail> {
    let names = names(alloc, scenario.participants())?;
    let journals = journals(alloc, scenario)?;
    let text = world_text(alloc, &names, &journals)?;
    let text = Vec::from_slice(alloc, text.as_bytes())?;
    let status = if has_aborted(&journals) { 6 } else { 0 };
    Ok(Outcome { status, text })
}

/// The names of these participants.
fn names(alloc: Global, participants: &[Part]) -> Result<Vec<Name>, Fail> {
    let mut names = Vec::new(alloc);
    for part in participants {
        names.push(part.name().copy(alloc)?)?;
    }
    Ok(names)
}

/// Whether one of them was aborted.
fn has_aborted(journals: &[Vec<Entry>]) -> bool {
    journals.iter().any(|journal| is_aborted(journal))
}

/// Whether this one was.
fn is_aborted(journal: &[Entry]) -> bool {
    journal.iter().any(|entry| is_aborting(entry))
}

/// Whether it enters Aborting.
fn is_aborting(entry: &Entry) -> bool {
    match entry {
        Entry::State(State::Aborting) => true,
        _ => false,
    }
}

/// The journals of all, in number order, once they are finished.
fn journals(alloc: Global, scenario: &Scenario) -> Result<Vec<Vec<Entry>>, Fail> {
    let mut seats = seats(alloc, scenario)?;
    turn_to_end(seats.as_mut_slice())?;
    close(alloc, seats)
}

/// The journals of these seats, in their order.
fn close(alloc: Global, seats: Vec<Seat<Scripted>>) -> Result<Vec<Vec<Entry>>, Fail> {
    let mut journals = Vec::new(alloc);
    for seat in seats {
        journals.push(seat.close())?;
    }
    Ok(journals)
}

/// What the seats did in a round.
#[derive(Clone, Copy, Debug, PartialEq, Eq, Drop)]
enum Round {
    /// One of them did something.
    Moved,
    /// None did, and not all are finished.
    Still,
    /// All are finished.
    Finished,
}

/// Makes rounds until all are finished.
fn turn_to_end(seats: &mut [Seat<Scripted>]) -> Result<(), Fail>
    requires mesh { IsMesh (places (cards seats.old)) }
    requires sound { NoneFailed (views seats.old) }
{
    'rounds: for _ in 0..MOST_ROUNDS {
        match turn_each(seats)? {
            Round::Moved => {}
            Round::Still => return Err(Fail::new("not all finished")),
            Round::Finished => return Ok(()),
        }
    }
    Err(Fail::new("too many rounds"))
}

/// Each seat takes one turn, in number order.
fn turn_each(seats: &mut [Seat<Scripted>]) -> Result<Round, WantOfMemory>
    requires mesh { IsMesh (places (cards seats.old)) }
    requires sound { NoneFailed (views seats.old) }
    ensures mesh { OnOk result (IsMesh (places (cards seats.new))) }
    ensures sound { OnOk result (NoneFailed (views seats.new)) }
{
    let mut round = Round::Finished;
    for i in 0..seats.len() {
        round = with(turn_one(seats, i)?, round);
    }
    Ok(round)
}

/// What a round is, with one turn more.
fn with(turned: Turned, round: Round) -> Round {
    match turned {
        Turned::Entries(_) => Round::Moved,
        Turned::Counted => Round::Moved,
        Turned::Quiet => {
            if round == Round::Moved {
                Round::Moved
            } else {
                Round::Still
            }
        }
        Turned::Finished => round,
    }
}

/// One seat takes its turn, once it has looked beside every other seat.
fn turn_one(seats: &mut [Seat<Scripted>], i: usize) -> Result<Turned, WantOfMemory>
    requires within { i < length seats.old }
    requires mesh { IsMesh (places (cards seats.old)) }
    requires sound { NoneFailed (views seats.old) }
    ensures mesh { OnOk result (IsMesh (places (cards seats.new))) }
    ensures sound { OnOk result (NoneFailed (views seats.new)) }
{
    look_around(seats, i);
    let turned = seats[i].turn()?;
    Ok(turned)
}
