//! The run of a scenario.

ghost use Rattle.std.specs.Prelude.{◌≡◌, ◌<◌, true, false, map, IfOk, IfErr, slice_get, Some, length};
ghost use Rattle.sk_mesh.specs.Places.{place, size, IsMesh};
ghost use Rattle.sk_sim.specs.Wiring.{IsFresh};
ghost use Rattle.sk_sim.specs.Views.{view, views, cards, places, AreUnturned};
ghost use Rattle.sk_sim.specs.Runs.{AreAlike};
ghost use Rattle.sk_sim.specs.Scripts.{setup_by};
ghost use Rattle.sk_script.specs.Scenarios.{names_of};
ghost use Rattle.sk_sim.specs.declared.simulation.SimFault.TheVariants as faults;
ghost use Rattle.sk_sim.specs.Simulations.{AreSeats, AreFresh, IsSeat, IsSimulation, IsStall, journals_of};

use crate::rounds::turn_rounds;
use crate::scripted::Scripted;
use crate::seat::Seat;
use sk_base::WantOfMemory;
use sk_law::{Services, Setup};
use sk_mesh::{Ends, mesh};
use sk_msg::{Entry, Names, Service};
use sk_script::{Part, Scenario};
use std::alloc::Global;

/// The journals of a run, in the order of the names.
#[derive(Debug, Drop)]
pub struct Finished {
    /// The names of the participants.
    pub names: Names,
    /// The journal of each.
    pub journals: Vec<Vec<Entry>>,
}

/// Why a run has no finished journals.
#[derive(Debug, Drop)]
pub enum SimFault {
    /// Nothing follows, and not all are finished. These are the journals as they stand.
    Stalled(Finished),
    /// There was no memory for it.
    WantOfMemory,
}

impl From<WantOfMemory> for SimFault {
    ghost from_gives = { λ _ fault. fault ≡ faults.WantOfMemory };

    fn from(_error: WantOfMemory) -> SimFault {
        SimFault::WantOfMemory
    }
}

/// Runs all participants of a scenario in rounds, until all are finished or none has anything to do.
/// The journals are those of a lawful and safe world that follows the scenario.
///
/// `Stalled` comes where not all are finished; `WantOfMemory` says nothing of the run.
pub fn run_rounds(alloc: Global, scenario: &Scenario) -> Result<Finished, SimFault>
    ensures finished { IfOk result (λ run. IsSimulation true scenario.now run.names (journals_of run)) }
    ensures stalled { IfErr result (λ fault. IsStall scenario.now fault) }
{
    let names = names(alloc, scenario.participants())?;
    let (seats, finished) = turn_rounds(seats(alloc, scenario)?)?;
    let journals = close(alloc, seats)?;
    let run = Finished { names, journals };
    if finished {
        Ok(run)
    } else {
        Err(SimFault::Stalled(run))
    }
}

/// The seats of a scenario's participants, in the order of their numbers and before their first turn, over
/// one mesh whose rings have room for 64 messages each. There are 1 to 32 of them.
pub fn seats(alloc: Global, scenario: &Scenario) -> Result<Vec<Seat<Scripted>>, WantOfMemory>
    ensures mesh { IfOk result (λ seats. IsMesh (places (cards seats.items))) }
    ensures unturned { IfOk result (λ seats. AreUnturned (views seats.items)) }
    ensures alike { IfOk result (λ seats. AreAlike (views seats.items)) }
    ensures of { IfOk result (λ seats. AreSeats scenario.now (views seats.items)) }
{
    let count = scenario.participants().len() as u32;
    let ends = mesh(alloc, count, 64)?;
    seat_all(alloc, scenario, ends)
}

/// A seat for each of these ends.
fn seat_all(
    alloc: Global,
    scenario: &Scenario,
    ends: Vec<Ends>,
) -> Result<Vec<Seat<Scripted>>, WantOfMemory>
    requires mesh { IsMesh (map place ends.items) }
    requires count { length ends.items ≡ length scenario.now.participants }
    requires fresh { AreFresh ends.items }
    ensures places { IfOk result (λ seats. places (cards seats.items) ≡ map place ends.items) }
    ensures unturned { IfOk result (λ seats. AreUnturned (views seats.items)) }
    ensures of { IfOk result (λ seats. AreSeats scenario.now (views seats.items)) }
{
    let mut seats = Vec::new(alloc);
    for own in ends {
        let seat = seat(alloc, scenario, own)?;
        seats.push(seat)?;
    }
    Ok(seats)
}

/// The seat of the participant of these ends.
fn seat(alloc: Global, scenario: &Scenario, ends: Ends) -> Result<Seat<Scripted>, WantOfMemory>
    requires number { ends.number < length scenario.now.participants }
    requires size { size (place ends) ≡ length scenario.now.participants }
    requires fresh { IsFresh ends }
    ensures ends { IfOk result (λ seat. place seat.wired.ends ≡ place ends) }
    ensures of { IfOk result (λ seat. IsSeat scenario.now ends.number (view seat)) }
{
    let number = ends.number();
    let part = &scenario.participants()[number as usize];
    let setup = setup(alloc, scenario, number, part)?;
    let app = Scripted::new(alloc, scenario, number)?;
    Seat::new(alloc, setup, app, ends)
}

/// What the scenario makes this participant with.
fn setup(
    alloc: Global,
    scenario: &Scenario,
    number: u32,
    part: &Part,
) -> Result<Setup, WantOfMemory>
    ensures { IfOk result (λ setup. setup ≡ setup_by scenario.now number part.now) }
{
    let names = names(alloc, scenario.participants())?;
    let services = services(alloc, part.services())?;
    let required = scenario.required().copy(alloc)?;
    Ok(Setup {
        number,
        names,
        coordinated: part.is_coordinated(),
        step: part.step(),
        is_async: false,
        ready_async: false,
        services,
        duration: scenario.duration(),
        required: Some(required),
    })
}

/// The same services again.
fn services(alloc: Global, services: &[Service]) -> Result<Services, WantOfMemory>
    ensures { IfOk result (λ copy. copy ≡ services.now) }
{
    let mut copies = Vec::new(alloc);
    for service in services {
        copies.push(service.copy(alloc)?)?;
    }
    Ok(Services::new(copies))
}

/// The names of these participants.
fn names(alloc: Global, participants: &[Part]) -> Result<Names, WantOfMemory>
    ensures { IfOk result (λ names. names ≡ names_of participants.now) }
{
    let mut names = Vec::new(alloc);
    for part in participants {
        names.push(part.name().copy(alloc)?)?;
    }
    Ok(Names::new(names))
}

/// The journals of these seats, in their order.
fn close(alloc: Global, seats: Vec<Seat<Scripted>>) -> Result<Vec<Vec<Entry>>, WantOfMemory>
    ensures { IfOk result (λ journals. map (λ journal. journal.items) journals.items ≡ map (λ card. card.past.journal) (cards seats.items)) }
{
    let mut journals = Vec::new(alloc);
    for seat in seats {
        journals.push(seat.close())?;
    }
    Ok(journals)
}
