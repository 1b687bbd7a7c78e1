//! Seats over one mesh.

ghost use Rattle.std.specs.Prelude.{◌≡◌, ◌≤◌, [], IsTrue, IfOk, All, length, map};
ghost use Rattle.sk_msg.specs.Each.{each_after};
ghost use Rattle.sk_msg.specs.Rules.{is_new_name};
ghost use Rattle.sk_pubsub.specs.Announcing.{are_numbered};
ghost use Rattle.sk_law.specs.World.{are_sorted};
ghost use Rattle.sk_mesh.specs.Places.{place, IsMesh};
ghost use Rattle.sk_mesh.specs.Ends.{IsUnused};
ghost use Rattle.sk_sim.specs.Wiring.{IsFresh};
ghost use Rattle.sk_sim.specs.Views.{view, views, cards, places, AreUnturned};
ghost use Rattle.sk_sim.specs.Runs.{AreAlike};
ghost use Rattle.sk_sim_tests.specs.Made.{AreNames, IsMade, AreMade, AreFresh};

use crate::player::{Calls, Player, Wish};
use sk_base::{Name, Text};
use sk_law::{Services, Setup};
use sk_mesh::{Ends, mesh};
use sk_msg::rules::is_step_size;
use sk_msg::{Names, Service, ServiceKind, Spec};
use sk_sim::Seat;
use std::alloc::Global;
use std::process::Abort;
use std::rc::Rc;
use std::test::Fail;

/// How one takes part.
#[derive(Clone, Copy, Drop)]
pub struct Role {
    pub coordinated: bool,
    /// Of one that takes steps their size in ns.
    pub step: Option<u64>,
    /// What its app asks for in its first step.
    pub wish: Wish,
    /// Of what kind its one service is, if it has one.
    pub service: Option<ServiceKind>,
}

/// A coordinated one with steps of this size in ns, whose app asks for nothing.
pub const fn stepping(step: u64) -> Role {
    Role {
        coordinated: true,
        step: Some(step),
        wish: Wish::Nothing,
        service: None,
    }
}

/// No step begins at it or later, in ns.
const DURATION: u64 = 3000;

/// A and B, or A, B and C.
fn names(alloc: Global, are_three: bool) -> Result<Names, Fail>
    ensures { IfOk result (λ names. AreNames names) }
{
    let mut names = Vec::new(alloc);
    names.push(Name::new(alloc, "A")?)?;
    names.push(Name::new(alloc, "B")?)?;
    if !are_three {
        return Ok(Names::new(names));
    }
    names.push(Name::new(alloc, "C")?)?;
    Ok(Names::new(names))
}

/// No service, or one of this kind, of the topic T.
fn services(alloc: Global, kind: Option<ServiceKind>) -> Result<Services, Fail>
    ensures few { IfOk result (λ services. length services ≤ 64) }
    ensures numbered { IfOk result (λ services. IsTrue (are_numbered 0 services)) }
{
    let mut services = Vec::new(alloc);
    let Some(kind) = kind else {
        return Ok(Services::new(services));
    };
    let topic = Name::new(alloc, "T")?;
    let media = Text::new(alloc, "")?;
    services.push(Service {
        id: 0,
        kind,
        name: Name::new(alloc, "S")?,
        spec: Spec::new(topic, media, Vec::new(alloc))?,
        history: false,
    })?;
    Ok(Services::new(services))
}

/// A seat for the participant of these ends, in a simulation that needs all.
fn make_seat(
    rt: &impl Abort,
    alloc: Global,
    names: &Names,
    role: Role,
    calls: Rc<Calls>,
    ends: Ends,
) -> Result<Seat<Player>, Fail>
    requires names { AreNames names.now }
    requires fresh { IsFresh ends }
    ensures made { IfOk result (λ seat. IsMade names.now (view seat)) }
    ensures place { IfOk result (λ seat. place seat.wired.ends ≡ place ends) }
{
    let count = names.as_slice().len();
    assert!(rt; (ends.number() as usize) < count);
    assert!(rt; ends.size() == count);
    if let Some(step) = role.step {
        assert!(rt; is_step_size(step));
    }
    let setup = Setup {
        number: ends.number(),
        names: names.copy(alloc)?,
        coordinated: role.coordinated,
        step: role.step,
        is_async: false,
        ready_async: false,
        services: services(alloc, role.service)?,
        duration: DURATION,
        required: Some(names.copy(alloc)?),
    };
    Ok(Seat::new(alloc, setup, Player::new(alloc, role.wish, calls), ends)?)
}

/// A seat for each of these ends.
fn seat_all(
    rt: &impl Abort,
    alloc: Global,
    names: &Names,
    roles: &[Role],
    calls: &Rc<Calls>,
    ends: Vec<Ends>,
) -> Result<Vec<Seat<Player>>, Fail>
    requires names { AreNames names.now }
    requires fresh { AreFresh ends.items }
    ensures made { IfOk result (λ seats. AreMade names.now (views seats.items)) }
    ensures places { IfOk result (λ seats. places (cards seats.items) ≡ map place ends.items) }
{
    let mut seats = Vec::new(alloc);
    for own in ends {
        let number = own.number() as usize;
        assert!(rt; number < roles.len());
        seats.push(make_seat(rt, alloc, names, roles[number], Rc::clone(calls)?, own)?)?;
    }
    Ok(seats)
}

/// A and B, or A, B and C, in these roles, over rings with room for so many messages.
pub fn seats(
    rt: &impl Abort,
    alloc: Global,
    capacity: usize,
    roles: &[Role],
    calls: &Rc<Calls>,
) -> Result<Vec<Seat<Player>>, Fail>
    requires least { 1 ≤ capacity }
    requires most { capacity ≤ 1024 }
    ensures mesh { IfOk result (λ seats. IsMesh (places (cards seats.items))) }
    ensures unturned { IfOk result (λ seats. AreUnturned (views seats.items)) }
    ensures alike { IfOk result (λ seats. AreAlike (views seats.items)) }
{
    let are_three = roles.len() == 3;
    let names = names(alloc, are_three)?;
    let count = if are_three { 3 } else { 2 };
    let ends = mesh(alloc, count, capacity)?;
    let seats = seat_all(rt, alloc, &names, roles, calls, ends)?;
    Ok(seats)
}
