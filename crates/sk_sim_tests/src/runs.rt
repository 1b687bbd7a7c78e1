//! Runs in rounds. What is expected was worked out by hand first.

use crate::making::{Role, seats, stepping};
use crate::player::{Calls, Wish};
use crate::words::{got, own};
use sk_msg::{Entry, ServiceKind};
use sk_sim::turn_rounds;
use std::alloc::Global;
use std::process::Abort;
use std::rc::Rc;
use std::test::Fail;

/// Of A, B and C, with steps of 1000, 2000 and 3000 ns, what each does, and what it says to each
/// other one. No step begins at 3000 ns or later.
const ALL: [(&str, &str); 3] = [
    (
        "ServicesCreated CommunicationInitializing CommunicationInitialized ReadyToRun Running \
         begin 1 0 end 1 begin 2 1000 end 2 begin 3 2000 end 3 \
         Stopping Stopped ShuttingDown Shutdown ",
        "Hello ServicesEnd \
         ServicesCreated CommunicationInitializing CommunicationInitialized ReadyToRun Running \
         next 0 next 1000 next 2000 next 3000 \
         Stopping Stopped ShuttingDown Shutdown Leave ",
    ),
    (
        "ServicesCreated CommunicationInitializing CommunicationInitialized ReadyToRun Running \
         begin 1 0 end 1 begin 2 2000 end 2 \
         Stopping Stopped ShuttingDown Shutdown ",
        "Hello ServicesEnd \
         ServicesCreated CommunicationInitializing CommunicationInitialized ReadyToRun Running \
         next 0 next 2000 next 4000 \
         Stopping Stopped ShuttingDown Shutdown Leave ",
    ),
    (
        "ServicesCreated CommunicationInitializing CommunicationInitialized ReadyToRun Running \
         begin 1 0 end 1 \
         Stopping Stopped ShuttingDown Shutdown ",
        "Hello ServicesEnd \
         ServicesCreated CommunicationInitializing CommunicationInitialized ReadyToRun Running \
         next 0 next 3000 \
         Stopping Stopped ShuttingDown Shutdown Leave ",
    ),
];

/// The journals of a run in these roles, and whether all finished.
fn run(
    rt: &impl Abort,
    alloc: Global,
    capacity: usize,
    roles: &[Role],
    calls: &Rc<Calls>,
) -> Result<(Vec<Vec<Entry>>, bool), Fail> {
    assert!(rt; 1 <= capacity && capacity <= 1024);
    let (seats, finished) = turn_rounds(seats(rt, alloc, capacity, roles, calls)?)?;
    let mut journals = Vec::new(alloc);
    for seat in seats {
        journals.push(seat.close())?;
    }
    Ok((journals, finished))
}

/// Each does this, and gets what each other one says.
fn expect(
    rt: &impl Abort,
    alloc: Global,
    journals: &[Vec<Entry>],
    expected: &[(&str, &str)],
) -> Result<(), Fail> {
    assert_eq!(rt; journals.len(), expected.len());
    for (number, journal) in journals.iter().enumerate() {
        for (peer, (does, says)) in expected.iter().enumerate() {
            if peer == number {
                assert_eq!(rt; own(alloc, journal)?.as_str(), *does);
            } else {
                assert_eq!(rt; got(alloc, journal, peer)?.as_str(), *says);
            }
        }
    }
    Ok(())
}

/// All in these roles finish, and each does and says this.
fn finishes(
    rt: &impl Abort,
    alloc: Global,
    capacity: usize,
    roles: &[Role],
    expected: &[(&str, &str)],
) -> Result<(), Fail> {
    let calls = Rc::new(alloc, Calls::new())?;
    let (journals, finished) = run(rt, alloc, capacity, roles, &calls)?;
    assert!(rt; finished);
    expect(rt, alloc, &journals, expected)
}

// However few messages the rings have room for, all finish, and each sees the same.
#[test]
fn the_room_of_the_rings_is_not_seen(rt: HostRuntime) -> Result<(), Fail> {
    let alloc = rt.alloc();
    let (a, b, c) = (stepping(1000), stepping(2000), stepping(3000));
    for capacity in [1, 2, 64] {
        finishes(&rt, alloc, capacity, &[a, b], &ALL[..2])?;
        finishes(&rt, alloc, capacity, &[a, b, c], &ALL)?;
    }
    Ok(())
}

// A stops in its first step and waits at Stopped for B, which is required. B takes no steps, and
// waits in Running for C. C goes on by itself, and waits at 2000 ns for A, which announced 1000.
#[test]
fn three_wait_for_each_other(rt: HostRuntime) -> Result<(), Fail> {
    let alloc = rt.alloc();
    let roles = [
        Role {
            coordinated: true,
            step: Some(1000),
            wish: Wish::Stop,
            service: None,
        },
        Role {
            coordinated: true,
            step: None,
            wish: Wish::Nothing,
            service: None,
        },
        Role {
            coordinated: false,
            step: Some(1000),
            wish: Wish::Nothing,
            service: None,
        },
    ];
    let calls = Rc::new(alloc, Calls::new())?;
    let (journals, finished) = run(&rt, alloc, 1, &roles, &calls)?;
    assert!(rt; !finished);
    expect(
        &rt,
        alloc,
        &journals,
        &[
            (
                "ServicesCreated CommunicationInitializing CommunicationInitialized ReadyToRun \
                 Running begin 1 0 Stopping end 1 Stopped ",
                "Hello ServicesEnd ServicesCreated CommunicationInitializing \
                 CommunicationInitialized ReadyToRun Running next 0 Stopping next 1000 Stopped ",
            ),
            (
                "ServicesCreated CommunicationInitializing CommunicationInitialized ReadyToRun \
                 Running ",
                "Hello ServicesEnd ServicesCreated CommunicationInitializing \
                 CommunicationInitialized ReadyToRun Running ",
            ),
            (
                "ServicesCreated CommunicationInitializing CommunicationInitialized ReadyToRun \
                 Running begin 1 0 end 1 begin 2 1000 end 2 ",
                "Hello ServicesEnd ServicesCreated CommunicationInitializing \
                 CommunicationInitialized ReadyToRun Running next 0 next 1000 next 2000 ",
            ),
        ],
    )
}

// The apps of A and B are called for what their journals say: one ready handler each, 3 and 2 steps,
// and each state but the first, with which a participant is made.
#[test]
fn apps_are_called(rt: HostRuntime) -> Result<(), Fail> {
    let alloc = rt.alloc();
    let calls = Rc::new(alloc, Calls::new())?;
    run(&rt, alloc, 64, &[stepping(1000), stepping(2000)], &calls)?;
    assert_eq!(rt; calls.ready.get(), 2);
    assert_eq!(rt; calls.steps.get(), 5);
    assert_eq!(rt; calls.states.get(), 16);
    assert_eq!(rt; calls.stops.get(), 2);
    assert_eq!(rt; calls.shutdowns.get(), 2);
    Ok(())
}

// A publishes in its first step, and B, which subscribes, is handed that before its step at 1000: it is
// the tenth message of A, between the announcements of 0 and 1000.
#[test]
fn a_publication_is_handed_before_the_next_step(rt: HostRuntime) -> Result<(), Fail> {
    let alloc = rt.alloc();
    let (a, b) = (stepping(1000), stepping(1000));
    let sender = Role {
        coordinated: a.coordinated,
        step: a.step,
        wish: Wish::Publish,
        service: Some(ServiceKind::Publisher),
    };
    let receiver = Role {
        coordinated: b.coordinated,
        step: b.step,
        wish: b.wish,
        service: Some(ServiceKind::Subscriber),
    };
    let calls = Rc::new(alloc, Calls::new())?;
    let (journals, finished) = run(&rt, alloc, 64, &[sender, receiver], &calls)?;
    assert!(rt; finished);
    expect(
        &rt,
        alloc,
        &journals,
        &[
            (
                ALL[0].0,
                "Hello ServiceAdd ServicesEnd ServicesCreated CommunicationInitializing \
                 CommunicationInitialized ReadyToRun Running next 0 publish 0 1 next 1000 next 2000 \
                 next 3000 Stopping Stopped ShuttingDown Shutdown Leave ",
            ),
            (
                "ServicesCreated CommunicationInitializing CommunicationInitialized ReadyToRun \
                 Running begin 1 0 end 1 hand 0 10 0 begin 2 1000 end 2 begin 3 2000 end 3 \
                 Stopping Stopped ShuttingDown Shutdown ",
                "Hello ServiceAdd ServicesEnd ServicesCreated CommunicationInitializing \
                 CommunicationInitialized ReadyToRun Running next 0 next 1000 next 2000 next 3000 \
                 Stopping Stopped ShuttingDown Shutdown Leave ",
            ),
        ],
    )
}
