//! Participants driven by hand. What is expected was worked out by hand first.
//!
//! Each function owns one participant at most: a drop is long, and each exit has one.

use crate::play::{
    Seat, carry, command, exchange, expect, lose, make_seat, state_of, turn, turn_on, turn_to,
};
use sk_msg::{Command, Content, Entry, State, Verdict};
use sk_node::Turned;
use std::alloc::Global;
use std::process::Abort;
use std::test::Fail;

/// A alone, 1 ms a step, 2 ms long.
fn alone(rt: &impl Abort, alloc: Global) -> Result<Seat, Fail> {
    make_seat(rt, alloc, &["A"], &["A"], 0, 1_000_000, 2_000_000)
}

// A alone goes through the chain: two steps, at 0 and 1 ms, and 22 entries.
#[test]
fn one_alone(rt: HostRuntime) -> Result<(), Fail> {
    let mut a = alone(&rt, rt.alloc())?;
    run_alone(&rt, rt.alloc(), &mut a)
}

fn run_alone(rt: &impl Abort, alloc: Global, a: &mut Seat) -> Result<(), Fail> {
    assert_eq!(rt; turn_on(a)?, Turned::Finished);
    assert_eq!(rt; a.node.journal().len(), 22);
    expect(
        rt,
        alloc,
        &a.node,
        0,
        &[
            "state ServicesCreated",
            "system ServicesCreated",
            "state CommunicationInitializing",
            "system CommunicationInitializing",
            "state CommunicationInitialized",
            "system CommunicationInitialized",
            "state ReadyToRun",
            "system ReadyToRun",
            "state Running",
            "system Running",
            "begin 1 0",
            "end 1",
            "begin 2 1000000",
            "end 2",
            "state Stopping",
            "system Stopping",
            "state Stopped",
            "system Stopped",
            "state ShuttingDown",
            "system ShuttingDown",
            "state Shutdown",
            "system Shutdown",
        ],
    )
}

// What the present state has no edge of is refused, and the refusal names the state.
#[test]
fn commands_are_refused(rt: HostRuntime) -> Result<(), Fail> {
    let mut a = alone(&rt, rt.alloc())?;
    refuse_commands(&rt, &mut a)
}

fn refuse_commands(rt: &impl Abort, a: &mut Seat) -> Result<(), Fail> {
    turn_to(a, State::Running)?;
    ask(rt, a, Command::Pause, Verdict::Accepted)?;
    ask(rt, a, Command::Pause, Verdict::Refused(State::Paused))?;
    ask(rt, a, Command::Continue, Verdict::Accepted)?;
    ask(rt, a, Command::Continue, Verdict::Refused(State::Running))?;
    turn_to(a, State::ShuttingDown)?;
    ask(rt, a, Command::Abort, Verdict::Refused(State::ShuttingDown))?;
    turn_to(a, State::Shutdown)?;
    ask(rt, a, Command::Stop, Verdict::Refused(State::Shutdown))
}

/// The command is asked, and so it is answered.
fn ask(rt: &impl Abort, seat: &mut Seat, asked: Command, verdict: Verdict) -> Result<(), Fail> {
    assert_eq!(rt; command(seat, asked)?, verdict);
    Ok(())
}

/// A or B of two, 1 ms a step, 100 ms long.
fn one_of_two(rt: &impl Abort, alloc: Global, number: u32) -> Result<Seat, Fail> {
    make_seat(
        rt,
        alloc,
        &["A", "B"],
        &["A", "B"],
        number,
        1_000_000,
        100_000_000,
    )
}

/// Both run, and nothing waits.
fn run_both(a: &mut Seat, b: &mut Seat) -> Result<(), Fail> {
    for _round in 0..20 {
        if state_of(&a.node) != State::Running || state_of(&b.node) != State::Running {
            turn(a)?;
            turn(b)?;
            exchange(a, b)?;
        }
    }
    Ok(())
}

// A loses B while both run: Error, and with no tool that could ask it A aborts by itself.
#[test]
fn a_peer_is_lost(rt: HostRuntime) -> Result<(), Fail> {
    let alloc = rt.alloc();
    let mut a = one_of_two(&rt, alloc, 0)?;
    lose_the_other(&rt, alloc, &mut a)
}

fn lose_the_other(rt: &impl Abort, alloc: Global, a: &mut Seat) -> Result<(), Fail> {
    let mut b = one_of_two(rt, alloc, 1)?;
    lose_b(rt, alloc, a, &mut b)
}

fn lose_b(rt: &impl Abort, alloc: Global, a: &mut Seat, b: &mut Seat) -> Result<(), Fail> {
    run_both(a, b)?;
    let from = a.node.journal().len();
    assert!(rt; lose(a, 1)?);
    expect(
        rt,
        alloc,
        &a.node,
        from,
        &["gone 1 5", "state Error", "system Error"],
    )?;
    assert!(rt; !a.node.is_open(1));
    let from = a.node.journal().len();
    assert_eq!(rt; turn_on(a)?, Turned::Finished);
    expect(
        rt,
        alloc,
        &a.node,
        from,
        &[
            "ask accepted",
            "state Aborting",
            "system Aborting",
            "state Shutdown",
            "system Stopping",
        ],
    )
}

// Abort is asked of A, which tells it to B. Both are aborted, and hear that of the other.
#[test]
fn one_of_two_is_aborted(rt: HostRuntime) -> Result<(), Fail> {
    let alloc = rt.alloc();
    let mut a = one_of_two(&rt, alloc, 0)?;
    abort_one(&rt, alloc, &mut a)
}

fn abort_one(rt: &impl Abort, alloc: Global, a: &mut Seat) -> Result<(), Fail> {
    let mut b = one_of_two(rt, alloc, 1)?;
    abort_a(rt, alloc, a, &mut b)
}

fn abort_a(rt: &impl Abort, alloc: Global, a: &mut Seat, b: &mut Seat) -> Result<(), Fail> {
    run_both(a, b)?;
    let from_a = a.node.journal().len();
    let from_b = b.node.journal().len();
    ask(rt, a, Command::Abort, Verdict::Accepted)?;
    assert_eq!(rt; turn_on(a)?, Turned::Quiet);
    carry(a, b)?;
    assert_eq!(rt; turn_on(b)?, Turned::Quiet);
    carry(b, a)?;
    assert_eq!(rt; turn_on(a)?, Turned::Finished);
    assert_eq!(rt; turn_on(b)?, Turned::Finished);
    expect(
        rt,
        alloc,
        &a.node,
        from_a,
        &[
            "ask accepted",
            "state Aborting",
            "system Aborting",
            "state Shutdown",
            "system Stopping",
            "system Aborting",
            "system Shutdown",
        ],
    )?;
    expect(
        rt,
        alloc,
        &b.node,
        from_b,
        &[
            "system Aborting",
            "state Aborting",
            "state Shutdown",
            "system Shutdown",
        ],
    )
}

/// One of three with this step, 20 ms long.
fn one_of_three(rt: &impl Abort, alloc: Global, number: u32, step: u64) -> Result<Seat, Fail> {
    let all = ["A", "B", "C"];
    make_seat(rt, alloc, &all, &all, number, step, 20_000_000)
}

/// The times of its steps.
fn times(alloc: Global, seat: &Seat) -> Result<Vec<u64>, Fail> {
    let mut times = Vec::new(alloc);
    for entry in seat.node.journal() {
        if let Entry::Begin(_, at) = entry {
            times.push(at.ns())?;
        }
    }
    Ok(times)
}

/// The bound that it told the first time.
fn until_of(seat: &Seat) -> u64 {
    for entry in seat.node.journal() {
        if let Entry::Put(_, message) = entry
            && let Content::Status { until, .. } = message.content()
            && until.ns() != 0
        {
            return until.ns();
        }
    }
    0
}

// A (2 ms) stops in its step at 2 ms: B (3 ms) and C (4 ms) take their steps at times below 4 ms and
// 1 ns, and no others.
#[test]
fn one_of_three_stops_in_its_step(rt: HostRuntime) -> Result<(), Fail> {
    let alloc = rt.alloc();
    let mut a = one_of_three(&rt, alloc, 0, 2_000_000)?;
    a.app.stops_in = 2;
    stop_beside_two(&rt, alloc, &mut a)
}

fn stop_beside_two(rt: &impl Abort, alloc: Global, a: &mut Seat) -> Result<(), Fail> {
    let mut b = one_of_three(rt, alloc, 1, 3_000_000)?;
    stop_beside(rt, alloc, a, &mut b)
}

fn stop_beside(rt: &impl Abort, alloc: Global, a: &mut Seat, b: &mut Seat) -> Result<(), Fail> {
    let mut c = one_of_three(rt, alloc, 2, 4_000_000)?;
    stop_a(rt, alloc, a, b, &mut c)
}

fn stop_a(
    rt: &impl Abort,
    alloc: Global,
    a: &mut Seat,
    b: &mut Seat,
    c: &mut Seat,
) -> Result<(), Fail> {
    for _round in 0..40 {
        turn(a)?;
        turn(b)?;
        turn(c)?;
        exchange(a, b)?;
        exchange(b, c)?;
        exchange(a, c)?;
    }
    assert_eq!(rt; turn_on(a)?, Turned::Finished);
    assert_eq!(rt; turn_on(b)?, Turned::Finished);
    assert_eq!(rt; turn_on(c)?, Turned::Finished);
    assert_eq!(rt; until_of(a), 4_000_001);
    assert_eq!(rt; times(alloc, a)?.as_slice(), [0, 2_000_000].as_slice());
    assert_eq!(rt; times(alloc, b)?.as_slice(), [0, 3_000_000].as_slice());
    assert_eq!(rt; times(alloc, c)?.as_slice(), [0, 4_000_000].as_slice());
    Ok(())
}

// Of 257 actions 256 are answered, and then the fault is noted.
#[test]
fn a_257th_action(rt: HostRuntime) -> Result<(), Fail> {
    let alloc = rt.alloc();
    let mut a = alone(&rt, alloc)?;
    a.app.asks = 257;
    ask_often(&rt, alloc, &mut a)
}

fn ask_often(rt: &impl Abort, alloc: Global, a: &mut Seat) -> Result<(), Fail> {
    turn_to(a, State::CommunicationInitialized)?;
    let from = a.node.journal().len();
    assert_eq!(rt; turn(a)?, Turned::Entries(259));
    let refused = Verdict::Refused(State::CommunicationInitialized);
    let mut asked = 0_u32;
    for entry in a.node.journal() {
        if let Entry::Ask(Command::Continue, verdict) = entry
            && *verdict == refused
        {
            asked = asked.saturating_add(1);
        }
    }
    assert_eq!(rt; asked, 256);
    expect(
        rt,
        alloc,
        &a.node,
        from + 256,
        &["fault 2", "state Error", "system Error"],
    )
}

// The 500,000th entry fills the journal; in Error nothing is judged any more.
#[test]
fn a_journal_is_full(rt: HostRuntime) -> Result<(), Fail> {
    let alloc = rt.alloc();
    let mut a = alone(&rt, alloc)?;
    fill(&rt, alloc, &mut a)
}

fn fill(rt: &impl Abort, alloc: Global, a: &mut Seat) -> Result<(), Fail> {
    for _ask in 0..500_000 {
        if a.node.journal().len() < 500_000 {
            command(a, Command::Continue)?;
        }
    }
    expect(
        rt,
        alloc,
        &a.node,
        500_000,
        &["fault 3", "state Error", "system Error"],
    )?;
    let refused = Verdict::Refused(State::Error);
    ask(rt, a, Command::Continue, refused)?;
    ask(rt, a, Command::Continue, refused)?;
    expect(
        rt,
        alloc,
        &a.node,
        500_003,
        &["ask refused Error", "ask refused Error"],
    )
}
