//! The rule on tables of notes.

ghost use Rattle.std.specs.Prelude.{◌≡◌, ◌<◌, ◌≤◌, ◌^◌, ℕ, IfOk, Contains};
ghost use Rattle.sk_timesync.specs.Notes.{numbers};

use crate::{MayBegin, Steps};
use sk_base::{SimTime, WantOfMemory};
use std::alloc::Global;
use std::process::Abort;
use std::test::Fail;

/// Something to note.
#[derive(Clone, Copy, Debug)]
enum Note {
    Knows(u32, bool),
    Announces(u32, u64),
    Leaves(u32),
    Begins,
    Ends,
}

/// The time of so many nanoseconds.
fn time(rt: &impl Abort, ns: u64) -> SimTime {
    SimTime::new(ns).expect(rt, "a time")
}

fn yes(rt: &impl Abort, ns: u64) -> MayBegin {
    MayBegin::Yes(time(rt, ns))
}

/// Steps with the peers 0 to `count - 1`.
fn with_peers(alloc: Global, size: u64, count: u32) -> Result<Steps, WantOfMemory>
    requires least { 1 ≤ size }
    requires most { size ≤ 2 ^ 60 }
    ensures { IfOk result (λ steps. (peer : ℕ) → peer < count → Contains (numbers steps) peer) }
{
    let mut steps = Steps::new(alloc, size);
    for peer in 0..count {
        steps.add_peer(peer)?;
    }
    Ok(steps)
}

/// Notes one thing of the peers 0 to `count - 1`, which has to be allowed.
fn make(rt: &impl Abort, steps: &mut Steps, count: u32, note: Note)
    requires { (peer : ℕ) → peer < count → Contains (numbers steps.old) peer }
    ensures { numbers steps.new ≡ numbers steps.old }
{
    match note {
        Note::Knows(peer, synchronised) => {
            assert!(rt; peer < count);
            steps.know(peer, synchronised);
        }
        Note::Announces(peer, ns) => {
            assert!(rt; peer < count);
            assert_eq!(rt; steps.announce(peer, time(rt, ns)), Ok(()));
        }
        Note::Leaves(peer) => {
            assert!(rt; peer < count);
            steps.leave(peer);
        }
        Note::Begins => match steps.may_begin() {
            MayBegin::Yes(at) => {
                assert!(rt; at.ns() < 1 << 61);
                let number = steps.begin();
                assert_eq!(rt; steps.may_begin(), MayBegin::Open(number));
            }
            other => panic!(rt; "{other:?}"),
        },
        Note::Ends => match steps.may_begin() {
            MayBegin::Open(_) => {
                let next = steps.end();
                assert_eq!(rt; next, steps.next());
            }
            other => panic!(rt; "{other:?}"),
        },
    }
}

/// Makes each note in order, and compares the answer after it.
fn play(rt: &impl Abort, steps: &mut Steps, count: u32, table: &[(Note, MayBegin)])
    requires { (peer : ℕ) → peer < count → Contains (numbers steps.old) peer }
    ensures { numbers steps.new ≡ numbers steps.old }
{
    for (note, answer) in table {
        make(rt, steps, count, *note);
        assert_eq!(rt; steps.may_begin(), *answer, "after {note:?}");
    }
}

#[test]
fn each_note_has_its_answer(rt: HostRuntime) -> Result<(), Fail> {
    let at = |ns: u64| SimTime::new(ns);
    let mut steps = with_peers(rt.alloc(), 1000, 4)?;
    assert_eq!(rt; steps.may_begin(), MayBegin::Waits(0, None));
    let table = [
        // peer 0 isn't synchronised: once that is known it counts no more
        (Note::Announces(0, 50), MayBegin::Waits(0, at(50))),
        (Note::Knows(0, false), MayBegin::Waits(1, None)),
        // a peer that left counts no more once it is known
        (Note::Leaves(1), MayBegin::Waits(1, None)),
        (Note::Knows(1, true), MayBegin::Waits(2, None)),
        // a synchronised peer counts until it has announced the time or a later one
        (Note::Knows(2, true), MayBegin::Waits(2, None)),
        (Note::Knows(3, true), MayBegin::Waits(2, None)),
        (Note::Announces(2, 0), MayBegin::Waits(3, None)),
        (Note::Announces(3, 0), yes(&rt, 0)),
        (Note::Begins, MayBegin::Open(1)),
        (Note::Announces(3, 5000), MayBegin::Open(1)),
        (Note::Ends, MayBegin::Waits(2, at(0))),
        (Note::Announces(2, 999), MayBegin::Waits(2, at(999))),
        (Note::Announces(2, 1000), yes(&rt, 1000)),
        (Note::Begins, MayBegin::Open(2)),
        (Note::Ends, MayBegin::Waits(2, at(1000))),
        // it leaves, and 3 announced a later time
        (Note::Leaves(2), yes(&rt, 2000)),
        (Note::Begins, MayBegin::Open(3)),
        (Note::Ends, yes(&rt, 3000)),
    ];
    play(&rt, &mut steps, 4, &table);
    Ok(())
}

/// What this many synchronised peers note in two steps of 1000 ns, with each answer.
fn two_steps(rt: &(impl Abort + AllocGlobal), count: u32) -> Result<Vec<(Note, MayBegin)>, Fail> {
    let zero = time(rt, 0);
    let mut table = Vec::new(rt.alloc());
    for peer in 0..count {
        table.push((Note::Knows(peer, true), MayBegin::Waits(0, None)))?;
    }
    for peer in 0..count {
        let next = peer.saturating_add(1);
        let answer = if next < count {
            MayBegin::Waits(next, None)
        } else {
            yes(rt, 0)
        };
        table.push((Note::Announces(peer, 0), answer))?;
    }
    table.push((Note::Begins, MayBegin::Open(1)))?;
    table.push((Note::Ends, MayBegin::Waits(0, Some(zero))))?;
    for peer in (1..count).rev() {
        table.push((Note::Announces(peer, 1000), MayBegin::Waits(0, Some(zero))))?;
    }
    table.push((Note::Leaves(0), yes(rt, 1000)))?;
    table.push((Note::Begins, MayBegin::Open(2)))?;
    let last = if count == 1 {
        yes(rt, 2000)
    } else {
        MayBegin::Waits(1, SimTime::new(1000))
    };
    table.push((Note::Ends, last))?;
    Ok(table)
}

#[test]
fn every_number_of_peers(rt: HostRuntime) -> Result<(), Fail> {
    for count in [1, 2, 3, 31, 32] {
        let mut steps = with_peers(rt.alloc(), 1000, count)?;
        let table = two_steps(&rt, count)?;
        play(&rt, &mut steps, count, &table);
    }
    Ok(())
}

#[test]
fn next_is_the_step_behind(rt: HostRuntime) -> Result<(), Fail> {
    let mut steps = with_peers(rt.alloc(), 10, 0)?;
    assert_eq!(rt; steps.next().ns(), 0);
    // an open step's own time is no answer
    for (note, next) in [
        (Note::Begins, 10),
        (Note::Ends, 10),
        (Note::Begins, 20),
        (Note::Ends, 20),
    ] {
        make(&rt, &mut steps, 0, note);
        assert_eq!(rt; steps.next().ns(), next, "after {note:?}");
    }
    Ok(())
}

#[test]
fn announcements_rise(rt: HostRuntime) -> Result<(), Fail> {
    let mut steps = with_peers(rt.alloc(), 10, 1)?;
    steps.know(0, true);
    let table = [
        (0, None),
        (0, Some(0)),
        (5, None),
        (4, Some(5)),
        (5, Some(5)),
        (6, None),
        (0, Some(6)),
        (1 << 62, None),
        (1 << 62, Some(1 << 62)),
    ];
    for (at, last) in table {
        let before = steps.may_begin();
        match (steps.announce(0, time(&rt, at)), last) {
            (Ok(()), None) => {}
            (Err(told), Some(last)) => {
                assert_eq!(rt; told.ns(), last, "at {at}");
                assert_eq!(rt; steps.may_begin(), before, "at {at}");
            }
            (answer, _) => panic!(rt; "at {at}: {answer:?}"),
        }
    }
    Ok(())
}

/// Takes the next step where it may begin before 7 ms, tells the other of the one after it, and
/// answers when it began.
fn take_step(rt: &impl Abort, own: &mut Steps, other: &mut Steps) -> Option<u64>
    requires { Contains (numbers other.old) 0 }
    ensures own { numbers own.new ≡ numbers own.old }
    ensures other { numbers other.new ≡ numbers other.old }
{
    match own.may_begin() {
        MayBegin::Yes(at) if at.ns() < 7_000_000 => {
            own.begin();
            let next = own.end();
            assert_eq!(rt; other.announce(0, next), Ok(()));
            Some(at.ns())
        }
        _ => None,
    }
}

#[test]
fn steps_of_two_and_of_three_ms(rt: HostRuntime) -> Result<(), Fail> {
    let mut fast = with_peers(rt.alloc(), 2_000_000, 1)?;
    let mut slow = with_peers(rt.alloc(), 3_000_000, 1)?;
    let mut fast_begins = Vec::new(rt.alloc());
    let mut slow_begins = Vec::new(rt.alloc());
    fast.know(0, true);
    slow.know(0, true);
    assert_eq!(rt; fast.announce(0, slow.next()), Ok(()));
    assert_eq!(rt; slow.announce(0, fast.next()), Ok(()));
    for _round in 0..10 {
        if let Some(at) = take_step(&rt, &mut fast, &mut slow) {
            fast_begins.push(at)?;
        }
        if let Some(at) = take_step(&rt, &mut slow, &mut fast) {
            slow_begins.push(at)?;
        }
    }
    assert_eq!(rt;
        fast_begins.as_slice(),
        [0, 2_000_000, 4_000_000, 6_000_000].as_slice()
    );
    assert_eq!(rt;
        slow_begins.as_slice(),
        [0, 3_000_000, 6_000_000].as_slice()
    );
    Ok(())
}
