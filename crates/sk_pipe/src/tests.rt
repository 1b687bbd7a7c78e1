use crate::{PipeEnding, Plan, run_pipe};
use sk_base::memory::{CallKind, FailAt, MemGive, MemLink, MemTake};
use sk_base::{Name, NameFault};
use std::alloc::{AllocError, Global};
use std::process::Abort;
use std::test::Fail;

// The frames of the worked runs, as the format spells them.
const HELLO_A: &[u8] = b"\x06\x00\x00\x00\x01\x01\x01\x41\x02\x00";

const HELLO_B: &[u8] = b"\x06\x00\x00\x00\x01\x01\x01\x42\x02\x00";

/// The Hello of a peer that isn't synchronised.
const LOOSE_B: &[u8] = b"\x06\x00\x00\x00\x01\x01\x01\x42\x00\x00";

const LEAVE: &[u8] = b"\x02\x00\x00\x00\x01\x02";

const AT_0: &[u8] =
    b"\x12\x00\x00\x00\x01\x03\x00\x00\x00\x00\x00\x00\x00\x00\x40\x42\x0f\x00\x00\x00\x00\x00";

const BELOW_1: &[u8] =
    b"\x12\x00\x00\x00\x01\x03\x3f\x42\x0f\x00\x00\x00\x00\x00\x40\x42\x0f\x00\x00\x00\x00\x00";

const AT_1: &[u8] =
    b"\x12\x00\x00\x00\x01\x03\x40\x42\x0f\x00\x00\x00\x00\x00\x40\x42\x0f\x00\x00\x00\x00\x00";

const AT_2: &[u8] =
    b"\x12\x00\x00\x00\x01\x03\x80\x84\x1e\x00\x00\x00\x00\x00\x40\x42\x0f\x00\x00\x00\x00\x00";

const AT_3: &[u8] =
    b"\x12\x00\x00\x00\x01\x03\xc0\xc6\x2d\x00\x00\x00\x00\x00\x40\x42\x0f\x00\x00\x00\x00\x00";

const AT_5: &[u8] =
    b"\x12\x00\x00\x00\x01\x03\x40\x4b\x4c\x00\x00\x00\x00\x00\x40\x42\x0f\x00\x00\x00\x00\x00";

const VERSION_2: &[u8] =
    b"\x12\x00\x00\x00\x02\x03\x00\x00\x00\x00\x00\x00\x00\x00\x40\x42\x0f\x00\x00\x00\x00\x00";

const KIND_17: &[u8] = b"\x02\x00\x00\x00\x01\x11";

/// What the peer sends where it announces 5 ms at once.
const AHEAD: [&[u8]; 4] = [HELLO_B, AT_0, AT_5, LEAVE];

/// What is then given: 104 bytes.
const ALL: [&[u8]; 6] = [HELLO_A, AT_0, AT_1, AT_2, AT_3, LEAVE];

fn joined(alloc: Global, frames: &[&[u8]]) -> Result<Vec<u8>, AllocError> {
    let mut bytes = Vec::new(alloc);
    for frame in frames {
        bytes.extend_from_slice(frame)?;
    }
    Ok(bytes)
}

/// One take for all frames.
fn one_piece(alloc: Global, frames: &[&[u8]]) -> Result<Vec<MemTake>, AllocError> {
    let mut takes = Vec::new(alloc);
    takes.push(MemTake::Bytes(joined(alloc, frames)?))?;
    Ok(takes)
}

/// A take for each byte, with others between them.
fn single_bytes(alloc: Global, frames: &[&[u8]], waits: bool) -> Result<Vec<MemTake>, AllocError> {
    let mut takes = Vec::new(alloc);
    for frame in frames {
        for byte in frame.iter() {
            if waits {
                takes.push(MemTake::NotYet)?;
            }
            takes.push(MemTake::Bytes([*byte].to_vec(alloc)?))?;
        }
    }
    Ok(takes)
}

/// A run of A to 3 ms in steps of 1 ms.
#[tactic(auto, unfolding(sk_msg::specs::Rules::is_step_size))]
fn run(alloc: Global, link: &mut MemLink) -> Result<PipeEnding, NameFault> {
    let plan = Plan {
        name: Name::new(alloc, "A")?,
        step: 1_000_000,
        duration: 3_000_000,
    };
    Ok(run_pipe(alloc, plan, link))
}

fn link_of(alloc: Global, takes: Vec<MemTake>) -> MemLink {
    MemLink::new(alloc, takes, Vec::new(alloc), Vec::new(alloc))
}

/// A run on these frames in one piece gives this, and ends so.
fn expect(
    rt: &(impl Abort + AllocGlobal),
    frames: &[&[u8]],
    given: &[&[u8]],
    ending: PipeEnding,
) -> Result<(), Fail> {
    let alloc = rt.alloc();
    let mut link = link_of(alloc, one_piece(alloc, frames)?);
    assert_eq!(rt; run(alloc, &mut link)?, ending);
    assert_eq!(rt; link.given(), joined(alloc, given)?.as_slice());
    Ok(())
}

#[test]
fn worked_runs(rt: HostRuntime) -> Result<(), Fail> {
    // The peer is ahead.
    expect(&rt, &AHEAD, &ALL, PipeEnding::Left)?;
    // It ends, after it announced 1 ms, and after one nanosecond less.
    let two: [&[u8]; 4] = [HELLO_A, AT_0, AT_1, AT_2];
    expect(&rt, &[HELLO_B, AT_0, AT_1], &two, PipeEnding::NoLeave)?;
    let one: [&[u8]; 3] = [HELLO_A, AT_0, AT_1];
    expect(&rt, &[HELLO_B, AT_0, BELOW_1], &one, PipeEnding::NoLeave)?;
    // It isn't synchronised, and leaves.
    expect(&rt, &[LOOSE_B, LEAVE], &ALL, PipeEnding::Left)?;
    // It leaves at once; what follows isn't read.
    expect(&rt, &[HELLO_B, LEAVE, VERSION_2], &ALL, PipeEnding::Left)?;
    Ok(())
}

#[test]
fn bad_input(rt: HostRuntime) -> Result<(), Fail> {
    let start: [&[u8]; 2] = [HELLO_A, AT_0];
    // Bytes that are no message.
    expect(&rt, &[VERSION_2], &start, PipeEnding::BadInput)?;
    expect(
        &rt,
        &[HELLO_B, KIND_17, LEAVE],
        &start,
        PipeEnding::BadInput,
    )?;
    // Messages out of order: no Hello first, a second Hello, an unsynchronised peer that
    // announces, an announcement that doesn't rise.
    expect(&rt, &[LEAVE], &start, PipeEnding::BadInput)?;
    expect(&rt, &[HELLO_B, HELLO_B], &start, PipeEnding::BadInput)?;
    expect(&rt, &[LOOSE_B, AT_0], &ALL, PipeEnding::BadInput)?;
    let one: [&[u8]; 3] = [HELLO_A, AT_0, AT_1];
    expect(&rt, &[HELLO_B, AT_0, AT_0], &one, PipeEnding::BadInput)?;
    // An end in the middle of a message.
    expect(
        &rt,
        &[HELLO_B, b"\x12\x00\x00"],
        &start,
        PipeEnding::NoLeave,
    )?;
    Ok(())
}

#[test]
fn a_slow_link(rt: HostRuntime) -> Result<(), Fail> {
    let alloc = rt.alloc();
    let mut gives = Vec::new(alloc);
    for _ in 0..40u8 {
        gives.push(MemGive::NotYet)?;
        gives.push(MemGive::Bytes(1))?;
        gives.push(MemGive::Bytes(0))?;
    }
    let takes = single_bytes(alloc, &AHEAD, true)?;
    let mut link = MemLink::new(alloc, takes, gives, Vec::new(alloc));
    assert_eq!(rt; run(alloc, &mut link)?, PipeEnding::Left);
    assert_eq!(rt; link.given(), joined(alloc, &ALL)?.as_slice());
    Ok(())
}

/// Each call of the run on one piece, which takes once and gives three times.
#[test]
fn each_call_fails_once(rt: HostRuntime) -> Result<(), Fail> {
    let alloc = rt.alloc();
    let all = joined(alloc, &ALL)?;
    for (call, number, ending) in [
        (CallKind::Take, 1, PipeEnding::LinkFault),
        (CallKind::Take, 2, PipeEnding::Left),
        (CallKind::Give, 1, PipeEnding::LinkFault),
        (CallKind::Give, 3, PipeEnding::LinkFault),
        (CallKind::Give, 4, PipeEnding::Left),
    ] {
        let mut fails = Vec::new(alloc);
        fails.push(FailAt {
            call,
            link: 0,
            number,
        })?;
        let mut link = MemLink::new(alloc, one_piece(alloc, &AHEAD)?, Vec::new(alloc), fails);
        assert_eq!(rt; run(alloc, &mut link)?, ending);
        assert!(rt; all.as_slice().starts_with(link.given()));
        assert!(rt; (link.given().len() == all.len()) == (ending == PipeEnding::Left));
    }
    Ok(())
}

#[test]
fn too_many_waits(rt: HostRuntime) -> Result<(), Fail> {
    let alloc = rt.alloc();
    let mut takes = Vec::new(alloc);
    let mut gives = Vec::new(alloc);
    for _ in 0..524_288u32 {
        takes.push(MemTake::NotYet)?;
        gives.push(MemGive::NotYet)?;
    }
    let mut link = MemLink::new(alloc, takes, gives, Vec::new(alloc));
    assert_eq!(rt; run(alloc, &mut link)?, PipeEnding::Limit);
    assert_eq!(rt; link.given().len(), 0);
    Ok(())
}
