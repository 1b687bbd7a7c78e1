use super::*;
use CanState::{Sleep, Started, Stopped, Uninit};
use sk_base::{Bytes, BytesFault};
use std::alloc::Global;
use std::test::Fail;

/// What can be called.
#[derive(Clone, Copy, Debug)]
enum Call {
    SetBaudRate,
    Start,
    Stop,
    Reset,
    GoToSleep,
    Send,
}

fn make(can: &mut CanController, call: Call, frame: &CanFrame) -> Result<(), CanRefused> {
    match call {
        Call::SetBaudRate => can.set_baud_rate(500_000),
        Call::Start => can.start(),
        Call::Stop => can.stop(),
        Call::Reset => can.reset(),
        Call::GoToSleep => can.sleep(),
        Call::Send => can.send(frame),
    }
}

/// The states in the order of the columns.
const STATES: [CanState; 4] = [Uninit, Stopped, Started, Sleep];

/// Of each call: the state after it from each state, None where it is refused.
const TABLE: [(Call, [Option<CanState>; 4]); 6] = [
    (Call::SetBaudRate, [Some(Uninit), Some(Stopped), None, None]),
    (
        Call::Start,
        [Some(Started), Some(Started), None, Some(Started)],
    ),
    (Call::Stop, [None, None, Some(Stopped), Some(Stopped)]),
    (
        Call::Reset,
        [Some(Uninit), Some(Uninit), Some(Uninit), Some(Uninit)],
    ),
    (Call::GoToSleep, [None, Some(Sleep), Some(Sleep), None]),
    (Call::Send, [None, None, Some(Started), None]),
];

#[test]
fn every_call_in_every_state(rt: HostRuntime) -> Result<(), Fail> {
    let frame = frame(rt.alloc(), 1, false, false, 8)?;
    for (call, row) in TABLE {
        for (from, to) in STATES.iter().zip(row.iter()) {
            let mut can = CanController {
                state: *from,
                rate: None,
            };
            let expected = match to {
                Some(_) => Ok(()),
                None => Err(CanRefused::State(*from)),
            };
            assert_eq!(rt;
                make(&mut can, call, &frame),
                expected,
                "{call:?} in {from:?}"
            );
            assert_eq!(rt; can.state(), to.unwrap_or(*from), "{call:?} in {from:?}");
            assert_eq!(rt; can.admits(), can.state() == Started);
        }
    }
    Ok(())
}

/// Of each frame of 9 bytes: identifier, whether it is extended, and the rule that it breaks.
const IDENTIFIERS: [(u32, bool, FrameRule); 4] = [
    (0x7FF, false, FrameRule::Length),
    (0x800, false, FrameRule::Identifier),
    (0x1FFF_FFFF, true, FrameRule::Length),
    (0x2000_0000, true, FrameRule::Identifier),
];

#[test]
fn the_identifier_is_judged_first(rt: HostRuntime) -> Result<(), Fail> {
    let mut can = CanController::new();
    can.start().expect(&rt, "a start");
    for (id, extended, rule) in IDENTIFIERS {
        let frame = frame(rt.alloc(), id, extended, false, 9)?;
        assert_eq!(rt; can.send(&frame), Err(CanRefused::BadFrame(rule)), "{id}");
    }
    Ok(())
}

/// The lengths of CAN FD; those up to 8 are the lengths of a classical frame too.
const LENGTHS: [usize; 16] = [0, 1, 2, 3, 4, 5, 6, 7, 8, 12, 16, 20, 24, 32, 48, 64];

#[test]
fn every_length(rt: HostRuntime) -> Result<(), Fail> {
    let mut can = CanController::new();
    can.start().expect(&rt, "a start");
    for len in 0..66 {
        for fd in [false, true] {
            let frame = frame(rt.alloc(), 0x7FF, false, fd, len)?;
            let expected = if LENGTHS.contains(&len) && (fd || len < 9) {
                Ok(())
            } else {
                Err(CanRefused::BadFrame(FrameRule::Length))
            };
            assert_eq!(rt; can.send(&frame), expected, "{len} bytes, FD {fd}");
        }
    }
    Ok(())
}

fn frame(
    alloc: Global,
    id: u32,
    extended: bool,
    fd: bool,
    len: usize,
) -> Result<CanFrame, BytesFault> {
    let bytes = [0u8; 65];
    Ok(CanFrame {
        id,
        extended,
        fd,
        payload: Bytes::new(alloc, bytes.get(..len).unwrap_or(&[]))?,
    })
}
