//! A LIN controller by its public calls.

ghost use Rattle.std.specs.Prelude.{◌≡◌, IsTrue, IfOk};
ghost use Rattle.sk_lin.specs.Lin.{is_lin_response};

use LinState::{Operational, Sleep, Uninit};
use sk_base::{Bytes, BytesFault};
use sk_lin::{LinController, LinRefused, LinState};
use sk_msg::rules::{is_lin_id, is_lin_payload, is_sent};
use sk_msg::{LinChecksum, LinFrame, LinMode, LinResponse, LinRole, LinStatus};
use std::alloc::Global;
use std::process::Abort;
use std::test::Fail;

/// A controller that keeps nothing yet, led to this state.
fn controller(alloc: Global, state: LinState, role: LinRole) -> Result<LinController, LinRefused> {
    let mut lin = LinController::new(alloc);
    match state {
        Uninit => {}
        Operational => lin.init(role)?,
        Sleep => {
            lin.init(role)?;
            lin.received(&sleep_frame(alloc)?);
        }
    }
    Ok(lin)
}

fn sleep_frame(alloc: Global) -> Result<LinFrame, LinRefused> {
    let mut master = LinController::new(alloc);
    master.init(LinRole::Master)?;
    master.go_to_sleep()
}

/// The state that a refusal names; it is asked for last.
fn state_of(mut lin: LinController) -> LinState {
    match lin.init(LinRole::Slave) {
        Err(LinRefused::State(state)) => state,
        _ => Uninit,
    }
}

/// A response that answers with these bytes.
fn answering(alloc: Global, id: u8, bytes: &[u8]) -> Result<LinResponse, BytesFault> {
    Ok(LinResponse {
        id,
        mode: LinMode::TxUnconditional,
        checksum: LinChecksum::Enhanced,
        payload: Bytes::new(alloc, bytes)?,
    })
}

/// What can be called.
#[derive(Clone, Copy, Debug)]
enum Call {
    Init,
    SetResponse,
    SendHeader,
    SendFrame,
    GoToSleep,
    WakeUp,
}

/// What a call answers: where it leads, or the reason against it.
#[derive(Clone, Copy, Debug)]
enum Cell {
    To(LinState),
    State,
    Role,
}

use Cell::{Role, State, To};

/// Of each call: what it answers in Uninit, in Operational of a master and of a slave, and in
/// Sleep.
const TABLE: [(Call, [Cell; 4]); 6] = [
    (Call::Init, [To(Operational), State, State, State]),
    (
        Call::SetResponse,
        [State, To(Operational), To(Operational), State],
    ),
    (Call::SendHeader, [State, To(Operational), Role, State]),
    (Call::SendFrame, [State, To(Operational), Role, State]),
    (Call::GoToSleep, [State, To(Sleep), Role, State]),
    (Call::WakeUp, [State, State, State, To(Operational)]),
];

const COLUMNS: [(LinState, LinRole); 4] = [
    (Uninit, LinRole::Master),
    (Operational, LinRole::Master),
    (Operational, LinRole::Slave),
    (Sleep, LinRole::Slave),
];

fn make(lin: &mut LinController, call: Call, response: LinResponse) -> Result<(), LinRefused> {
    let answer = match call {
        Call::Init => return lin.init(LinRole::Slave),
        Call::SetResponse => return lin.set_response(response),
        Call::SendHeader => lin.send_header(5),
        Call::SendFrame => lin.send_frame(response),
        Call::GoToSleep => lin.go_to_sleep(),
        Call::WakeUp => lin.wakeup(),
    };
    match answer {
        Ok(_) => Ok(()),
        Err(reason) => Err(reason),
    }
}

/// What the call answers, and the state behind it.
fn made(
    alloc: Global,
    call: Call,
    (state, role): (LinState, LinRole),
) -> Result<(Result<(), LinRefused>, LinState), Fail> {
    let mut lin = controller(alloc, state, role)?;
    let answer = make(&mut lin, call, answering(alloc, 5, &[1])?);
    Ok((answer, state_of(lin)))
}

#[test]
fn every_call_in_every_state(rt: HostRuntime) -> Result<(), Fail> {
    for (call, row) in TABLE {
        for (from, cell) in COLUMNS.iter().zip(row.iter()) {
            let expected = match cell {
                To(state) => (Ok(()), *state),
                State => (Err(LinRefused::State(from.0)), from.0),
                Role => (Err(LinRefused::Role), from.0),
            };
            assert!(rt;
                made(rt.alloc(), call, *from)? == expected,
                "{call:?} in {from:?}"
            );
        }
    }
    Ok(())
}

/// Whose response comes next (None: the own one), its identifier, and the byte that it answers with
/// (None: it is unused). Then what a header of identifier 5 brings, and its byte.
const STEPS: [(Option<(u32, u32)>, u8, Option<u8>, LinStatus, Option<u8>); 9] = [
    (Some((3, 0)), 6, Some(9), LinStatus::RxNoResponse, None),
    (Some((3, 0)), 5, Some(1), LinStatus::RxOk, Some(1)),
    (Some((3, 0)), 5, Some(2), LinStatus::RxOk, Some(2)),
    (None, 5, Some(3), LinStatus::RxError, None),
    (Some((3, 1)), 5, Some(4), LinStatus::RxError, None),
    (None, 5, None, LinStatus::RxError, None),
    (Some((3, 0)), 5, None, LinStatus::RxOk, Some(4)),
    (Some((2, 1)), 63, Some(7), LinStatus::RxOk, Some(4)),
    (Some((3, 1)), 5, None, LinStatus::RxNoResponse, None),
];

#[test]
fn a_header_by_who_answers(rt: HostRuntime) -> Result<(), Fail> {
    let mut lin = controller(rt.alloc(), Operational, LinRole::Master)?;
    for (source, id, byte, status, brought) in STEPS {
        keep(&mut lin, source, step(rt.alloc(), id, byte)?)?;
        assert!(rt;
            seen(lin.send_header(5)?) == (status, brought),
            "{source:?} at {id}"
        );
    }
    Ok(())
}

/// A frame is sent alone, and disturbed where another answers too.
#[test]
fn a_frame_by_who_answers(rt: HostRuntime) -> Result<(), Fail> {
    let mut lin = controller(rt.alloc(), Operational, LinRole::Master)?;
    lin.note(2, 1, step(rt.alloc(), 63, Some(7))?)?;
    for (id, status, brought) in [
        (5, LinStatus::RxOk, Some(8)),
        (63, LinStatus::RxError, None),
    ] {
        let response = answering(rt.alloc(), id, &[8])?;
        assert!(rt;
            seen(lin.send_frame(response)?) == (status, brought),
            "{id}"
        );
    }
    Ok(())
}

/// The status of a frame, and its byte.
fn seen(frame: LinFrame) -> (LinStatus, Option<u8>) {
    (frame.status, frame.payload.as_slice().first().copied())
}

/// Notes a response of this source, or sets the own one.
fn keep(
    lin: &mut LinController,
    source: Option<(u32, u32)>,
    response: LinResponse,
) -> Result<(), LinRefused>
    requires { IsTrue (is_lin_response response) }
{
    match source {
        None => lin.set_response(response),
        Some((peer, service)) => match lin.note(peer, service, response) {
            Ok(()) => Ok(()),
            Err(_) => Err(LinRefused::WantOfMemory),
        },
    }
}

/// A response that answers with this byte, or an unused one.
fn step(alloc: Global, id: u8, byte: Option<u8>) -> Result<LinResponse, Fail>
    ensures { IfOk result (λ made. IsTrue (is_lin_response made)) }
{
    let response = match byte {
        Some(byte) => answering(alloc, id, &[byte])?,
        None => LinResponse {
            id,
            mode: LinMode::Unused,
            checksum: LinChecksum::Unknown,
            payload: Bytes::new(alloc, &[])?,
        },
    };
    if is_valid(&response) {
        Ok(response)
    } else {
        Err(Fail::new("no response"))
    }
}

#[tactic(auto, unfolding(sk_lin::specs::Lin::is_lin_response))]
fn is_valid(response: &LinResponse) -> bool
    ensures { result ≡ is_lin_response response.now }
{
    is_lin_id(response.id)
        && is_lin_payload(
            is_sent(response.mode),
            response.checksum,
            response.payload.as_slice(),
        )
}

/// Identifier, mode, whether the checksum is known, number of bytes; and whether it may be set and
/// sent as a frame.
const RESPONSES: [(u8, LinMode, bool, usize, bool, bool); 7] = [
    (63, LinMode::TxUnconditional, true, 8, true, true),
    (63, LinMode::TxUnconditional, false, 0, true, true),
    (64, LinMode::TxUnconditional, true, 8, false, false),
    (63, LinMode::TxUnconditional, true, 9, false, false),
    (63, LinMode::Rx, false, 0, true, false),
    (63, LinMode::Rx, true, 0, false, false),
    (63, LinMode::Unused, false, 1, false, false),
];

/// What the call answers with such a response.
fn judged(
    alloc: Global,
    call: Call,
    id: u8,
    mode: LinMode,
    known: bool,
    len: usize,
) -> Result<Result<(), LinRefused>, Fail> {
    let bytes = [1u8; 9];
    let response = LinResponse {
        id,
        mode,
        checksum: if known {
            LinChecksum::Classic
        } else {
            LinChecksum::Unknown
        },
        payload: Bytes::new(alloc, bytes.get(..len).unwrap_or(&[]))?,
    };
    let mut lin = controller(alloc, Operational, LinRole::Master)?;
    Ok(make(&mut lin, call, response))
}

#[test]
fn responses_by_their_rules(rt: HostRuntime) -> Result<(), Fail> {
    for (id, mode, known, len, set, sent) in RESPONSES {
        for (call, expected) in [(Call::SetResponse, set), (Call::SendFrame, sent)] {
            let answer = judged(rt.alloc(), call, id, mode, known, len)?;
            let expected = if expected {
                Ok(())
            } else {
                Err(LinRefused::BadFrame)
            };
            assert!(rt; answer == expected, "{call:?} {id} {mode:?} {len}");
        }
    }
    let lin = controller(rt.alloc(), Operational, LinRole::Master)?;
    assert!(rt; matches!(lin.send_header(64), Err(LinRefused::BadFrame)));
    Ok(())
}

/// Whether the frame is admitted in this state, and the state after it was handed.
fn handed(alloc: Global, frame: &LinFrame, from: LinState) -> Result<(bool, LinState), Fail> {
    let mut lin = controller(alloc, from, LinRole::Slave)?;
    let admitted = lin.admits(frame);
    lin.received(frame);
    Ok((admitted, state_of(lin)))
}

/// The same of each state.
fn handed_in_each(alloc: Global, frame: &LinFrame) -> Result<[(bool, LinState); 3], Fail> {
    Ok([
        handed(alloc, frame, Uninit)?,
        handed(alloc, frame, Operational)?,
        handed(alloc, frame, Sleep)?,
    ])
}

#[test]
fn the_sleep_frame_in_each_state(rt: HostRuntime) -> Result<(), Fail> {
    let mut frame = sleep_frame(rt.alloc())?;
    assert!(rt; (frame.id, frame.checksum) == (0x3C, LinChecksum::Classic));
    let bytes = [0, 255, 255, 255, 255, 255, 255, 255];
    assert!(rt; frame.payload.as_slice() == bytes.as_slice());
    let expected = [(false, Uninit), (true, Sleep), (false, Sleep)];
    assert!(rt; handed_in_each(rt.alloc(), &frame)? == expected);
    // with other bytes it is a frame like others
    frame.payload = Bytes::new(rt.alloc(), &[0, 255, 255, 255, 255, 255, 255, 254])?;
    let expected = [(false, Uninit), (true, Operational), (false, Sleep)];
    assert!(rt; handed_in_each(rt.alloc(), &frame)? == expected);
    Ok(())
}

#[test]
fn the_wakeup_in_each_state(rt: HostRuntime) -> Result<(), Fail> {
    let frame = controller(rt.alloc(), Sleep, LinRole::Slave)?.wakeup()?;
    assert!(rt; (frame.id, frame.checksum) == (0, LinChecksum::Unknown));
    let expected = [(false, Uninit), (true, Operational), (true, Operational)];
    assert!(rt; handed_in_each(rt.alloc(), &frame)? == expected);
    Ok(())
}
