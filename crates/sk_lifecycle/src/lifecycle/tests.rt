use super::*;
use Command::{Abort, Continue, Pause, ReportError, Stop};
use State::{
    Aborting, CommunicationInitialized, CommunicationInitializing, Error, Invalid, Paused,
    ReadyToRun, Running, ServicesCreated, Shutdown, ShuttingDown, Stopped, Stopping,
};
use sk_base::WantOfMemory;
use sk_msg::rules::is_told;
use std::alloc::Global;
use std::process;
use std::test::Fail;

/// Of each state that a lifecycle may be in: where its edges lead, and which commands it has edges
/// of.
const TABLE: [(State, &[State], &[Command]); 12] = [
    (
        ServicesCreated,
        &[CommunicationInitializing, Error, Aborting],
        &[ReportError, Abort],
    ),
    (
        CommunicationInitializing,
        &[CommunicationInitialized, Error, Aborting],
        &[ReportError, Abort],
    ),
    (
        CommunicationInitialized,
        &[ReadyToRun, Error, Aborting],
        &[ReportError, Abort],
    ),
    (
        ReadyToRun,
        &[Running, Error, Aborting],
        &[ReportError, Abort],
    ),
    (
        Running,
        &[Paused, Stopping, Error, Aborting],
        &[Pause, Stop, ReportError, Abort],
    ),
    (
        Paused,
        &[Running, Stopping, Error, Aborting],
        &[Continue, Stop, ReportError, Abort],
    ),
    (Stopping, &[Stopped, Error, Aborting], &[ReportError, Abort]),
    (
        Stopped,
        &[ShuttingDown, Error, Aborting],
        &[ReportError, Abort],
    ),
    (Error, &[Aborting], &[Abort]),
    (ShuttingDown, &[Shutdown], &[]),
    (Shutdown, &[], &[]),
    (Aborting, &[Shutdown], &[]),
];

/// Where each command leads.
const COMMANDS: [(Command, State); 5] = [
    (Pause, Paused),
    (Continue, Running),
    (Stop, Stopping),
    (ReportError, Error),
    (Abort, Aborting),
];

/// Of each state: its number, and how many states of the chain it has reached.
const NUMBERS: [(State, u8, usize); 13] = [
    (Invalid, 0, 0),
    (ServicesCreated, 10, 1),
    (CommunicationInitializing, 20, 2),
    (CommunicationInitialized, 30, 3),
    (ReadyToRun, 40, 4),
    (Running, 50, 5),
    (Paused, 60, 5),
    (Stopping, 70, 6),
    (Stopped, 80, 7),
    (Error, 90, 0),
    (ShuttingDown, 100, 8),
    (Shutdown, 110, 9),
    (Aborting, 120, 0),
];

const CHAIN: [State; 9] = [
    ServicesCreated,
    CommunicationInitializing,
    CommunicationInitialized,
    ReadyToRun,
    Running,
    Stopping,
    Stopped,
    ShuttingDown,
    Shutdown,
];

/// A coordinated one in this state, which isn't Invalid.
fn at(rt: &impl process::Abort, state: State) -> Lifecycle {
    assert!(rt; is_told(state));
    Lifecycle {
        coordinated: true,
        state,
    }
}

#[test]
fn every_state_with_each_state_and_each_command(rt: HostRuntime) {
    for (from, next, commands) in TABLE {
        assert_eq!(rt; at(&rt, from).enter(Invalid), Err(from), "{from:?}");
        for (to, ..) in TABLE {
            let mut lifecycle = at(&rt, from);
            let expected = if next.contains(&to) {
                Ok(())
            } else {
                Err(from)
            };
            assert_eq!(rt; lifecycle.enter(to), expected, "{from:?} to {to:?}");
            let then = if expected.is_ok() { to } else { from };
            assert_eq!(rt; lifecycle.state(), then, "{from:?} to {to:?}");
        }
        for (command, to) in COMMANDS {
            let mut lifecycle = at(&rt, from);
            let accepts = commands.contains(&command);
            let expected = if accepts {
                Verdict::Accepted
            } else {
                Verdict::Refused(from)
            };
            assert_eq!(rt; lifecycle.ask(command), expected, "{command:?} in {from:?}");
            let then = if accepts { to } else { from };
            assert_eq!(rt; lifecycle.state(), then, "{command:?} in {from:?}");
        }
    }
}

#[test]
fn commands_in_turn(rt: HostRuntime) {
    let mut lifecycle = at(&rt, Running);
    assert_eq!(rt; lifecycle.ask(Pause), Verdict::Accepted);
    assert_eq!(rt; lifecycle.ask(Pause), Verdict::Refused(Paused));
    assert_eq!(rt; lifecycle.ask(Continue), Verdict::Accepted);
    assert_eq!(rt; lifecycle.ask(Continue), Verdict::Refused(Running));
    assert_eq!(rt; at(&rt, Shutdown).ask(Stop), Verdict::Refused(Shutdown));
    assert_eq!(rt;
        at(&rt, ShuttingDown).ask(Abort),
        Verdict::Refused(ShuttingDown)
    );
}

/// Everything that a state may wait for, beside what those that are required have reached.
const ALL: Known = Known {
    hellos: true,
    services: true,
    ready: true,
    at_limit: true,
    step_open: false,
};

/// All but one: 0 stands for the hellos, 1 for the services, 2 for the ready handler, 3 for the
/// limit and 4 for an open step. Nothing is missing at 5, which stands for those that are required.
fn all_but(missing: usize) -> Known {
    Known {
        hellos: missing != 0,
        services: missing != 1,
        ready: missing != 2,
        at_limit: missing != 3,
        step_open: missing == 4,
    }
}

/// Of each state of the chain: where it goes on, and which of these six it waits for.
const WAITS: [(State, State, &[usize]); 8] = [
    (ServicesCreated, CommunicationInitializing, &[0, 5]),
    (CommunicationInitializing, CommunicationInitialized, &[1]),
    (CommunicationInitialized, ReadyToRun, &[2, 5]),
    (ReadyToRun, Running, &[5]),
    (Running, Stopping, &[3, 4]),
    (Stopping, Stopped, &[4]),
    (Stopped, ShuttingDown, &[5]),
    (ShuttingDown, Shutdown, &[]),
];

/// One required participant, which is in this state.
fn one(alloc: Global, state: State) -> Result<SystemView, WantOfMemory> {
    let mut view = SystemView::new(alloc, 1)?;
    view.set_required(vec![in alloc; Some(0)]?);
    view.note(0, state);
    Ok(view)
}

#[test]
fn the_chain_waits(rt: HostRuntime) -> Result<(), Fail> {
    for (from, to, waits) in WAITS {
        for missing in 0..6usize {
            let view = one(rt.alloc(), if missing == 5 { Invalid } else { from })?;
            let mut lifecycle = at(&rt, from);
            let expected = if waits.contains(&missing) {
                None
            } else {
                Some(to)
            };
            assert_eq!(rt;
                lifecycle.advance(&view, all_but(missing)),
                expected,
                "{from:?} without {missing}"
            );
            assert_eq!(rt;
                lifecycle.state(),
                expected.unwrap_or(from),
                "{from:?} without {missing}"
            );
        }
    }
    Ok(())
}

#[test]
fn an_autonomous_one_waits_for_nobody(rt: HostRuntime) -> Result<(), Fail> {
    let nothing = SystemView::new(rt.alloc(), 1)?;
    let mut lifecycle = Lifecycle::new(false);
    assert_eq!(rt; lifecycle.state(), ServicesCreated);
    for (_, to, _) in WAITS {
        assert_eq!(rt; lifecycle.advance(&nothing, ALL), Some(to));
    }
    assert_eq!(rt;
        Lifecycle::new(true).advance(&nothing, ALL),
        None,
        "a coordinated one waits for the workflow"
    );
    for state in [Paused, Error, Shutdown, Aborting] {
        assert_eq!(rt;
            at(&rt, state).advance(&nothing, ALL),
            None,
            "{state:?} isn't in the chain, or at its end"
        );
    }
    Ok(())
}

#[test]
fn states_have_numbers_and_places(rt: HostRuntime) {
    for (state, number, come) in NUMBERS {
        assert_eq!(rt; state.number(), number);
        assert_eq!(rt; State::from_number(number), Some(state));
        for (place, goal) in CHAIN.iter().enumerate() {
            assert_eq!(rt;
                state.reached(*goal),
                place < come,
                "{state:?} and {goal:?}"
            );
        }
        assert_eq!(rt; state.reached(Paused), state.reached(Running));
        for outside in [Invalid, Error, Aborting] {
            assert!(rt; !state.reached(outside), "{state:?} and {outside:?}");
        }
    }
    for number in 0..=255u8 {
        let is_one = NUMBERS.iter().any(|row| row.1 == number);
        assert_eq!(rt; State::from_number(number).is_some(), is_one, "{number}");
    }
}
