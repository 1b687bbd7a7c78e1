//! The states of a CAN controller, and the table of its calls.

ghost use Rattle.std.specs.Prelude.{◌≡◌};
ghost use Rattle.sk_can.specs.Can as can;

use CanState::{Sleep, Started, Stopped, Uninit};

/// What a CAN controller is at: the states of SIL Kit's `CanControllerState`.
#[derive(Clone, Copy, Debug, PartialEq, Eq)]
pub enum CanState {
    /// It was never started, or was reset.
    Uninit,
    /// It takes no part in the bus.
    Stopped,
    /// It sends, and is handed what others send.
    Started,
    /// It sleeps until it is started, stopped or reset.
    Sleep,
}

// The table: where a call leads from a state, None where the state refuses it.

/// Where setting the baud rate leads.
pub(crate) fn after_baud(state: CanState) -> Option<CanState>
    ensures { result ≡ can.can_baud state }
{
    match state {
        Uninit => Some(Uninit),
        Stopped => Some(Stopped),
        Started => None,
        Sleep => None,
    }
}

/// Where starting leads.
pub(crate) fn after_start(state: CanState) -> Option<CanState>
    ensures { result ≡ can.can_start state }
{
    match state {
        Uninit => Some(Started),
        Stopped => Some(Started),
        Started => None,
        Sleep => Some(Started),
    }
}

/// Where stopping leads.
pub(crate) fn after_stop(state: CanState) -> Option<CanState>
    ensures { result ≡ can.can_stop state }
{
    match state {
        Uninit => None,
        Stopped => None,
        Started => Some(Stopped),
        Sleep => Some(Stopped),
    }
}

/// Where resetting leads.
pub(crate) fn after_reset(state: CanState) -> Option<CanState>
    ensures { result ≡ can.can_reset state }
{
    match state {
        Uninit => Some(Uninit),
        Stopped => Some(Uninit),
        Started => Some(Uninit),
        Sleep => Some(Uninit),
    }
}

/// Where going to sleep leads.
pub(crate) fn after_sleep(state: CanState) -> Option<CanState>
    ensures { result ≡ can.can_sleep state }
{
    match state {
        Uninit => None,
        Stopped => Some(Sleep),
        Started => Some(Sleep),
        Sleep => None,
    }
}
