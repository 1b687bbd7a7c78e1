//! What a LIN controller is at.

/// What a LIN controller is at: the states of SIL Kit's `LinControllerStatus`.
#[derive(Clone, Copy, Debug, PartialEq, Eq)]
pub enum LinState {
    /// It was not initialised.
    Uninit,
    /// It takes part in the bus.
    Operational,
    /// The bus sleeps; a wake-up ends it.
    Sleep,
}
