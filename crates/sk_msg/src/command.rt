//! What may be asked of a participant, and how it answers.

use crate::state::State;

/// A command to a participant. It is accepted exactly where the present state has an edge of it.
#[derive(Clone, Copy, Debug, PartialEq, Eq)]
pub enum Command {
    /// Running to Paused.
    Pause,
    /// Paused to Running.
    Continue,
    /// Running or Paused to Stopping.
    Stop,
    /// Every edge to Error.
    ReportError,
    /// Every edge to Aborting.
    Abort,
}

/// The answer to a command.
#[derive(Clone, Copy, Debug, PartialEq, Eq)]
pub enum Verdict {
    /// It took effect at once.
    Accepted,
    /// The present state, which this is, has no edge of the command, and nothing changed.
    Refused(State),
}
