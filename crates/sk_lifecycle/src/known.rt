//! What a participant knows beside the system state.

/// What a participant's next state waits for, beside what those that are required have reached.
#[derive(Clone, Copy, Debug, PartialEq, Eq)]
pub struct Known {
    /// Each peer has said who it is.
    pub hellos: bool,
    /// Each peer has told all its services.
    pub services: bool,
    /// The ready handler is done.
    pub ready: bool,
    /// A synchronised participant's next step time isn't below its limit; an unsynchronised one's
    /// synchronised peers have all reached Stopping or have left.
    pub at_limit: bool,
    /// A step has begun and hasn't ended.
    pub step_open: bool,
}
