//! What both ways to run a scenario come to.

/// What is left of a run.
#[derive(Debug, Drop)]
pub struct Outcome {
    /// The exit status: 0 where all finished, 6 where somebody was aborted too.
    pub status: u8,
    /// The text of the journals.
    pub text: Vec<u8>,
}
