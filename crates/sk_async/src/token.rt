//! What ends an open step.

ghost use Rattle.std.specs.Prelude.{◌≡◌};

use std::marker::Model;

/// A step that is open until this is spent. Contracts see the step's number; 0 stands for the ready
/// handler.
///
/// It can't be dropped: who has it completes it, abandons it or hands it on.
#[derive(Debug)]
pub struct StepToken {
    number: u64,
}

impl Model for StepToken {
    ghost use Rattle.std.specs.Prelude.{ℕ};

    ghost Value = { ℕ };

    ghost view = { λ token. token.number };
}

/// That the step of a number is done, as whoever made this says. Contracts see the number.
#[derive(Debug, Drop)]
pub struct Completion {
    number: u64,
}

impl Model for Completion {
    ghost use Rattle.std.specs.Prelude.{ℕ};

    ghost Value = { ℕ };

    ghost view = { λ completion. completion.number };
}

impl StepToken {
    /// The token of the step of this number, 0 for the ready handler.
    pub fn new(number: u64) -> StepToken
        ensures { result ≡ number }
    {
        StepToken { number }
    }

    /// Says that the step is done: the completion has the step's number.
    pub fn complete(self) -> Completion
        ensures { result ≡ self }
    {
        let StepToken { number } = self;
        Completion::new(number)
    }

    /// Gives the token up. Its step stays open.
    pub fn abandon(self) {
        let StepToken { number: _ } = self;
    }
}

impl Completion {
    /// The completion of the step of this number, 0 for the ready handler.
    pub fn new(number: u64) -> Completion
        ensures { result ≡ number }
    {
        Completion { number }
    }

    /// The number of the step.
    pub fn number(&self) -> u64
        ensures { result ≡ self.now }
    {
        self.number
    }
}
