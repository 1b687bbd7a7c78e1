//! Words that a value has to be one of.

ghost use Rattle.std.specs.Prelude.{◌≡◌};
ghost use Rattle.sk_script.specs.Words as spec;

use sk_rules::Word;

/// How a participant takes part.
#[derive(Clone, Copy, Debug)]
pub enum Mode {
    /// The others wait for it, and it for them: `coordinated`.
    Coordinated,
    /// It goes by itself: `autonomous`.
    Autonomous,
}

impl Word for Mode {
    ghost meaning = { spec.mode_of };

    #[tactic(auto, unfolding(crate::specs::Words::mode_of))]
    fn from_word(word: &str) -> Option<Mode> {
        if word == "coordinated" {
            Some(Mode::Coordinated)
        } else if word == "autonomous" {
            Some(Mode::Autonomous)
        } else {
            None
        }
    }
}
