//! What a rule of a script is.

ghost use Rattle.std.specs.Prelude.{◌≡◌};

use crate::action::Actions;
use std::marker::Model;

/// The most rules of one participant: each is looked at in every step. More are a fault of the file.
pub const MOST_RULES: usize = 256;

/// When a rule is carried out.
#[derive(Clone, Copy, Debug)]
pub enum When {
    /// At this time, 0 to 2^62 nanoseconds of virtual time.
    At(u64),
    /// Again and again.
    Every {
        /// How often, 1 to 2^60 nanoseconds of virtual time.
        size: u64,
        /// From which time on, in nanoseconds of virtual time.
        from: u64,
    },
    /// For each message that this own service gets.
    On(u32),
}

/// Which of the conditions a rule has.
#[derive(Clone, Copy, Debug)]
pub enum Condition {
    /// A time.
    At,
    /// Again and again.
    Every,
    /// A service.
    On,
}

/// A rule. Contracts see the condition and the list of actions.
#[derive(Debug, Drop)]
pub struct ScriptRule {
    /// When it is carried out.
    pub when: When,
    /// What is done then, 1 to 256 actions.
    pub actions: Actions,
}

impl Model for ScriptRule {
    ghost use Rattle.sk_rules.specs.Scripts.{RuleValue};

    ghost Value = { RuleValue };

    ghost view = { λ r. record { when = r.when; actions = r.actions } };
}

/// Rules in order. Contracts see the list.
#[derive(Debug, Drop)]
pub struct Rules {
    rules: Vec<ScriptRule>,
}

impl Model for Rules {
    ghost use Rattle.std.specs.Prelude.{List};
    ghost use Rattle.sk_rules.specs.Scripts.{RuleValue};

    ghost Value = { List RuleValue };

    ghost view = { λ rules. rules.rules.items };
}

impl Rules {
    /// These rules, in this order.
    pub fn new(rules: Vec<ScriptRule>) -> Rules
        ensures { result ≡ rules.items }
    {
        Rules { rules }
    }

    /// The rules in order.
    pub fn as_slice(&self) -> &[ScriptRule]
        ensures { result.now ≡ self.now }
    {
        self.rules.as_slice()
    }
}
