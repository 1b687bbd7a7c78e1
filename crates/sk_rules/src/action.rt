//! What an action of a script is.

ghost use Rattle.std.specs.Prelude.{◌≡◌};

use sk_base::Bytes;
use sk_msg::Action;
use std::marker::Model;

/// An action as a script has it. A service is named by its number, a variable by its place.
#[derive(Debug, Drop)]
pub enum ScriptAction {
    /// What a participant may be asked, as it stands.
    Fixed(Action),
    /// An action with bytes, to which the 8 bytes of this variable are appended.
    Append(Action, u32),
    /// An answer to the call that the rule is carried out for.
    Reply {
        /// The server, on which the rule is.
        service: u32,
        /// The bytes.
        payload: Bytes,
        /// The variable whose 8 bytes are appended, if there is one.
        append: Option<u32>,
    },
    /// Gives a variable this value.
    Set(u32, u64),
    /// Adds this to a variable, which stops at 2^64 - 1.
    Add(u32, u64),
    /// Gives a variable the number that the first bytes of what was received are.
    Take(u32),
}

/// Actions in order. Contracts see the list.
#[derive(Debug, Drop)]
pub struct Actions {
    actions: Vec<ScriptAction>,
}

impl Model for Actions {
    ghost use Rattle.std.specs.Prelude.{List};
    ghost use Rattle.sk_rules.specs.declared.action.ScriptAction.{ScriptAction};

    ghost Value = { List ScriptAction };

    ghost view = { λ actions. actions.actions.items };
}

impl Actions {
    /// These actions, in this order.
    pub fn new(actions: Vec<ScriptAction>) -> Actions
        ensures { result ≡ actions.items }
    {
        Actions { actions }
    }

    /// The actions in order.
    pub fn as_slice(&self) -> &[ScriptAction]
        ensures { result.now ≡ self.now }
    {
        self.actions.as_slice()
    }
}
