//! Actions in order.

ghost use Rattle.std.specs.Prelude.{◌≡◌, IfOk};

use sk_base::WantOfMemory;
use sk_msg::Action;
use std::alloc::Global;
use std::marker::Model;

/// Actions in order. Contracts see the list.
#[derive(Debug, Drop)]
pub struct Actions {
    actions: Vec<Action>,
}

impl Model for Actions {
    ghost use Rattle.std.specs.Prelude.{List};
    ghost use Rattle.sk_msg.specs.declared.action.Action.{Action};

    ghost Value = { List Action };

    ghost view = { λ actions. actions.actions.items };
}

impl Actions {
    /// These actions, in this order.
    pub fn new(actions: Vec<Action>) -> Actions
        ensures { result ≡ actions.items }
    {
        Actions { actions }
    }

    /// The actions in order.
    pub fn as_slice(&self) -> &[Action]
        ensures { result.now ≡ self.now }
    {
        self.actions.as_slice()
    }

    /// The same actions again.
    pub fn copy(&self, alloc: Global) -> Result<Actions, WantOfMemory>
        ensures { IfOk result (λ copy. copy ≡ self.now) }
    {
        Ok(Actions {
            actions: copy_actions(alloc, &self.actions)?,
        })
    }
}

/// The same actions again.
pub(crate) fn copy_actions(alloc: Global, actions: &[Action]) -> Result<Vec<Action>, WantOfMemory>
    ensures { IfOk result (λ copies. copies.items ≡ actions.now) }
{
    let mut copies = Vec::new(alloc);
    for action in actions {
        copies.push(action.copy(alloc)?)?;
    }
    Ok(copies)
}
