//! What a callback asks for.

ghost use Rattle.std.specs.Prelude.{◌≡◌, nat_le, [], ◌∷◌, ◌++◌, length, true, false, IsTrue, IfOk, IfErr, OnOk, OnErr, is_err};
ghost use Rattle.sk_law.specs.Outbox.{are_filled};

use sk_base::WantOfMemory;
use sk_base::limits::MOST_ACTIONS;
use sk_msg::Action;
use std::alloc::Global;
use std::marker::Model;

/// What a callback asks for: at most 256 actions, in order.
///
/// One more is handed back, and that it was tried is noted: the participant reports a fault for it
/// once the others are done.
#[derive(Debug, Drop)]
pub struct Outbox {
    actions: Vec<Action>,
    over: bool,
}

impl Model for Outbox {
    ghost use Rattle.std.specs.Prelude.{IsTrue, vec_capacity, ◌≤◌};
    ghost use Rattle.sk_law.specs.Outbox.{Outbox, are_filled};

    ghost Value = { Outbox };

    ghost view = { λ out. record { actions = out.actions.items; over = out.over } };

    ghost invariant = { λ out. IsTrue (are_filled out.actions.items out.over) × (256 ≤ vec_capacity out.actions) };
}

impl Outbox {
    /// Nothing is asked for yet. The room for 256 actions is taken here.
    pub fn new(alloc: Global) -> Result<Outbox, WantOfMemory>
        ensures empty { IfOk result (λ out. (out.actions ≡ []) × (out.over ≡ false)) }
    {
        let actions = Vec::with_capacity(alloc, MOST_ACTIONS)?;
        Ok(Outbox {
            actions,
            over: false,
        })
    }

    /// Asks for one thing more. It is handed back exactly where 256 are in.
    pub fn add(&mut self, action: Action) -> Result<(), Action>
        ensures full { is_err result ≡ nat_le 256 (length self.old.actions) }
        ensures added { OnOk result (self.new ≡ record self.old { actions = self.old.actions ++ action ∷ [] }) }
        ensures back { IfErr result (λ given. given ≡ action) }
        ensures over { OnErr result (self.new ≡ record self.old { over = true }) }
    {
        let asked = self.actions.as_slice().len();
        if asked >= MOST_ACTIONS {
            self.over = true;
            return Err(action);
        }
        let Ok(()) = self.actions.push(action) else {
            unreachable!()
        };
        Ok(())
    }

    /// What is asked for so far.
    pub fn actions(&self) -> &[Action]
        ensures value { result.now ≡ self.now.actions }
        ensures filled { IsTrue (are_filled self.now.actions self.now.over) }
    {
        self.actions.as_slice()
    }

    /// Whether more than 256 were tried.
    pub fn is_over(&self) -> bool
        ensures { result ≡ self.now.over }
    {
        self.over
    }
}
