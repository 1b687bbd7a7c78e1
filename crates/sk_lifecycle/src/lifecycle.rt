//! One participant's way through its states.

ghost use Rattle.std.specs.Prelude.{◌≡◌, IsTrue, IfSome};
ghost use Rattle.sk_msg.specs.Edges.{has_edge};
ghost use Rattle.sk_msg.specs.Rules.{is_told};
ghost use Rattle.sk_system.specs.View.{view_reached};
ghost use Rattle.sk_lifecycle.specs.Course.{start, Answers, Enters, Ask, Enter, Advance, after_call, chain_row};

use crate::known::Known;
use crate::{chain, edges};
use sk_msg::{Command, State, Verdict};
use sk_system::SystemView;
use std::marker::Model;

/// One participant's lifecycle: the state it is in, which is never Invalid, and whether it is
/// coordinated.
///
/// Contracts see both.
#[derive(Debug, Drop)]
pub struct Lifecycle {
    coordinated: bool,
    state: State,
}

impl Model for Lifecycle {
    ghost use Rattle.sk_lifecycle.specs.Course.{Course};

    ghost Value = { Course };

    ghost view = { λ lifecycle. record { coordinated = lifecycle.coordinated; state = lifecycle.state } };

    ghost use Rattle.std.specs.Prelude.{IsTrue};
    ghost use Rattle.sk_msg.specs.Rules.{is_told};

    ghost invariant = { λ lifecycle. IsTrue (is_told lifecycle.state) };
}

impl Lifecycle {
    /// A lifecycle at its start, in ServicesCreated. A coordinated one waits for all that are
    /// required.
    #[tactic(auto, using(crate::proofs::ToldLaws::told))]
    pub fn new(coordinated: bool) -> Lifecycle
        ensures { result ≡ start coordinated }
    {
        Lifecycle {
            coordinated,
            state: State::ServicesCreated,
        }
    }

    /// The present state, never Invalid.
    pub fn state(&self) -> State
        ensures value { result ≡ self.now.state }
        ensures told { IsTrue (is_told self.now.state) }
    {
        self.state
    }

    /// Obeys a command at once, where the present state has an edge of it; else refuses it with the
    /// present state and changes nothing.
    #[tactic(auto, using(crate::proofs::CourseLaws::answers, crate::proofs::ToldLaws::told))]
    pub fn ask(&mut self, command: Command) -> Verdict
        ensures answer { Answers command self.old result self.new }
        ensures after { self.new ≡ after_call self.old (Ask command) }
    {
        match edges::led_to(self.state, command) {
            Some(to) => {
                self.state = to;
                Verdict::Accepted
            }
            None => Verdict::Refused(self.state),
        }
    }

    /// Goes to this state, where there is an edge; else refuses it with the present state and
    /// changes nothing.
    #[tactic(auto, using(crate::proofs::ToldLaws::told))]
    pub fn enter(&mut self, to: State) -> Result<(), State>
        ensures answer { Enters to self.old result self.new }
        ensures after { self.new ≡ after_call self.old (Enter to) }
    {
        if !edges::has_edge(self.state, to) {
            return Err(self.state);
        }
        self.state = to;
        Ok(())
    }

    /// Goes on in the chain, where what the next state waits for holds, and says where it is then.
    /// Else it answers None and changes nothing, as outside the chain.
    #[tactic(auto, using(crate::proofs::CourseLaws::row_edges, crate::proofs::ToldLaws::told))]
    pub fn advance(&mut self, view: &SystemView, known: Known) -> Option<State>
        ensures row { result
            ≡ chain_row self.old.coordinated (view_reached view.now) known self.old.state }
        ensures edge { IfSome result (λ to. IsTrue (has_edge self.old.state to)) }
        ensures after { self.new ≡ after_call self.old (Advance (view_reached view.now) known) }
    {
        let next = chain::next_state(self.coordinated, self.state, view, known);
        if let Some(to) = next {
            self.state = to;
        }
        next
    }
}

#[cfg(test)]
mod tests;
