//! What is known of the states of all participants, and what it adds up to.

ghost use Rattle.std.specs.Prelude.{◌≡◌, ◌<◌, length, slice_set, replicate, Some, None, IfOk};
ghost use Rattle.sk_system.specs.View.{known_of, view_system, view_reached};

use crate::required::{LastStates, Required};
use sk_base::WantOfMemory;
use sk_msg::State;
use std::alloc::Global;
use std::marker::Model;

/// The required participants, and the last known state of each participant.
///
/// Contracts see both, participants by their numbers.
#[derive(Debug, Drop)]
pub struct SystemView {
    required: Option<Vec<Option<u32>>>,
    known: Vec<Option<State>>,
}

impl Model for SystemView {
    ghost use Rattle.std.specs.Prelude.{option_map};
    ghost use Rattle.sk_system.specs.View.{View};

    ghost Value = { View };

    ghost view = { λ view. record { required = option_map (λ names. names.items) view.required; known = view.known.items } };
}

impl SystemView {
    /// The view of so many participants, numbered from 0: the workflow isn't known, and no state
    /// is.
    pub fn new(alloc: Global, participants: u32) -> Result<SystemView, WantOfMemory>
        ensures { IfOk result (λ view.
            view ≡ record { required = None; known = replicate participants None }) }
    {
        Ok(SystemView {
            required: None,
            known: vec![in alloc; None; participants as usize]?,
        })
    }

    /// The workflow is known: these names are required. None stands for a name that is no
    /// participant.
    pub fn set_required(&mut self, required: Vec<Option<u32>>)
        ensures { self.new ≡ record self.old { required = Some required.items } }
    {
        self.required = Some(required);
    }

    /// This is the last known state of a participant from now on.
    pub fn note(&mut self, participant: u32, state: State)
        requires { participant < length self.old.known }
        ensures { self.new
            ≡ record self.old { known = slice_set self.old.known participant (Some state) } }
    {
        self.known[participant as usize] = Some(state);
    }

    /// The last known state of a participant. None where no state of it is known, as of a number
    /// that no participant has.
    pub fn last(&self, participant: u32) -> Option<State>
        ensures { result ≡ known_of self.now.known (Some participant) }
    {
        match self.known.get(participant as usize) {
            Some(state) => *state,
            None => None,
        }
    }

    /// The state of the whole simulation: Invalid where the workflow isn't known, else the first of
    /// six rules on the last known states of those that are required.
    #[tactic(auto, unfolding(crate::specs::View::view_system))]
    pub fn system(&self) -> State
        ensures { result ≡ view_system self.now }
    {
        match &self.required {
            Some(names) => Required {
                names: names.as_slice(),
                known: &ByNumber(self.known.as_slice()),
            }
            .system(),
            None => State::Invalid,
        }
    }

    /// Whether all that are required have reached this state; false where the workflow isn't known.
    #[tactic(auto, unfolding(crate::specs::View::view_reached))]
    pub fn all_reached(&self, state: State) -> bool
        ensures { result ≡ view_reached self.now state }
    {
        match &self.required {
            Some(names) => Required {
                names: names.as_slice(),
                known: &ByNumber(self.known.as_slice()),
            }
            .all_reached(state),
            None => false,
        }
    }
}

/// The last known states by participant number. None, for a name that is no participant, has none.
#[derive(Clone, Copy)]
struct ByNumber<'a>(&'a [Option<State>]);

impl LastStates<Option<u32>> for ByNumber<'_> {
    ghost known = { λ states. known_of states.0.now };

    fn last_state(&self, name: &Option<u32>) -> State {
        match name {
            Some(number) => match self.0.get(*number as usize) {
                Some(Some(state)) => *state,
                _ => State::Invalid,
            },
            None => State::Invalid,
        }
    }
}

#[cfg(test)]
mod tests;
