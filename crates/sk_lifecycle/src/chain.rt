//! The chain from the start to the end: when each state of it is left.

ghost use Rattle.std.specs.Prelude.{◌≡◌, IsTrue, IfSome};
ghost use Rattle.sk_msg.specs.Edges.{has_edge};
ghost use Rattle.sk_msg.specs.Rules.{is_told};
ghost use Rattle.sk_system.specs.View.{view_reached};
ghost use Rattle.sk_lifecycle.specs.Course.{are_there, chain_row};

use crate::known::Known;
use sk_msg::State::{
    self, Aborting, CommunicationInitialized, CommunicationInitializing, Error, Invalid, Paused,
    ReadyToRun, Running, ServicesCreated, Shutdown, ShuttingDown, Stopped, Stopping,
};
use sk_system::SystemView;

/// The next state in the chain, where what this state waits for holds; None where it doesn't, and
/// outside the chain. It costs at most one look at those that are required.
#[tactic(auto, using(crate::proofs::CourseLaws::row_edges, crate::proofs::ToldLaws::told))]
pub fn next_state(coordinated: bool, state: State, view: &SystemView, known: Known) -> Option<State>
    ensures row { result ≡ chain_row coordinated (view_reached view.now) known state }
    ensures edge { IfSome result (λ to. IsTrue (has_edge state to)) }
    ensures told { IfSome result (λ to. IsTrue (is_told to)) }
{
    row(coordinated, state, view, known)
}

/// The row of this state.
#[tactic(auto, unfolding(crate::specs::Course::chain_row))]
fn row(coordinated: bool, state: State, view: &SystemView, known: Known) -> Option<State>
    ensures { result ≡ chain_row coordinated (view_reached view.now) known state }
{
    let all_here = || are_there(coordinated, view, state);
    match state {
        ServicesCreated => (known.hellos && all_here()).then_some(CommunicationInitializing),
        CommunicationInitializing => known.services.then_some(CommunicationInitialized),
        CommunicationInitialized => (known.ready && all_here()).then_some(ReadyToRun),
        ReadyToRun => all_here().then_some(Running),
        Running => (known.at_limit && !known.step_open).then_some(Stopping),
        Stopping => (!known.step_open).then_some(Stopped),
        Stopped => all_here().then_some(ShuttingDown),
        ShuttingDown => Some(Shutdown),
        Invalid | Paused | Error | Shutdown | Aborting => None,
    }
}

/// Whether all that are required have reached this state, which is asked of a coordinated
/// participant alone.
fn are_there(coordinated: bool, view: &SystemView, state: State) -> bool
    ensures { result ≡ are_there coordinated (view_reached view.now) state }
{
    !coordinated || view.all_reached(state)
}
