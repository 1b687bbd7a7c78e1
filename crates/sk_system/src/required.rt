//! The six rules of the system state, over whatever tells the last known state of a name.

ghost use Rattle.std.specs.Prelude.{◌≡◌, find, unwrap_or};
ghost use Rattle.std.specs.List.{list_all};
ghost use Rattle.sk_msg.specs.declared.state.State.{State};
ghost use Rattle.sk_msg.specs.States.{is_state};
ghost use Rattle.sk_system.specs.System.{some_is, some_reached, all_reached, is_unknown, is_running_or_paused, is_paused};
ghost use Rattle.sk_system.specs.System.{ending, least_before_stopping, system_of, last_states};

use sk_msg::State;

/// The chain up to Running.
const BEFORE_RUNNING: [State; 4] = [
    State::ServicesCreated,
    State::CommunicationInitializing,
    State::CommunicationInitialized,
    State::ReadyToRun,
];

/// What tells the last known state of a name.
pub trait LastStates<N> {
    ghost use Rattle.std.specs.Prelude.{Option};

    /// None where nothing is known of it.
    ghost known: { Self → N → Option State };

    /// The last known state of this name; Invalid where nothing is known of it.
    fn last_state(&self, name: &N) -> State
        ensures { result ≡ unwrap_or (known self.now name.now) State.Invalid };
}

/// The names that are required, and what tells their last known states.
#[derive(Drop)]
pub struct Required<'a, N, S> {
    pub names: &'a [N],
    pub known: &'a S,
}

impl<N, S: LastStates<N>> Required<'_, N, S> {
    /// The first of the six rules that fits.
    #[tactic(auto, using(crate::proofs::Least::least_early), unfolding(crate::specs::System::system_of))]
    pub fn system(&self) -> State
        ensures { result ≡ system_of (last_states (S.known self.now.known.now) self.now.names.now) }
    {
        if self.is_unknown() {
            return State::Invalid;
        }
        if self.some_is(State::Aborting) {
            return State::Aborting;
        }
        if self.some_is(State::Error) {
            return State::Error;
        }
        if self.some_reached(State::Stopping) {
            return self.ending();
        }
        if self.is_paused() {
            return State::Paused;
        }
        self.least_before_stopping()
    }

    /// Whether nobody is required, or one is Invalid or has no known state.
    fn is_unknown(&self) -> bool
        ensures { result ≡ is_unknown (last_states (S.known self.now.known.now) self.now.names.now) }
    {
        self.names.is_empty() || self.some_is(State::Invalid)
    }

    /// Whether all are Running or Paused, and one is Paused.
    fn is_paused(&self) -> bool
        ensures { result ≡ is_paused (last_states (S.known self.now.known.now) self.now.names.now) }
    {
        self.all_running_or_paused() && self.some_is(State::Paused)
    }

    /// Shutdown, ShuttingDown or Stopped, the last in the chain that all have reached; else
    /// Stopping.
    fn ending(&self) -> State
        ensures { result ≡ ending (last_states (S.known self.now.known.now) self.now.names.now) }
    {
        [State::Shutdown, State::ShuttingDown, State::Stopped]
            .iter()
            .copied()
            .find(|goal| self.all_reached(*goal))
            .unwrap_or(State::Stopping)
    }

    /// Whether one stands at this state.
    #[tactic(auto, unfolding(crate::specs::System::some_is))]
    pub fn some_is(&self, state: State) -> bool
        ensures { result ≡ some_is state (last_states (S.known self.now.known.now) self.now.names.now) }
    {
        self.names
            .iter()
            .map(|name| self.known.last_state(name))
            .any(|last| is_same(state, last))
    }

    /// Whether one has reached this state.
    #[tactic(auto, unfolding(crate::specs::System::some_reached))]
    fn some_reached(&self, goal: State) -> bool
        ensures { result ≡ some_reached goal (last_states (S.known self.now.known.now) self.now.names.now) }
    {
        self.names
            .iter()
            .map(|name| self.known.last_state(name))
            .any(|state| state.reached(goal))
    }

    /// Whether all have reached this state.
    #[tactic(auto, unfolding(crate::specs::System::all_reached))]
    pub fn all_reached(&self, goal: State) -> bool
        ensures { result ≡ all_reached goal (last_states (S.known self.now.known.now) self.now.names.now) }
    {
        self.names
            .iter()
            .map(|name| self.known.last_state(name))
            .all(|state| state.reached(goal))
    }

    fn all_running_or_paused(&self) -> bool
        ensures { result
            ≡ list_all is_running_or_paused (last_states (S.known self.now.known.now) self.now.names.now) }
    {
        self.names
            .iter()
            .map(|name| self.known.last_state(name))
            .all(|state| is_running_or_paused(state))
    }

    /// The least in the chain, where none is outside it and none has reached Stopping.
    fn least_before_stopping(&self) -> State
        ensures { result
            ≡ least_before_stopping (last_states (S.known self.now.known.now) self.now.names.now) }
    {
        self.first_at(&BEFORE_RUNNING).unwrap_or(State::Running)
    }

    /// The first of these at which one stands.
    fn first_at(&self, places: &[State]) -> Option<State>
        ensures { let states = last_states (S.known self.now.known.now) self.now.names.now in
            result ≡ find (λ place. some_is place states) places.now }
    {
        places.iter().copied().find(|place| self.some_is(*place))
    }
}

/// Whether both are one state, as a test that contracts name.
#[tactic(auto, unfolding(sk_msg::specs::States::is_state))]
pub fn is_same(one: State, other: State) -> bool
    ensures { result ≡ is_state one other }
{
    one.number() == other.number()
}

#[tactic(auto, unfolding(sk_msg::specs::States::is_state))]
fn is_running_or_paused(state: State) -> bool
    ensures { result ≡ is_running_or_paused state }
{
    matches!(state, State::Running | State::Paused)
}
