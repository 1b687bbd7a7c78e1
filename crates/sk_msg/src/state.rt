//! The states of a participant.

ghost use Rattle.std.specs.Prelude.{◌≡◌, Some};
ghost use Rattle.sk_msg.specs.States.{state_number, state_of, chain_place, has_reached};
ghost use Rattle.sk_msg.specs.StateNames.{state_name};

use std::fmt;

/// What a participant is at, in the order of the numbers.
#[derive(Clone, Copy, Debug, PartialEq, Eq)]
pub enum State {
    /// Nothing is known of it.
    Invalid,
    /// Its services are made.
    ServicesCreated,
    /// It tells the others of its services.
    CommunicationInitializing,
    /// It knows the services of all others.
    CommunicationInitialized,
    /// Its ready handler is done.
    ReadyToRun,
    /// It takes steps.
    Running,
    /// It takes no steps, until it is to go on.
    Paused,
    /// It takes no further steps.
    Stopping,
    /// Its stop handler was called.
    Stopped,
    /// It failed.
    Error,
    /// Its shutdown handler is next.
    ShuttingDown,
    /// It is at its end.
    Shutdown,
    /// Its abort handler is next.
    Aborting,
}

impl State {
    /// The number by which it goes on the wire and in texts, 0 to 120.
    pub fn number(self) -> u8
        ensures { result ≡ state_number self }
    {
        match self {
            State::Invalid => 0,
            State::ServicesCreated => 10,
            State::CommunicationInitializing => 20,
            State::CommunicationInitialized => 30,
            State::ReadyToRun => 40,
            State::Running => 50,
            State::Paused => 60,
            State::Stopping => 70,
            State::Stopped => 80,
            State::Error => 90,
            State::ShuttingDown => 100,
            State::Shutdown => 110,
            State::Aborting => 120,
        }
    }

    /// The state of this number, or None where no state has it.
    pub fn from_number(number: u8) -> Option<State>
        ensures { result ≡ state_of number }
    {
        match number {
            0 => Some(State::Invalid),
            10 => Some(State::ServicesCreated),
            20 => Some(State::CommunicationInitializing),
            30 => Some(State::CommunicationInitialized),
            40 => Some(State::ReadyToRun),
            50 => Some(State::Running),
            60 => Some(State::Paused),
            70 => Some(State::Stopping),
            80 => Some(State::Stopped),
            90 => Some(State::Error),
            100 => Some(State::ShuttingDown),
            110 => Some(State::Shutdown),
            120 => Some(State::Aborting),
            _ => None,
        }
    }

    /// What it is called in texts, as `ReadyToRun`.
    #[tactic(auto, unfolding(crate::specs::StateNames::state_name))]
    pub fn name(self) -> &'static str
        ensures { result.now ≡ state_name self }
    {
        match self {
            State::Invalid => "Invalid",
            State::ServicesCreated => "ServicesCreated",
            State::CommunicationInitializing => "CommunicationInitializing",
            State::CommunicationInitialized => "CommunicationInitialized",
            State::ReadyToRun => "ReadyToRun",
            State::Running => "Running",
            State::Paused => "Paused",
            State::Stopping => "Stopping",
            State::Stopped => "Stopped",
            State::Error => "Error",
            State::ShuttingDown => "ShuttingDown",
            State::Shutdown => "Shutdown",
            State::Aborting => "Aborting",
        }
    }

    /// Whether it stands in the chain at the other state or after it. Paused counts as Running;
    /// Invalid, Error and Aborting stand outside the chain: they have reached nothing, and nothing
    /// has reached them.
    #[tactic(auto, using(crate::proofs::StateLaws::by_places))]
    pub fn reached(self, other: State) -> bool
        ensures { result ≡ has_reached self other }
    {
        match (self.chain_place(), other.chain_place()) {
            (Some(here), Some(there)) => there <= here,
            _ => false,
        }
    }

    /// Its place in the chain from the start to the end, or None outside the chain.
    #[tactic(auto, unfolding(crate::specs::States::chain_place, crate::specs::States::is_state))]
    fn chain_place(self) -> Option<u8>
        ensures { result ≡ chain_place self }
    {
        match self {
            State::ServicesCreated => Some(0),
            State::CommunicationInitializing => Some(1),
            State::CommunicationInitialized => Some(2),
            State::ReadyToRun => Some(3),
            State::Running | State::Paused => Some(4),
            State::Stopping => Some(5),
            State::Stopped => Some(6),
            State::ShuttingDown => Some(7),
            State::Shutdown => Some(8),
            State::Invalid | State::Error | State::Aborting => None,
        }
    }
}

/// What it is called in texts.
impl fmt::Display for State {
    ghost output = { λ state. Some (state_name state) };

    fn fmt<W: fmt::Write>(&self, f: &mut fmt::Formatter<W>) -> fmt::Result {
        f.write_str(self.name())
    }
}
