//! What the entries of a journal say by themselves.

ghost use Rattle.std.specs.Prelude.{◌≡◌, ◌<◌, ◌-◌, ◌^◌, [], length};
ghost use Rattle.sk_msg.specs.States.{is_state};
ghost use Rattle.sk_msg.specs.declared.state.State.TheVariants.{Running};
ghost use Rattle.sk_msg.specs.declared.entry.Entry.TheVariants.{Got, Put, State as Entered, System as Judged, Begin, Done, End};
ghost use Rattle.sk_law.specs.Order.{carried};
ghost use Rattle.sk_law.specs.Tallies.{tally_of, tally_after};

use crate::Begun;
use sk_base::SimTime;
use sk_msg::{Content, Message, State};

/// The plain readings of a journal, kept with each entry.
#[derive(Clone, Copy, Debug)]
pub struct Tally {
    /// The last state.
    pub state: State,
    /// The last system state that was told.
    pub told: State,
    /// Whether Running was entered.
    pub has_run: bool,
    /// The step that was begun last.
    pub begun: Option<Begun>,
    /// The same, where it hasn't ended.
    pub step: Option<Begun>,
    /// The number of the next step.
    pub next: u64,
    /// Whether the asynchronous ready handler was completed.
    pub has_completed: bool,
    /// The payload bytes that were got and put, at most 2^64 - 1.
    pub payload: u64,
}

impl Tally {
    /// Of no entry.
    pub fn start() -> Tally
        ensures { result ≡ tally_of [] }
    {
        Tally {
            state: State::Invalid,
            told: State::Invalid,
            has_run: false,
            begun: None,
            step: None,
            next: 1,
            has_completed: false,
            payload: 0,
        }
    }

    /// After State.
    pub fn after_state(self, to: State) -> Tally
        ensures { result ≡ tally_after self (Entered to) }
    {
        let is_first = is_running(to);
        Tally {
            state: to,
            has_run: self.has_run | is_first,
            ..self
        }
    }

    /// After System.
    pub fn after_system(self, to: State) -> Tally
        ensures { result ≡ tally_after self (Judged to) }
    {
        Tally { told: to, ..self }
    }

    /// After Put.
    pub fn after_put(self, number: u32, message: &Message) -> Tally
        ensures { result ≡ tally_after self (Put number message.now) }
    {
        let more = payload_len(message);
        Tally {
            payload: self.payload.saturating_add(more),
            ..self
        }
    }

    /// After Got.
    pub fn after_got(self, number: u32, message: &Message) -> Tally
        ensures { result ≡ tally_after self (Got number message.now) }
    {
        let more = payload_len(message);
        Tally {
            payload: self.payload.saturating_add(more),
            ..self
        }
    }

    /// After Begin.
    pub fn after_begin(self, number: u64, time: SimTime) -> Tally
        requires { self.next < 2 ^ 64 - 1 }
        ensures { result ≡ tally_after self (Begin number time) }
    {
        Tally {
            begun: Some(Begun { number, time }),
            step: Some(Begun { number, time }),
            next: self.next + 1,
            ..self
        }
    }

    /// After End.
    pub fn after_end(self, number: u64) -> Tally
        ensures { result ≡ tally_after self (End number) }
    {
        Tally { step: None, ..self }
    }

    /// After Done.
    pub fn after_done(self, number: u64) -> Tally
        ensures { result ≡ tally_after self (Done number) }
    {
        Tally {
            has_completed: self.has_completed | (number == 0),
            ..self
        }
    }
}

#[tactic(auto, unfolding(sk_msg::specs::States::is_state))]
fn is_running(state: State) -> bool
    ensures { result ≡ is_state Running state }
{
    matches!(state, State::Running)
}

/// The payload bytes of a data message; 0 of another one.
pub fn payload_len(message: &Message) -> u64
    ensures { result ≡ length (carried message.now) }
{
    match message.content() {
        Content::Can { frame, .. } => frame.payload.as_slice().len() as u64,
        Content::Eth { payload, .. } => payload.as_slice().len() as u64,
        Content::Lin { frame, .. } => frame.payload.as_slice().len() as u64,
        Content::LinResponse { response, .. } => response.payload.as_slice().len() as u64,
        Content::Publish { payload, .. } => payload.as_slice().len() as u64,
        Content::Call { payload, .. } => payload.as_slice().len() as u64,
        Content::Reply { payload, .. } => payload.as_slice().len() as u64,
        Content::Hello { .. }
        | Content::Leave
        | Content::NextStep { .. }
        | Content::ServiceAdd { .. }
        | Content::ServicesEnd
        | Content::Status { .. }
        | Content::Workflow { .. }
        | Content::Abort
        | Content::Refuse { .. } => 0,
    }
}
