//! The own services: what each is at, whom a message is for, and what it changes in them.

ghost use Rattle.std.specs.Prelude.{◌≡◌, ℕ, ◌<◌, ◌≤◌, ◌+◌, ◌^◌, IsTrue, Some, true, [], ◌∷◌, length, slice_get, slice_index_or, option_copied, if◌then◌else◌, IfOk, IfSome, OnOk, OnErr};
ghost use Rattle.sk_msg.specs.Rules.{is_mark};
ghost use Rattle.sk_msg.specs.declared.entry.Entry.TheVariants as entries;
ghost use Rattle.sk_msg.specs.declared.service.Service.{Service};
ghost use Rattle.sk_msg.specs.declared.service.ServiceKind.TheVariants as kinds;
ghost use Rattle.sk_lin.specs.Lin.{is_lin_response};
ghost use Rattle.sk_law.specs.declared.memory.ServiceState.TheVariants as states;
ghost use Rattle.sk_law.specs.Counted.{are_calls, calls_made};
ghost use Rattle.sk_law.specs.Kept.{grown, AddsNothing};
ghost use Rattle.sk_law.specs.Outcomes.{has_server};
ghost use Rattle.sk_law.specs.Links.{from};
ghost use Rattle.sk_law.specs.Order.{has_kind, services_of};
ghost use Rattle.sk_law.specs.Past.{add};
ghost use Rattle.sk_law.specs.Readings.{head_at, number_of, state_of, time_after};
ghost use Rattle.sk_law.specs.Receivers.{changed, handed_to, is_over, note, receive, takers, with_services};
ghost use Rattle.sk_law.specs.Serving.{all_noted, serves, some_serve, takers_in};

use crate::journal::Journal;
use crate::line::Line;
use crate::order::is_state;
use crate::{Begun, ServiceState, ServiceStates, journals_go_by_entries};
use sk_base::{SimTime, WantOfMemory};
use sk_msg::{Content, Entry, Head, LinResponse, Message, Sent, Service, ServiceKind, State};
use sk_pubsub::Receivers;
use std::alloc::Global;

impl Journal {
    /// The own service of this number.
    pub fn own(&self, service: u32) -> Option<&Service>
        ensures { option_copied result ≡ slice_get self.now.setup.services service }
    {
        self.setup.services.as_slice().get(service as usize)
    }

    /// The head of a data message that this own service sends now.
    pub fn head(&self, service: u32) -> Head
        ensures value { result ≡ head_at service self.now.past.journal }
        ensures mark { IsTrue (is_mark result.mark) }
    {
        Head {
            service,
            stamp: stamp(self.last_begun()),
            mark: mark(self.open_step()),
        }
    }

    /// Whether a peer that isn't gone has announced a server for this own client.
    pub fn has_server(&self, service: u32) -> bool
        ensures { (own : Service) → slice_get self.now.setup.services service ≡ Some own → result ≡ has_server self.now.setup self.now.past own }
    {
        let limit = self.setup.names.as_slice().len();
        some_serve(
            self.lines.as_slice(),
            &self.index,
            self.setup.number,
            service,
            limit,
        )
    }

    /// The own services that a message of this peer is handed to, were it got now and in order, in
    /// rising number. In Error, Aborting and Shutdown there are none.
    pub fn receivers(&self, peer: u32, message: &Message) -> Result<Vec<u32>, WantOfMemory>
        ensures { IfOk result (λ numbers. numbers.items ≡ (if is_over (state_of self.now.past.journal) then [] else handed_to self.now.setup self.now.past peer message.now)) }
    {
        if is_over(self.tally.state) {
            return Ok(Vec::new(self.alloc));
        }
        self.handed_to(peer, message)
    }

    /// The same where the state doesn't keep it from being handed.
    fn handed_to(&self, peer: u32, message: &Message) -> Result<Vec<u32>, WantOfMemory>
        ensures { IfOk result (λ numbers. numbers.items ≡ handed_to self.now.setup self.now.past peer message.now) }
    {
        match message.content() {
            Content::Reply { client, .. } => {
                caller(self.alloc, self.setup.services.as_slice(), *client)
            }
            Content::LinResponse { .. } => Ok(Vec::new(self.alloc)),
            Content::Can { head, .. } => self.takers(peer, head.service, message),
            Content::Eth { head, .. } => self.takers(peer, head.service, message),
            Content::Lin { head, .. } => self.takers(peer, head.service, message),
            Content::Publish { head, .. } => self.takers(peer, head.service, message),
            Content::Call { head, .. } => self.takers(peer, head.service, message),
            Content::Hello { .. }
            | Content::Leave
            | Content::NextStep { .. }
            | Content::ServiceAdd { .. }
            | Content::ServicesEnd
            | Content::Status { .. }
            | Content::Workflow { .. }
            | Content::Abort
            | Content::Refuse { .. } => Ok(Vec::new(self.alloc)),
        }
    }

    /// The own services that match this service of the peer and admit the message.
    fn takers(&self, peer: u32, service: u32, message: &Message) -> Result<Vec<u32>, WantOfMemory>
        ensures { IfOk result (λ numbers. numbers.items ≡ takers self.now.setup self.now.past message.now (slice_get (services_of (from self.now.setup self.now.past peer)) service)) }
    {
        let found = takers_in(
            self.alloc,
            &self.memory.services,
            self.index.receivers(peer, service),
            message,
        )?;
        Ok(found)
    }

    /// What the own service of this number is at, taken out so that an action may change it. Until
    /// `add_did` puts it back a subscriber's state stands in its place.
    pub fn take_state(&mut self, service: u32) -> Option<ServiceState>
        ensures state { result ≡ slice_get self.old.past.memory.services service }
        ensures counted { IfSome result (λ state. calls_made state ≤ length self.old.past.journal) }
        ensures few { IfSome result (λ state. calls_made state < 2 ^ 63) }
        ensures calls { IfSome result (λ state. IsTrue (are_calls state)) }
        ensures rest { self.new ≡ grown (with_services (changed (λ at. states.Subscriber) service self.old.past.memory.services) self.old.past) self.old }
    {
        self.memory.services.take(service)
    }

    /// An action on this own service was answered; the service is at this state now.
    pub fn add_did(
        &mut self,
        service: u32,
        code: u8,
        message: Option<Sent>,
        state: ServiceState,
    ) -> Result<(), WantOfMemory>
        requires counted { calls_made state ≤ length self.old.past.journal + 1 }
        requires calls { IsTrue (are_calls state) }
        ensures ok { OnOk result (self.new ≡ grown (add (entries.Did service code message) (with_services (changed (λ at. state) service self.old.past.memory.services) self.old.past)) self.old) }
        ensures err { OnErr result (self.new ≡ self.old) }
    {
        journals_go_by_entries();
        self.entries.push(Entry::Did(service, code, message))?;
        let _before = self.memory.services.put(service, state);
        Ok(())
    }

    /// A message of this peer was handed to the own service of this number: a LIN controller takes the
    /// frame in, a server has one call more to answer.
    pub fn receive(
        &mut self,
        peer: u32,
        service: u32,
        message: &Message,
    ) -> Result<(), WantOfMemory>
        ensures ok { OnOk result (self.new ≡ grown (receive peer message.now service self.old.past) self.old) }
        ensures err { OnErr result (self.new ≡ self.old) }
    {
        // the rules that each message keeps
        let _content = message.content();
        self.memory.services.receive(peer, service, message)?;
        Ok(())
    }

    /// A service of a peer told its response: each LIN controller of its network keeps it.
    pub fn note(
        &mut self,
        peer: u32,
        service: u32,
        response: &LinResponse,
    ) -> Result<(), WantOfMemory>
        requires { IsTrue (is_lin_response response.now) }
        ensures ok { OnOk result (self.new ≡ grown (note self.old.setup peer service response.now self.old.past) self.old) }
        ensures err { OnErr result (AddsNothing self.old self.new) }
    {
        // the own services are numbered
        let _own = self.index.own();
        note_each(
            self.alloc,
            &mut self.memory.services,
            self.index.receivers(peer, service),
            peer,
            service,
            response,
        )?;
        Ok(())
    }
}

/// When a data message is sent: at the time of the step that was begun last, or 0.
#[tactic(auto, unfolding(sk_base::specs::Ranges::is_time))]
fn stamp(begun: Option<Begun>) -> SimTime
    ensures { result ≡ time_after 0 begun }
{
    match begun {
        Some(step) => step.time,
        None => SimTime::new(0).unwrap(),
    }
}

/// The number of the step, or 0.
#[tactic(auto, unfolding(sk_msg::specs::Rules::is_mark))]
fn mark(step: Option<Begun>) -> u64
    requires { IfSome step (λ step. step.number ≤ 2 ^ 63) }
    ensures value { result ≡ number_of step }
    ensures mark { IsTrue (is_mark result) }
{
    match step {
        Some(step) => step.number,
        None => 0,
    }
}

/// Whether nothing is handed in this state.
fn is_over(state: State) -> bool
    ensures { result ≡ is_over state }
{
    is_state(State::Error, state)
        || (is_state(State::Aborting, state) || is_state(State::Shutdown, state))
}

/// Whether one of the numbers below the limit is a peer that serves the own service of this number.
fn some_serve(lines: &[Line], index: &Receivers, own: u32, service: u32, limit: usize) -> bool
    requires within { limit ≤ length lines.now }
    requires few { length lines.now ≤ 2 ^ 32 }
    ensures { result ≡ some_serve lines.now index.now own service limit }
{
    (0..limit).any(|place| serves(lines, index, own, service, place))
}

/// Whether this one does: another whose link isn't gone, who announced what matches.
fn serves(lines: &[Line], index: &Receivers, own: u32, service: u32, place: usize) -> bool
    requires within { place < length lines.now }
    requires few { length lines.now ≤ 2 ^ 32 }
    ensures { result ≡ serves lines.now index.now own service place }
{
    place != own as usize && !lines[place].gone && index.has_match(place as u32, service)
}

/// The own service of this number, where it is a client.
fn caller(alloc: Global, own: &[Service], client: u32) -> Result<Vec<u32>, WantOfMemory>
    ensures { IfOk result (λ numbers. numbers.items ≡ (if has_kind kinds.Client (slice_get own.now client) then client ∷ [] else [])) }
{
    let mut found = Vec::new(alloc);
    if is_client(own.get(client as usize)) {
        found.push(client)?;
    }
    Ok(found)
}

/// Whether there is such a service, and it is a client.
fn is_client(service: Option<&Service>) -> bool
    ensures { result ≡ has_kind kinds.Client (option_copied service.entry) }
{
    match service {
        Some(service) => service.kind == ServiceKind::Client,
        None => false,
    }
}

/// Of these own services those that admit the message.
fn takers_in(
    alloc: Global,
    services: &ServiceStates,
    numbers: &[u32],
    message: &Message,
) -> Result<Vec<u32>, WantOfMemory>
    ensures { IfOk result (λ found. found.items ≡ takers_in message.now services.now numbers.now) }
{
    let mut found = Vec::new(alloc);
    for number in numbers {
        if services.takes(*number, message) {
            found.push(*number)?;
        }
    }
    Ok(found)
}

/// Each of these own services keeps the response.
fn note_each(
    alloc: Global,
    services: &mut ServiceStates,
    numbers: &[u32],
    peer: u32,
    service: u32,
    response: &LinResponse,
) -> Result<(), WantOfMemory>
    requires { IsTrue (is_lin_response response.now) }
    ensures ok { OnOk result (services.new ≡ all_noted peer service response.now numbers.now services.old) }
    ensures some { OnErr result ((s : ℕ) → calls_made (slice_index_or services.new s states.Subscriber) ≡ calls_made (slice_index_or services.old s states.Subscriber)) }
    ensures called { OnErr result (((s : ℕ) → are_calls (slice_index_or services.old s states.Subscriber) ≡ true) → (s : ℕ) → are_calls (slice_index_or services.new s states.Subscriber) ≡ true) }
{
    for number in numbers {
        services.note(*number, peer, service, response.copy(alloc)?)?;
    }
    Ok(())
}
