//! What a participant remembers beside its journal.

ghost use Rattle.std.specs.Prelude.{◌≡◌, IsTrue, IfOk, OnOk, OnErr, slice_get};
ghost use Rattle.sk_lin.specs.Lin.{is_lin_response};
ghost use Rattle.sk_rpc.specs.OpenCalls.{call_of};
ghost use Rattle.sk_law.specs.declared.memory.ServiceState.TheVariants as states;
ghost use Rattle.sk_law.specs.Receivers.{admits, changed, received, with_noted};
ghost use Rattle.sk_law.specs.Services.{new_state_of, new_states};
ghost use Rattle.sk_law.specs.Serving.{takes, with_frame, with_call};

use sk_base::{SimTime, WantOfMemory};
use sk_can::CanController;
use sk_eth::EthController;
use sk_lin::LinController;
use sk_msg::{Content, LinFrame, LinResponse, Message, Names, Service, ServiceKind};
use sk_pubsub::Publisher;
use sk_rpc::{Calls, Client};
use std::alloc::Global;
use std::marker::Model;
use std::mem::replace;

/// What an own service is at.
#[derive(Debug, Drop)]
pub enum ServiceState {
    /// A CAN controller, with its state and its baud rate.
    Can(CanController),
    /// An Ethernet controller: whether it is active.
    Ethernet(EthController),
    /// A LIN controller, with its state, its role and the responses that it keeps.
    Lin(LinController),
    /// A publisher, with its last publication where it keeps a history.
    Publisher(Publisher),
    /// A subscriber, of which nothing is remembered.
    Subscriber,
    /// A server, with the calls that it has still to answer.
    Server(Calls),
    /// A client, with the number of its calls.
    Client(Client),
}

impl ServiceState {
    /// Whether a service that is at this is handed the message.
    fn admits(&self, message: &Message) -> bool
        ensures { result ≡ admits message.now self.now }
    {
        match self {
            ServiceState::Can(can) => can.admits(),
            ServiceState::Ethernet(ethernet) => ethernet.admits(),
            ServiceState::Lin(lin) => admits_lin(lin, message),
            ServiceState::Publisher(_) => true,
            ServiceState::Subscriber => true,
            ServiceState::Server(_) => true,
            ServiceState::Client(_) => true,
        }
    }

    /// A message of this peer was handed to it.
    fn receive(&mut self, peer: u32, message: &Message) -> Result<(), WantOfMemory>
        ensures ok { OnOk result (self.new ≡ received peer message.now self.old) }
        ensures err { OnErr result (self.new ≡ self.old) }
    {
        match message.content() {
            Content::Lin { frame, .. } => {
                self.take_frame(frame);
                Ok(())
            }
            Content::Call { head, call, .. } => self.open(peer, head.service, *call),
            Content::Hello { .. }
            | Content::Leave
            | Content::NextStep { .. }
            | Content::ServiceAdd { .. }
            | Content::ServicesEnd
            | Content::Status { .. }
            | Content::Workflow { .. }
            | Content::Abort
            | Content::Can { .. }
            | Content::Eth { .. }
            | Content::LinResponse { .. }
            | Content::Publish { .. }
            | Content::Reply { .. }
            | Content::Refuse { .. } => Ok(()),
        }
    }

    /// A LIN controller takes the frame in.
    fn take_frame(&mut self, frame: &LinFrame)
        ensures { self.new ≡ with_frame frame.now self.old }
    {
        match self {
            ServiceState::Lin(lin) => lin.received(frame),
            ServiceState::Can(_)
            | ServiceState::Ethernet(_)
            | ServiceState::Publisher(_)
            | ServiceState::Subscriber
            | ServiceState::Server(_)
            | ServiceState::Client(_) => {}
        }
    }

    /// A server has this call of this client of this peer to answer.
    fn open(&mut self, peer: u32, client: u32, call: u64) -> Result<(), WantOfMemory>
        ensures ok { OnOk result (self.new ≡ with_call (call_of peer client call) self.old) }
        ensures err { OnErr result (self.new ≡ self.old) }
    {
        match self {
            ServiceState::Server(calls) => calls.open(peer, client, call),
            ServiceState::Can(_)
            | ServiceState::Ethernet(_)
            | ServiceState::Lin(_)
            | ServiceState::Publisher(_)
            | ServiceState::Subscriber
            | ServiceState::Client(_) => Ok(()),
        }
    }

    /// A LIN controller keeps the response that this service of this peer told.
    fn note(&mut self, peer: u32, service: u32, response: LinResponse) -> Result<(), WantOfMemory>
        requires { IsTrue (is_lin_response response) }
        ensures ok { OnOk result (self.new ≡ with_noted peer service response self.old) }
        ensures err { OnErr result (self.new ≡ self.old) }
    {
        match self {
            ServiceState::Lin(lin) => lin.note(peer, service, response),
            ServiceState::Can(_)
            | ServiceState::Ethernet(_)
            | ServiceState::Publisher(_)
            | ServiceState::Subscriber
            | ServiceState::Server(_)
            | ServiceState::Client(_) => Ok(()),
        }
    }
}

/// Whether the LIN controller is handed the message: a frame as its table says, any other one.
fn admits_lin(lin: &LinController, message: &Message) -> bool
    ensures { result ≡ admits message.now (states.Lin lin.now) }
{
    match message.content() {
        Content::Lin { frame, .. } => lin.admits(frame),
        Content::Hello { .. }
        | Content::Leave
        | Content::NextStep { .. }
        | Content::ServiceAdd { .. }
        | Content::ServicesEnd
        | Content::Status { .. }
        | Content::Workflow { .. }
        | Content::Abort
        | Content::Can { .. }
        | Content::Eth { .. }
        | Content::LinResponse { .. }
        | Content::Publish { .. }
        | Content::Call { .. }
        | Content::Reply { .. }
        | Content::Refuse { .. } => true,
    }
}

/// What each own service is at, by its number. Contracts see the list.
#[derive(Debug, Drop)]
pub struct ServiceStates {
    states: Vec<ServiceState>,
}

impl Model for ServiceStates {
    ghost use Rattle.std.specs.Prelude.{List};
    ghost use Rattle.sk_law.specs.declared.memory.ServiceState.{ServiceState};

    ghost Value = { List ServiceState };

    ghost view = { λ states. states.states.items };
}

impl ServiceStates {
    /// These states, in this order.
    pub fn new(states: Vec<ServiceState>) -> ServiceStates
        ensures { result ≡ states.items }
    {
        ServiceStates { states }
    }

    /// Those of these services before anything has happened. What controllers and servers keep later
    /// is kept in this memory.
    pub fn at_first(alloc: Global, services: &[Service]) -> Result<ServiceStates, WantOfMemory>
        ensures { IfOk result (λ states. states ≡ new_states services.now) }
    {
        let mut states = Vec::new(alloc);
        for service in services {
            states.push(state_at_first(alloc, service))?;
        }
        Ok(ServiceStates { states })
    }

    /// The states in order.
    pub fn as_slice(&self) -> &[ServiceState]
        ensures { result.now ≡ self.now }
    {
        self.states.as_slice()
    }

    /// The states, to be changed and put back by `new`.
    pub fn into_vec(self) -> Vec<ServiceState>
        ensures { result.items ≡ self }
    {
        self.states
    }

    /// What the service of this number is at, taken out: a subscriber's state stands in its place.
    pub(crate) fn take(&mut self, service: u32) -> Option<ServiceState>
        ensures value { result ≡ slice_get self.old service }
        ensures rest { self.new ≡ changed (λ at. states.Subscriber) service self.old }
    {
        match self.states.get_mut(service as usize) {
            Some(at) => Some(replace(at, ServiceState::Subscriber)),
            None => None,
        }
    }

    /// The service of this number is at this from now on. What it was at comes back, or the state itself
    /// where there is no such service.
    pub(crate) fn put(&mut self, service: u32, state: ServiceState) -> ServiceState
        ensures { self.new ≡ changed (λ at. state) service self.old }
    {
        match self.states.get_mut(service as usize) {
            Some(at) => replace(at, state),
            None => state,
        }
    }

    /// Whether the service of this number is handed the message.
    pub(crate) fn takes(&self, service: u32, message: &Message) -> bool
        ensures { result ≡ takes message.now self.now service }
    {
        match self.states.get(service as usize) {
            Some(at) => at.admits(message),
            None => true,
        }
    }

    /// A message of this peer was handed to the service of this number.
    pub(crate) fn receive(
        &mut self,
        peer: u32,
        service: u32,
        message: &Message,
    ) -> Result<(), WantOfMemory>
        ensures ok { OnOk result (self.new ≡ changed (received peer message.now) service self.old) }
        ensures err { OnErr result (self.new ≡ self.old) }
    {
        match self.states.get_mut(service as usize) {
            Some(at) => at.receive(peer, message),
            None => Ok(()),
        }
    }

    /// The own service of this number keeps the response that this service of this peer told, where it
    /// is a LIN controller.
    pub(crate) fn note(
        &mut self,
        number: u32,
        peer: u32,
        service: u32,
        response: LinResponse,
    ) -> Result<(), WantOfMemory>
        requires { IsTrue (is_lin_response response) }
        ensures ok { OnOk result (self.new ≡ changed (with_noted peer service response) number self.old) }
        ensures err { OnErr result (self.new ≡ self.old) }
    {
        match self.states.get_mut(number as usize) {
            Some(at) => at.note(peer, service, response),
            None => Ok(()),
        }
    }
}

/// That of this service before anything has happened.
fn state_at_first(alloc: Global, service: &Service) -> ServiceState
    ensures { result ≡ new_state_of service.now service.now.kind }
{
    match service.kind {
        ServiceKind::Can => ServiceState::Can(CanController::new()),
        ServiceKind::Ethernet => ServiceState::Ethernet(EthController::new()),
        ServiceKind::Lin => ServiceState::Lin(LinController::new(alloc)),
        ServiceKind::Publisher => ServiceState::Publisher(Publisher::new(service.history)),
        ServiceKind::Subscriber => ServiceState::Subscriber,
        ServiceKind::Server => ServiceState::Server(Calls::new(alloc)),
        ServiceKind::Client => ServiceState::Client(Client::new()),
    }
}

/// What the rules need and the entries of a journal don't show.
#[derive(Debug, Drop)]
pub struct Memory {
    /// The ready handler was called.
    pub called: bool,
    /// A caller has asked for a command.
    pub asked: bool,
    /// The pause count that runs, in turns.
    pub pause: Option<u32>,
    /// The names of the tools that were added, in this order.
    pub tools: Names,
    /// What each own service is at.
    pub services: ServiceStates,
    /// The ready handler was called and no completion of the number 0 has come since.
    pub ready_awaited: bool,
}

/// A step that was begun.
#[derive(Clone, Copy, Debug, PartialEq, Eq)]
pub struct Begun {
    /// Its number, from 1.
    pub number: u64,
    /// Its time, in ns of virtual time.
    pub time: SimTime,
}
