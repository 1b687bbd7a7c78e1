//! Which message may come now: what a peer or a tool may say after what it said.

ghost use Rattle.std.specs.Prelude.{◌≡◌, ◌==◌, ◌&&◌, length, slice_get, if◌then◌else◌};
ghost use Rattle.sk_msg.specs.States.{is_state};
ghost use Rattle.sk_law.specs.Order.{is_kind, opens, is_hello_of, is_above, is_at, has_status, has_kind, is_sendable, follows, follows_of_tool, may_say};
ghost use Rattle.sk_law.specs.Links.{is_early};
ghost use Rattle.sk_law.specs.Coming.{runs, waits, comes};

use crate::Said;
use sk_base::{Name, SimTime};
use sk_msg::{Content, Head, Message, Role, Service, ServiceKind, State};

/// Whether this message of the one of this name, a tool or a peer, comes in order after what it
/// said. Where the participant is still awaited, no coordinated peer announces a step.
pub fn comes(awaited: bool, tool: bool, name: &Name, said: &Said, message: &Message) -> bool
    ensures { result ≡ comes awaited tool name.now said.now message.now }
{
    may_say(said, tool, name, message) && !(awaited && runs(said, message))
}

/// Whether a participant is awaited: it is coordinated, in this state before ReadyToRun, and its name
/// is required.
pub fn waits(coordinated: bool, state: State, required: bool) -> bool
    ensures { result ≡ waits coordinated state required }
{
    coordinated && is_early(state) && required
}

/// Whether the state stands on the chain before ReadyToRun.
fn is_early(state: State) -> bool
    ensures { result ≡ is_early state }
{
    match state {
        State::ServicesCreated
        | State::CommunicationInitializing
        | State::CommunicationInitialized => true,
        State::Invalid
        | State::ReadyToRun
        | State::Running
        | State::Paused
        | State::Stopping
        | State::Stopped
        | State::Error
        | State::ShuttingDown
        | State::Shutdown
        | State::Aborting => false,
    }
}

/// Whether a message shows that its sender has gone on to Running with the others.
fn runs(said: &Said, message: &Message) -> bool
    ensures { result ≡ runs said.now message.now }
{
    match message.content() {
        Content::NextStep { .. } => said.coordinated,
        Content::Hello { .. }
        | Content::Leave
        | Content::ServiceAdd { .. }
        | Content::ServicesEnd
        | Content::Status { .. }
        | Content::Workflow { .. }
        | Content::Abort
        | Content::Can { .. }
        | Content::Eth { .. }
        | Content::Lin { .. }
        | Content::LinResponse { .. }
        | Content::Publish { .. }
        | Content::Call { .. }
        | Content::Reply { .. }
        | Content::Refuse { .. } => false,
    }
}

/// Whether the one of this name, a tool or a peer, may say this after what it said: Hello first, then
/// what follows, and nothing behind Leave.
#[tactic(auto, unfolding(crate::specs::Order::may_say))]
fn may_say(said: &Said, tool: bool, name: &Name, message: &Message) -> bool
    ensures { result ≡ may_say tool name.now said.now message.now }
{
    if said.hello {
        !said.left && follows_as(tool, said, message)
    } else {
        opens(tool, name, message)
    }
}

/// Whether a tool or a peer may say this behind its Hello.
fn follows_as(tool: bool, said: &Said, message: &Message) -> bool
    ensures { result ≡ (if tool then follows_of_tool message.now else follows said.now message.now) }
{
    if tool {
        follows_of_tool(message)
    } else {
        follows(said, message)
    }
}

/// Whether it is the Hello that comes first, of this name.
fn opens(tool: bool, name: &Name, message: &Message) -> bool
    ensures { result ≡ opens tool name.now message.now }
{
    match message.content() {
        Content::Hello {
            name: given,
            role,
            ..
        } => given.is(name) && is_hello_of(*role, tool),
        Content::Leave
        | Content::NextStep { .. }
        | Content::ServiceAdd { .. }
        | Content::ServicesEnd
        | Content::Status { .. }
        | Content::Workflow { .. }
        | Content::Abort
        | Content::Can { .. }
        | Content::Eth { .. }
        | Content::Lin { .. }
        | Content::LinResponse { .. }
        | Content::Publish { .. }
        | Content::Call { .. }
        | Content::Reply { .. }
        | Content::Refuse { .. } => false,
    }
}

/// Whether the role is that of a tool where a tool speaks, and of a participant else.
fn is_hello_of(role: Role, tool: bool) -> bool
    ensures { result ≡ is_hello_of role tool }
{
    match role {
        Role::Tool => tool,
        Role::Participant { .. } => !tool,
    }
}

/// Whether a tool may say this behind its Hello.
fn follows_of_tool(message: &Message) -> bool
    ensures { result ≡ follows_of_tool message.now }
{
    match message.content() {
        Content::Workflow { .. } | Content::Abort | Content::Leave => true,
        Content::Hello { .. }
        | Content::NextStep { .. }
        | Content::ServiceAdd { .. }
        | Content::ServicesEnd
        | Content::Status { .. }
        | Content::Can { .. }
        | Content::Eth { .. }
        | Content::Lin { .. }
        | Content::LinResponse { .. }
        | Content::Publish { .. }
        | Content::Call { .. }
        | Content::Reply { .. }
        | Content::Refuse { .. } => false,
    }
}

/// Whether a peer may say this behind its Hello: services numbered from 0, ServicesEnd, then the
/// rest; Leave behind the Status of Shutdown.
fn follows(said: &Said, message: &Message) -> bool
    ensures { result ≡ follows said.now message.now }
{
    match message.content() {
        Content::Hello { .. } | Content::Workflow { .. } | Content::Refuse { .. } => false,
        Content::ServiceAdd { service } => !said.ended && is_next(said, service.service()),
        Content::ServicesEnd => !said.ended,
        Content::NextStep { at, .. } => {
            said.ended && said.synchronised && is_above(said.announced, *at)
        }
        Content::Status { .. } | Content::Abort => said.ended,
        Content::Leave => has_status(State::Shutdown, said.status),
        Content::Can { head, .. } => sends(said, ServiceKind::Can, head),
        Content::Eth { head, .. } => sends(said, ServiceKind::Ethernet, head),
        Content::Lin { head, .. } | Content::LinResponse { head, .. } => {
            sends(said, ServiceKind::Lin, head)
        }
        Content::Publish { head, .. } => sends(said, ServiceKind::Publisher, head),
        Content::Call { head, .. } => sends(said, ServiceKind::Client, head),
        Content::Reply { head, .. } => sends(said, ServiceKind::Server, head),
    }
}

/// Whether the service has the number that comes next.
fn is_next(said: &Said, service: &Service) -> bool
    ensures { result ≡ (service.now.id == length said.now.services) }
{
    service.id as usize == said.services.as_slice().len()
}

/// Whether a data message may come from a service of this kind.
fn sends(said: &Said, kind: ServiceKind, head: &Head) -> bool
    ensures { result ≡ (said.now.ended && is_sendable said.now kind head.now) }
{
    said.ended && is_sendable(said, kind, head)
}

/// Whether a data message names a service of this kind that was told, and has the stamp of the last
/// announcement where it is marked.
fn is_sendable(said: &Said, kind: ServiceKind, head: &Head) -> bool
    ensures { result ≡ is_sendable said.now kind head.now }
{
    has_kind(kind, said.services.as_slice(), head.service)
        && (head.mark == 0 || is_at(said.announced, head.stamp))
}

/// Whether there is a service of this number among these, and it is of this kind.
fn has_kind(kind: ServiceKind, services: &[Service], number: u32) -> bool
    ensures { result ≡ has_kind kind (slice_get services.now number) }
{
    match services.get(number as usize) {
        Some(service) => is_kind(kind, service.kind),
        None => false,
    }
}

/// Whether both are one kind.
fn is_kind(one: ServiceKind, other: ServiceKind) -> bool
    ensures { result ≡ is_kind one other }
{
    one == other
}

/// Whether the time is above the last one, where there is one.
fn is_above(last: Option<SimTime>, at: SimTime) -> bool
    ensures { result ≡ is_above last at }
{
    match last {
        Some(last) => last.ns() < at.ns(),
        None => true,
    }
}

/// Whether the time is the last one.
fn is_at(last: Option<SimTime>, at: SimTime) -> bool
    ensures { result ≡ is_at last at }
{
    match last {
        Some(last) => last.ns() == at.ns(),
        None => false,
    }
}

/// Whether the state told last is this one.
fn has_status(state: State, told: Option<State>) -> bool
    ensures { result ≡ has_status state told }
{
    match told {
        Some(told) => is_state(state, told),
        None => false,
    }
}

/// Whether both are one state.
#[tactic(auto, unfolding(sk_msg::specs::States::is_state))]
pub fn is_state(one: State, other: State) -> bool
    ensures { result ≡ is_state one other }
{
    one.number() == other.number()
}
