//! Why rules are carried out, and which ones.

ghost use Rattle.std.specs.Prelude.{◌≡◌, slice_get, Option, IsTrue};
ghost use Rattle.sk_law.specs.Script.{delivered};
ghost use Rattle.sk_machine.specs.Causes as spec;
ghost use Rattle.sk_machine.specs.Sound.{has_size};

use crate::payload::first_number;
use sk_law::Visible;
use sk_msg::{Content, ServiceKind};
use sk_rpc::OpenCall;
use sk_rules::When;

/// Why actions are carried out.
#[derive(Clone, Copy, Debug)]
pub(crate) enum Cause {
    /// The participant is ready.
    Ready,
    /// It is this time, in ns of virtual time.
    Time(u64),
    /// A message was handed to a service.
    Message {
        /// The number of the own service.
        service: u32,
        /// The number that the first bytes of the message are.
        number: u64,
        /// The call, if the message is one.
        call: Option<OpenCall>,
    },
}

impl Cause {
    /// The number that is taken of it: 0 without a message.
    pub(crate) fn number(self) -> u64
        ensures { result ≡ spec.number_of self }
    {
        match self {
            Cause::Ready => 0,
            Cause::Time(_) => 0,
            Cause::Message { number, .. } => number,
        }
    }

    /// The call to answer, if it is one.
    pub(crate) fn call(self) -> Option<OpenCall>
        ensures { result ≡ spec.call_of self }
    {
        match self {
            Cause::Ready => None,
            Cause::Time(_) => None,
            Cause::Message { call, .. } => call,
        }
    }

    /// Whether a rule with this condition is carried out for it.
    pub(crate) fn fires(self, when: When) -> bool
        requires size { IsTrue (has_size when) }
        ensures { result ≡ spec.fires self when }
    {
        match self {
            Cause::Ready => false,
            Cause::Time(time) => is_due(time, when),
            Cause::Message { service, .. } => is_of(service as usize, when),
        }
    }
}

/// Whether a rule with this condition is carried out at this time.
fn is_due(time: u64, when: When) -> bool
    requires size { IsTrue (has_size when) }
    ensures { result ≡ spec.is_due time when }
{
    match when {
        When::At(at) => time == at,
        When::Every { size, from } => from <= time && (time - from) % size == 0,
        When::On(_) => false,
    }
}

/// Whether a rule with this condition is carried out for a message that this service was handed.
pub(crate) fn is_of(service: usize, when: When) -> bool
    ensures { result ≡ spec.is_of service when }
{
    match when {
        When::At(_) => false,
        When::Every { .. } => false,
        When::On(own) => service == own as usize,
    }
}

/// A message that was handed to a service, as the cause of what its rules do.
pub(crate) fn cause_of(item: &Visible) -> Cause
    ensures { result ≡ spec.cause_of (delivered item.now) }
{
    let content = item.message.content();
    Cause::Message {
        service: item.service,
        number: first_number(payload_of(content)),
        call: call_in(item.peer, content),
    }
}

/// Whether the service that the message was handed to exists and is of a kind that takes it. These
/// are the kinds of the own services.
pub(crate) fn is_taken(kinds: &[ServiceKind], item: &Visible) -> bool
    ensures { result ≡ spec.is_taken kinds.now (delivered item.now) }
{
    match kind_at(kinds, item.service) {
        None => false,
        Some(kind) => takes(kind, item.message.content()),
    }
}

/// The kind of the service of this number.
fn kind_at(kinds: &[ServiceKind], service: u32) -> Option<ServiceKind>
    ensures { result ≡ slice_get kinds.now service }
{
    kinds.get(service as usize).copied()
}

/// Whether a service of this kind takes such a message.
fn takes(kind: ServiceKind, content: &Content) -> bool
    ensures { result ≡ spec.takes kind content.now }
{
    match content {
        Content::Can { .. } => kind == ServiceKind::Can,
        Content::Eth { .. } => kind == ServiceKind::Ethernet,
        Content::Lin { .. } => kind == ServiceKind::Lin,
        Content::Publish { .. } => kind == ServiceKind::Subscriber,
        Content::Call { .. } => kind == ServiceKind::Server,
        Content::Reply { .. } => kind == ServiceKind::Client,
        Content::Hello { .. }
        | Content::Leave
        | Content::NextStep { .. }
        | Content::ServiceAdd { .. }
        | Content::ServicesEnd
        | Content::Status { .. }
        | Content::Workflow { .. }
        | Content::Abort
        | Content::LinResponse { .. }
        | Content::Refuse { .. } => false,
    }
}

/// The bytes that a message carries.
fn payload_of(content: &Content) -> &[u8]
    ensures { result.now ≡ spec.payload_of content.now }
{
    match content {
        Content::Can { frame, .. } => frame.payload.as_slice(),
        Content::Eth { payload, .. } => payload.as_slice(),
        Content::Lin { frame, .. } => frame.payload.as_slice(),
        Content::LinResponse { response, .. } => response.payload.as_slice(),
        Content::Publish { payload, .. } => payload.as_slice(),
        Content::Call { payload, .. } => payload.as_slice(),
        Content::Reply { payload, .. } => payload.as_slice(),
        Content::Hello { .. }
        | Content::Leave
        | Content::NextStep { .. }
        | Content::ServiceAdd { .. }
        | Content::ServicesEnd
        | Content::Status { .. }
        | Content::Workflow { .. }
        | Content::Abort
        | Content::Refuse { .. } => &[],
    }
}

/// The call that this peer's message is.
fn call_in(peer: u32, content: &Content) -> Option<OpenCall>
    ensures { result ≡ spec.call_in peer content.now }
{
    match content {
        Content::Call { head, call, .. } => Some(OpenCall {
            peer,
            client: head.service,
            call: *call,
        }),
        Content::Hello { .. }
        | Content::Leave
        | Content::NextStep { .. }
        | Content::ServiceAdd { .. }
        | Content::ServicesEnd
        | Content::Status { .. }
        | Content::Workflow { .. }
        | Content::Abort
        | Content::Can { .. }
        | Content::Eth { .. }
        | Content::Lin { .. }
        | Content::LinResponse { .. }
        | Content::Publish { .. }
        | Content::Reply { .. }
        | Content::Refuse { .. } => None,
    }
}
