//! The kinds of messages: the fields of each, read and beside them written, in the order of the
//! kinds.

ghost use Rattle.std.specs.Prelude.{◌≡◌, ◌≤◌, ◌==◌, length, Ok, Err, IsTrue, if◌then◌else◌};
ghost use Rattle.sk_msg.specs.Rules.{is_message};
ghost use Rattle.sk_wire.specs.Reading.{Gives, bad};
ghost use Rattle.sk_wire.specs.Kinds as rows;
ghost use Rattle.sk_wire.specs.Held as held;
ghost use Rattle.sk_wire.specs.Grammar as grammar;
ghost use Rattle.sk_wire.specs.Puts.{Puts};

use crate::choices::{
    put_can_flags, put_lin_checksum, put_lin_mode, put_lin_status, put_reason, put_role,
    put_service_kind, put_state,
};
use crate::fault::{BodyFault, ReadError, What};
use crate::fields::{
    put_any32, put_call, put_head, put_lin_id, put_name, put_payload, put_service_id,
    put_step_size, put_text, put_time,
};
use crate::lists::{put_labels, put_required_names};
use crate::numbers::{Cursor, bad_field, put_u8};
use sk_base::{Bytes, Name, SimTime, Text, WantOfMemory};
use sk_msg::rules::{is_can_frame, is_eth_frame, is_lin_payload, is_received, is_sent};
use sk_msg::{
    Announced, CanFrame, Content, Head, LinChecksum, LinFrame, LinResponse, Role, Service, Spec,
    State,
};
use std::alloc::Global;

/// The one version of the format.
const VERSION: u8 = 1;

impl<'a> Cursor<'a> {
    /// Nothing stands behind the last field.
    fn end(&self, content: Content) -> Result<Content, ReadError>
        ensures { Gives (λ content. content) result (if length self.now == 0 then Ok content else Err (bad self.now)) }
    {
        if self.left() == 0 {
            Ok(content)
        } else {
            Err(bad_field(self.left()))
        }
    }

    #[tactic(auto, unfolding(crate::specs::Grammar::hello_at))]
    fn hello(&mut self, alloc: Global) -> Result<Content, ReadError>
        ensures { Gives (λ content. content) result (grammar.hello_at self.old) }
    {
        let name = self.name(alloc)?;
        let role = self.role()?;
        let address = self.text(alloc)?;
        self.end(Content::Hello {
            name,
            role,
            address,
        })
    }
}

#[tactic(auto, using(crate::proofs::PutLaws::puts))]
fn put_hello(to: &mut Vec<u8>, name: &Name, role: Role, address: &Text) -> Result<(), WantOfMemory>
    ensures { Puts result to.old.items to.new.items (rows.hello_row.spelling (name.now, (role, address.now))) }
{
    put_name(to, name)?;
    put_role(to, role)?;
    put_text(to, address)
}

// Leave, ServicesEnd and Abort have no fields to write.
impl<'a> Cursor<'a> {
    #[tactic(auto, unfolding(crate::specs::Grammar::leave_at))]
    fn leave(&self) -> Result<Content, ReadError>
        ensures { Gives (λ content. content) result (grammar.leave_at self.now) }
    {
        self.end(Content::Leave)
    }

    #[tactic(auto, unfolding(crate::specs::Grammar::next_step_at))]
    fn next_step(&mut self) -> Result<Content, ReadError>
        ensures { Gives (λ content. content) result (grammar.next_step_at self.old) }
    {
        let at = self.time()?;
        let duration = self.step_size()?;
        self.end(Content::NextStep { at, duration })
    }
}

#[tactic(auto, using(crate::proofs::PutLaws::puts))]
fn put_next_step(to: &mut Vec<u8>, at: SimTime, duration: u64) -> Result<(), WantOfMemory>
    ensures { Puts result to.old.items to.new.items (rows.next_step_row.spelling (at, duration)) }
{
    put_time(to, at)?;
    put_step_size(to, duration)
}

impl<'a> Cursor<'a> {
    #[tactic(auto, unfolding(crate::specs::Grammar::service_add_at))]
    fn service_add(&mut self, alloc: Global) -> Result<Content, ReadError>
        ensures { Gives (λ content. content) result (grammar.service_add_at self.old) }
    {
        let id = self.service_id()?;
        let kind = self.service_kind()?;
        let name = self.name(alloc)?;
        let topic = self.name(alloc)?;
        let media = self.text(alloc)?;
        let labels = self.labels(alloc)?;
        let service = Service {
            id,
            kind,
            name,
            spec: Spec::with_labels(topic, media, labels),
            history: false,
        };
        self.end(Content::ServiceAdd {
            service: Announced::new(alloc, service)?,
        })
    }
}

#[tactic(auto, using(crate::proofs::PutLaws::puts))]
fn put_service_add(to: &mut Vec<u8>, service: &Service) -> Result<(), WantOfMemory>
    ensures { Puts result to.old.items to.new.items (rows.service_add_row.spelling (held.service_parts service.now)) }
{
    let labels = service.spec.labels();
    put_service_id(to, service.id)?;
    put_service_kind(to, service.kind)?;
    put_name(to, &service.name)?;
    put_name(to, service.spec.topic())?;
    put_text(to, service.spec.media())?;
    put_labels(to, labels)
}

impl<'a> Cursor<'a> {
    #[tactic(auto, unfolding(crate::specs::Grammar::services_end_at))]
    fn services_end(&self) -> Result<Content, ReadError>
        ensures { Gives (λ content. content) result (grammar.services_end_at self.now) }
    {
        self.end(Content::ServicesEnd)
    }

    #[tactic(auto, unfolding(crate::specs::Grammar::status_at))]
    fn status(&mut self) -> Result<Content, ReadError>
        ensures { Gives (λ content. content) result (grammar.status_at self.old) }
    {
        let state = self.state()?;
        let until = self.time()?;
        self.end(Content::Status { state, until })
    }
}

#[tactic(auto, using(crate::proofs::PutLaws::puts))]
fn put_status(to: &mut Vec<u8>, state: State, until: SimTime) -> Result<(), WantOfMemory>
    ensures { Puts result to.old.items to.new.items (rows.status_row.spelling (state, until)) }
{
    put_state(to, state)?;
    put_time(to, until)
}

// The one field of a Workflow is written by `put_required_names`.
impl<'a> Cursor<'a> {
    #[tactic(auto, unfolding(crate::specs::Grammar::workflow_at))]
    fn workflow(&mut self, alloc: Global) -> Result<Content, ReadError>
        ensures { Gives (λ content. content) result (grammar.workflow_at self.old) }
    {
        let required = self.required_names(alloc)?;
        self.end(Content::Workflow { required })
    }

    #[tactic(auto, unfolding(crate::specs::Grammar::abort_at))]
    fn abort(&self) -> Result<Content, ReadError>
        ensures { Gives (λ content. content) result (grammar.abort_at self.now) }
    {
        self.end(Content::Abort)
    }

    /// The bytes of a CAN frame, where the frame is judged.
    fn can_bytes(
        &mut self,
        alloc: Global,
        id: u32,
        extended: bool,
        fd: bool,
    ) -> Result<Bytes, ReadError>
        ensures { Gives (λ bytes. (bytes, self.new)) result ((rows.can_bytes id (rows.flags extended fd)).at self.old) }
    {
        let left = self.left();
        let bytes = self.payload(alloc)?;
        if is_can_frame(id, extended, fd, bytes.as_slice()) {
            Ok(bytes)
        } else {
            Err(bad_field(left))
        }
    }

    #[tactic(auto, unfolding(crate::specs::Grammar::can_at))]
    fn can(&mut self, alloc: Global) -> Result<Content, ReadError>
        ensures { Gives (λ content. content) result (grammar.can_at self.old) }
    {
        let head = self.head()?;
        let id = self.any32()?;
        let (extended, fd) = self.can_flags()?;
        let payload = self.can_bytes(alloc, id, extended, fd)?;
        let frame = CanFrame {
            id,
            extended,
            fd,
            payload,
        };
        self.end(Content::Can { head, frame })
    }
}

#[tactic(auto, using(crate::proofs::PutLaws::puts))]
fn put_can(to: &mut Vec<u8>, head: Head, frame: &CanFrame) -> Result<(), WantOfMemory>
    ensures { Puts result to.old.items to.new.items (rows.can_row.spelling (held.can_parts head frame.now)) }
{
    put_head(to, head)?;
    put_any32(to, frame.id)?;
    put_can_flags(to, frame.extended, frame.fd)?;
    put_payload(to, &frame.payload)
}

impl<'a> Cursor<'a> {
    /// The bytes of an Ethernet frame.
    #[tactic(auto, unfolding(crate::specs::Kinds::eth_bytes))]
    fn eth_bytes(&mut self, alloc: Global) -> Result<Bytes, ReadError>
        ensures { Gives (λ bytes. (bytes, self.new)) result (rows.eth_bytes.at self.old) }
    {
        let left = self.left();
        let bytes = self.payload(alloc)?;
        if is_eth_frame(bytes.as_slice()) {
            Ok(bytes)
        } else {
            Err(bad_field(left))
        }
    }

    #[tactic(auto, unfolding(crate::specs::Grammar::eth_at))]
    fn eth(&mut self, alloc: Global) -> Result<Content, ReadError>
        ensures { Gives (λ content. content) result (grammar.eth_at self.old) }
    {
        let head = self.head()?;
        let payload = self.eth_bytes(alloc)?;
        self.end(Content::Eth { head, payload })
    }
}

#[tactic(auto, using(crate::proofs::PutLaws::puts), unfolding(crate::specs::Kinds::eth_bytes))]
fn put_eth(to: &mut Vec<u8>, head: Head, payload: &Bytes) -> Result<(), WantOfMemory>
    ensures { Puts result to.old.items to.new.items (rows.eth_row.spelling (head, payload.now)) }
{
    put_head(to, head)?;
    put_payload(to, payload)
}

impl<'a> Cursor<'a> {
    /// The bytes of a LIN frame or response, where its checksum and they are judged.
    fn lin_bytes(
        &mut self,
        alloc: Global,
        carries: bool,
        checksum: LinChecksum,
    ) -> Result<Bytes, ReadError>
        ensures { Gives (λ bytes. (bytes, self.new)) result ((rows.lin_bytes carries checksum).at self.old) }
    {
        let left = self.left();
        let bytes = self.payload(alloc)?;
        if is_lin_payload(carries, checksum, bytes.as_slice()) {
            Ok(bytes)
        } else {
            Err(bad_field(left))
        }
    }

    #[tactic(auto, unfolding(crate::specs::Grammar::lin_at))]
    fn lin(&mut self, alloc: Global) -> Result<Content, ReadError>
        ensures { Gives (λ content. content) result (grammar.lin_at self.old) }
    {
        let head = self.head()?;
        let id = self.lin_id()?;
        let checksum = self.lin_checksum()?;
        let status = self.lin_status()?;
        let payload = self.lin_bytes(alloc, is_received(status), checksum)?;
        let frame = LinFrame {
            id,
            checksum,
            status,
            payload,
        };
        self.end(Content::Lin { head, frame })
    }
}

#[tactic(auto, using(crate::proofs::PutLaws::puts))]
fn put_lin(to: &mut Vec<u8>, head: Head, frame: &LinFrame) -> Result<(), WantOfMemory>
    ensures { Puts result to.old.items to.new.items (rows.lin_row.spelling (held.lin_parts head frame.now)) }
{
    put_head(to, head)?;
    put_lin_id(to, frame.id)?;
    put_lin_checksum(to, frame.checksum)?;
    put_lin_status(to, frame.status)?;
    put_payload(to, &frame.payload)
}

impl<'a> Cursor<'a> {
    #[tactic(auto, unfolding(crate::specs::Grammar::lin_response_at))]
    fn lin_response(&mut self, alloc: Global) -> Result<Content, ReadError>
        ensures { Gives (λ content. content) result (grammar.lin_response_at self.old) }
    {
        let head = self.head()?;
        let id = self.lin_id()?;
        let mode = self.lin_mode()?;
        let checksum = self.lin_checksum()?;
        let payload = self.lin_bytes(alloc, is_sent(mode), checksum)?;
        let response = LinResponse {
            id,
            mode,
            checksum,
            payload,
        };
        self.end(Content::LinResponse { head, response })
    }
}

#[tactic(auto, using(crate::proofs::PutLaws::puts))]
fn put_lin_response(
    to: &mut Vec<u8>,
    head: Head,
    response: &LinResponse,
) -> Result<(), WantOfMemory>
    ensures { Puts result to.old.items to.new.items (rows.lin_response_row.spelling (held.response_parts head response.now)) }
{
    put_head(to, head)?;
    put_lin_id(to, response.id)?;
    put_lin_mode(to, response.mode)?;
    put_lin_checksum(to, response.checksum)?;
    put_payload(to, &response.payload)
}

impl<'a> Cursor<'a> {
    #[tactic(auto, unfolding(crate::specs::Grammar::publish_at))]
    fn publish(&mut self, alloc: Global) -> Result<Content, ReadError>
        ensures { Gives (λ content. content) result (grammar.publish_at self.old) }
    {
        let head = self.head()?;
        let payload = self.payload(alloc)?;
        self.end(Content::Publish { head, payload })
    }
}

#[tactic(auto, using(crate::proofs::PutLaws::puts))]
fn put_publish(to: &mut Vec<u8>, head: Head, payload: &Bytes) -> Result<(), WantOfMemory>
    ensures { Puts result to.old.items to.new.items (rows.publish_row.spelling (head, payload.now)) }
{
    put_head(to, head)?;
    put_payload(to, payload)
}

impl<'a> Cursor<'a> {
    #[tactic(auto, unfolding(crate::specs::Grammar::call_at))]
    fn call_message(&mut self, alloc: Global) -> Result<Content, ReadError>
        ensures { Gives (λ content. content) result (grammar.call_at self.old) }
    {
        let head = self.head()?;
        let call = self.call()?;
        let payload = self.payload(alloc)?;
        self.end(Content::Call {
            head,
            call,
            payload,
        })
    }
}

#[tactic(auto, using(crate::proofs::PutLaws::puts))]
fn put_call_message(
    to: &mut Vec<u8>,
    head: Head,
    call: u64,
    payload: &Bytes,
) -> Result<(), WantOfMemory>
    ensures { Puts result to.old.items to.new.items (rows.call_row.spelling (head, (call, payload.now))) }
{
    put_head(to, head)?;
    put_call(to, call)?;
    put_payload(to, payload)
}

impl<'a> Cursor<'a> {
    #[tactic(auto, unfolding(crate::specs::Grammar::reply_at))]
    fn reply(&mut self, alloc: Global) -> Result<Content, ReadError>
        ensures { Gives (λ content. content) result (grammar.reply_at self.old) }
    {
        let head = self.head()?;
        let client = self.any32()?;
        let call = self.call()?;
        let payload = self.payload(alloc)?;
        self.end(Content::Reply {
            head,
            client,
            call,
            payload,
        })
    }
}

#[tactic(auto, using(crate::proofs::PutLaws::puts))]
fn put_reply(
    to: &mut Vec<u8>,
    head: Head,
    client: u32,
    call: u64,
    payload: &Bytes,
) -> Result<(), WantOfMemory>
    ensures { Puts result to.old.items to.new.items (rows.reply_row.spelling (head, (client, (call, payload.now)))) }
{
    put_head(to, head)?;
    put_any32(to, client)?;
    put_call(to, call)?;
    put_payload(to, payload)
}

// The one field of a Refuse is written by `put_reason`.
impl<'a> Cursor<'a> {
    #[tactic(auto, unfolding(crate::specs::Grammar::refuse_at))]
    fn refuse(&mut self) -> Result<Content, ReadError>
        ensures { Gives (λ content. content) result (grammar.refuse_at self.old) }
    {
        let reason = self.reason()?;
        self.end(Content::Refuse { reason })
    }
}

/// Reads the fields of a kind.
#[tactic(auto, unfolding(crate::specs::Grammar::fields_at))]
fn read_fields(alloc: Global, kind: u8, bytes: &[u8]) -> Result<Content, ReadError>
    ensures { Gives (λ content. content) result (grammar.fields_at kind bytes.now) }
{
    let mut cursor = Cursor::new(bytes);
    match kind {
        1 => cursor.hello(alloc),
        2 => cursor.leave(),
        3 => cursor.next_step(),
        4 => cursor.service_add(alloc),
        5 => cursor.services_end(),
        6 => cursor.status(),
        7 => cursor.workflow(alloc),
        8 => cursor.abort(),
        9 => cursor.can(alloc),
        10 => cursor.eth(alloc),
        11 => cursor.lin(alloc),
        12 => cursor.lin_response(alloc),
        13 => cursor.publish(alloc),
        14 => cursor.call_message(alloc),
        15 => cursor.reply(alloc),
        16 => cursor.refuse(),
        _ => Err(ReadError::Fault(BodyFault {
            left: 1 + bytes.len(),
            what: What::BadKind,
        })),
    }
}

/// Writes the fields of a kind.
#[tactic(auto, using(crate::proofs::PutLaws::required_few), unfolding(crate::specs::Grammar::fields))]
fn put_fields(to: &mut Vec<u8>, content: &Content) -> Result<(), WantOfMemory>
    requires { IsTrue (is_message content.now) }
    ensures { Puts result to.old.items to.new.items (grammar.fields content.now) }
{
    match content {
        Content::Hello {
            name,
            role,
            address,
        } => put_hello(to, name, *role, address),
        Content::Leave => Ok(()),
        Content::NextStep { at, duration } => put_next_step(to, *at, *duration),
        Content::ServiceAdd { service } => put_service_add(to, service.service()),
        Content::ServicesEnd => Ok(()),
        Content::Status { state, until } => put_status(to, *state, *until),
        Content::Workflow { required } => put_required_names(to, required),
        Content::Abort => Ok(()),
        Content::Can { head, frame } => put_can(to, *head, frame),
        Content::Eth { head, payload } => put_eth(to, *head, payload),
        Content::Lin { head, frame } => put_lin(to, *head, frame),
        Content::LinResponse { head, response } => put_lin_response(to, *head, response),
        Content::Publish { head, payload } => put_publish(to, *head, payload),
        Content::Call {
            head,
            call,
            payload,
        } => put_call_message(to, *head, *call, payload),
        Content::Reply {
            head,
            client,
            call,
            payload,
        } => put_reply(to, *head, *client, *call, payload),
        Content::Refuse { reason } => put_reason(to, *reason),
    }
}

/// The number of a kind, 1 to 16.
#[tactic(auto, unfolding(crate::specs::Grammar::kind_of))]
fn kind_of(content: &Content) -> u8
    ensures { result ≡ grammar.kind_of content.now }
{
    match content {
        Content::Hello { .. } => 1,
        Content::Leave => 2,
        Content::NextStep { .. } => 3,
        Content::ServiceAdd { .. } => 4,
        Content::ServicesEnd => 5,
        Content::Status { .. } => 6,
        Content::Workflow { .. } => 7,
        Content::Abort => 8,
        Content::Can { .. } => 9,
        Content::Eth { .. } => 10,
        Content::Lin { .. } => 11,
        Content::LinResponse { .. } => 12,
        Content::Publish { .. } => 13,
        Content::Call { .. } => 14,
        Content::Reply { .. } => 15,
        Content::Refuse { .. } => 16,
    }
}

/// Reads a body: the version, the kind and the fields.
#[tactic(auto, unfolding(crate::specs::Grammar::body_at))]
pub fn read_body(alloc: Global, bytes: &[u8]) -> Result<Content, ReadError>
    requires { 2 ≤ length bytes.now }
    ensures { Gives (λ content. content) result (grammar.body_at bytes.now) }
{
    if bytes[0] != VERSION {
        return Err(ReadError::Fault(BodyFault {
            left: bytes.len(),
            what: What::BadVersion,
        }));
    }
    read_fields(alloc, bytes[1], &bytes[2..])
}

/// Writes a body: the version, the kind and the fields.
#[tactic(auto, using(crate::proofs::PutLaws::puts))]
pub fn put_body(to: &mut Vec<u8>, content: &Content) -> Result<(), WantOfMemory>
    requires { IsTrue (is_message content.now) }
    ensures { Puts result to.old.items to.new.items (grammar.body content.now) }
{
    put_u8(to, VERSION)?;
    put_u8(to, kind_of(content))?;
    put_fields(to, content)
}
