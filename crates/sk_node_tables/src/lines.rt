//! Entries of a journal, as answers write them.

use crate::fault::Fault;
use sk_msg::{
    CanFrame, Content, Entry, Head, Label, LabelKind, LinFrame, LinResponse, Message, Sent,
    Service, ServiceKind, Verdict,
};
use std::alloc::Global;

/// The line of an entry, with its newline; empty for one that isn't shown. A Got has this place.
pub fn line(alloc: Global, entry: &Entry, place: usize) -> Result<String, Fault> {
    Ok(match entry {
        Entry::Got(peer, _) => format!(in alloc; "  got {peer} {place}\n")?,
        Entry::Put(peer, message) => put(alloc, *peer, message)?,
        Entry::Hand {
            peer,
            place,
            service,
        } => format!(in alloc; "  hand {peer} {place} {service}\n")?,
        Entry::State(state) => format!(in alloc; "  state {state}\n")?,
        Entry::Ask(command, Verdict::Accepted) => {
            format!(in alloc; "  ask {command:?} accepted\n")?
        }
        Entry::Ask(command, Verdict::Refused(state)) => {
            format!(in alloc; "  ask {command:?} refused {state}\n")?
        }
        Entry::Gone(peer, reason) => format!(in alloc; "  gone {peer} {reason}\n")?,
        Entry::Did(service, code, sent) => did(alloc, *service, *code, sent)?,
        Entry::Fault(number) => format!(in alloc; "  fault {number}\n")?,
        Entry::System(_) | Entry::Begin(..) | Entry::Done(_) | Entry::End(_) | Entry::Stray(_) =>
            String::new(alloc),
    })
}

fn put(alloc: Global, peer: u32, message: &Message) -> Result<String, Fault> {
    let said = said(alloc, message)?;
    if said.as_str().is_empty() {
        return Ok(said);
    }
    Ok(format!(in alloc; "  put {peer} {}\n", said.as_str())?)
}

fn did(alloc: Global, service: u32, code: u8, sent: &Option<Sent>) -> Result<String, Fault> {
    let said = match sent {
        Some(sent) => said(alloc, sent.message())?,
        None => String::from_str(alloc, "-")?,
    };
    Ok(format!(in alloc; "  did {service} {code} {}\n", said.as_str())?)
}

/// What a message says; empty for one that isn't shown.
fn said(alloc: Global, message: &Message) -> Result<String, Fault> {
    match message.content() {
        Content::Hello { .. } => Ok(String::from_str(alloc, "hello")?),
        Content::ServiceAdd { service } => announced(alloc, service.service()),
        Content::ServicesEnd => Ok(String::from_str(alloc, "end")?),
        Content::Can { head, frame } => can(alloc, *head, frame),
        Content::Eth { head, payload } => sent(alloc, "eth", *head, "", payload.as_slice()),
        Content::Lin { head, frame } => lin(alloc, *head, frame),
        Content::LinResponse { head, response } => lin_response(alloc, *head, response),
        Content::Publish { head, payload } => sent(alloc, "publish", *head, "", payload.as_slice()),
        Content::Call {
            head,
            call,
            payload,
        } => {
            let fields = format!(in alloc; "{call} ")?;
            sent(alloc, "call", *head, fields.as_str(), payload.as_slice())
        }
        Content::Reply {
            head,
            client,
            call,
            payload,
        } => {
            let fields = format!(in alloc; "{client} {call} ")?;
            sent(alloc, "reply", *head, fields.as_str(), payload.as_slice())
        }
        Content::Leave
        | Content::NextStep { .. }
        | Content::Status { .. }
        | Content::Workflow { .. }
        | Content::Abort
        | Content::Refuse { .. } => Ok(String::new(alloc)),
    }
}

/// What goes from service to service: its kind, its head, the fields in front of its bytes, and these.
fn sent(
    alloc: Global,
    kind: &str,
    head: Head,
    fields: &str,
    payload: &[u8],
) -> Result<String, Fault> {
    let service = head.service;
    let stamp = head.stamp.ns();
    let mark = head.mark;
    let bytes = bytes(alloc, payload)?;
    Ok(format!(in alloc;
        "{kind} {service} {stamp} {mark} {fields}{}",
        bytes.as_str()
    )?)
}

fn can(alloc: Global, head: Head, frame: &CanFrame) -> Result<String, Fault> {
    let flags = match (frame.extended, frame.fd) {
        (false, false) => 0_u8,
        (true, false) => 1,
        (false, true) => 2,
        (true, true) => 3,
    };
    let fields = format!(in alloc; "{} {flags} ", frame.id)?;
    sent(
        alloc,
        "can",
        head,
        fields.as_str(),
        frame.payload.as_slice(),
    )
}

fn lin(alloc: Global, head: Head, frame: &LinFrame) -> Result<String, Fault> {
    let fields = format!(in alloc; "{} {:?} {:?} ", frame.id, frame.checksum, frame.status)?;
    sent(
        alloc,
        "lin",
        head,
        fields.as_str(),
        frame.payload.as_slice(),
    )
}

fn lin_response(alloc: Global, head: Head, response: &LinResponse) -> Result<String, Fault> {
    let fields = format!(in alloc;
        "{} {:?} {:?} ",
        response.id, response.mode, response.checksum
    )?;
    sent(
        alloc,
        "response",
        head,
        fields.as_str(),
        response.payload.as_slice(),
    )
}

/// A service as it is announced.
fn announced(alloc: Global, service: &Service) -> Result<String, Fault> {
    let kind = kind_name(service.kind);
    let topic = service.spec.topic().as_str();
    let mut text = format!(in alloc; "service {} {kind} {topic}", service.id)?;
    if service.history {
        text.push_str(" history")?;
    }
    for label in service.spec.labels() {
        text.push_str(label_words(alloc, label)?.as_str())?;
    }
    Ok(text)
}

fn label_words(alloc: Global, label: &Label) -> Result<String, Fault> {
    let sign = match label.kind {
        LabelKind::Mandatory => '!',
        LabelKind::Optional => '?',
    };
    let key = label.key.as_str();
    let value = label.value.as_str();
    Ok(format!(in alloc; " {sign}{key}={value}")?)
}

fn kind_name(kind: ServiceKind) -> &'static str {
    match kind {
        ServiceKind::Can => "can",
        ServiceKind::Ethernet => "ethernet",
        ServiceKind::Lin => "lin",
        ServiceKind::Publisher => "publisher",
        ServiceKind::Subscriber => "subscriber",
        ServiceKind::Server => "server",
        ServiceKind::Client => "client",
    }
}

/// Bytes in hexadecimal, `-` for none. Where 16 or more at the front are equal they are counted, as in
/// `55*59+00`.
fn bytes(alloc: Global, bytes: &[u8]) -> Result<String, Fault> {
    let Some(first) = bytes.first() else {
        return Ok(String::from_str(alloc, "-")?);
    };
    let equal = count_equal(bytes, *first);
    if equal < 16 {
        return Ok(hex::encode(alloc, bytes)?);
    }
    let rest = hex::encode(alloc, bytes.get(equal..).unwrap_or(&[]))?;
    let rest = rest.as_str();
    let plus = if rest.is_empty() { "" } else { "+" };
    Ok(format!(in alloc; "{first:02x}*{equal}{plus}{rest}")?)
}

/// How many bytes at the front equal this one.
fn count_equal(bytes: &[u8], first: u8) -> usize {
    match bytes.iter().position(|byte| *byte != first) {
        Some(at) => at,
        None => bytes.len(),
    }
}
