//! The report of two participants, worked out by hand.

use crate::{Reported, report_text, totals_text};
use sk_base::{Bytes, Name, SimTime, Text};
use sk_msg::rules::{
    is_call, is_can_frame, is_eth_frame, is_lin_id, is_lin_payload, is_mark, is_received, is_sent,
};
use sk_msg::{
    CanFrame, Entry, Head, LinChecksum, LinFrame, LinMode, LinResponse, LinStatus, Message, Sent,
    Service, ServiceKind, Spec,
};
use std::alloc::Global;
use std::process::Abort;
use std::test::Fail;

/// A time of so many ns.
fn at(rt: &impl Abort, ns: u64) -> SimTime {
    SimTime::new(ns).expect(rt, "a time")
}

/// Sent by this service at this time, in the step of this number, or in none where it is 0.
fn head(rt: &impl Abort, service: u32, ns: u64, mark: u64) -> Head {
    let stamp = at(rt, ns);
    Head {
        service,
        stamp,
        mark,
    }
}

/// A CAN FD frame.
fn can(rt: &impl Abort, alloc: Global, head: Head, payload: &[u8]) -> Result<Message, Fail> {
    let payload = Bytes::new(alloc, payload)?;
    assert!(rt; is_mark(head.mark));
    assert!(rt; is_can_frame(291, false, true, payload.as_slice()));
    let frame = CanFrame {
        id: 291,
        extended: false,
        fd: true,
        payload,
    };
    Ok(Message::can(head, frame))
}

/// An Ethernet frame of 60 bytes.
fn eth(rt: &impl Abort, alloc: Global, head: Head) -> Result<Message, Fail> {
    let payload = Bytes::new(alloc, &[171; 60])?;
    assert!(rt; is_mark(head.mark));
    assert!(rt; is_eth_frame(payload.as_slice()));
    Ok(Message::eth(head, payload))
}

/// A LIN header that nobody answered.
fn lin(rt: &impl Abort, alloc: Global, head: Head) -> Result<Message, Fail> {
    let payload = Bytes::new(alloc, &[])?;
    let (status, checksum) = (LinStatus::RxNoResponse, LinChecksum::Unknown);
    assert!(rt; is_mark(head.mark));
    assert!(rt; is_lin_id(60));
    assert!(rt; is_lin_payload(is_received(status), checksum, payload.as_slice()));
    let frame = LinFrame {
        id: 60,
        checksum,
        status,
        payload,
    };
    Ok(Message::lin(head, frame))
}

/// What a LIN controller answers from now on.
fn lin_response(rt: &impl Abort, alloc: Global, head: Head) -> Result<Message, Fail> {
    let payload = Bytes::new(alloc, &[1])?;
    let (mode, checksum) = (LinMode::TxUnconditional, LinChecksum::Classic);
    assert!(rt; is_mark(head.mark));
    assert!(rt; is_lin_id(60));
    assert!(rt; is_lin_payload(is_sent(mode), checksum, payload.as_slice()));
    let response = LinResponse {
        id: 60,
        mode,
        checksum,
        payload,
    };
    Ok(Message::lin_response(head, response))
}

/// A publication.
fn published(rt: &impl Abort, alloc: Global, head: Head, payload: &[u8]) -> Result<Message, Fail> {
    assert!(rt; is_mark(head.mark));
    Ok(Message::publish(head, Bytes::new(alloc, payload)?))
}

/// The call of number 7.
fn called(rt: &impl Abort, alloc: Global, head: Head, payload: &[u8]) -> Result<Message, Fail> {
    assert!(rt; is_mark(head.mark));
    assert!(rt; is_call(7));
    Ok(Message::call(head, 7, Bytes::new(alloc, payload)?))
}

/// The answer to the call of number 7, of the client 4.
fn replied(rt: &impl Abort, alloc: Global, head: Head, payload: &[u8]) -> Result<Message, Fail> {
    assert!(rt; is_mark(head.mark));
    assert!(rt; is_call(7));
    Ok(Message::reply(head, 4, 7, Bytes::new(alloc, payload)?))
}

/// An own service sent this.
fn did(alloc: Global, service: u32, message: Message) -> Result<Entry, Fail> {
    Ok(Entry::Did(service, 0, Some(Sent::new(alloc, message)?)))
}

/// This message of a peer is at this place, and is handed to an own service.
fn take(
    journal: &mut Vec<Entry>,
    peer: u32,
    place: u64,
    service: u32,
    message: Message,
) -> Result<(), Fail> {
    journal.push(Entry::Got(peer, message))?;
    journal.push(Entry::Hand {
        peer,
        place,
        service,
    })?;
    Ok(())
}

/// A participant that sends of each kind but a reply, and at last something of its first step.
fn sender(rt: &impl Abort, alloc: Global) -> Result<Vec<Entry>, Fail> {
    let mut journal = Vec::new(alloc);
    journal.push(Entry::Begin(1, at(rt, 0)))?;
    let frame = can(rt, alloc, head(rt, 0, 0, 1), &[1, 171])?;
    journal.push(did(alloc, 0, frame)?)?;
    journal.push(did(alloc, 1, eth(rt, alloc, head(rt, 1, 0, 1))?)?)?;
    let response = lin_response(rt, alloc, head(rt, 2, 0, 1))?;
    journal.push(did(alloc, 2, response)?)?;
    journal.push(did(alloc, 2, lin(rt, alloc, head(rt, 2, 0, 1))?)?)?;
    journal.push(Entry::End(1))?;
    journal.push(Entry::Begin(2, at(rt, 1_000_000)))?;
    let empty = published(rt, alloc, head(rt, 3, 1_000_000, 2), &[])?;
    journal.push(did(alloc, 3, empty)?)?;
    let call = called(rt, alloc, head(rt, 4, 1_000_000, 2), &[255])?;
    journal.push(did(alloc, 4, call)?)?;
    journal.push(Entry::Did(0, 1, None))?;
    journal.push(Entry::End(2))?;
    let outside = published(rt, alloc, head(rt, 3, 1_000_000, 0), &[8])?;
    journal.push(did(alloc, 3, outside)?)?;
    let late = published(rt, alloc, head(rt, 3, 0, 1), &[9])?;
    journal.push(did(alloc, 3, late)?)?;
    Ok(journal)
}

/// A participant that takes what two peers sent, and answers a call.
fn receiver(rt: &impl Abort, alloc: Global) -> Result<Vec<Entry>, Fail> {
    let mut journal = Vec::new(alloc);
    let frame = can(rt, alloc, head(rt, 0, 0, 1), &[1, 171])?;
    take(&mut journal, 0, 1, 0, frame)?;
    journal.push(Entry::Begin(1, at(rt, 0)))?;
    journal.push(Entry::End(1))?;
    let of_another = published(rt, alloc, head(rt, 0, 500, 3), &[])?;
    take(&mut journal, 2, 1, 1, of_another)?;
    let reply = replied(rt, alloc, head(rt, 5, 300, 1), &[10])?;
    take(&mut journal, 0, 2, 1, reply)?;
    let response = lin_response(rt, alloc, head(rt, 2, 10, 1))?;
    take(&mut journal, 0, 3, 1, response)?;
    // of the next step's own time
    let at_once = published(rt, alloc, head(rt, 3, 2_000_000, 2), &[7])?;
    take(&mut journal, 0, 4, 1, at_once)?;
    journal.push(Entry::Begin(2, at(rt, 2_000_000)))?;
    let answer = replied(rt, alloc, head(rt, 1, 2_000_000, 2), &[])?;
    journal.push(did(alloc, 1, answer)?)?;
    Ok(journal)
}

/// A service of this name. A report goes by its place among the others, not by its number.
fn service(alloc: Global, name: &str) -> Result<Service, Fail> {
    let topic = Name::new(alloc, "T")?;
    let media = Text::new(alloc, "")?;
    Ok(Service {
        id: 0,
        kind: ServiceKind::Can,
        name: Name::new(alloc, name)?,
        spec: Spec::new(topic, media, Vec::new(alloc))?,
        history: false,
    })
}

/// A participant with services of these names.
fn reported(alloc: Global, name: &str, names: &[&str]) -> Result<Reported, Fail> {
    let mut services = Vec::new(alloc);
    for name in names {
        services.push(service(alloc, name)?)?;
    }
    Ok(Reported::new(alloc, &Name::new(alloc, name)?, &services)?)
}

/// Both participants.
fn participants(alloc: Global) -> Result<Vec<Reported>, Fail> {
    let sender = reported(alloc, "Engine", &["C", "E", "L", "P", "F"])?;
    let receiver = reported(alloc, "Display", &["D", "S"])?;
    Ok(vec![in alloc; sender, receiver]?)
}

/// The journals of both.
fn journals(rt: &impl Abort, alloc: Global) -> Result<Vec<Vec<Entry>>, Fail> {
    Ok(vec![in alloc; sender(rt, alloc)?, receiver(rt, alloc)?]?)
}

#[test]
fn a_report(rt: HostRuntime) -> Result<(), Fail> {
    let alloc = rt.alloc();
    let text = report_text(alloc, &participants(alloc)?, &journals(&rt, alloc)?)?;
    assert_eq!(rt;
        text.as_str(),
        "participant 0 Engine
step 1 0
sent can 291 2 01ab C
sent eth abababababababababababababababababababababababababababababababababababababababababababababababababababababababababababab E
sent lin 60 2 - L
sent pub 09 P
step 2 1000000
sent pub - P
sent call 7 ff F
participant 1 Display
step 1 0
step 2 2000000
saw 0 0 can 291 2 01ab D
saw 300 0 reply 7 0a S
saw 500 2 pub - S
sent reply 7 - S
steps 4 saw 3 sent 7
"
    );
    Ok(())
}

#[test]
fn the_last_line_alone(rt: HostRuntime) -> Result<(), Fail> {
    let alloc = rt.alloc();
    let text = totals_text(alloc, &journals(&rt, alloc)?)?;
    assert_eq!(rt; text.as_str(), "steps 4 saw 3 sent 7\n");
    Ok(())
}
