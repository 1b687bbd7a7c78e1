//! Messages, as rows write them.

use crate::actions::{can_frame, response};
use crate::fault::Fault;
use crate::words::{
    bytes, checksum, head, number, number_8, number_32, service, status, time, word,
};
use sk_base::{Name, Text};
use sk_msg::rules::{
    is_call, is_can_frame, is_eth_frame, is_lin_id, is_lin_payload, is_mark, is_received, is_sent,
    is_service_id,
};
use sk_msg::{Announced, LinFrame, Message, Role, Service};
use std::alloc::Global;

/// The message that a peer of this name says by these words.
pub fn message(alloc: Global, name: &str, words: &[&str]) -> Result<Message, Fault> {
    match word(words, 0) {
        "hello" => hello(alloc, name, word(words, 1) == "synchronised"),
        "service" => announcement(alloc, service(alloc, number_32(words, 1)?, words, 2)?),
        "end" => Ok(Message::services_end()),
        "next" => next_step(words),
        "can" => can(alloc, words),
        "eth" => eth(alloc, words),
        "lin" => lin(alloc, words),
        "response" => lin_response(alloc, words),
        "publish" => publish(alloc, words),
        "call" => call(alloc, words),
        "reply" => reply(alloc, words),
        _ => Err(Fault::BadRow),
    }
}

/// The Hello of an autonomous peer.
pub fn hello(alloc: Global, name: &str, synchronised: bool) -> Result<Message, Fault> {
    let role = Role::Participant {
        coordinated: false,
        synchronised,
    };
    let name = Name::new(alloc, name)?;
    let address = Text::new(alloc, "")?;
    Ok(Message::hello(name, role, address))
}

/// It tells of its service.
pub fn announcement(alloc: Global, service: Service) -> Result<Message, Fault> {
    if service.history || !is_service_id(service.id) {
        return Err(Fault::BadRow);
    }
    Ok(Message::service_add(Announced::new(alloc, service)?))
}

/// Its next step, of 1 ns.
#[tactic(auto, unfolding(sk_msg::specs::Rules::is_step_size))]
fn next_step(words: &[&str]) -> Result<Message, Fault> {
    let at = time(words, 1)?;
    Ok(Message::next_step(at, 1))
}

fn can(alloc: Global, words: &[&str]) -> Result<Message, Fault> {
    let head = head(words)?;
    let frame = can_frame(alloc, words, 4)?;
    if !is_mark(head.mark)
        || !is_can_frame(frame.id, frame.extended, frame.fd, frame.payload.as_slice())
    {
        return Err(Fault::BadRow);
    }
    Ok(Message::can(head, frame))
}

fn eth(alloc: Global, words: &[&str]) -> Result<Message, Fault> {
    let head = head(words)?;
    let payload = bytes(alloc, words, 4)?;
    if !is_mark(head.mark) || !is_eth_frame(payload.as_slice()) {
        return Err(Fault::BadRow);
    }
    Ok(Message::eth(head, payload))
}

fn lin(alloc: Global, words: &[&str]) -> Result<Message, Fault> {
    let head = head(words)?;
    let id = number_8(words, 4)?;
    let checksum = checksum(word(words, 5))?;
    let status = status(word(words, 6))?;
    let payload = bytes(alloc, words, 7)?;
    if !is_mark(head.mark)
        || !is_lin_id(id)
        || !is_lin_payload(is_received(status), checksum, payload.as_slice())
    {
        return Err(Fault::BadRow);
    }
    Ok(Message::lin(
        head,
        LinFrame {
            id,
            checksum,
            status,
            payload,
        },
    ))
}

fn lin_response(alloc: Global, words: &[&str]) -> Result<Message, Fault> {
    let head = head(words)?;
    let response = response(alloc, words, 4)?;
    if !is_mark(head.mark)
        || !is_lin_id(response.id)
        || !is_lin_payload(
            is_sent(response.mode),
            response.checksum,
            response.payload.as_slice(),
        )
    {
        return Err(Fault::BadRow);
    }
    Ok(Message::lin_response(head, response))
}

fn publish(alloc: Global, words: &[&str]) -> Result<Message, Fault> {
    let head = head(words)?;
    let payload = bytes(alloc, words, 4)?;
    if !is_mark(head.mark) {
        return Err(Fault::BadRow);
    }
    Ok(Message::publish(head, payload))
}

fn call(alloc: Global, words: &[&str]) -> Result<Message, Fault> {
    let head = head(words)?;
    let call = number(words, 4)?;
    let payload = bytes(alloc, words, 5)?;
    if !is_mark(head.mark) || !is_call(call) {
        return Err(Fault::BadRow);
    }
    Ok(Message::call(head, call, payload))
}

fn reply(alloc: Global, words: &[&str]) -> Result<Message, Fault> {
    let head = head(words)?;
    let client = number_32(words, 4)?;
    let call = number(words, 5)?;
    let payload = bytes(alloc, words, 6)?;
    if !is_mark(head.mark) || !is_call(call) {
        return Err(Fault::BadRow);
    }
    Ok(Message::reply(head, client, call, payload))
}
