//! Machines of scenario files, the messages that they see, and what they ask for in words.

use sk_base::{Bytes, SimTime, WantOfMemory};
use sk_law::Visible;
use sk_machine::Machine;
use sk_msg::rules::{is_call, is_mark};
use sk_msg::{Action, Command, Head, Message};
use sk_script::{Part, read_scenario};
use std::alloc::{AllocError, Global};
use std::process::Abort;
use std::test::Fail;

/// A message of peer 3, stamped 0: the number of the own service that is handed it, `pub` or `call`,
/// and its bytes.
pub type Seen = (u32, &'static str, &'static [u8]);

/// The machine of the first participant of a scenario file.
pub fn machine(rt: &impl Abort, alloc: Global, text: &str) -> Machine {
    let read = read_scenario(alloc, text.as_bytes()).expect(rt, "a scenario");
    let part = read
        .scenario
        .participants()
        .first()
        .expect(rt, "a participant");
    machine_of(alloc, part).expect(rt, "memory")
}

/// The machine of a participant.
#[tactic(auto, using(std::proofs::lemmas::Bool::and_parts), unfolding(sk_script::specs::Scenarios::is_part, sk_script::specs::Scenarios::is_script))]
fn machine_of(alloc: Global, part: &Part) -> Result<Machine, WantOfMemory> {
    Machine::new(alloc, part.scope(), part.ready(), part.script())
}

/// What a step at this time asks for, that sees these messages: each with a semicolon behind it.
pub fn step(
    rt: &impl Abort,
    alloc: Global,
    machine: &mut Machine,
    at: u64,
    seen: &[Seen],
) -> Result<String, Fail> {
    let mut items = Vec::new(alloc);
    for (service, kind, bytes) in seen {
        let message = message(rt, alloc, kind, bytes)?;
        items.push(Visible {
            stamp: time(rt, 0),
            peer: 3,
            place: 1,
            service: *service,
            message,
        })?;
    }
    let asked = machine.step(time(rt, at), &items)?;
    Ok(words(alloc, &asked)?)
}

/// A time of so many ns.
fn time(rt: &impl Abort, ns: u64) -> SimTime {
    SimTime::new(ns).expect(rt, "a time")
}

/// A publication of service 2, or else its call of number 7.
fn message(rt: &impl Abort, alloc: Global, kind: &str, bytes: &[u8]) -> Result<Message, Fail> {
    assert!(rt; is_mark(1));
    assert!(rt; is_call(7));
    let head = Head {
        service: 2,
        stamp: time(rt, 0),
        mark: 1,
    };
    let payload = Bytes::new(alloc, bytes)?;
    if kind == "pub" {
        Ok(Message::publish(head, payload))
    } else {
        Ok(Message::call(head, 7, payload))
    }
}

/// What is asked for when communication is ready, in words.
pub fn ready(alloc: Global, machine: &mut Machine) -> Result<String, Fail> {
    let asked = machine.ready()?;
    Ok(words(alloc, &asked)?)
}

/// Actions in words.
fn words(alloc: Global, actions: &[Action]) -> Result<String, AllocError> {
    let mut words = String::new(alloc);
    for action in actions {
        words.push_str(word(alloc, action)?.as_str())?;
        words.push_str(";")?;
    }
    Ok(words)
}

/// An action in words.
fn word(alloc: Global, action: &Action) -> Result<String, AllocError> {
    match action {
        Action::CanStart(service) => format!(in alloc; "start {service}"),
        Action::Publish(service, payload) => {
            let hex = hex::encode(alloc, payload.as_slice())?;
            format!(in alloc; "publish {service} {hex}")
        }
        Action::Submit {
            service,
            peer,
            client,
            call,
            payload,
        } => {
            let hex = hex::encode(alloc, payload.as_slice())?;
            format!(in alloc; "submit {service} {peer} {client} {call} {hex}")
        }
        Action::Ask(Command::Stop) => String::from_str(alloc, "stop"),
        _ => String::from_str(alloc, "else"),
    }
}
