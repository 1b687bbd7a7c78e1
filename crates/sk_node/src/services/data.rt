//! Actions on publishers, clients and servers.

ghost use Rattle.std.specs.Prelude.{◌≡◌, ◌<◌, ◌≤◌, ◌+◌, ◌^◌, Some, slice_get, IsTrue, IfOk, OnOk};
ghost use Rattle.sk_msg.specs.Rules.{is_mark};
ghost use Rattle.sk_law.specs.Counted.{are_calls, calls_made};
ghost use Rattle.sk_law.specs.Links.{reached};
ghost use Rattle.sk_law.specs.Outcomes.{caller, has_server};
ghost use Rattle.sk_node.specs.Acting.{outcome_by, publishes, calls, submits};

use crate::services::{Answer, refused, sent};
use sk_base::{Bytes, WantOfMemory};
use sk_law::{Journal, ServiceState};
use sk_msg::{Head, Message, Service};

/// Publishes these bytes, to each peer that isn't gone.
pub fn publish(
    journal: &Journal,
    head: Head,
    payload: &Bytes,
    state: &mut ServiceState,
) -> Result<Answer, WantOfMemory>
    requires mark { IsTrue (is_mark head.mark) }
    ensures outcome { IfOk result (λ answer. outcome_by answer state.new ≡ publishes (reached journal.now.setup journal.now.past) head payload.now state.old) }
    ensures counted { OnOk result (calls_made state.new ≡ calls_made state.old) }
{
    let alloc = journal.alloc();
    match state {
        ServiceState::Publisher(publisher) => {
            let last = payload.copy(alloc)?;
            let told = payload.copy(alloc)?;
            let message = Message::publish(head, told);
            publisher.publish(last);
            let answer = sent(journal, message)?;
            Ok(answer)
        }
        ServiceState::Can(_)
        | ServiceState::Ethernet(_)
        | ServiceState::Lin(_)
        | ServiceState::Subscriber
        | ServiceState::Server(_)
        | ServiceState::Client(_) => Ok(refused(alloc, 1)),
    }
}

/// Calls with these bytes, by the own client of this number. The call goes to each peer that isn't
/// gone, where one of them has a server for it.
pub fn call(
    journal: &Journal,
    own: &Service,
    service: u32,
    head: Head,
    payload: &Bytes,
    state: &mut ServiceState,
) -> Result<Answer, WantOfMemory>
    requires own { slice_get journal.now.setup.services service ≡ Some own.now }
    requires mark { IsTrue (is_mark head.mark) }
    requires few { calls_made state.old < 2 ^ 63 }
    ensures outcome { IfOk result (λ answer. outcome_by answer state.new ≡ calls (has_server journal.now.setup journal.now.past own.now) (reached journal.now.setup journal.now.past) head payload.now state.old) }
    ensures counted { OnOk result (calls_made state.new ≤ calls_made state.old + 1) }
{
    let alloc = journal.alloc();
    match state {
        ServiceState::Client(client) => {
            let found = journal.has_server(service);
            if !found {
                return Ok(refused(alloc, 3));
            }
            match client.call(1) {
                Ok(number) => {
                    let told = payload.copy(alloc)?;
                    let message = Message::call(head, number, told);
                    let answer = sent(journal, message)?;
                    Ok(answer)
                }
                Err(_) => Ok(refused(alloc, 3)),
            }
        }
        ServiceState::Can(_)
        | ServiceState::Ethernet(_)
        | ServiceState::Lin(_)
        | ServiceState::Publisher(_)
        | ServiceState::Subscriber
        | ServiceState::Server(_) => Ok(refused(alloc, 1)),
    }
}

/// Answers a call by a server, to its caller alone.
pub fn submit(
    journal: &Journal,
    head: Head,
    peer: u32,
    client: u32,
    call: u64,
    payload: &Bytes,
    state: &mut ServiceState,
) -> Result<Answer, WantOfMemory>
    requires mark { IsTrue (is_mark head.mark) }
    requires calls { IsTrue (are_calls state.old) }
    ensures outcome { IfOk result (λ answer. outcome_by answer state.new ≡ submits (caller journal.now.past peer) head peer client call payload.now state.old) }
    ensures counted { OnOk result (calls_made state.new ≡ calls_made state.old) }
{
    let alloc = journal.alloc();
    match state {
        ServiceState::Server(calls) => match calls.submit(peer, client, call) {
            Ok(()) => {
                let told = payload.copy(alloc)?;
                let message = Message::reply(head, client, call, told);
                let to = caller(journal, peer)?;
                Ok(Answer {
                    code: 0,
                    message: Some(message),
                    to,
                })
            }
            Err(_) => Ok(refused(alloc, 4)),
        },
        ServiceState::Can(_)
        | ServiceState::Ethernet(_)
        | ServiceState::Lin(_)
        | ServiceState::Publisher(_)
        | ServiceState::Subscriber
        | ServiceState::Client(_) => Ok(refused(alloc, 1)),
    }
}

/// The caller, where it isn't gone.
fn caller(journal: &Journal, peer: u32) -> Result<Vec<u32>, WantOfMemory>
    ensures { IfOk result (λ numbers. numbers.items ≡ caller journal.now.past peer) }
{
    let mut numbers = Vec::new(journal.alloc());
    if !journal.is_gone(peer) {
        numbers.push(peer)?;
    }
    Ok(numbers)
}
