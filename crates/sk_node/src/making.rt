//! The making of a participant.

ghost use Rattle.std.specs.Prelude.{◌≡◌, ◌<◌, ◌≤◌, ◌^◌, [], ◌++◌, IsTrue, length, map, replicate, IfOk, IfSome, OnOk};
ghost use Rattle.sk_msg.specs.Each.{each_after};
ghost use Rattle.sk_msg.specs.Rules.{is_service_id, is_step_size, is_new_name};
ghost use Rattle.sk_msg.specs.declared.content.Content.TheVariants as contents;
ghost use Rattle.sk_msg.specs.declared.state.State.TheVariants as states;
ghost use Rattle.sk_pubsub.specs.Announcing.{are_numbered};
ghost use Rattle.sk_law.specs.Blocks.{announced_service, enter_only, hello, introduction, making};
ghost use Rattle.sk_law.specs.Links.{own_name};
ghost use Rattle.sk_law.specs.Kept.{grown};
ghost use Rattle.sk_node.specs.Making.{greeted, introduced};

use crate::puts::{judge, put_all};
use crate::states::start;
use sk_base::{Text, WantOfMemory};
use sk_law::{Journal, Setup};
use sk_msg::{Announced, Message, Role, Service, State};
use std::alloc::Global;

/// The journal of a participant that was just made: what it says to each peer first, and its first
/// state.
pub fn make(alloc: Global, setup: Setup) -> Result<Journal, WantOfMemory>
    requires own { setup.number < length setup.names }
    requires few { length setup.names ≤ 32 }
    requires names { IsTrue (each_after is_new_name [] setup.names) }
    requires required { IfSome setup.required (λ names. IsTrue (each_after is_new_name [] names)) }
    requires size { IfSome setup.step (λ size. IsTrue (is_step_size size)) }
    requires duration { setup.duration ≤ 2 ^ 61 }
    requires services { length setup.services ≤ 64 }
    requires numbered { IsTrue (are_numbered 0 setup.services) }
    ensures setup { IfOk result (λ journal. journal.setup ≡ setup) }
    ensures made { IfOk result (λ journal. journal.past ≡ making setup) }
    ensures out { IfOk result (λ journal. journal.out ≡ replicate (length setup.names) 0) }
{
    let messages = introduction(alloc, &setup)?;
    let mut journal = Journal::new(alloc, setup)?;
    let peers = journal.reached()?;
    introduce(&mut journal, &peers, &messages)?;
    begin(&mut journal)?;
    Ok(journal)
}

/// Enters the first state, of which the app isn't told.
fn begin(journal: &mut Journal) -> Result<(), WantOfMemory>
    ensures { OnOk result (journal.new ≡ grown (enter_only journal.old.setup states.ServicesCreated 0 journal.old.past) journal.old) }
{
    let numbers = journal.told()?;
    let status = first_status();
    journal.add_state(State::ServicesCreated)?;
    put_all(journal, &numbers, &status)?;
    judge(journal)?;
    Ok(())
}

/// Status of the first state.
#[tactic(auto, unfolding(sk_msg::specs::Rules::is_told))]
fn first_status() -> Message
    ensures { result ≡ contents.Status states.ServicesCreated 0 }
{
    let until = start();
    Message::status(State::ServicesCreated, until)
}

/// What each peer is told first: Hello, each service and ServicesEnd.
fn introduction(alloc: Global, setup: &Setup) -> Result<Vec<Message>, WantOfMemory>
    requires own { setup.now.number < length setup.now.names }
    requires services { length setup.now.services ≤ 64 }
    requires numbered { IsTrue (are_numbered 0 setup.now.services) }
    ensures { IfOk result (λ messages. messages.items ≡ introduction setup.now) }
{
    let mut messages = Vec::new(alloc);
    messages.push(own_hello(alloc, setup)?)?;
    announce_all(alloc, &mut messages, setup.services.as_slice())?;
    messages.push(Message::services_end())?;
    Ok(messages)
}

/// Hello with the own name.
fn own_hello(alloc: Global, setup: &Setup) -> Result<Message, WantOfMemory>
    requires own { setup.now.number < length setup.now.names }
    ensures { IfOk result (λ message. message ≡ hello setup.now (own_name setup.now)) }
{
    let name = setup.names.as_slice()[setup.number as usize].copy(alloc)?;
    let role = Role::Participant {
        coordinated: setup.coordinated,
        synchronised: setup.step.is_some(),
    };
    let address = no_address(alloc)?;
    Ok(Message::hello(name, role, address))
}

/// The empty address, as between peers.
fn no_address(alloc: Global) -> Result<Text, WantOfMemory>
    ensures { IfOk result (λ text. text ≡ []) }
{
    match Text::new(alloc, "") {
        Ok(text) => Ok(text),
        Err(_) => Err(WantOfMemory),
    }
}

/// Behind these messages a ServiceAdd of each service.
fn announce_all(
    alloc: Global,
    messages: &mut Vec<Message>,
    services: &[Service],
) -> Result<(), WantOfMemory>
    requires few { length services.now ≤ 64 }
    requires numbered { IsTrue (are_numbered 0 services.now) }
    ensures { OnOk result (messages.new.items ≡ messages.old.items ++ map announced_service services.now) }
{
    for service in services {
        messages.push(announcement(alloc, service)?)?;
    }
    Ok(())
}

/// ServiceAdd of this service. Its history isn't told.
fn announcement(alloc: Global, service: &Service) -> Result<Message, WantOfMemory>
    requires { IsTrue (is_service_id service.now.id) }
    ensures { IfOk result (λ message. message ≡ announced_service service.now) }
{
    let mut told = service.copy(alloc)?;
    told.history = false;
    Ok(Message::service_add(Announced::new(alloc, told)?))
}

/// Each of these is told all of that.
fn introduce(journal: &mut Journal, peers: &[u32], messages: &[Message]) -> Result<(), WantOfMemory>
    ensures { OnOk result (journal.new ≡ grown (introduced messages.now peers.now journal.old.past) journal.old) }
{
    for peer in peers {
        greet(journal, *peer, messages)?;
    }
    Ok(())
}

/// One of them is.
fn greet(journal: &mut Journal, peer: u32, messages: &[Message]) -> Result<(), WantOfMemory>
    ensures { OnOk result (journal.new ≡ grown (greeted messages.now peer journal.old.past) journal.old) }
{
    for message in messages {
        journal.put(peer, message)?;
    }
    Ok(())
}
