//! Actions on Ethernet controllers.

ghost use Rattle.std.specs.Prelude.{◌≡◌, ◌≢◌, true, false, IsTrue, IfOk, OnOk};
ghost use Rattle.sk_msg.specs.Rules.{is_mark};
ghost use Rattle.sk_msg.specs.declared.content.Content.TheVariants as contents;
ghost use Rattle.sk_eth.specs.Ethernet.{padded};
ghost use Rattle.sk_eth.specs.declared.refused.EthRefused.TheVariants as reasons;
ghost use Rattle.sk_law.specs.declared.memory.ServiceState.{ServiceState};
ghost use Rattle.sk_law.specs.declared.memory.ServiceState.TheVariants as states;
ghost use Rattle.sk_law.specs.Counted.{calls_made};
ghost use Rattle.sk_law.specs.Links.{reached};
ghost use Rattle.sk_law.specs.Outcomes.{on_ethernet, done, refused, ethernet_sends};
ghost use Rattle.sk_node.specs.Acting.{eth_code, outcome_by};

use crate::services::{Answer, done, refused, sent};
use sk_base::{Bytes, WantOfMemory};
use sk_eth::{EthController, EthRefused};
use sk_law::{Journal, ServiceState};
use sk_msg::{Head, Message};
use std::alloc::Global;

/// Brings the link up.
pub fn eth_activate(alloc: Global, state: &mut ServiceState) -> Answer
    ensures outcome { outcome_by result state.new ≡ on_ethernet state.old (λ active. done (states.Ethernet true)) }
    ensures counted { calls_made state.new ≡ calls_made state.old }
{
    match state {
        ServiceState::Ethernet(ethernet) => {
            ethernet.activate();
            done(alloc)
        }
        ServiceState::Can(_)
        | ServiceState::Lin(_)
        | ServiceState::Publisher(_)
        | ServiceState::Subscriber
        | ServiceState::Server(_)
        | ServiceState::Client(_) => refused(alloc, 1),
    }
}

/// Takes it down.
pub fn eth_deactivate(alloc: Global, state: &mut ServiceState) -> Answer
    ensures outcome { outcome_by result state.new ≡ on_ethernet state.old (λ active. done (states.Ethernet false)) }
    ensures counted { calls_made state.new ≡ calls_made state.old }
{
    match state {
        ServiceState::Ethernet(ethernet) => {
            ethernet.deactivate();
            done(alloc)
        }
        ServiceState::Can(_)
        | ServiceState::Lin(_)
        | ServiceState::Publisher(_)
        | ServiceState::Subscriber
        | ServiceState::Server(_)
        | ServiceState::Client(_) => refused(alloc, 1),
    }
}

/// Sends a frame, padded with zeros to 60 bytes, to each peer that isn't gone.
pub fn eth_send(
    journal: &Journal,
    head: Head,
    frame: &Bytes,
    state: &ServiceState,
) -> Result<Answer, WantOfMemory>
    requires mark { IsTrue (is_mark head.mark) }
    ensures { IfOk result (λ answer. outcome_by answer state.now ≡ ethernet_sends (reached journal.now.setup journal.now.past) (contents.Eth head (padded frame.now)) frame.now state.now) }
{
    match state {
        ServiceState::Ethernet(ethernet) => send_by_ethernet(journal, head, frame, ethernet),
        ServiceState::Can(_)
        | ServiceState::Lin(_)
        | ServiceState::Publisher(_)
        | ServiceState::Subscriber
        | ServiceState::Server(_)
        | ServiceState::Client(_) => Ok(refused(journal.alloc(), 1)),
    }
}

/// Sends a frame by this controller.
fn send_by_ethernet(
    journal: &Journal,
    head: Head,
    frame: &Bytes,
    ethernet: &EthController,
) -> Result<Answer, WantOfMemory>
    requires mark { IsTrue (is_mark head.mark) }
    ensures { IfOk result (λ answer. outcome_by answer (states.Ethernet ethernet.now) ≡ ethernet_sends (reached journal.now.setup journal.now.past) (contents.Eth head (padded frame.now)) frame.now (states.Ethernet ethernet.now)) }
{
    let alloc = journal.alloc();
    match ethernet.send(alloc, frame.as_slice()) {
        Ok(padded) => {
            let message = Message::eth(head, padded);
            let answer = sent(journal, message)?;
            Ok(answer)
        }
        Err(reason) => {
            let refusal = refused_by_ethernet(alloc, reason)?;
            Ok(refusal)
        }
    }
}

/// A refusal for this reason.
fn refused_by_ethernet(alloc: Global, reason: EthRefused) -> Result<Answer, WantOfMemory>
    ensures code { IfOk result (λ answer. (at : ServiceState) → outcome_by answer at ≡ refused (eth_code reason) at) }
    ensures known { OnOk result (reason ≢ reasons.WantOfMemory) }
{
    match reason {
        EthRefused::ControllerInactive => Ok(refused(alloc, 1)),
        EthRefused::InvalidFrameFormat(_) => Ok(refused(alloc, 2)),
        EthRefused::WantOfMemory => Err(WantOfMemory),
    }
}
