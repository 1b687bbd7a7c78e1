//! What actions on own services come to.

ghost use Rattle.std.specs.Prelude.{◌≡◌, ◌<◌, ◌≤◌, ◌+◌, ◌^◌, IsTrue, Some, slice_get, IfOk, OnOk};
ghost use Rattle.sk_msg.specs.Rules.{is_mark};
ghost use Rattle.sk_law.specs.declared.memory.ServiceState.{ServiceState};
ghost use Rattle.sk_law.specs.Counted.{are_calls, calls_made};
ghost use Rattle.sk_law.specs.Links.{reached};
ghost use Rattle.sk_law.specs.Outcomes.{named, outcome_at, refused, done, sends};
ghost use Rattle.sk_law.specs.Readings.{head_at};
ghost use Rattle.sk_node.specs.Acting.{outcome_by};

mod can;
mod data;
mod ethernet;
mod lin;

use crate::services::can::{can_baud, can_reset, can_send, can_sleep, can_start, can_stop};
use crate::services::data::{call, publish, submit};
use crate::services::ethernet::{eth_activate, eth_deactivate, eth_send};
use crate::services::lin::{
    lin_header, lin_init, lin_send_frame, lin_set_response, lin_sleep, lin_wakeup,
};
use sk_base::WantOfMemory;
use sk_law::{Journal, ServiceState};
use sk_msg::{Action, Head, Message, Service};
use std::alloc::Global;

/// What an action came to.
#[derive(Debug, Drop)]
pub struct Answer {
    /// 0 done, 1 refused by the state or role, 2 bad frame, 3 no server, 4 unknown call.
    pub code: u8,
    /// What is sent.
    pub message: Option<Message>,
    /// To whom.
    pub to: Vec<u32>,
}

/// One action on an own service, which is at this state: the state is changed as the action says,
/// and the answer says what is to be sent, and to whom. The head is that of a message that the service
/// sends now.
#[tactic(auto, unfolding(sk_law::specs::Outcomes::outcome_at))]
pub fn act(
    journal: &Journal,
    own: &Service,
    head: Head,
    action: &Action,
    state: &mut ServiceState,
) -> Result<Answer, WantOfMemory>
    requires own { slice_get journal.now.setup.services (named action.now) ≡ Some own.now }
    requires head { head ≡ head_at (named action.now) journal.now.past.journal }
    requires mark { IsTrue (is_mark head.mark) }
    requires few { calls_made state.old < 2 ^ 63 }
    requires calls { IsTrue (are_calls state.old) }
    ensures outcome { IfOk result (λ answer. outcome_by answer state.new ≡ outcome_at journal.now.setup journal.now.past action.now own.now state.old) }
    ensures counted { OnOk result (calls_made state.new ≤ calls_made state.old + 1) }
{
    let alloc = journal.alloc();
    match action {
        Action::CanBaud(_, rate) => Ok(can_baud(alloc, *rate, state)),
        Action::CanStart(_) => Ok(can_start(alloc, state)),
        Action::CanStop(_) => Ok(can_stop(alloc, state)),
        Action::CanReset(_) => Ok(can_reset(alloc, state)),
        Action::CanSleep(_) => Ok(can_sleep(alloc, state)),
        Action::CanSend(_, frame) => can_send(journal, head, frame, state),
        Action::EthActivate(_) => Ok(eth_activate(alloc, state)),
        Action::EthDeactivate(_) => Ok(eth_deactivate(alloc, state)),
        Action::EthSend(_, frame) => eth_send(journal, head, frame, state),
        Action::LinInit(_, role) => Ok(lin_init(alloc, *role, state)),
        Action::LinSetResponse(_, response) => lin_set_response(journal, head, response, state),
        Action::LinHeader(_, id) => lin_header(journal, head, *id, state),
        Action::LinSendFrame(_, response) => lin_send_frame(journal, head, response, state),
        Action::LinSleep(_) => lin_sleep(journal, head, state),
        Action::LinWakeup(_) => lin_wakeup(journal, head, state),
        Action::Publish(_, payload) => publish(journal, head, payload, state),
        Action::Call(service, payload) => call(journal, own, *service, head, payload, state),
        Action::Submit {
            peer,
            client,
            call,
            payload,
            ..
        } => submit(journal, head, *peer, *client, *call, payload, state),
        Action::Ask(_) => Ok(refused(alloc, 1)),
        Action::PauseFor(_) => Ok(refused(alloc, 1)),
    }
}

/// A refusal of this code: nothing is sent.
fn refused(alloc: Global, code: u8) -> Answer
    ensures { (at : ServiceState) → outcome_by result at ≡ refused code at }
{
    Answer {
        code,
        message: None,
        to: Vec::new(alloc),
    }
}

/// It is done, and nothing is sent.
fn done(alloc: Global) -> Answer
    ensures { (at : ServiceState) → outcome_by result at ≡ done at }
{
    Answer {
        code: 0,
        message: None,
        to: Vec::new(alloc),
    }
}

/// It is done, and the message is sent to each peer that isn't gone.
fn sent(journal: &Journal, message: Message) -> Result<Answer, WantOfMemory>
    ensures { IfOk result (λ answer. (at : ServiceState) → outcome_by answer at ≡ sends (reached journal.now.setup journal.now.past) message at) }
{
    let to = journal.reached()?;
    Ok(Answer {
        code: 0,
        message: Some(message),
        to,
    })
}
