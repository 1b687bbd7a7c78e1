//! Actions on LIN controllers.

ghost use Rattle.std.specs.Prelude.{◌≡◌, ◌≢◌, not, ◌&&◌, IsTrue, IfOk, OnOk, if◌then◌else◌};
ghost use Rattle.sk_msg.specs.Rules.{is_mark, is_lin_id, is_sent};
ghost use Rattle.sk_msg.specs.declared.content.Content.TheVariants as contents;
ghost use Rattle.sk_lin.specs.Lin.{header_frame, with_kept, is_uninit, is_operational, is_asleep, is_free_master, is_lin_frame, is_lin_response, sleep_frame, wakeup_frame};
ghost use Rattle.sk_lin.specs.declared.kept.Source.TheVariants.{Own};
ghost use Rattle.sk_lin.specs.declared.refused.LinRefused.TheVariants as reasons;
ghost use Rattle.sk_lin.specs.declared.state.LinState.TheVariants.{Operational, Sleep};
ghost use Rattle.sk_law.specs.declared.memory.ServiceState.{ServiceState};
ghost use Rattle.sk_law.specs.declared.memory.ServiceState.TheVariants as states;
ghost use Rattle.sk_law.specs.Counted.{calls_made};
ghost use Rattle.sk_law.specs.Links.{reached};
ghost use Rattle.sk_law.specs.Outcomes.{on_lin, done, refused, sends};
ghost use Rattle.sk_node.specs.Acting.{outcome_by, lin_code, lin_inits, lin_sets, lin_heads, lin_sends, lin_sleeps, lin_wakes};

use crate::services::{Answer, done, refused, sent};
use sk_base::WantOfMemory;
use sk_law::{Journal, ServiceState};
use sk_lin::LinRefused;
use sk_msg::{Head, LinFrame, LinResponse, LinRole, Message};
use std::alloc::Global;

/// Makes it master or slave of its bus.
pub fn lin_init(alloc: Global, role: LinRole, state: &mut ServiceState) -> Answer
    ensures outcome { outcome_by result state.new ≡ lin_inits role state.old }
    ensures counted { calls_made state.new ≡ calls_made state.old }
{
    match state {
        ServiceState::Lin(lin) => match lin.init(role) {
            Ok(()) => done(alloc),
            Err(_) => refused(alloc, 1),
        },
        ServiceState::Can(_)
        | ServiceState::Ethernet(_)
        | ServiceState::Publisher(_)
        | ServiceState::Subscriber
        | ServiceState::Server(_)
        | ServiceState::Client(_) => refused(alloc, 1),
    }
}

/// Says how it answers a header from now on, to each peer that isn't gone.
pub fn lin_set_response(
    journal: &Journal,
    head: Head,
    response: &LinResponse,
    state: &mut ServiceState,
) -> Result<Answer, WantOfMemory>
    requires mark { IsTrue (is_mark head.mark) }
    ensures outcome { IfOk result (λ answer. outcome_by answer state.new ≡ lin_sets (reached journal.now.setup journal.now.past) head response.now state.old) }
    ensures counted { OnOk result (calls_made state.new ≡ calls_made state.old) }
{
    let alloc = journal.alloc();
    match state {
        ServiceState::Lin(lin) => {
            let kept = response.copy(alloc)?;
            let told = response.copy(alloc)?;
            match lin.set_response(kept) {
                Ok(()) => {
                    let message = Message::lin_response(head, told);
                    let answer = sent(journal, message)?;
                    Ok(answer)
                }
                Err(reason) => {
                    let refusal = refused_by_lin(alloc, reason)?;
                    Ok(refusal)
                }
            }
        }
        ServiceState::Can(_)
        | ServiceState::Ethernet(_)
        | ServiceState::Publisher(_)
        | ServiceState::Subscriber
        | ServiceState::Server(_)
        | ServiceState::Client(_) => Ok(refused(alloc, 1)),
    }
}

/// Sends the header of this identifier, as a master: what it brings goes to each peer that isn't gone.
pub fn lin_header(
    journal: &Journal,
    head: Head,
    id: u8,
    state: &ServiceState,
) -> Result<Answer, WantOfMemory>
    requires mark { IsTrue (is_mark head.mark) }
    ensures { IfOk result (λ answer. outcome_by answer state.now ≡ lin_heads (reached journal.now.setup journal.now.past) head id state.now) }
{
    let alloc = journal.alloc();
    match state {
        ServiceState::Lin(lin) => match lin.send_header(id) {
            Ok(frame) => {
                let answer = sent_by_lin(journal, head, frame)?;
                Ok(answer)
            }
            Err(reason) => {
                let refusal = refused_by_lin(alloc, reason)?;
                Ok(refusal)
            }
        },
        ServiceState::Can(_)
        | ServiceState::Ethernet(_)
        | ServiceState::Publisher(_)
        | ServiceState::Subscriber
        | ServiceState::Server(_)
        | ServiceState::Client(_) => Ok(refused(alloc, 1)),
    }
}

/// Sets its response, and sends the header for it, as a master.
pub fn lin_send_frame(
    journal: &Journal,
    head: Head,
    response: &LinResponse,
    state: &mut ServiceState,
) -> Result<Answer, WantOfMemory>
    requires mark { IsTrue (is_mark head.mark) }
    ensures outcome { IfOk result (λ answer. outcome_by answer state.new ≡ lin_sends (reached journal.now.setup journal.now.past) head response.now state.old) }
    ensures counted { OnOk result (calls_made state.new ≡ calls_made state.old) }
{
    let alloc = journal.alloc();
    match state {
        ServiceState::Lin(lin) => {
            let kept = response.copy(alloc)?;
            match lin.send_frame(kept) {
                Ok(frame) => {
                    let answer = sent_by_lin(journal, head, frame)?;
                    Ok(answer)
                }
                Err(reason) => {
                    let refusal = refused_by_lin(alloc, reason)?;
                    Ok(refusal)
                }
            }
        }
        ServiceState::Can(_)
        | ServiceState::Ethernet(_)
        | ServiceState::Publisher(_)
        | ServiceState::Subscriber
        | ServiceState::Server(_)
        | ServiceState::Client(_) => Ok(refused(alloc, 1)),
    }
}

/// Sends its bus to sleep, as a master.
pub fn lin_sleep(
    journal: &Journal,
    head: Head,
    state: &mut ServiceState,
) -> Result<Answer, WantOfMemory>
    requires mark { IsTrue (is_mark head.mark) }
    ensures outcome { IfOk result (λ answer. outcome_by answer state.new ≡ lin_sleeps (reached journal.now.setup journal.now.past) head state.old) }
    ensures counted { OnOk result (calls_made state.new ≡ calls_made state.old) }
{
    let alloc = journal.alloc();
    match state {
        ServiceState::Lin(lin) => match lin.go_to_sleep() {
            Ok(frame) => {
                let answer = sent_by_lin(journal, head, frame)?;
                Ok(answer)
            }
            Err(reason) => {
                let refusal = refused_by_lin(alloc, reason)?;
                Ok(refusal)
            }
        },
        ServiceState::Can(_)
        | ServiceState::Ethernet(_)
        | ServiceState::Publisher(_)
        | ServiceState::Subscriber
        | ServiceState::Server(_)
        | ServiceState::Client(_) => Ok(refused(alloc, 1)),
    }
}

/// Wakes its bus.
pub fn lin_wakeup(
    journal: &Journal,
    head: Head,
    state: &mut ServiceState,
) -> Result<Answer, WantOfMemory>
    requires mark { IsTrue (is_mark head.mark) }
    ensures outcome { IfOk result (λ answer. outcome_by answer state.new ≡ lin_wakes (reached journal.now.setup journal.now.past) head state.old) }
    ensures counted { OnOk result (calls_made state.new ≡ calls_made state.old) }
{
    let alloc = journal.alloc();
    match state {
        ServiceState::Lin(lin) => match lin.wakeup() {
            Ok(frame) => {
                let answer = sent_by_lin(journal, head, frame)?;
                Ok(answer)
            }
            Err(reason) => {
                let refusal = refused_by_lin(alloc, reason)?;
                Ok(refusal)
            }
        },
        ServiceState::Can(_)
        | ServiceState::Ethernet(_)
        | ServiceState::Publisher(_)
        | ServiceState::Subscriber
        | ServiceState::Server(_)
        | ServiceState::Client(_) => Ok(refused(alloc, 1)),
    }
}

/// The frame is sent to each peer that isn't gone.
#[tactic(auto, using(std::proofs::lemmas::Bool::and_from), unfolding(sk_lin::specs::Lin::is_lin_frame))]
fn sent_by_lin(journal: &Journal, head: Head, frame: LinFrame) -> Result<Answer, WantOfMemory>
    requires mark { IsTrue (is_mark head.mark) }
    requires frame { IsTrue (is_lin_frame frame) }
    ensures { IfOk result (λ answer. (at : ServiceState) → outcome_by answer at ≡ sends (reached journal.now.setup journal.now.past) (contents.Lin head frame) at) }
{
    let message = Message::lin(head, frame);
    let answer = sent(journal, message)?;
    Ok(answer)
}

/// A refusal for this reason.
fn refused_by_lin(alloc: Global, reason: LinRefused) -> Result<Answer, WantOfMemory>
    ensures code { IfOk result (λ answer. (at : ServiceState) → outcome_by answer at ≡ refused (lin_code reason) at) }
    ensures known { OnOk result (reason ≢ reasons.WantOfMemory) }
{
    match reason {
        LinRefused::State(_) => Ok(refused(alloc, 1)),
        LinRefused::Role => Ok(refused(alloc, 1)),
        LinRefused::BadFrame => Ok(refused(alloc, 2)),
        LinRefused::WantOfMemory => Err(WantOfMemory),
    }
}
