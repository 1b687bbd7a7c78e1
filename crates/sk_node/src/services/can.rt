//! Actions on CAN controllers.

ghost use Rattle.std.specs.Prelude.{◌≡◌, Option, None, IsTrue, IfOk};
ghost use Rattle.sk_msg.specs.Rules.{is_mark};
ghost use Rattle.sk_msg.specs.declared.content.Content.TheVariants as contents;
ghost use Rattle.sk_can.specs.Can.{Can, answer, with_rate, can_baud, can_start, can_stop, can_reset, can_sleep};
ghost use Rattle.sk_can.specs.declared.state.CanState.{CanState};
ghost use Rattle.sk_law.specs.declared.memory.ServiceState.TheVariants as states;
ghost use Rattle.sk_law.specs.Counted.{calls_made};
ghost use Rattle.sk_law.specs.Links.{reached};
ghost use Rattle.sk_law.specs.Outcomes.{on_can, by_table, turned, can_sends};
ghost use Rattle.sk_node.specs.Acting.{can_code, outcome_by};

use crate::services::{Answer, done, refused, sent};
use sk_base::WantOfMemory;
use sk_can::{CanController, CanRefused};
use sk_law::{Journal, ServiceState};
use sk_msg::{CanFrame, Head, Message};
use std::alloc::Global;

/// Sets the baud rate, in bits per second.
pub fn can_baud(alloc: Global, rate: u32, state: &mut ServiceState) -> Answer
    ensures outcome { outcome_by result state.new ≡ on_can state.old (λ can. turned state.old (can_baud can.state) (with_rate rate (can_baud can.state) can)) }
    ensures counted { calls_made state.new ≡ calls_made state.old }
{
    match state {
        ServiceState::Can(can) => turned(alloc, can.set_baud_rate(rate)),
        ServiceState::Ethernet(_)
        | ServiceState::Lin(_)
        | ServiceState::Publisher(_)
        | ServiceState::Subscriber
        | ServiceState::Server(_)
        | ServiceState::Client(_) => refused(alloc, 1),
    }
}

/// Starts the controller.
pub fn can_start(alloc: Global, state: &mut ServiceState) -> Answer
    ensures outcome { outcome_by result state.new ≡ by_table can_start state.old }
    ensures counted { calls_made state.new ≡ calls_made state.old }
{
    match state {
        ServiceState::Can(can) => turned(alloc, can.start()),
        ServiceState::Ethernet(_)
        | ServiceState::Lin(_)
        | ServiceState::Publisher(_)
        | ServiceState::Subscriber
        | ServiceState::Server(_)
        | ServiceState::Client(_) => refused(alloc, 1),
    }
}

/// Stops it.
pub fn can_stop(alloc: Global, state: &mut ServiceState) -> Answer
    ensures outcome { outcome_by result state.new ≡ by_table can_stop state.old }
    ensures counted { calls_made state.new ≡ calls_made state.old }
{
    match state {
        ServiceState::Can(can) => turned(alloc, can.stop()),
        ServiceState::Ethernet(_)
        | ServiceState::Lin(_)
        | ServiceState::Publisher(_)
        | ServiceState::Subscriber
        | ServiceState::Server(_)
        | ServiceState::Client(_) => refused(alloc, 1),
    }
}

/// Takes it back to where it began.
pub fn can_reset(alloc: Global, state: &mut ServiceState) -> Answer
    ensures outcome { outcome_by result state.new ≡ by_table can_reset state.old }
    ensures counted { calls_made state.new ≡ calls_made state.old }
{
    match state {
        ServiceState::Can(can) => turned(alloc, can.reset()),
        ServiceState::Ethernet(_)
        | ServiceState::Lin(_)
        | ServiceState::Publisher(_)
        | ServiceState::Subscriber
        | ServiceState::Server(_)
        | ServiceState::Client(_) => refused(alloc, 1),
    }
}

/// Lets it sleep.
pub fn can_sleep(alloc: Global, state: &mut ServiceState) -> Answer
    ensures outcome { outcome_by result state.new ≡ by_table can_sleep state.old }
    ensures counted { calls_made state.new ≡ calls_made state.old }
{
    match state {
        ServiceState::Can(can) => turned(alloc, can.sleep()),
        ServiceState::Ethernet(_)
        | ServiceState::Lin(_)
        | ServiceState::Publisher(_)
        | ServiceState::Subscriber
        | ServiceState::Server(_)
        | ServiceState::Client(_) => refused(alloc, 1),
    }
}

/// Sends a frame to each peer that isn't gone.
pub fn can_send(
    journal: &Journal,
    head: Head,
    frame: &CanFrame,
    state: &ServiceState,
) -> Result<Answer, WantOfMemory>
    requires mark { IsTrue (is_mark head.mark) }
    ensures { IfOk result (λ answer. outcome_by answer state.now ≡ can_sends (reached journal.now.setup journal.now.past) (contents.Can head frame.now) frame.now state.now) }
{
    match state {
        ServiceState::Can(can) => send_by_can(journal, head, frame, can),
        ServiceState::Ethernet(_)
        | ServiceState::Lin(_)
        | ServiceState::Publisher(_)
        | ServiceState::Subscriber
        | ServiceState::Server(_)
        | ServiceState::Client(_) => Ok(refused(journal.alloc(), 1)),
    }
}

/// Sends a frame by this controller.
fn send_by_can(
    journal: &Journal,
    head: Head,
    frame: &CanFrame,
    can: &CanController,
) -> Result<Answer, WantOfMemory>
    requires mark { IsTrue (is_mark head.mark) }
    ensures { IfOk result (λ answer. outcome_by answer (states.Can can.now) ≡ can_sends (reached journal.now.setup journal.now.past) (contents.Can head frame.now) frame.now (states.Can can.now)) }
{
    let alloc = journal.alloc();
    match can.send(frame) {
        Ok(()) => {
            let told = frame.copy(alloc)?;
            let message = Message::can(head, told);
            let answer = sent(journal, message)?;
            Ok(answer)
        }
        Err(reason) => Ok(refused(alloc, can_code(reason))),
    }
}

/// The code of a refusal for this reason.
fn can_code(reason: CanRefused) -> u8
    ensures { result ≡ can_code reason }
{
    match reason {
        CanRefused::State(_) => 1,
        CanRefused::BadFrame(_) => 2,
    }
}

/// What a call of the controller comes to, by its answer.
fn turned(alloc: Global, answered: Result<(), CanRefused>) -> Answer
    ensures { (to : Option CanState) (from : CanState) (can after : Can) → answered ≡ answer to from → (to ≡ None → after ≡ can) → outcome_by result (states.Can after) ≡ turned (states.Can can) to after }
{
    match answered {
        Ok(()) => done(alloc),
        Err(_) => refused(alloc, 1),
    }
}
