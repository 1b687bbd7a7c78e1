//! The answers to what the app asks for.

ghost use Rattle.std.specs.Prelude.{◌≡◌, ◌<◌, ◌≤◌, ◌+◌, ◌^◌, IsTrue, length, IfOk, IfSome, IfNone, OnOk, OnErr};
ghost use Rattle.sk_law.specs.declared.memory.ServiceState.TheVariants as states;
ghost use Rattle.sk_law.specs.Blocks.{answer, answers, answered, did, over_after, put_some};
ghost use Rattle.sk_law.specs.Counted.{are_calls, calls_made};
ghost use Rattle.sk_law.specs.Kept.{grown, IsCut};
ghost use Rattle.sk_law.specs.Outcomes.{named, outcome, refused};
ghost use Rattle.sk_node.specs.Acting.{comes_to, outcome_by};
ghost use Rattle.sk_node.specs.Lists.{IsQuiet, Whole, Part};

use crate::app::App;
use crate::commands::{ask, pause};
use crate::limits::fail;
use crate::puts::put_all;
use crate::services::{Answer, act};
use sk_base::WantOfMemory;
use sk_law::{Journal, Outbox, ServiceState, blocks_only_add, journals_go_by_entries};
use sk_msg::{Action, Message, Sent};

/// The own service that an action names; 0 of a command, which names none.
fn named(action: &Action) -> u32
    ensures { result ≡ named action.now }
{
    match action {
        Action::CanBaud(service, _) => *service,
        Action::CanStart(service) => *service,
        Action::CanStop(service) => *service,
        Action::CanReset(service) => *service,
        Action::CanSleep(service) => *service,
        Action::CanSend(service, _) => *service,
        Action::EthActivate(service) => *service,
        Action::EthDeactivate(service) => *service,
        Action::EthSend(service, _) => *service,
        Action::LinInit(service, _) => *service,
        Action::LinSetResponse(service, _) => *service,
        Action::LinHeader(service, _) => *service,
        Action::LinSendFrame(service, _) => *service,
        Action::LinSleep(service) => *service,
        Action::LinWakeup(service) => *service,
        Action::Publish(service, _) => *service,
        Action::Call(service, _) => *service,
        Action::Submit { service, .. } => *service,
        Action::Ask(_) => 0,
        Action::PauseFor(_) => 0,
    }
}

/// An action is refused, since there is no such service: nothing is sent, and the code is 1.
fn refuse<A: App>(journal: &mut Journal, app: &mut A, service: u32) -> Result<(), WantOfMemory>
    ensures ok { OnOk result (Whole journal.old journal.new (did service (refused 1 states.Subscriber) journal.old.past) (A.lists app.old) (A.lists app.new)) }
    ensures err { OnErr result (Part journal.old journal.new (did service (refused 1 states.Subscriber) journal.old.past) (A.lists app.old) (A.lists app.new)) }
    ensures origin { A.origin app.new ≡ A.origin app.old }
{
    journals_go_by_entries();
    blocks_only_add();
    journal.add_did(service, 1, None, ServiceState::Subscriber)?;
    app.on_answer(service, 1)?;
    Ok(())
}

/// The message that an action sends, as its entry has it.
fn as_sent(journal: &Journal, message: &Option<Message>) -> Result<Option<Sent>, WantOfMemory>
    ensures { IfOk result (λ sent. sent ≡ message.now) }
{
    match message {
        Some(message) => {
            let copy = message.copy(journal.alloc())?;
            let sent = Sent::new(journal.alloc(), copy)?;
            Ok(Some(sent))
        }
        None => Ok(None),
    }
}

/// The message, where there is one, is put to each of these.
fn put_some(
    journal: &mut Journal,
    to: &[u32],
    message: &Option<Message>,
) -> Result<(), WantOfMemory>
    ensures ok { OnOk result (journal.new ≡ grown (put_some to.now message.now journal.old.past) journal.old) }
    ensures err { OnErr result (IsCut journal.old journal.new (put_some to.now message.now journal.old.past)) }
    ensures quiet { IsQuiet journal.old.past.journal journal.new.past.journal }
{
    match message {
        Some(message) => {
            put_all(journal, to, message)?;
            Ok(())
        }
        None => Ok(()),
    }
}

/// An action came to this, and its service is at this state from now on: Did, then the Puts of what
/// is sent, and the app is told.
fn conclude<A: App>(
    journal: &mut Journal,
    app: &mut A,
    service: u32,
    answer: &Answer,
    state: ServiceState,
) -> Result<(), WantOfMemory>
    requires counted { calls_made state ≤ length journal.old.past.journal + 1 }
    requires calls { IsTrue (are_calls state) }
    ensures ok { OnOk result (Whole journal.old journal.new (did service (outcome_by answer.now state) journal.old.past) (A.lists app.old) (A.lists app.new)) }
    ensures err { OnErr result (Part journal.old journal.new (did service (outcome_by answer.now state) journal.old.past) (A.lists app.old) (A.lists app.new)) }
    ensures origin { A.origin app.new ≡ A.origin app.old }
{
    journals_go_by_entries();
    blocks_only_add();
    let sent = as_sent(journal, &answer.message)?;
    journal.add_did(service, answer.code, sent, state)?;
    put_some(journal, answer.to.as_slice(), &answer.message)?;
    app.on_answer(service, answer.code)?;
    Ok(())
}

/// An action on an own service, whose state was taken out, is carried out and answered.
fn carry_out_at<A: App>(
    journal: &mut Journal,
    app: &mut A,
    action: &Action,
    service: u32,
    state: ServiceState,
) -> Result<(), WantOfMemory>
    requires service { service ≡ named action.now }
    requires few { calls_made state < 2 ^ 63 }
    requires counted { calls_made state ≤ length journal.old.past.journal }
    requires calls { IsTrue (are_calls state) }
    ensures ok { OnOk result (Whole journal.old journal.new (did (named action.now) (comes_to journal.old.setup journal.old.past action.now state) journal.old.past) (A.lists app.old) (A.lists app.new)) }
    ensures err { OnErr result (Part journal.old journal.new (did (named action.now) (comes_to journal.old.setup journal.old.past action.now state) journal.old.past) (A.lists app.old) (A.lists app.new)) }
    ensures origin { A.origin app.new ≡ A.origin app.old }
{
    blocks_only_add();
    match outcome(journal, action, service, state)? {
        Some((answer, state)) => {
            conclude(journal, app, service, &answer, state)?;
            Ok(())
        }
        None => {
            refuse(journal, app, service)?;
            Ok(())
        }
    }
}

/// What an action comes to, and what its service, which was at this state, is at then. None where
/// there is no such service.
fn outcome(
    journal: &Journal,
    action: &Action,
    service: u32,
    mut state: ServiceState,
) -> Result<Option<(Answer, ServiceState)>, WantOfMemory>
    requires service { service ≡ named action.now }
    requires few { calls_made state < 2 ^ 63 }
    requires calls { IsTrue (are_calls state) }
    ensures some { IfOk result (λ found. IfSome found (λ p. outcome_by p.0 p.1 ≡ comes_to journal.now.setup journal.now.past action.now state)) }
    ensures none { IfOk result (λ found. IfNone found (refused 1 states.Subscriber ≡ comes_to journal.now.setup journal.now.past action.now state)) }
    ensures counted { IfOk result (λ found. IfSome found (λ p. calls_made p.1 ≤ calls_made state + 1)) }
    ensures calls { IfOk result (λ found. IfSome found (λ p. IsTrue (are_calls p.1))) }
{
    match journal.own(service) {
        Some(own) => {
            let head = journal.head(service);
            let answer = act(journal, own, head, action, &mut state)?;
            Ok(Some((answer, state)))
        }
        None => Ok(None),
    }
}

/// An action on an own service is carried out and answered; where there is none, it is refused.
fn carry_out<A: App>(
    journal: &mut Journal,
    app: &mut A,
    action: &Action,
) -> Result<(), WantOfMemory>
    ensures ok { OnOk result (Whole journal.old journal.new (did (named action.now) (outcome journal.old.setup journal.old.past action.now) journal.old.past) (A.lists app.old) (A.lists app.new)) }
    ensures err { OnErr result (Part journal.old journal.new (did (named action.now) (outcome journal.old.setup journal.old.past action.now) journal.old.past) (A.lists app.old) (A.lists app.new)) }
    ensures origin { A.origin app.new ≡ A.origin app.old }
{
    blocks_only_add();
    let service = named(action);
    let taken = journal.take_state(service);
    match taken {
        Some(state) => {
            carry_out_at(journal, app, action, service, state)?;
            Ok(())
        }
        None => {
            refuse(journal, app, service)?;
            Ok(())
        }
    }
}

/// One action is answered.
#[tactic(auto, unfolding(sk_law::specs::Blocks::answer))]
fn answer<A: App>(journal: &mut Journal, app: &mut A, action: &Action) -> Result<(), WantOfMemory>
    ensures ok { OnOk result (Whole journal.old journal.new (answer journal.old.setup journal.old.past action.now) (A.lists app.old) (A.lists app.new)) }
    ensures err { OnErr result (Part journal.old journal.new (answer journal.old.setup journal.old.past action.now) (A.lists app.old) (A.lists app.new)) }
    ensures origin { A.origin app.new ≡ A.origin app.old }
{
    match action {
        Action::Ask(command) => {
            ask(journal, app, *command)?;
            Ok(())
        }
        Action::PauseFor(count) => {
            pause(journal, app, *count)?;
            Ok(())
        }
        Action::CanBaud(_, _)
        | Action::CanStart(_)
        | Action::CanStop(_)
        | Action::CanReset(_)
        | Action::CanSleep(_)
        | Action::CanSend(_, _)
        | Action::EthActivate(_)
        | Action::EthDeactivate(_)
        | Action::EthSend(_, _)
        | Action::LinInit(_, _)
        | Action::LinSetResponse(_, _)
        | Action::LinHeader(_, _)
        | Action::LinSendFrame(_, _)
        | Action::LinSleep(_)
        | Action::LinWakeup(_)
        | Action::Publish(_, _)
        | Action::Call(_, _)
        | Action::Submit { .. } => {
            carry_out(journal, app, action)?;
            Ok(())
        }
    }
}

/// These actions are answered, in order.
fn answer_each<A: App>(
    journal: &mut Journal,
    app: &mut A,
    actions: &[Action],
) -> Result<(), WantOfMemory>
    ensures ok { OnOk result (Whole journal.old journal.new (answers journal.old.setup actions.now journal.old.past) (A.lists app.old) (A.lists app.new)) }
    ensures err { OnErr result (Part journal.old journal.new (answers journal.old.setup actions.now journal.old.past) (A.lists app.old) (A.lists app.new)) }
    ensures origin { A.origin app.new ≡ A.origin app.old }
{
    blocks_only_add();
    for action in actions {
        answer(journal, app, action)?;
    }
    Ok(())
}

/// The fault of a callback that tried a 257th action.
fn fail_over<A: App>(journal: &mut Journal, app: &mut A, over: bool) -> Result<(), WantOfMemory>
    ensures ok { OnOk result (Whole journal.old journal.new (over_after journal.old.setup over journal.old.past) (A.lists app.old) (A.lists app.new)) }
    ensures err { OnErr result (Part journal.old journal.new (over_after journal.old.setup over journal.old.past) (A.lists app.old) (A.lists app.new)) }
    ensures origin { A.origin app.new ≡ A.origin app.old }
{
    if over {
        fail(journal, app, 2)?;
    }
    Ok(())
}

/// All that one call asked for is answered.
pub fn answer_all<A: App>(
    journal: &mut Journal,
    app: &mut A,
    out: &Outbox,
) -> Result<(), WantOfMemory>
    ensures ok { OnOk result (Whole journal.old journal.new (answered journal.old.setup out.now.actions out.now.over journal.old.past) (A.lists app.old) (A.lists app.new)) }
    ensures err { OnErr result (Part journal.old journal.new (answered journal.old.setup out.now.actions out.now.over journal.old.past) (A.lists app.old) (A.lists app.new)) }
    ensures origin { A.origin app.new ≡ A.origin app.old }
{
    blocks_only_add();
    let actions = out.actions();
    answer_each(journal, app, actions)?;
    let over = out.is_over();
    fail_over(journal, app, over)?;
    Ok(())
}
