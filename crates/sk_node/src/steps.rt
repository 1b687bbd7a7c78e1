//! Steps: their begin with the app's handler, and their end.

ghost use Rattle.std.specs.Prelude.{◌≡◌, ◌≤◌, ◌+◌, ◌^◌, ◌&&◌, not, Some, unwrap_or, IfSome, OnOk, OnErr};
ghost use Rattle.sk_law.specs.declared.made.Call.TheVariants as calls;
ghost use Rattle.sk_law.specs.Blocks.{complete, completes_ready, completes_step, end_blocking, end_open, end_step, is_number, may_end};
ghost use Rattle.sk_law.specs.Readings.{next_number, next_time, state_of};
ghost use Rattle.sk_law.specs.Rows.{row, Step};
ghost use Rattle.sk_node.specs.Calls.{Steps, StepsCut};
ghost use Rattle.sk_law.specs.Kept.{grown, IsCut};
ghost use Rattle.sk_node.specs.Lists.{IsQuiet};

use crate::app::App;
use crate::calls::begin;
use crate::puts::{announce, is_same};
use crate::states::start;
use sk_base::{SimTime, WantOfMemory};
use sk_law::{Begun, Journal, blocks_only_add, journals_go_by_entries};
use sk_msg::State;

/// One step size later; the same of one without steps.
#[tactic(auto, unfolding(sk_base::specs::Ranges::is_time, sk_msg::specs::Rules::is_step_size))]
fn behind(journal: &Journal, time: SimTime) -> SimTime
    requires early { time ≤ 2 ^ 61 }
    ensures { result ≡ time + unwrap_or journal.now.setup.step 0 }
{
    match journal.size() {
        Some(size) => time.plus(size).unwrap(),
        None => time,
    }
}

/// The time of the next step: 0, then a size later with each step.
fn next_time(journal: &Journal) -> SimTime
    ensures { result ≡ next_time (unwrap_or journal.now.setup.step 0) journal.now.past.journal }
{
    match journal.last_begun() {
        Some(step) => behind(journal, step.time),
        None => start(),
    }
}

/// Takes a step: it begins, the app's handler is called and what it asks for is answered, and a
/// blocking one ends.
pub fn take_step<A: App>(journal: &mut Journal, app: &mut A) -> Result<(), WantOfMemory>
    requires row { row journal.old.setup journal.old.past ≡ Some Step }
    ensures ok { OnOk result (Steps journal.old journal.new (calls.Step (next_number journal.old.past.journal) (next_time (unwrap_or journal.old.setup.step 0) journal.old.past.journal)) (A.lists app.old) (A.lists app.new)) }
    ensures err { OnErr result (StepsCut journal.old journal.new (calls.Step (next_number journal.old.past.journal) (next_time (unwrap_or journal.old.setup.step 0) journal.old.past.journal)) (A.lists app.old) (A.lists app.new)) }
    ensures origin { A.origin app.new ≡ A.origin app.old }
{
    blocks_only_add();
    let _limit = journal.limit();
    let number = journal.next_number();
    let at = next_time(journal);
    begin(journal, app, number, at)?;
    end_blocking(journal)?;
    Ok(())
}

/// Ends a blocking step, where it may.
fn end_blocking(journal: &mut Journal) -> Result<(), WantOfMemory>
    ensures ok { OnOk result (journal.new ≡ grown (end_blocking journal.old.setup journal.old.past) journal.old) }
    ensures err { OnErr result (IsCut journal.old journal.new (end_blocking journal.old.setup journal.old.past)) }
    ensures quiet { IsQuiet journal.old.past.journal journal.new.past.journal }
{
    if may_end_blocking(journal) {
        end_step(journal)?;
        return Ok(());
    }
    Ok(())
}

/// Whether its steps end by themselves, and may in this state.
fn may_end_blocking(journal: &Journal) -> bool
    ensures { result ≡ (not journal.now.setup.is_async && may_end (state_of journal.now.past.journal)) }
{
    !journal.setup().is_async && may_end(journal.state())
}

/// Whether a step may end in this state.
fn may_end(state: State) -> bool
    ensures { result ≡ may_end state }
{
    is_same(State::Running, state)
        || (is_same(State::Paused, state) || is_same(State::Stopping, state))
}

/// Ends the open step, and tells the peers the time of the next one.
#[tactic(auto, unfolding(sk_law::specs::Blocks::end_step))]
fn end_step(journal: &mut Journal) -> Result<(), WantOfMemory>
    ensures ok { OnOk result (journal.new ≡ grown (end_step journal.old.setup journal.old.past) journal.old) }
    ensures err { OnErr result (IsCut journal.old journal.new (end_step journal.old.setup journal.old.past)) }
    ensures quiet { IsQuiet journal.old.past.journal journal.new.past.journal }
{
    let open_step = journal.open_step();
    end_open(journal, open_step)?;
    Ok(())
}

/// The same of this open step.
fn end_open(journal: &mut Journal, open_step: Option<Begun>) -> Result<(), WantOfMemory>
    requires early { IfSome open_step (λ step. step.time ≤ 2 ^ 61) }
    ensures ok { OnOk result (journal.new ≡ grown (end_open journal.old.setup open_step journal.old.past) journal.old) }
    ensures err { OnErr result (IsCut journal.old journal.new (end_open journal.old.setup open_step journal.old.past)) }
    ensures quiet { IsQuiet journal.old.past.journal journal.new.past.journal }
{
    journals_go_by_entries();
    blocks_only_add();
    match open_step {
        Some(step) => {
            let next = behind(journal, step.time);
            journal.add_end(step.number)?;
            announce(journal, next)?;
            Ok(())
        }
        None => Ok(()),
    }
}

/// A completion of this number comes: Done where it fits, of a step with its End; else Stray.
#[tactic(auto, unfolding(sk_law::specs::Blocks::complete))]
pub fn complete(journal: &mut Journal, number: u64) -> Result<(), WantOfMemory>
    ensures ok { OnOk result (journal.new ≡ grown (complete journal.old.setup number journal.old.past) journal.old) }
    ensures err { OnErr result (IsCut journal.old journal.new (complete journal.old.setup number journal.old.past)) }
    ensures quiet { IsQuiet journal.old.past.journal journal.new.past.journal }
{
    journals_go_by_entries();
    blocks_only_add();
    if completes_ready(journal, number) {
        journal.add_done(number)?;
        return Ok(());
    }
    if completes_step(journal, number) {
        journal.add_done(number)?;
        end_step(journal)?;
        return Ok(());
    }
    journal.add_stray(number)?;
    Ok(())
}

/// Whether it is the first completion of the ready handler.
#[tactic(auto, unfolding(sk_law::specs::Blocks::completes_ready))]
fn completes_ready(journal: &Journal, number: u64) -> bool
    ensures { result ≡ completes_ready number journal.now.past }
{
    number == 0
        && (is_same(State::CommunicationInitialized, journal.state())
            && (journal.called() && !journal.has_completed_ready()))
}

/// Whether it completes the asynchronous step that is open, in a state in which that may end.
#[tactic(auto, unfolding(sk_law::specs::Blocks::completes_step))]
fn completes_step(journal: &Journal, number: u64) -> bool
    ensures { result ≡ completes_step journal.now.setup number journal.now.past }
{
    journal.setup().is_async && (is_number(journal.open_step(), number) && may_end(journal.state()))
}

/// Whether the step has this number.
fn is_number(step: Option<Begun>, number: u64) -> bool
    ensures { result ≡ is_number number step }
{
    match step {
        Some(step) => step.number == number,
        None => false,
    }
}
