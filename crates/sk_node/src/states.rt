//! The block of a state.

ghost use Rattle.std.specs.Prelude.{◌≡◌, IsTrue, OnOk, OnErr};
ghost use Rattle.sk_msg.specs.Rules.{is_told};
ghost use Rattle.sk_msg.specs.States.{is_state};
ghost use Rattle.sk_msg.specs.declared.state.State.TheVariants as states;
ghost use Rattle.sk_msg.specs.declared.entry.Entry.TheVariants.{State as Entered};
ghost use Rattle.sk_law.specs.Readings.{state_of};
ghost use Rattle.sk_law.specs.Links.{told};
ghost use Rattle.sk_law.specs.Told.{notices_by, notice_before};
ghost use Rattle.sk_law.specs.Blocks.{is_first_run, behind, enter_only, enter_until, enter_if};
ghost use Rattle.sk_law.specs.Kept.{grown, IsCut};
ghost use Rattle.sk_node.specs.Lists.{IsQuiet, Whole, Part};
ghost use Rattle.sk_node.specs.Notified.{with_notices, NotifiedPart};

use crate::app::App;
use crate::puts::{announce, is_same, judge, put_all};
use sk_base::{SimTime, WantOfMemory};
use sk_law::{Journal, blocks_only_add, journals_go_by_entries};
use sk_lifecycle::has_edge;
use sk_msg::Message;
use sk_msg::State::{
    self, Aborting, CommunicationInitialized, CommunicationInitializing, Error, Invalid, Paused,
    ReadyToRun, Running, ServicesCreated, Shutdown, ShuttingDown, Stopped, Stopping,
};

/// Tells the app that it stops, shuts down or is aborted, where that comes before the state.
fn notify_before<A: App>(app: &mut A, last: State, to: State) -> Result<(), WantOfMemory>
    ensures ok { OnOk result (A.lists app.new ≡ with_notices (notice_before last to) (A.lists app.old)) }
    ensures err { OnErr result (NotifiedPart (notice_before last to) (A.lists app.old) (A.lists app.new)) }
    ensures origin { A.origin app.new ≡ A.origin app.old }
{
    match to {
        Stopped => {
            app.on_stop()?;
            Ok(())
        }
        Shutdown => notify_end(app, last),
        Invalid
        | ServicesCreated
        | CommunicationInitializing
        | CommunicationInitialized
        | ReadyToRun
        | Running
        | Paused
        | Stopping
        | Error
        | ShuttingDown
        | Aborting => Ok(()),
    }
}

/// The same of Shutdown.
fn notify_end<A: App>(app: &mut A, last: State) -> Result<(), WantOfMemory>
    ensures ok { OnOk result (A.lists app.new ≡ with_notices (notice_before last states.Shutdown) (A.lists app.old)) }
    ensures err { OnErr result (NotifiedPart (notice_before last states.Shutdown) (A.lists app.old) (A.lists app.new)) }
    ensures origin { A.origin app.new ≡ A.origin app.old }
{
    match last {
        ShuttingDown => {
            app.on_shutdown()?;
            Ok(())
        }
        Aborting => {
            app.on_abort()?;
            Ok(())
        }
        Invalid
        | ServicesCreated
        | CommunicationInitializing
        | CommunicationInitialized
        | ReadyToRun
        | Running
        | Paused
        | Stopping
        | Stopped
        | Error
        | Shutdown => Ok(()),
    }
}

/// Tells the app the state, and before it that it stops, shuts down or is aborted.
fn notify<A: App>(app: &mut A, last: State, to: State) -> Result<(), WantOfMemory>
    ensures ok { OnOk result (A.lists app.new ≡ with_notices (notices_by last (Entered to)) (A.lists app.old)) }
    ensures err { OnErr result (NotifiedPart (notices_by last (Entered to)) (A.lists app.old) (A.lists app.new)) }
    ensures origin { A.origin app.new ≡ A.origin app.old }
{
    notify_before(app, last, to)?;
    app.on_state(to)?;
    Ok(())
}

/// Enters the state, puts its Status to each of these, and judges the system.
fn enter_alone<A: App>(
    journal: &mut Journal,
    app: &mut A,
    numbers: &[u32],
    to: State,
    until: SimTime,
) -> Result<(), WantOfMemory>
    requires told { IsTrue (is_told to) }
    requires numbers { numbers.now ≡ told journal.old.setup journal.old.past }
    ensures ok { OnOk result (Whole journal.old journal.new (enter_only journal.old.setup to until journal.old.past) (A.lists app.old) (A.lists app.new)) }
    ensures err { OnErr result (Part journal.old journal.new (enter_only journal.old.setup to until journal.old.past) (A.lists app.old) (A.lists app.new)) }
    ensures origin { A.origin app.new ≡ A.origin app.old }
{
    journals_go_by_entries();
    blocks_only_add();
    let last = journal.state();
    journal.add_state(to)?;
    notify(app, last, to)?;
    let status = Message::status(to, until);
    put_all(journal, numbers, &status)?;
    judge(journal)?;
    Ok(())
}

/// What stands behind a state: Leave behind Shutdown, the first NextStep behind the first Running.
fn go_behind(
    journal: &mut Journal,
    numbers: &[u32],
    to: State,
    is_first: bool,
) -> Result<(), WantOfMemory>
    ensures ok { OnOk result (journal.new ≡ grown (behind journal.old.setup to is_first numbers.now journal.old.past) journal.old) }
    ensures err { OnErr result (IsCut journal.old journal.new (behind journal.old.setup to is_first numbers.now journal.old.past)) }
    ensures quiet { IsQuiet journal.old.past.journal journal.new.past.journal }
{
    if is_same(Shutdown, to) {
        let leave = Message::leave();
        put_all(journal, numbers, &leave)?;
        return Ok(());
    }
    if is_first {
        announce(journal, start())?;
        return Ok(());
    }
    Ok(())
}

/// The start of virtual time.
#[tactic(auto, unfolding(sk_base::specs::Ranges::is_time))]
pub fn start() -> SimTime
    ensures { result ≡ 0 }
{
    SimTime::new(0).unwrap()
}

/// Whether Running is entered for the first time.
fn is_first_run(journal: &Journal, to: State) -> bool
    ensures { result ≡ is_first_run to journal.now.past.journal }
{
    is_same(Running, to) && !journal.has_run()
}

/// Enters the state, with all that follows it.
pub fn enter<A: App>(
    journal: &mut Journal,
    app: &mut A,
    to: State,
    until: SimTime,
) -> Result<(), WantOfMemory>
    requires told { IsTrue (is_told to) }
    ensures ok { OnOk result (Whole journal.old journal.new (enter_until journal.old.setup to until journal.old.past) (A.lists app.old) (A.lists app.new)) }
    ensures err { OnErr result (Part journal.old journal.new (enter_until journal.old.setup to until journal.old.past) (A.lists app.old) (A.lists app.new)) }
    ensures origin { A.origin app.new ≡ A.origin app.old }
{
    blocks_only_add();
    let numbers = journal.told()?;
    let is_first = is_first_run(journal, to);
    enter_alone(journal, app, &numbers, to, until)?;
    go_behind(journal, &numbers, to, is_first)?;
    Ok(())
}

/// Enters the state where there is an edge to it.
#[tactic(auto, unfolding(sk_law::specs::Blocks::enter_if))]
pub fn enter_where<A: App>(
    journal: &mut Journal,
    app: &mut A,
    to: State,
) -> Result<(), WantOfMemory>
    ensures ok { OnOk result (Whole journal.old journal.new (enter_if journal.old.setup to journal.old.past) (A.lists app.old) (A.lists app.new)) }
    ensures err { OnErr result (Part journal.old journal.new (enter_if journal.old.setup to journal.old.past) (A.lists app.old) (A.lists app.new)) }
    ensures origin { A.origin app.new ≡ A.origin app.old }
{
    if has_edge(journal.state(), to) {
        let until = start();
        enter(journal, app, to, until)?;
    }
    Ok(())
}
