//! Commands, and what they lead to.

ghost use Rattle.std.specs.Prelude.{◌≡◌, ◌+◌, Some, IfOk, IsTrue, OnOk, OnErr};
ghost use Rattle.sk_msg.specs.Edges.{is_command};
ghost use Rattle.sk_msg.specs.Rules.{is_step_size, is_told};
ghost use Rattle.sk_msg.specs.declared.command.Command.TheVariants as commands;
ghost use Rattle.sk_law.specs.Readings.{state_of, next_time};
ghost use Rattle.sk_law.specs.Blocks.{ask, asked, count_down, pause_for, tell_abort, until_of};
ghost use Rattle.sk_law.specs.Kept.{grown, IsCut};
ghost use Rattle.sk_node.specs.Lists.{IsQuiet, Whole, Part};
ghost use Rattle.sk_node.specs.Verdicts.{verdict_of};

use crate::app::App;
use crate::puts::{is_same, put_all};
use crate::states::{enter, start};
use sk_base::{SimTime, WantOfMemory};
use sk_law::{Journal, blocks_only_add, journals_go_by_entries};
use sk_lifecycle::led_to;
use sk_msg::{Command, Entry, Message, State, Verdict};

/// The bound that an accepted command tells, in ns of virtual time: one behind the next step's time,
/// of a Stop of one that is coordinated and synchronised; else 0.
fn bound(journal: &Journal, command: Command) -> SimTime
    ensures { result ≡ until_of journal.now.setup command journal.now.past }
{
    match journal.size() {
        Some(size) => {
            if is_stop(command) && journal.setup().coordinated {
                behind_next(journal, size)
            } else {
                start()
            }
        }
        None => start(),
    }
}

fn is_stop(command: Command) -> bool
    ensures { result ≡ is_command commands.Stop command }
{
    matches!(command, Command::Stop)
}

fn is_abort(command: Command) -> bool
    ensures { result ≡ is_command commands.Abort command }
{
    matches!(command, Command::Abort)
}

/// One behind the next step's time, in ns of virtual time.
#[tactic(auto, unfolding(sk_base::specs::Ranges::is_time, sk_msg::specs::Rules::is_step_size))]
fn behind_next(journal: &Journal, size: u64) -> SimTime
    requires { IsTrue (is_step_size size) }
    ensures { result ≡ next_time size journal.now.past.journal + 1 }
{
    match journal.last_begun() {
        Some(step) => step.time.plus(size + 1).unwrap(),
        None => SimTime::new(1).unwrap(),
    }
}

/// Obeys an accepted command, which leads to this state.
fn obey<A: App>(
    journal: &mut Journal,
    app: &mut A,
    command: Command,
    to: State,
) -> Result<(), WantOfMemory>
    requires told { IsTrue (is_told to) }
    ensures ok { OnOk result (Whole journal.old journal.new (asked journal.old.setup command (Some to) journal.old.past) (A.lists app.old) (A.lists app.new)) }
    ensures err { OnErr result (Part journal.old journal.new (asked journal.old.setup command (Some to) journal.old.past) (A.lists app.old) (A.lists app.new)) }
    ensures origin { A.origin app.new ≡ A.origin app.old }
{
    journals_go_by_entries();
    blocks_only_add();
    let until = bound(journal, command);
    journal.set_pause(None);
    journal.add_plain(Entry::Ask(command, Verdict::Accepted))?;
    enter(journal, app, to, until)?;
    tell_abort(journal, command)?;
    Ok(())
}

/// Puts Abort to each peer that isn't gone, where it is that command.
fn tell_abort(journal: &mut Journal, command: Command) -> Result<(), WantOfMemory>
    ensures ok { OnOk result (journal.new ≡ grown (tell_abort journal.old.setup command journal.old.past) journal.old) }
    ensures err { OnErr result (IsCut journal.old journal.new (tell_abort journal.old.setup command journal.old.past)) }
    ensures quiet { IsQuiet journal.old.past.journal journal.new.past.journal }
{
    blocks_only_add();
    if is_abort(command) {
        let numbers = journal.reached()?;
        let abort = Message::abort();
        put_all(journal, &numbers, &abort)?;
        return Ok(());
    }
    Ok(())
}

/// Asks for a command, with its verdict and all that follows.
#[tactic(auto, unfolding(sk_law::specs::Blocks::ask))]
pub fn ask<A: App>(
    journal: &mut Journal,
    app: &mut A,
    command: Command,
) -> Result<Verdict, WantOfMemory>
    ensures ok { OnOk result (Whole journal.old journal.new (ask journal.old.setup command journal.old.past) (A.lists app.old) (A.lists app.new)) }
    ensures verdict { IfOk result (λ verdict. verdict ≡ verdict_of (state_of journal.old.past.journal) command) }
    ensures err { OnErr result (Part journal.old journal.new (ask journal.old.setup command journal.old.past) (A.lists app.old) (A.lists app.new)) }
    ensures origin { A.origin app.new ≡ A.origin app.old }
{
    journals_go_by_entries();
    blocks_only_add();
    let state = journal.state();
    match led_to(state, command) {
        Some(to) => {
            obey(journal, app, command, to)?;
            Ok(Verdict::Accepted)
        }
        None => {
            journal.add_plain(Entry::Ask(command, Verdict::Refused(state)))?;
            Ok(Verdict::Refused(state))
        }
    }
}

/// Asks Pause of itself; where that is accepted, a count of turns begins, at least 1.
#[tactic(auto, unfolding(sk_law::specs::Blocks::pause_for))]
pub fn pause<A: App>(journal: &mut Journal, app: &mut A, count: u32) -> Result<(), WantOfMemory>
    ensures ok { OnOk result (Whole journal.old journal.new (pause_for journal.old.setup count journal.old.past) (A.lists app.old) (A.lists app.new)) }
    ensures err { OnErr result (Part journal.old journal.new (pause_for journal.old.setup count journal.old.past) (A.lists app.old) (A.lists app.new)) }
    ensures origin { A.origin app.new ≡ A.origin app.old }
{
    let runs = is_same(State::Running, journal.state());
    ask(journal, app, Command::Pause)?;
    if runs {
        journal.set_pause(Some(count.max(1)));
    }
    Ok(())
}

/// A turn of a pause of so many turns: at the last it asks Continue of itself.
#[tactic(auto, unfolding(sk_law::specs::Blocks::count_down))]
pub fn count_down<A: App>(
    journal: &mut Journal,
    app: &mut A,
    count: u32,
) -> Result<(), WantOfMemory>
    ensures ok { OnOk result (Whole journal.old journal.new (count_down journal.old.setup count journal.old.past) (A.lists app.old) (A.lists app.new)) }
    ensures err { OnErr result (Part journal.old journal.new (count_down journal.old.setup count journal.old.past) (A.lists app.old) (A.lists app.new)) }
    ensures origin { A.origin app.new ≡ A.origin app.old }
{
    if count <= 1 {
        ask(journal, app, Command::Continue)?;
        return Ok(());
    }
    journal.set_pause(Some(count - 1));
    Ok(())
}
