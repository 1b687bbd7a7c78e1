//! One thing that happens, behind which the limits are judged.

ghost use Rattle.std.specs.Prelude.{◌≡◌, ◌<◌, Some, [], IsTrue, IfOk, OnOk, OnErr};
ghost use Rattle.sk_msg.specs.Rules.{is_told};
ghost use Rattle.sk_msg.specs.declared.command.Command.TheVariants as commands;
ghost use Rattle.sk_law.specs.Blocks.{ask, enter, count_down, judge_limits, lose};
ghost use Rattle.sk_law.specs.Lawful.{note_asked};
ghost use Rattle.sk_law.specs.Links.{is_open};
ghost use Rattle.sk_law.specs.Readings.{state_of};
ghost use Rattle.sk_law.specs.Rows.{row};
ghost use Rattle.sk_law.specs.Rows as law;
ghost use Rattle.sk_node.specs.Lists.{Whole, Part};
ghost use Rattle.sk_node.specs.Takes.{Takes, TakesCut};
ghost use Rattle.sk_node.specs.Turning.{law_row, is_out, is_all_out, are_all_away, is_finished, answer_of, rest_of, RowWent, RowCut, Turns};
ghost use Rattle.sk_node.specs.Verdicts.{verdict_of};

use crate::app::App;
use crate::limits::limit;
use crate::puts::is_same;
use crate::rows::{Row, Turned, next_row};
use crate::states::{enter, start};
use crate::{calls, commands, losses, receive, steps};
use sk_base::WantOfMemory;
use sk_law::{Journal, blocks_only_add, turns_come_to_an_end};
use sk_msg::{Command, Message, State, Verdict};

/// A message is got.
pub fn take<A: App>(
    journal: &mut Journal,
    app: &mut A,
    peer: u32,
    message: Message,
) -> Result<(), WantOfMemory>
    requires is_open { IsTrue (is_open journal.old.setup journal.old.past peer) }
    ensures ok { OnOk result (Takes journal.old journal.new peer message (A.lists app.old) (A.lists app.new)) }
    ensures err { OnErr result (TakesCut journal.old journal.new peer message (A.lists app.old) (A.lists app.new)) }
    ensures origin { A.origin app.new ≡ A.origin app.old }
{
    blocks_only_add();
    receive::get(journal, app, peer, message)?;
    limit(journal, app)?;
    Ok(())
}

/// A link is lost.
pub fn lose<A: App>(
    journal: &mut Journal,
    app: &mut A,
    peer: u32,
    reason: u8,
) -> Result<(), WantOfMemory>
    requires is_open { IsTrue (is_open journal.old.setup journal.old.past peer) }
    ensures ok { OnOk result (Whole journal.old journal.new (judge_limits journal.old.setup (lose journal.old.setup peer reason journal.old.past)) (A.lists app.old) (A.lists app.new)) }
    ensures err { OnErr result (Part journal.old journal.new (judge_limits journal.old.setup (lose journal.old.setup peer reason journal.old.past)) (A.lists app.old) (A.lists app.new)) }
    ensures origin { A.origin app.new ≡ A.origin app.old }
{
    blocks_only_add();
    losses::lose(journal, app, peer, reason)?;
    limit(journal, app)?;
    Ok(())
}

/// A caller asks for a command.
pub fn ask<A: App>(
    journal: &mut Journal,
    app: &mut A,
    command: Command,
) -> Result<Verdict, WantOfMemory>
    ensures ok { OnOk result (Whole journal.old journal.new (judge_limits journal.old.setup (ask journal.old.setup command (note_asked journal.old.past))) (A.lists app.old) (A.lists app.new)) }
    ensures verdict { IfOk result (λ verdict. verdict ≡ verdict_of (state_of journal.old.past.journal) command) }
    ensures err { OnErr result (Part journal.old journal.new (judge_limits journal.old.setup (ask journal.old.setup command (note_asked journal.old.past))) (A.lists app.old) (A.lists app.new)) }
    ensures origin { A.origin app.new ≡ A.origin app.old }
{
    blocks_only_add();
    journal.note_asked();
    let verdict = commands::ask(journal, app, command)?;
    limit(journal, app)?;
    Ok(verdict)
}

/// One turn.
pub fn turn<A: App>(journal: &mut Journal, app: &mut A) -> Result<Turned, WantOfMemory>
    ensures turned { IfOk result (λ turned. Turns turned journal.old journal.new (A.lists app.old) (A.lists app.new)) }
    ensures err { OnErr result (RowCut journal.old journal.new (A.lists app.old) (A.lists app.new)) }
    ensures origin { A.origin app.new ≡ A.origin app.old }
{
    match next_row(journal) {
        Some(row) => {
            blocks_only_add();
            turns_come_to_an_end();
            let before = journal.entries().len();
            act(journal, app, row)?;
            let after = journal.entries().len();
            Ok(turned_by(row, after - before))
        }
        None => Ok(rest(journal)),
    }
}

/// The answer where this row added so many entries.
fn turned_by(row: Row, entries: usize) -> Turned
    ensures { result ≡ answer_of row entries }
{
    match row {
        Row::Count(_) if entries == 0 => Turned::Counted,
        _ => Turned::Entries(entries),
    }
}

/// The answer where no row is enabled.
fn rest(journal: &Journal) -> Turned
    ensures { result ≡ rest_of journal.now }
{
    if is_finished(journal) {
        Turned::Finished
    } else {
        Turned::Quiet
    }
}

/// Whether it is at its end.
#[tactic(auto, unfolding(crate::specs::Turning::is_finished, sk_msg::specs::States::is_state))]
fn is_finished(journal: &Journal) -> bool
    ensures { result ≡ is_finished journal.now }
{
    is_same(State::Shutdown, journal.state()) && is_all_out(journal) && are_all_away(journal)
}

/// Whether nothing waits to be taken out.
fn is_all_out(journal: &Journal) -> bool
    ensures { result ≡ is_all_out journal.now }
{
    (0..journal.numbers()).all(|number| is_out(journal, number))
}

/// Whether nothing waits for this number.
fn is_out(journal: &Journal, number: u32) -> bool
    ensures { result ≡ is_out journal.now number }
{
    !journal.waits(number)
}

/// Whether each peer has left or is gone.
fn are_all_away(journal: &Journal) -> bool
    ensures { result ≡ are_all_away journal.now.setup journal.now.past }
{
    (0..journal.participants()).all(|number| !journal.is_open(number))
}

/// The row that comes next is done.
pub fn act<A: App>(journal: &mut Journal, app: &mut A, next: Row) -> Result<(), WantOfMemory>
    requires row { row journal.old.setup journal.old.past ≡ Some (law_row next) }
    ensures ok { OnOk result (RowWent (law_row next) journal.old journal.new (A.lists app.old) (A.lists app.new)) }
    ensures err { OnErr result (RowCut journal.old journal.new (A.lists app.old) (A.lists app.new)) }
    ensures origin { A.origin app.new ≡ A.origin app.old }
{
    match next {
        Row::Move(to) => go_on(journal, app, to),
        Row::Ready => ready(journal, app),
        Row::Step => step(journal, app),
        Row::Count(count) => count_down(journal, app, count),
        Row::GiveUp => give_up(journal, app),
    }
}

/// The chain goes on to this state.
fn go_on<A: App>(journal: &mut Journal, app: &mut A, to: State) -> Result<(), WantOfMemory>
    requires row { row journal.old.setup journal.old.past ≡ Some (law.Move to) }
    ensures ok { OnOk result (RowWent (law.Move to) journal.old journal.new (A.lists app.old) (A.lists app.new)) }
    ensures err { OnErr result (RowCut journal.old journal.new (A.lists app.old) (A.lists app.new)) }
    ensures origin { A.origin app.new ≡ A.origin app.old }
{
    blocks_only_add();
    let until = start();
    enter(journal, app, to, until)?;
    limit(journal, app)?;
    Ok(())
}

/// The ready handler is called.
fn ready<A: App>(journal: &mut Journal, app: &mut A) -> Result<(), WantOfMemory>
    requires row { row journal.old.setup journal.old.past ≡ Some law.Ready }
    ensures ok { OnOk result (RowWent law.Ready journal.old journal.new (A.lists app.old) (A.lists app.new)) }
    ensures err { OnErr result (RowCut journal.old journal.new (A.lists app.old) (A.lists app.new)) }
    ensures origin { A.origin app.new ≡ A.origin app.old }
{
    blocks_only_add();
    calls::ready(journal, app)?;
    limit(journal, app)?;
    Ok(())
}

/// A step begins.
fn step<A: App>(journal: &mut Journal, app: &mut A) -> Result<(), WantOfMemory>
    requires row { row journal.old.setup journal.old.past ≡ Some law.Step }
    ensures ok { OnOk result (RowWent law.Step journal.old journal.new (A.lists app.old) (A.lists app.new)) }
    ensures err { OnErr result (RowCut journal.old journal.new (A.lists app.old) (A.lists app.new)) }
    ensures origin { A.origin app.new ≡ A.origin app.old }
{
    blocks_only_add();
    steps::take_step(journal, app)?;
    limit(journal, app)?;
    Ok(())
}

/// A pause count of so many turns goes down.
fn count_down<A: App>(journal: &mut Journal, app: &mut A, count: u32) -> Result<(), WantOfMemory>
    requires row { row journal.old.setup journal.old.past ≡ Some (law.Count count) }
    ensures ok { OnOk result (RowWent (law.Count count) journal.old journal.new (A.lists app.old) (A.lists app.new)) }
    ensures err { OnErr result (RowCut journal.old journal.new (A.lists app.old) (A.lists app.new)) }
    ensures origin { A.origin app.new ≡ A.origin app.old }
{
    blocks_only_add();
    commands::count_down(journal, app, count)?;
    limit(journal, app)?;
    Ok(())
}

/// It asks Abort of itself.
fn give_up<A: App>(journal: &mut Journal, app: &mut A) -> Result<(), WantOfMemory>
    requires row { row journal.old.setup journal.old.past ≡ Some law.GiveUp }
    ensures ok { OnOk result (RowWent law.GiveUp journal.old journal.new (A.lists app.old) (A.lists app.new)) }
    ensures err { OnErr result (RowCut journal.old journal.new (A.lists app.old) (A.lists app.new)) }
    ensures origin { A.origin app.new ≡ A.origin app.old }
{
    blocks_only_add();
    commands::ask(journal, app, Command::Abort)?;
    limit(journal, app)?;
    Ok(())
}
