//! What a participant does by itself next.

ghost use Rattle.std.specs.Prelude.{◌≡◌, ◌&&◌, not, true, Some, IsTrue, IfSome};
ghost use Rattle.std.specs.Bool.{then_some};
ghost use Rattle.std.specs.Option.{option_map, option_or};
ghost use Rattle.sk_msg.specs.Rules.{is_step_size};
ghost use Rattle.sk_msg.specs.declared.state.State.TheVariants as states;
ghost use Rattle.sk_law.specs.Links.{knows_all, all_announced, all_reached};
ghost use Rattle.sk_law.specs.Readings.{state_of, next_time};
ghost use Rattle.sk_law.specs.Rows.{row, row_in, is_ready, is_done, is_at_limit, may_begin, may_begin_by};
ghost use Rattle.sk_law.specs.Rows as law;
ghost use Rattle.sk_node.specs.Turning.{is_small, law_row};

use sk_base::SimTime;
use sk_law::Journal;
use sk_msg::State::{
    self, Aborting, CommunicationInitialized, CommunicationInitializing, Error, Invalid, Paused,
    ReadyToRun, Running, ServicesCreated, Shutdown, ShuttingDown, Stopped, Stopping,
};

/// The one thing that a participant does by itself in a turn.
#[derive(Clone, Copy, Debug, PartialEq, Eq)]
pub enum Row {
    /// The chain goes on to this state.
    Move(State),
    /// The ready handler is called.
    Ready,
    /// A step begins.
    Step,
    /// A pause count of so many turns goes down.
    Count(u32),
    /// It asks Abort of itself.
    GiveUp,
}

/// What a turn did.
#[derive(Clone, Copy, Debug, PartialEq, Eq)]
pub enum Turned {
    /// So many entries came. None came only where the ready handler was called and asked for nothing.
    Entries(usize),
    /// A pause count went down, and nothing else.
    Counted,
    /// Nothing comes next by itself, and it isn't at its end.
    Quiet,
    /// It is at its end: Shutdown, each peer has left or is gone, and nothing waits to be taken out.
    Finished,
}

/// What comes next by itself, or None where nothing does. It costs at most a few looks at each of
/// the others.
#[tactic(auto, unfolding(sk_law::specs::Rows::row))]
pub fn next_row(journal: &Journal) -> Option<Row>
    ensures small { IfSome result (λ row. is_small row ≡ true) }
    ensures row { option_map law_row result ≡ row journal.now.setup journal.now.past }
{
    row_in(journal, journal.state())
}

/// The same in this state.
fn row_in(journal: &Journal, state: State) -> Option<Row>
    ensures small { IfSome result (λ row. is_small row ≡ true) }
    ensures row { option_map law_row result ≡ row_in journal.now.setup journal.now.past state }
{
    match state {
        ServicesCreated => go_on(is_known(journal), CommunicationInitializing),
        CommunicationInitializing => go_on(journal.knows_services(), CommunicationInitialized),
        CommunicationInitialized => ready_row(journal),
        ReadyToRun => go_on(journal.all_reached(ReadyToRun), Running),
        Running => running_row(journal),
        Paused => count_row(journal.pause()),
        Stopping => go_on(journal.open_step().is_none(), Stopped),
        Stopped => go_on(journal.all_reached(Stopped), ShuttingDown),
        Error => give_up(journal.has_tool()),
        ShuttingDown => go_on(true, Shutdown),
        Aborting => go_on(true, Shutdown),
        Invalid | Shutdown => None,
    }
}

/// On to this state, where it may.
fn go_on(may: bool, to: State) -> Option<Row>
    ensures small { IfSome result (λ row. is_small row ≡ true) }
    ensures row { option_map law_row result ≡ then_some may (law.Move to) }
{
    if may { Some(Row::Move(to)) } else { None }
}

/// Whether all others are known, and those that are required are as far as ServicesCreated.
fn is_known(journal: &Journal) -> bool
    ensures { result ≡ (knows_all journal.now.setup journal.now.past && all_reached journal.now.setup journal.now.past states.ServicesCreated) }
{
    journal.knows_all() && journal.all_reached(ServicesCreated)
}

/// In CommunicationInitialized: the ready handler, once, and then on.
fn ready_row(journal: &Journal) -> Option<Row>
    ensures small { IfSome result (λ row. is_small row ≡ true) }
    ensures row { option_map law_row result ≡ row_in journal.now.setup journal.now.past states.CommunicationInitialized }
{
    if !journal.called() {
        return Some(Row::Ready);
    }
    go_on(is_ready(journal), ReadyToRun)
}

/// Whether the ready handler is done, and those that are required are as far.
fn is_ready(journal: &Journal) -> bool
    ensures { result ≡ (is_ready journal.now.setup journal.now.past && all_reached journal.now.setup journal.now.past states.CommunicationInitialized) }
{
    journal.called()
        && (!journal.setup().ready_async || journal.has_completed_ready())
        && journal.all_reached(CommunicationInitialized)
}

/// In Running.
#[tactic(auto, unfolding(sk_law::specs::Rows::may_begin))]
fn running_row(journal: &Journal) -> Option<Row>
    ensures small { IfSome result (λ row. is_small row ≡ true) }
    ensures row { option_map law_row result ≡ row_in journal.now.setup journal.now.past states.Running }
{
    match journal.size() {
        Some(size) => step_row(journal, size),
        None => go_on(journal.are_others_done(), Stopping),
    }
}

/// In Running, of one that takes steps of this size: no step begins at the limit or later.
fn step_row(journal: &Journal, size: u64) -> Option<Row>
    requires size { IsTrue (is_step_size size) }
    ensures small { IfSome result (λ row. is_small row ≡ true) }
    ensures row { option_map law_row result ≡ option_or (then_some (is_at_limit journal.now.setup journal.now.past size) (law.Move states.Stopping))
        (then_some (may_begin_by journal.now.setup journal.now.past (Some size)) law.Step) }
{
    if journal.open_step().is_some() {
        return None;
    }
    let at = next_time(journal, size);
    if journal.limit() <= at.ns() {
        return Some(Row::Move(Stopping));
    }
    if all_let_begin(journal, at) {
        Some(Row::Step)
    } else {
        None
    }
}

/// Whether all others are known, and none of them may still say something before this time.
fn all_let_begin(journal: &Journal, at: SimTime) -> bool
    ensures { result ≡ (knows_all journal.now.setup journal.now.past && all_announced journal.now.setup journal.now.past at) }
{
    journal.knows_all() && journal.all_announced(at)
}

/// The time of the next step: 0, then a size later with each step.
#[tactic(auto, unfolding(sk_base::specs::Ranges::is_time, sk_msg::specs::Rules::is_step_size))]
fn next_time(journal: &Journal, size: u64) -> SimTime
    requires size { IsTrue (is_step_size size) }
    ensures { result ≡ next_time size journal.now.past.journal }
{
    match journal.last_begun() {
        Some(step) => step.time.plus(size).unwrap(),
        None => SimTime::new(0).unwrap(),
    }
}

/// In Paused, with the pause count that runs.
fn count_row(pause: Option<u32>) -> Option<Row>
    ensures small { IfSome result (λ row. is_small row ≡ true) }
    ensures row { option_map law_row result ≡ option_map (λ count. law.Count count) pause }
{
    match pause {
        Some(count) => Some(Row::Count(count)),
        None => None,
    }
}

/// In Error: without a tool that could ask it, it asks Abort of itself.
fn give_up(has_tool: bool) -> Option<Row>
    ensures small { IfSome result (λ row. is_small row ≡ true) }
    ensures row { option_map law_row result ≡ then_some (not has_tool) law.GiveUp }
{
    if has_tool { None } else { Some(Row::GiveUp) }
}
