//! Faults, and the limits of a journal.

ghost use Rattle.std.specs.Prelude.{◌≡◌, OnOk, OnErr};
ghost use Rattle.sk_law.specs.Blocks.{fault, judge_limits};
ghost use Rattle.sk_node.specs.Lists.{Whole, Part};

use crate::app::App;
use crate::states::enter_where;
use sk_base::WantOfMemory;
use sk_law::{Journal, blocks_only_add, journals_go_by_entries};
use sk_lifecycle::has_edge;
use sk_msg::{Entry, State};

/// Notes a fault, and enters Error where there is that edge.
pub fn fail<A: App>(journal: &mut Journal, app: &mut A, number: u8) -> Result<(), WantOfMemory>
    ensures ok { OnOk result (Whole journal.old journal.new (fault journal.old.setup number journal.old.past) (A.lists app.old) (A.lists app.new)) }
    ensures err { OnErr result (Part journal.old journal.new (fault journal.old.setup number journal.old.past) (A.lists app.old) (A.lists app.new)) }
    ensures origin { A.origin app.new ≡ A.origin app.old }
{
    journals_go_by_entries();
    blocks_only_add();
    journal.add_plain(Entry::Fault(number))?;
    enter_where(journal, app, State::Error)?;
    Ok(())
}

/// Fails where the journal has become too long or too heavy.
#[tactic(auto, unfolding(sk_law::specs::Blocks::judge_limits))]
pub fn limit<A: App>(journal: &mut Journal, app: &mut A) -> Result<(), WantOfMemory>
    ensures ok { OnOk result (Whole journal.old journal.new (judge_limits journal.old.setup journal.old.past) (A.lists app.old) (A.lists app.new)) }
    ensures err { OnErr result (Part journal.old journal.new (judge_limits journal.old.setup journal.old.past) (A.lists app.old) (A.lists app.new)) }
    ensures origin { A.origin app.new ≡ A.origin app.old }
{
    if !has_edge(journal.state(), State::Error) {
        return Ok(());
    }
    if journal.is_long() {
        fail(journal, app, 3)?;
        return Ok(());
    }
    if journal.is_heavy() {
        fail(journal, app, 4)?;
        return Ok(());
    }
    Ok(())
}
