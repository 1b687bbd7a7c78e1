//! Messages to many, and what is said of the system.

ghost use Rattle.std.specs.Prelude.{◌≡◌, OnOk, OnErr};
ghost use Rattle.sk_msg.specs.States.{is_state};
ghost use Rattle.sk_law.specs.Past.{put_each};
ghost use Rattle.sk_law.specs.Blocks.{announce, judge_system};
ghost use Rattle.sk_law.specs.Kept.{grown, IsCut};
ghost use Rattle.sk_node.specs.Lists.{IsQuiet};

use sk_base::{SimTime, WantOfMemory};
use sk_law::{Journal, blocks_only_add, journals_go_by_entries};
use sk_msg::{Message, State};

/// Puts the message to each of these.
pub fn put_all(
    journal: &mut Journal,
    numbers: &[u32],
    message: &Message,
) -> Result<(), WantOfMemory>
    ensures ok { OnOk result (journal.new ≡ grown (put_each numbers.now message.now journal.old.past) journal.old) }
    ensures err { OnErr result (IsCut journal.old journal.new (put_each numbers.now message.now journal.old.past)) }
    ensures quiet { IsQuiet journal.old.past.journal journal.new.past.journal }
{
    journals_go_by_entries();
    for number in numbers {
        journal.put(*number, message)?;
    }
    Ok(())
}

/// Adds System, where the system state isn't the one that stands last.
#[tactic(auto, unfolding(sk_law::specs::Blocks::judge_system))]
pub fn judge(journal: &mut Journal) -> Result<(), WantOfMemory>
    ensures ok { OnOk result (journal.new ≡ grown (judge_system journal.old.setup journal.old.past) journal.old) }
    ensures err { OnErr result (IsCut journal.old journal.new (judge_system journal.old.setup journal.old.past)) }
    ensures quiet { IsQuiet journal.old.past.journal journal.new.past.journal }
{
    journals_go_by_entries();
    blocks_only_add();
    let system = journal.system();
    let last = journal.system_told();
    if is_same(system, last) {
        return Ok(());
    }
    journal.add_system(system)?;
    Ok(())
}

/// Puts NextStep to each peer that isn't gone, of a synchronised participant.
pub fn announce(journal: &mut Journal, at: SimTime) -> Result<(), WantOfMemory>
    ensures ok { OnOk result (journal.new ≡ grown (announce journal.old.setup at journal.old.past) journal.old) }
    ensures err { OnErr result (IsCut journal.old journal.new (announce journal.old.setup at journal.old.past)) }
    ensures quiet { IsQuiet journal.old.past.journal journal.new.past.journal }
{
    blocks_only_add();
    match journal.size() {
        Some(size) => {
            let numbers = journal.reached()?;
            let message = Message::next_step(at, size);
            put_all(journal, &numbers, &message)?;
            Ok(())
        }
        None => Ok(()),
    }
}

/// Whether both are one state, as a test that contracts name.
#[tactic(auto, unfolding(sk_msg::specs::States::is_state))]
pub fn is_same(one: State, other: State) -> bool
    ensures { result ≡ is_state one other }
{
    one.number() == other.number()
}
