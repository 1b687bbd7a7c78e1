//! Links that are lost.

ghost use Rattle.std.specs.Prelude.{◌≡◌, ◌<◌, OnOk, OnErr};
ghost use Rattle.sk_law.specs.Blocks.{lose};
ghost use Rattle.sk_node.specs.Lists.{Whole, Part};
ghost use Rattle.sk_law.specs.Tied.{all_of};

use crate::app::App;
use crate::states::enter_where;
use sk_base::WantOfMemory;
use sk_law::{Journal, blocks_only_add, journals_go_by_entries};
use sk_msg::State;

/// Notes that the link of a peer or a tool is gone; of a peer, enters Error where there is that edge.
#[tactic(auto, unfolding(sk_law::specs::Blocks::lose))]
pub fn lose<A: App>(
    journal: &mut Journal,
    app: &mut A,
    number: u32,
    reason: u8,
) -> Result<(), WantOfMemory>
    requires number { number < all_of journal.old.setup journal.old.past.memory.tools }
    ensures ok { OnOk result (Whole journal.old journal.new (lose journal.old.setup number reason journal.old.past) (A.lists app.old) (A.lists app.new)) }
    ensures err { OnErr result (Part journal.old journal.new (lose journal.old.setup number reason journal.old.past) (A.lists app.old) (A.lists app.new)) }
    ensures origin { A.origin app.new ≡ A.origin app.old }
{
    journals_go_by_entries();
    blocks_only_add();
    let is_peer = journal.is_peer(number);
    journal.add_gone(number, reason)?;
    if is_peer {
        enter_where(journal, app, State::Error)?;
    }
    Ok(())
}
