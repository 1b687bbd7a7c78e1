//! Messages by the number of a peer.

ghost use Rattle.std.specs.Prelude.{◌≡◌, ◌==◌, true, map, length, IfOk};
ghost use Rattle.std.specs.List.{list_all};
ghost use Rattle.sk_report.specs.Groups.{messages_of};

use crate::groups::MessageGroups;
use sk_base::WantOfMemory;
use sk_msg::Message;
use std::alloc::Global;

/// As many participants as a run has at most.
const MOST_PEERS: usize = 32;

/// Messages that were got, by the number of the peer, in the order in which they came. Those of the
/// numbers that a run has stand in a vector, so that to add one costs no look into a table.
#[derive(Drop)]
pub struct GotMessages<'a> {
    first: Vec<Vec<&'a Message>>,
    others: MessageGroups<'a>,
}

impl<'a> GotMessages<'a> {
    ghost use Rattle.std.specs.Prelude.{◌≡◌, ℕ, [], OnOk, IfOk, option_copied, slice_get};
    ghost use Rattle.sk_report.specs.Groups.{with_message};
    ghost use Rattle.sk_report.specs.Got.{got_at};

    /// No message yet.
    pub fn new(alloc: Global) -> Result<GotMessages<'a>, WantOfMemory>
        ensures { IfOk result (λ got. (peer : ℕ) → got_at got peer ≡ []) }
    {
        Ok(GotMessages {
            first: nothing(alloc)?,
            others: MessageGroups::new(alloc),
        })
    }

    /// One message more of this peer.
    pub fn add(
        &mut self,
        alloc: Global,
        peer: u32,
        message: &'a Message,
    ) -> Result<(), WantOfMemory>
        ensures { OnOk result ((other : ℕ) → got_at self.new other ≡ with_message peer message.now (got_at self.old) other) }
    {
        let index = peer as usize;
        if index < self.first.len() {
            self.first[index].push(message)?;
            return Ok(());
        }
        self.others.add(alloc, u64::from(peer), message)?;
        Ok(())
    }

    /// The message of this index of a peer, or None out of range.
    pub fn get(&self, peer: u32, index: usize) -> Option<&'a Message>
        ensures { option_copied result ≡ slice_get (got_at self.now peer) index }
    {
        match self.first.get(peer as usize) {
            Some(group) => group.get(index).copied(),
            None => self.others.get(u64::from(peer), index),
        }
    }
}

/// Nothing of each of the first numbers.
fn nothing<'a>(alloc: Global) -> Result<Vec<Vec<&'a Message>>, WantOfMemory>
    ensures { IfOk result (λ first. list_all (λ group. length group == 0) (map (λ group. messages_of group.items) first.items) ≡ true) }
{
    let mut first = Vec::with_capacity(alloc, MOST_PEERS)?;
    for _ in 0..MOST_PEERS {
        first.push(Vec::new(alloc))?;
    }
    Ok(first)
}
