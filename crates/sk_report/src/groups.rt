//! Messages by a number.

ghost use Rattle.std.specs.Prelude.{◌≡◌, []};

use sk_base::WantOfMemory;
use sk_msg::Message;
use std::alloc::Global;
use std::collections::HashMap;

/// Messages, each under a number, in the order in which they came. To add a message and to look up
/// a number take constant time.
#[derive(Drop)]
pub struct MessageGroups<'a> {
    messages: HashMap<u64, Vec<&'a Message>>,
    /// What there is under a number without messages.
    none: Vec<&'a Message>,
    ghost is_none: { none.items ≡ [] },
}

impl<'a> MessageGroups<'a> {
    ghost use Rattle.std.specs.Prelude.{◌≡◌, ℕ, [], OnOk, option_copied, slice_get};
    ghost use Rattle.sk_report.specs.Groups.{messages_of, messages_at, with_message};

    /// No message yet.
    pub fn new(alloc: Global) -> MessageGroups<'a>
        ensures { (number : ℕ) → messages_at result number ≡ [] }
    {
        MessageGroups {
            messages: HashMap::new(alloc),
            none: Vec::new(alloc),
        }
    }

    /// One message more under this number.
    pub fn add(
        &mut self,
        alloc: Global,
        number: u64,
        message: &'a Message,
    ) -> Result<(), WantOfMemory>
        ensures { OnOk result ((other : ℕ) → messages_at self.new other ≡ with_message number message.now (messages_at self.old) other) }
    {
        self.messages
            .entry(number)?
            .or_insert(Vec::new(alloc))
            .push(message)?;
        Ok(())
    }

    /// The messages under this number.
    pub fn of(&self, number: u64) -> &[&'a Message]
        ensures { messages_of result.now ≡ messages_at self.now number }
    {
        match self.messages.get(&number) {
            Some(group) => group.as_slice(),
            None => self.none.as_slice(),
        }
    }

    /// The message of this index under this number, or None out of range.
    pub fn get(&self, number: u64, index: usize) -> Option<&'a Message>
        ensures { option_copied result ≡ slice_get (messages_at self.now number) index }
    {
        match self.messages.get(&number) {
            Some(group) => group.get(index).copied(),
            None => None,
        }
    }
}
