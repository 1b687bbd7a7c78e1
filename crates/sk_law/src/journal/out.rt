//! What waits to be taken out.

ghost use Rattle.std.specs.Prelude.{◌≡◌, ◌+◌, ◌<◌, ◌≤◌, ◌==◌, not, false, Some, length, slice_get, slice_set, slice_index_or, IfSome, IfNone, OnSome};
ghost use Rattle.sk_law.specs.Readings.{put};

use crate::journal::Journal;
use sk_msg::Message;

impl Journal {
    /// The oldest message that waits for this number. It takes no memory.
    pub fn take_out(&mut self, number: u32) -> Option<Message>
        ensures some { IfSome result (λ message. slice_get (put self.old.past.journal number) (slice_index_or self.old.out number 0) ≡ Some message) }
        ensures there { OnSome result (number < length self.old.out) }
        ensures taken { OnSome result (self.new ≡ record self.old { out = slice_set self.old.out number (slice_index_or self.old.out number 0 + 1) }) }
        ensures none { IfNone result (self.new ≡ self.old) }
        ensures nothing { IfNone result (number < length self.old.out → slice_index_or self.old.out number 0 ≡ length (put self.old.past.journal number)) }
    {
        let line = self.lines.get_mut(number as usize)?;
        let message = line.waiting.pop()?;
        self.out[number as usize] += 1;
        Some(message)
    }

    /// Whether a message waits for this number.
    pub fn waits(&self, number: u32) -> bool
        ensures value { number < length self.now.out → result ≡ not (slice_index_or self.now.out number 0 == length (put self.now.past.journal number)) }
        ensures nobody { length self.now.out ≤ number → result ≡ false }
    {
        match self.lines.get(number as usize) {
            Some(line) => !line.waiting.is_empty(),
            None => false,
        }
    }
}
