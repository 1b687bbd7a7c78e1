//! Entries, and what is remembered besides.

ghost use Rattle.std.specs.Prelude.{◌≡◌, ◌<◌, ◌≤◌, ◌^◌, OnOk, OnErr};
ghost use Rattle.sk_msg.specs.declared.entry.Entry.TheVariants as entries;
ghost use Rattle.sk_law.specs.Past.{add};
ghost use Rattle.sk_law.specs.Lawful.{note_asked};
ghost use Rattle.sk_law.specs.Blocks.{with_pause, with_completed, called};
ghost use Rattle.sk_law.specs.declared.made.Call.TheVariants as calls;
ghost use Rattle.sk_law.specs.Kept.{grown};
ghost use Rattle.sk_law.specs.Tied.{IsPlain, all_of};

use crate::journal::Journal;
use crate::journals_go_by_entries;
use crate::line::let_wait;
use sk_base::{SimTime, WantOfMemory};
use sk_msg::{Entry, Message, State};

impl Journal {
    /// A state was entered.
    pub fn add_state(&mut self, to: State) -> Result<(), WantOfMemory>
        ensures ok { OnOk result (self.new ≡ grown (add (Entry.State to) self.old.past) self.old) }
        ensures err { OnErr result (self.new ≡ self.old) }
    {
        journals_go_by_entries();
        self.entries.push(Entry::State(to))?;
        self.tally = self.tally.after_state(to);
        self.view.note(self.setup.number, to);
        Ok(())
    }

    /// The state of the whole simulation changed.
    pub fn add_system(&mut self, to: State) -> Result<(), WantOfMemory>
        ensures ok { OnOk result (self.new ≡ grown (add (Entry.System to) self.old.past) self.old) }
        ensures err { OnErr result (self.new ≡ self.old) }
    {
        journals_go_by_entries();
        self.entries.push(Entry::System(to))?;
        self.tally = self.tally.after_system(to);
        Ok(())
    }

    /// The message was put to this number: it waits for that one, where there is one.
    pub fn put(&mut self, number: u32, message: &Message) -> Result<(), WantOfMemory>
        ensures ok { OnOk result (self.new ≡ grown (add (Entry.Put number message.now) self.old.past) self.old) }
        ensures err { OnErr result (self.new ≡ self.old) }
    {
        journals_go_by_entries();
        let kept = message.copy(self.alloc)?;
        let out = message.copy(self.alloc)?;
        self.entries.reserve(1)?;
        let tally = self.tally.after_put(number, message);
        let_wait(&mut self.lines, number, out)?;
        self.entries.push(Entry::Put(number, kept)).unwrap();
        self.tally = tally;
        Ok(())
    }

    /// The link of this number is gone.
    pub fn add_gone(&mut self, number: u32, reason: u8) -> Result<(), WantOfMemory>
        requires { number < all_of self.old.setup self.old.past.memory.tools }
        ensures ok { OnOk result (self.new ≡ grown (add (Entry.Gone number reason) self.old.past) self.old) }
        ensures err { OnErr result (self.new ≡ self.old) }
    {
        journals_go_by_entries();
        self.entries.push(Entry::Gone(number, reason))?;
        self.lines[number as usize].gone = true;
        Ok(())
    }

    /// A step began.
    pub fn add_begin(&mut self, number: u64, at: SimTime) -> Result<(), WantOfMemory>
        requires early { at ≤ 2 ^ 61 }
        requires small { number ≤ 2 ^ 63 }
        ensures ok { OnOk result (self.new ≡ grown (add (Entry.Begin number at) self.old.past) self.old) }
        ensures err { OnErr result (self.new ≡ self.old) }
    {
        journals_go_by_entries();
        self.entries.push(Entry::Begin(number, at))?;
        self.tally = self.tally.after_begin(number, at);
        Ok(())
    }

    /// The open step ended.
    pub fn add_end(&mut self, number: u64) -> Result<(), WantOfMemory>
        ensures ok { OnOk result (self.new ≡ grown (add (Entry.End number) self.old.past) self.old) }
        ensures err { OnErr result (self.new ≡ self.old) }
    {
        journals_go_by_entries();
        self.entries.push(Entry::End(number))?;
        self.tally = self.tally.after_end(number);
        Ok(())
    }

    /// The work of a step, or of 0 the ready handler, was completed.
    pub fn add_done(&mut self, number: u64) -> Result<(), WantOfMemory>
        ensures ok { OnOk result (self.new ≡ grown (add (Entry.Done number) self.old.past) self.old) }
        ensures err { OnErr result (self.new ≡ self.old) }
    {
        journals_go_by_entries();
        self.entries.push(Entry::Done(number))?;
        self.tally = self.tally.after_done(number);
        Ok(())
    }

    /// A completion came that doesn't fit.
    pub fn add_stray(&mut self, number: u64) -> Result<(), WantOfMemory>
        ensures ok { OnOk result (self.new ≡ grown (add (Entry.Stray number) self.old.past) self.old) }
        ensures err { OnErr result (self.new ≡ self.old) }
    {
        journals_go_by_entries();
        self.entries.push(Entry::Stray(number))?;
        Ok(())
    }

    /// An entry on which no counter hangs: Hand, Ask, Did or Fault.
    pub fn add_plain(&mut self, entry: Entry) -> Result<(), WantOfMemory>
        requires { IsPlain entry }
        ensures ok { OnOk result (self.new ≡ grown (add entry self.old.past) self.old) }
        ensures err { OnErr result (self.new ≡ self.old) }
    {
        journals_go_by_entries();
        self.entries.push(entry)?;
        Ok(())
    }

    /// This pause count runs, or none does.
    pub fn set_pause(&mut self, count: Option<u32>)
        ensures { self.new ≡ grown (with_pause count self.old.past) self.old }
    {
        self.memory.pause = count;
    }

    /// A caller has asked for a command.
    pub fn note_asked(&mut self)
        ensures { self.new ≡ grown (note_asked self.old.past) self.old }
    {
        self.memory.asked = true;
    }

    /// The ready handler was called.
    pub fn set_called(&mut self)
        ensures { self.new ≡ grown (called calls.Ready self.old.past) self.old }
    {
        self.memory.called = true;
        self.memory.ready_awaited = true;
    }

    /// A completion of this number came: nobody waits any more for that of the ready handler, where
    /// it is 0.
    pub fn set_completed(&mut self, number: u64)
        ensures { self.new ≡ grown (with_completed number self.old.past) self.old }
    {
        self.memory.ready_awaited = self.memory.ready_awaited && number != 0;
    }
}
