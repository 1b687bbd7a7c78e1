//! The numbers of a report's lines.

ghost use Rattle.std.specs.Prelude.{◌≡◌, ◌+◌, ◌≤◌, length, map, IfOk, OnOk};
ghost use Rattle.std.specs.List.{count_by};
ghost use Rattle.std.specs.String.{string_bytes};
ghost use Rattle.sk_report.specs.Contents.{is_shown};
ghost use Rattle.sk_report.specs.Groups.{messages_of};
ghost use Rattle.sk_report.specs.Totals.{count_line};

use crate::contents::is_shown;
use sk_base::WantOfMemory;
use sk_law::Visible;
use sk_msg::Message;
use std::alloc::Global;

/// How many lines there are of steps, of messages that were seen and of those that were sent.
#[derive(Clone, Copy, Debug, PartialEq, Eq)]
pub struct Totals {
    pub steps: u64,
    pub seen: u64,
    pub sent: u64,
}

impl Totals {
    /// No line yet.
    pub fn new() -> Totals
        ensures { result ≡ record { steps = 0; seen = 0; sent = 0 } }
    {
        Totals {
            steps: 0,
            seen: 0,
            sent: 0,
        }
    }

    /// One step more, with what it sees and what was sent in it. Want of memory is answered too
    /// where a number would be above 2^64 - 1: so many lines fit no memory.
    pub fn add_step(&mut self, seen: &[Visible], sent: &[&Message]) -> Result<(), WantOfMemory>
        ensures steps { OnOk result (self.new.steps ≡ self.old.steps + 1) }
        ensures seen { OnOk result (self.new.seen ≡ self.old.seen + count_by (λ item. is_shown item.message) seen.now) }
        ensures sent { OnOk result (self.new.sent ≡ self.old.sent + count_by is_shown (messages_of sent.now)) }
    {
        self.steps = sum(self.steps, 1)?;
        self.seen = sum(self.seen, count_seen(seen))?;
        self.sent = sum(self.sent, count_sent(sent))?;
        Ok(())
    }

    /// The line with these numbers.
    #[tactic(auto, unfolding(crate::specs::Totals::count_line))]
    pub fn line(&self, alloc: Global) -> Result<String, WantOfMemory>
        ensures { IfOk result (λ line. string_bytes line ≡ count_line self.now.steps self.now.seen self.now.sent) }
    {
        let Totals { steps, seen, sent } = *self;
        Ok(format!(in alloc; "steps {steps} saw {seen} sent {sent}\n")?)
    }
}

/// The sum of both, or want of memory above 2^64 - 1.
fn sum(count: u64, more: usize) -> Result<u64, WantOfMemory>
    ensures { IfOk result (λ sum. sum ≡ count + more) }
{
    count.checked_add(more as u64).ok_or(WantOfMemory)
}

/// How many of these are shown.
fn count_seen(seen: &[Visible]) -> usize
    ensures { result ≡ count_by (λ item. is_shown item.message) seen.now }
{
    let mut count = 0;
    for item in seen {
        if is_shown(item.message.content()) {
            count += 1;
        }
    }
    count
}

/// How many of these are shown.
fn count_sent(sent: &[&Message]) -> usize
    ensures { result ≡ count_by is_shown (messages_of sent.now) }
{
    sent.iter()
        .filter(|message| is_shown(message.content()))
        .count()
}
