//! What was sent in each step of a journal.

ghost use Rattle.std.specs.Prelude.{◌≡◌, ℕ, [], ◌∷◌, ◌++◌, OnOk, IfOk, option_copied};
ghost use Rattle.std.specs.List.{filter_map};
ghost use Rattle.sk_law.specs.Script.{sent_in};
ghost use Rattle.sk_report.specs.Groups.{messages_at, message_sent};

use crate::groups::MessageGroups;
use sk_base::WantOfMemory;
use sk_msg::{Entry, Message, Sent};
use std::alloc::Global;

/// What was sent in each step of a journal, by the step's number.
pub fn sent_by_step(alloc: Global, journal: &[Entry]) -> Result<MessageGroups<'_>, WantOfMemory>
    ensures { IfOk result (λ sent. (step : ℕ) → messages_at sent step ≡ filter_map (sent_in step) journal.now) }
{
    let mut sent = MessageGroups::new(alloc);
    for entry in journal {
        note_sent(alloc, &mut sent, entry)?;
    }
    Ok(sent)
}

/// What was sent by this entry comes under the number of its step.
fn note_sent<'a>(
    alloc: Global,
    sent: &mut MessageGroups<'a>,
    entry: &'a Entry,
) -> Result<(), WantOfMemory>
    ensures { OnOk result ((step : ℕ) → messages_at sent.new step ≡ messages_at sent.old step ++ filter_map (sent_in step) (entry.now ∷ [])) }
{
    let Some(message) = message_sent(entry) else {
        return Ok(());
    };
    match message.content().head() {
        Some(head) => sent.add(alloc, head.mark, message),
        None => Ok(()),
    }
}

/// The message that was sent by this entry.
fn message_sent(entry: &Entry) -> Option<&Message>
    ensures { option_copied result ≡ message_sent entry.now }
{
    match entry {
        Entry::Did(_, _, sent) => sent.as_ref().map(Sent::message),
        Entry::Got(..)
        | Entry::Put(..)
        | Entry::Hand { .. }
        | Entry::State(_)
        | Entry::System(_)
        | Entry::Begin(..)
        | Entry::Done(_)
        | Entry::End(_)
        | Entry::Ask(..)
        | Entry::Gone(..)
        | Entry::Stray(_)
        | Entry::Fault(_) => None,
    }
}
