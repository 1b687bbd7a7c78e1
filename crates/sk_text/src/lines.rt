//! The line of an entry.

ghost use Rattle.std.specs.Prelude.{◌≡◌, ◌++◌, IfOk, OnOk, OnErr};
ghost use Rattle.std.specs.String.{string_bytes};
ghost use Rattle.sk_text.specs.Lines.{entry_line, ask_line, message_hex, sent_hex};

use crate::words::{command_name, kind_name};
use sk_base::WantOfMemory;
use sk_msg::{Command, Entry, Message, Sent, Verdict};
use std::alloc::Global;

/// Appends the line of an entry, with its newline. After want of memory nothing has changed.
pub fn append_entry(alloc: Global, text: &mut String, entry: &Entry) -> Result<(), WantOfMemory>
    ensures ok { OnOk result (string_bytes text.new ≡ string_bytes text.old ++ entry_line entry.now) }
    ensures same { OnErr result (string_bytes text.new ≡ string_bytes text.old) }
{
    let line = entry_line(alloc, entry)?;
    text.push_str(line.as_str())?;
    Ok(())
}

/// The line of an entry, with its newline.
#[tactic(auto, unfolding(crate::specs::Lines::entry_line))]
pub fn entry_line(alloc: Global, entry: &Entry) -> Result<String, WantOfMemory>
    ensures { IfOk result (λ line. string_bytes line ≡ entry_line entry.now) }
{
    match entry {
        Entry::Got(peer, message) => {
            let kind = kind_name(message.content());
            let hex = message_hex(alloc, message)?;
            Ok(format!(in alloc; "got {peer} {kind} {hex}\n")?)
        }
        Entry::Put(peer, message) => {
            let kind = kind_name(message.content());
            let hex = message_hex(alloc, message)?;
            Ok(format!(in alloc; "put {peer} {kind} {hex}\n")?)
        }
        Entry::Hand {
            peer,
            place,
            service,
        } => Ok(format!(in alloc; "hand {peer} {place} {service}\n")?),
        Entry::State(state) => Ok(format!(in alloc; "state {state}\n")?),
        Entry::System(state) => Ok(format!(in alloc; "system {state}\n")?),
        Entry::Begin(step, at) => {
            let at = at.ns();
            Ok(format!(in alloc; "begin {step} {at}\n")?)
        }
        Entry::Done(step) => Ok(format!(in alloc; "done {step}\n")?),
        Entry::End(step) => Ok(format!(in alloc; "end {step}\n")?),
        Entry::Ask(command, verdict) => ask_line(alloc, *command, *verdict),
        Entry::Gone(peer, reason) => Ok(format!(in alloc; "gone {peer} {reason}\n")?),
        Entry::Stray(number) => Ok(format!(in alloc; "stray {number}\n")?),
        Entry::Did(service, code, sent) => {
            let hex = sent_hex(alloc, sent)?;
            Ok(format!(in alloc; "did {service} {code} {hex}\n")?)
        }
        Entry::Fault(limit) => Ok(format!(in alloc; "fault {limit}\n")?),
    }
}

/// What was asked, and the answer.
#[tactic(auto, unfolding(crate::specs::Lines::ask_line))]
fn ask_line(alloc: Global, command: Command, verdict: Verdict) -> Result<String, WantOfMemory>
    ensures { IfOk result (λ line. string_bytes line ≡ ask_line command verdict) }
{
    let command = command_name(command);
    match verdict {
        Verdict::Accepted => Ok(format!(in alloc; "ask {command} accepted\n")?),
        Verdict::Refused(state) => Ok(format!(in alloc; "ask {command} refused {state}\n")?),
    }
}

/// The spelling of the message that was sent, or `-` where there is none.
#[tactic(auto, unfolding(crate::specs::Lines::sent_hex))]
fn sent_hex(alloc: Global, sent: &Option<Sent>) -> Result<String, WantOfMemory>
    ensures { IfOk result (λ hex. string_bytes hex ≡ sent_hex sent.now) }
{
    match sent {
        Some(sent) => message_hex(alloc, sent.message()),
        None => Ok(String::from_str(alloc, "-")?),
    }
}

/// The spelling of a message in lower-case hexadecimal.
#[tactic(auto, unfolding(crate::specs::Lines::message_hex))]
fn message_hex(alloc: Global, message: &Message) -> Result<String, WantOfMemory>
    ensures { IfOk result (λ hex. string_bytes hex ≡ message_hex message.now) }
{
    let mut bytes = Vec::new(alloc);
    sk_wire::encode(message, &mut bytes)?;
    Ok(hex::encode(alloc, bytes)?)
}
