//! The lines of a report.

ghost use Rattle.std.specs.Prelude.{◌≡◌, ◌++◌, map, IfOk, OnOk};
ghost use Rattle.std.specs.List.{flat_map};
ghost use Rattle.std.specs.String.{string_bytes};
ghost use Rattle.sk_law.specs.Script.{delivered};
ghost use Rattle.sk_report.specs.Groups.{messages_of};
ghost use Rattle.sk_report.specs.Lines.{participant_line, step_line, saw_line, sent_line, sender_name, step_text};
ghost use Rattle.sk_msg.specs.Heads.{head_of};

use crate::contents::content_text;
use crate::names::Reported;
use sk_base::{SimTime, WantOfMemory};
use sk_law::Visible;
use sk_msg::Message;
use std::alloc::Global;

/// The line with a participant's number and name.
#[tactic(auto, unfolding(crate::specs::Lines::participant_line))]
pub fn participant_line(
    alloc: Global,
    number: usize,
    names: &Reported,
) -> Result<String, WantOfMemory>
    ensures { IfOk result (λ line. string_bytes line ≡ participant_line number names.now.name) }
{
    let name = names.name();
    Ok(format!(in alloc; "participant {number} {name}\n")?)
}

/// Appends the lines of a step: its number and time, what it sees and what was sent in it.
pub fn append_step(
    alloc: Global,
    text: &mut String,
    names: &Reported,
    number: usize,
    at: SimTime,
    seen: &[Visible],
    sent: &[&Message],
) -> Result<(), WantOfMemory>
    ensures { OnOk result (string_bytes text.new ≡ string_bytes text.old ++ step_text names.now number at (map delivered seen.now) (messages_of sent.now)) }
{
    let line = step_line(alloc, number, at)?;
    text.push_str(line.as_str())?;
    append_seen(alloc, text, names, seen)?;
    append_sent(alloc, text, names, sent)
}

/// The line with a step's number and its time.
#[tactic(auto, unfolding(crate::specs::Lines::step_line))]
fn step_line(alloc: Global, number: usize, at: SimTime) -> Result<String, WantOfMemory>
    ensures { IfOk result (λ line. string_bytes line ≡ step_line number at) }
{
    let at = at.ns();
    Ok(format!(in alloc; "step {number} {at}\n")?)
}

/// Appends the lines of messages that a step sees.
fn append_seen(
    alloc: Global,
    text: &mut String,
    names: &Reported,
    seen: &[Visible],
) -> Result<(), WantOfMemory>
    ensures { OnOk result (string_bytes text.new ≡ string_bytes text.old ++ flat_map (saw_line names.now) (map delivered seen.now)) }
{
    for item in seen {
        let line = saw_line(alloc, names, item)?;
        text.push_str(line.as_str())?;
    }
    Ok(())
}

/// The line of a message that a step sees; it is empty where the message isn't shown.
#[tactic(auto, unfolding(crate::specs::Lines::saw_text))]
fn saw_line(alloc: Global, names: &Reported, item: &Visible) -> Result<String, WantOfMemory>
    ensures { IfOk result (λ line. string_bytes line ≡ saw_line names.now (delivered item.now)) }
{
    match content_text(alloc, item.message.content())? {
        Some(content) => {
            let stamp = item.stamp.ns();
            let peer = item.peer;
            let name = names.service(item.service);
            Ok(format!(in alloc; "saw {stamp} {peer} {content} {name}\n")?)
        }
        None => Ok(String::new(alloc)),
    }
}

/// Appends the lines of messages that were sent in a step.
fn append_sent(
    alloc: Global,
    text: &mut String,
    names: &Reported,
    sent: &[&Message],
) -> Result<(), WantOfMemory>
    ensures { OnOk result (string_bytes text.new ≡ string_bytes text.old ++ flat_map (sent_line names.now) (messages_of sent.now)) }
{
    for message in sent {
        let line = sent_line(alloc, names, message)?;
        text.push_str(line.as_str())?;
    }
    Ok(())
}

/// The line of a message that was sent; it is empty where the message isn't shown.
#[tactic(auto, unfolding(crate::specs::Lines::sent_text))]
fn sent_line(alloc: Global, names: &Reported, message: &Message) -> Result<String, WantOfMemory>
    ensures { IfOk result (λ line. string_bytes line ≡ sent_line names.now message.now) }
{
    match content_text(alloc, message.content())? {
        Some(content) => {
            let name = sender_name(names, message);
            Ok(format!(in alloc; "sent {content} {name}\n")?)
        }
        None => Ok(String::new(alloc)),
    }
}

/// The name of the own service that sent a message; it is empty where there is none.
fn sender_name<'a>(names: &'a Reported, message: &Message) -> &'a str
    ensures { result.now ≡ sender_name names.now (head_of message.now) }
{
    match message.content().head() {
        Some(head) => names.service(head.service),
        None => "",
    }
}
