//! The text of a world.

ghost use Rattle.std.specs.Prelude.{◌≡◌, ◌++◌, map, IfOk, OnOk, OnErr};
ghost use Rattle.std.specs.String.{string_bytes};
ghost use Rattle.std.specs.List.{flat_map};
ghost use Rattle.sk_text.specs.Lines.{entry_line, world_line, participant_line, head_lines, journal_head, world_text};

use crate::lines::append_entry;
use sk_base::{Name, WantOfMemory};
use sk_msg::Entry;
use std::alloc::Global;

/// Appends how many participants there are, and a line for each. After want of memory nothing has
/// changed.
pub fn append_head(alloc: Global, text: &mut String, names: &[Name]) -> Result<(), WantOfMemory>
    ensures ok { OnOk result (string_bytes text.new ≡ string_bytes text.old ++ head_lines names.now) }
    ensures same { OnErr result (string_bytes text.new ≡ string_bytes text.old) }
{
    let head = head_lines(alloc, names)?;
    text.push_str(head.as_str())?;
    Ok(())
}

/// Appends the line before a journal: whose it is, and how many entries follow. After want of
/// memory nothing has changed.
#[tactic(auto, unfolding(crate::specs::Lines::journal_head))]
pub fn append_journal_head(
    alloc: Global,
    text: &mut String,
    number: usize,
    count: usize,
) -> Result<(), WantOfMemory>
    ensures ok { OnOk result (string_bytes text.new ≡ string_bytes text.old ++ journal_head number count) }
    ensures same { OnErr result (string_bytes text.new ≡ string_bytes text.old) }
{
    let line = format!(in alloc; "journal {number} {count}\n")?;
    text.push_str(line.as_str())?;
    Ok(())
}

/// The text of a whole world: its participants, and the journal of each.
pub fn world_text(
    alloc: Global,
    names: &[Name],
    journals: &[Vec<Entry>],
) -> Result<String, WantOfMemory>
    ensures { IfOk result (λ text. string_bytes text ≡ world_text names.now (map (λ journal. journal.items) journals.now)) }
{
    let mut text = head_lines(alloc, names)?;
    for (number, journal) in journals.iter().enumerate() {
        append_journal_head(alloc, &mut text, number, journal.len())?;
        append_entries(alloc, &mut text, journal)?;
    }
    Ok(text)
}

/// How many participants there are, and a line for each.
#[tactic(auto, unfolding(crate::specs::Lines::world_line))]
fn head_lines(alloc: Global, names: &[Name]) -> Result<String, WantOfMemory>
    ensures { IfOk result (λ head. string_bytes head ≡ head_lines names.now) }
{
    let count = names.len();
    let mut head = format!(in alloc; "world {count}\n")?;
    for (number, name) in names.iter().enumerate() {
        let line = participant_line(alloc, number, name)?;
        head.push_str(line.as_str())?;
    }
    Ok(head)
}

/// The line of one participant.
#[tactic(auto, unfolding(crate::specs::Lines::participant_line))]
fn participant_line(alloc: Global, number: usize, name: &Name) -> Result<String, WantOfMemory>
    ensures { IfOk result (λ line. string_bytes line ≡ participant_line number name.now) }
{
    let name = name.as_str();
    Ok(format!(in alloc; "participant {number} {name}\n")?)
}

/// Appends the lines of these entries; after want of memory, of some of the first.
fn append_entries(alloc: Global, text: &mut String, entries: &[Entry]) -> Result<(), WantOfMemory>
    ensures ok { OnOk result (string_bytes text.new ≡ string_bytes text.old ++ flat_map entry_line entries.now) }
{
    for entry in entries {
        append_entry(alloc, text, entry)?;
    }
    Ok(())
}
