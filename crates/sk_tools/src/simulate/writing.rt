//! The text of a run, written as it is made.

ghost use Rattle.std.specs.Prelude.{◌≡◌, ◌++◌, true, [], map, length, string_bytes, OnOk, IfErr, MatchResult};
ghost use Rattle.std.specs.List.{flat_map};
ghost use Rattle.sk_text.specs.Lines.{world_text, journal_lines, entry_line};
ghost use Rattle.sk_tools.specs.Outside.{IsPartWritten};
ghost use Rattle.sk_tools.specs.Pieces.{Sends, IsCutOff, CountsCut};

use crate::outside::PIECE;
use crate::outside::writing::write_all;
use sk_base::{Failed, Name, Sink, WantOfMemory};
use sk_msg::Entry;
use sk_text::{append_entry, append_head, append_journal_head};
use std::alloc::{AllocError, Global};

/// Why a text wasn't written to its end.
#[derive(Clone, Copy, Debug, PartialEq, Eq)]
pub enum Unwritten {
    /// A write failed.
    Fault,
    /// Memory ran out.
    WantOfMemory,
}

impl From<Failed> for Unwritten {
    ghost use Rattle.sk_tools.specs.declared.simulate.writing.Unwritten.TheVariants.{Fault};

    ghost from_gives = { λ _ why. why ≡ Fault };

    fn from(_error: Failed) -> Unwritten {
        Unwritten::Fault
    }
}

impl From<WantOfMemory> for Unwritten {
    ghost use Rattle.sk_tools.specs.declared.simulate.writing.Unwritten.TheVariants as why;

    ghost from_gives = { λ _ reason. reason ≡ why.WantOfMemory };

    fn from(_error: WantOfMemory) -> Unwritten {
        Unwritten::WantOfMemory
    }
}

/// Writes the text of these journals. At most 16,384 bytes and a line of it wait in memory at a time.
pub fn write_world<O: Sink>(
    alloc: Global,
    names: &[Name],
    journals: &[Vec<Entry>],
    out: &mut O,
) -> Result<(), Unwritten>
    ensures steady { OnOk result (O.faults out.new ≡ O.faults out.old) }
    ensures counts { IfErr result (CountsCut (O.faults out.old) (O.faults out.new)) }
    ensures tells { O.tells out.new ≡ O.tells out.old }
    ensures written { O.tells out.old ≡ true → MatchResult result
        (λ _. O.written out.new ≡ O.written out.old ++ world_text names.now (map (λ journal. journal.items) journals.now))
        (λ _. IsPartWritten (O.written out.old) (O.written out.new) (world_text names.now (map (λ journal. journal.items) journals.now))) }
{
    let mut text = String::new(alloc);
    append_head(alloc, &mut text, names)?;
    for (number, journal) in journals.iter().enumerate() {
        write_journal(alloc, number, journal, &mut text, out)?;
    }
    send(&mut text, out)?;
    out.flush()?;
    Ok(())
}

/// Writes a journal behind the text that waits, and leaves a part of it waiting.
fn write_journal<O: Sink>(
    alloc: Global,
    number: usize,
    journal: &[Entry],
    text: &mut String,
    out: &mut O,
) -> Result<(), Unwritten>
    ensures steady { OnOk result (O.faults out.new ≡ O.faults out.old) }
    ensures counts { IfErr result (CountsCut (O.faults out.old) (O.faults out.new)) }
    ensures tells { O.tells out.new ≡ O.tells out.old }
    ensures written { O.tells out.old ≡ true → MatchResult result
        (λ _. Sends (string_bytes text.old) (journal_lines number journal.now) (O.written out.old) (O.written out.new) (string_bytes text.new))
        (λ _. IsCutOff (string_bytes text.old) (journal_lines number journal.now) (O.written out.old) (O.written out.new)) }
{
    append_journal_head(alloc, text, number, journal.len())?;
    for entry in journal {
        write_entry(alloc, entry, text, out)?;
    }
    Ok(())
}

/// The same for an entry.
fn write_entry<O: Sink>(
    alloc: Global,
    entry: &Entry,
    text: &mut String,
    out: &mut O,
) -> Result<(), Unwritten>
    ensures steady { OnOk result (O.faults out.new ≡ O.faults out.old) }
    ensures counts { IfErr result (CountsCut (O.faults out.old) (O.faults out.new)) }
    ensures tells { O.tells out.new ≡ O.tells out.old }
    ensures written { O.tells out.old ≡ true → MatchResult result
        (λ _. Sends (string_bytes text.old) (entry_line entry.now) (O.written out.old) (O.written out.new) (string_bytes text.new))
        (λ _. IsCutOff (string_bytes text.old) (entry_line entry.now) (O.written out.old) (O.written out.new)) }
{
    append_entry(alloc, text, entry)?;
    if text.len() < PIECE {
        return Ok(());
    }
    send(text, out)?;
    Ok(())
}

/// Writes the text that waits.
fn send<O: Sink>(text: &mut String, out: &mut O) -> Result<(), Unwritten>
    ensures steady { OnOk result (O.faults out.new ≡ O.faults out.old) }
    ensures counts { IfErr result (CountsCut (O.faults out.old) (O.faults out.new)) }
    ensures tells { O.tells out.new ≡ O.tells out.old }
    ensures empty { OnOk result (string_bytes text.new ≡ []) }
    ensures written { O.tells out.old ≡ true → MatchResult result
        (λ _. O.written out.new ≡ O.written out.old ++ string_bytes text.old)
        (λ _. IsPartWritten (O.written out.old) (O.written out.new) (string_bytes text.old)) }
{
    write_all(out, text.as_bytes())?;
    text.clear();
    Ok(())
}
