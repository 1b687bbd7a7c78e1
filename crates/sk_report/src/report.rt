//! The report of a run.

ghost use Rattle.std.specs.Prelude.{◌≡◌, ◌+◌, ◌++◌, length, map, IfOk, OnOk};
ghost use Rattle.std.specs.String.{string_bytes};
ghost use Rattle.sk_law.specs.Script.{steps_of};
ghost use Rattle.sk_report.specs.Lines.{participant_lines, steps_lines};
ghost use Rattle.sk_report.specs.Report.{report};
ghost use Rattle.sk_report.specs.Totals.{totals_line, CountSteps};

use crate::lines::{append_step, participant_line};
use crate::names::Reported;
use crate::sent::sent_by_step;
use crate::totals::Totals;
use crate::walk::{Walk, begun};
use sk_base::WantOfMemory;
use sk_msg::Entry;
use std::alloc::Global;

/// The report of participants and their journals, both in the order of their numbers. A journal
/// without a participant is told under an empty name; a participant without a journal isn't told.
pub fn report_text(
    alloc: Global,
    participants: &[Reported],
    journals: &[Vec<Entry>],
) -> Result<String, WantOfMemory>
    ensures { IfOk result (λ text. string_bytes text ≡ report participants.now (map (λ journal. steps_of journal.items) journals.now)) }
{
    let nobody = Reported::nobody(alloc);
    let mut text = String::new(alloc);
    let mut totals = Totals::new();
    for (number, journal) in journals.iter().enumerate() {
        let names = participants.get(number).unwrap_or(&nobody);
        let line = participant_line(alloc, number, names)?;
        text.push_str(line.as_str())?;
        append_steps(alloc, &mut text, &mut totals, names, journal)?;
    }
    let line = totals.line(alloc)?;
    text.push_str(line.as_str())?;
    Ok(text)
}

/// The last line of the report alone: the numbers of its other lines.
pub fn totals_text(alloc: Global, journals: &[Vec<Entry>]) -> Result<String, WantOfMemory>
    ensures { IfOk result (λ text. string_bytes text ≡ totals_line (map (λ journal. steps_of journal.items) journals.now)) }
{
    let mut totals = Totals::new();
    for journal in journals {
        count_steps(alloc, &mut totals, journal)?;
    }
    totals.line(alloc)
}

/// Appends the lines of the steps of a journal, and counts them.
fn append_steps(
    alloc: Global,
    text: &mut String,
    totals: &mut Totals,
    names: &Reported,
    journal: &[Entry],
) -> Result<(), WantOfMemory>
    ensures text { OnOk result (string_bytes text.new ≡ string_bytes text.old ++ steps_lines names.now 1 (steps_of journal.now)) }
    ensures totals { OnOk result (CountSteps (steps_of journal.now) totals.old totals.new) }
{
    let by_step = sent_by_step(alloc, journal)?;
    let mut walk = Walk::new(alloc)?;
    let mut number = 0;
    for entry in journal {
        if let Some(step) = begun(entry) {
            let seen = walk.seen(step.time);
            let sent = by_step.of(step.number);
            number += 1;
            append_step(alloc, text, names, number, step.time, seen, sent)?;
            totals.add_step(seen, sent)?;
        }
        walk.note(alloc, entry)?;
    }
    Ok(())
}

/// Counts the steps of a journal, and what they see and send.
fn count_steps(alloc: Global, totals: &mut Totals, journal: &[Entry]) -> Result<(), WantOfMemory>
    ensures { OnOk result (CountSteps (steps_of journal.now) totals.old totals.new) }
{
    let by_step = sent_by_step(alloc, journal)?;
    let mut walk = Walk::new(alloc)?;
    for entry in journal {
        if let Some(step) = begun(entry) {
            totals.add_step(walk.seen(step.time), by_step.of(step.number))?;
        }
        walk.note(alloc, entry)?;
    }
    Ok(())
}
