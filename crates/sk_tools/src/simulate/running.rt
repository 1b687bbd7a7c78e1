//! A run of a scenario, and the text of it.

ghost use Rattle.std.specs.Prelude.{◌≡◌, ◌≢◌, ◌<◌, ◌++◌, true, [], length, map, position, string_bytes, IfSome, MatchResult, OnOk, IfErr, IfOk};
ghost use Rattle.sk_report.specs.Report.{report};
ghost use Rattle.sk_report.specs.Totals.{totals_line};
ghost use Rattle.sk_sim.specs.Simulations.{journals_of, is_aborting};
ghost use Rattle.sk_tools.specs.Outside.{IsPartWritten, Says};
ghost use Rattle.sk_tools.specs.Pieces.{CountsCut};
ghost use Rattle.sk_tools.specs.Running.{names_shown, steps_in, run_text, LeavesRan, LeavesRun, IsRunStatus, JudgesRun, run_remarks, has_aborted};
ghost use Rattle.sk_tools.specs.Simulate.{CountsWrites};
ghost use Rattle.sk_tools.specs.declared.simulate.status.SimulateStatus.TheVariants.{BadFile, OutOfMemory, ReadFault};

use crate::outside::writing::{say, say_line, write_out};
use crate::outside::{OUT_OF_MEMORY_LINE, STALLED_LINE, WRITE_FAULT_LINE};
use crate::simulate::status::SimulateStatus;
use crate::simulate::writing::{Unwritten, write_world};
use sk_base::{Sink, WantOfMemory};
use sk_msg::{Entry, State};
use sk_report::{Reported, report_text, totals_text};
use sk_script::{Part, Scenario};
use sk_sim::{Finished, SimFault, run_rounds};
use std::alloc::Global;

/// What is written of a run.
#[derive(Clone, Copy, Debug, PartialEq, Eq)]
pub enum RunText {
    /// All journals.
    Journals,
    /// The report.
    Report,
    /// The last line of the report.
    Totals,
}

/// Runs the scenario, and writes the text of the run.
pub fn run_scenario<O: Sink, E: Sink>(
    alloc: Global,
    scenario: &Scenario,
    what: RunText,
    out: &mut O,
    err: &mut E,
) -> SimulateStatus
    ensures writes { CountsWrites result (O.faults out.old) (O.faults out.new) }
    ensures leaves { LeavesRan what scenario.now result
        (record { tells = O.tells out.old; faults = O.faults out.old; faults_now = O.faults out.new; written = O.written out.old; written_now = O.written out.new })
        (record { tells = E.tells err.old; faults = E.faults err.old; faults_now = E.faults err.new; written = E.written err.old; written_now = E.written err.new }) }
{
    match run_rounds(alloc, scenario) {
        Ok(run) => write_run(alloc, scenario, &run, what, out, err),
        Err(SimFault::Stalled(_)) => {
            say(err, STALLED_LINE.as_bytes());
            SimulateStatus::Stalled
        }
        Err(SimFault::WantOfMemory) => out_of_memory(err),
    }
}

/// Writes the text of a run, and says whether one was aborted.
fn write_run<O: Sink, E: Sink>(
    alloc: Global,
    scenario: &Scenario,
    run: &Finished,
    what: RunText,
    out: &mut O,
    err: &mut E,
) -> SimulateStatus
    requires { length run.now.names ≡ length (journals_of run.now) }
    ensures writes { CountsWrites result (O.faults out.old) (O.faults out.new) }
    ensures ends { IsRunStatus result (journals_of run.now) }
    ensures written { O.tells out.old ≡ true → LeavesRun result (run_text what scenario.now run.now.names (journals_of run.now)) (O.written out.old) (O.written out.new) }
    ensures said { result ≢ OutOfMemory →
        Says (E.tells err.old) (E.faults err.old) (E.faults err.new) (E.written err.old) (E.written err.new) (run_remarks result run.now.names (journals_of run.now)) }
{
    match write_text(alloc, scenario, run, what, out) {
        Ok(()) => judge(alloc, run, err),
        Err(Unwritten::Fault) => {
            say(err, WRITE_FAULT_LINE.as_bytes());
            SimulateStatus::WriteFault
        }
        Err(Unwritten::WantOfMemory) => out_of_memory(err),
    }
}

/// Writes the text of a run.
#[tactic(auto, unfolding(crate::specs::Running::run_text))]
fn write_text<O: Sink>(
    alloc: Global,
    scenario: &Scenario,
    run: &Finished,
    what: RunText,
    out: &mut O,
) -> Result<(), Unwritten>
    ensures steady { OnOk result (O.faults out.new ≡ O.faults out.old) }
    ensures counts { IfErr result (CountsCut (O.faults out.old) (O.faults out.new)) }
    ensures written { O.tells out.old ≡ true → MatchResult result
        (λ _. O.written out.new ≡ O.written out.old ++ run_text what scenario.now run.now.names (journals_of run.now))
        (λ _. IsPartWritten (O.written out.old) (O.written out.new) (run_text what scenario.now run.now.names (journals_of run.now))) }
{
    match what {
        RunText::Journals => write_world(alloc, run.names.as_slice(), &run.journals, out),
        RunText::Report => {
            let text = report_of(alloc, scenario, run)?;
            write_whole(text.as_str(), out)
        }
        RunText::Totals => {
            let text = totals_of(alloc, run)?;
            write_whole(text.as_str(), out)
        }
    }
}

/// Writes a text that was made whole.
fn write_whole<O: Sink>(text: &str, out: &mut O) -> Result<(), Unwritten>
    ensures steady { OnOk result (O.faults out.new ≡ O.faults out.old) }
    ensures counts { IfErr result (CountsCut (O.faults out.old) (O.faults out.new)) }
    ensures written { O.tells out.old ≡ true → MatchResult result
        (λ _. O.written out.new ≡ O.written out.old ++ text.now)
        (λ _. IsPartWritten (O.written out.old) (O.written out.new) text.now) }
{
    write_out(out, text.as_bytes())?;
    Ok(())
}

/// The report of a run.
fn report_of(alloc: Global, scenario: &Scenario, run: &Finished) -> Result<String, WantOfMemory>
    ensures { IfOk result (λ text. string_bytes text ≡ report (names_shown scenario.now.participants) (steps_in (journals_of run.now))) }
{
    let names = names_shown(alloc, scenario.participants())?;
    report_text(alloc, &names, &run.journals)
}

/// What a report calls these participants and their services.
fn names_shown(alloc: Global, parts: &[Part]) -> Result<Vec<Reported>, WantOfMemory>
    ensures { IfOk result (λ names. names.items ≡ names_shown parts.now) }
{
    let mut names = Vec::new(alloc);
    for part in parts {
        names.push(Reported::new(alloc, part.name(), part.services())?)?;
    }
    Ok(names)
}

/// The last line of the report of a run.
fn totals_of(alloc: Global, run: &Finished) -> Result<String, WantOfMemory>
    ensures { IfOk result (λ text. string_bytes text ≡ totals_line (steps_in (journals_of run.now))) }
{
    totals_text(alloc, &run.journals)
}

/// How a run ended all of whose text was written.
fn judge<E: Sink>(alloc: Global, run: &Finished, err: &mut E) -> SimulateStatus
    requires { length run.now.names ≡ length (journals_of run.now) }
    ensures ends { JudgesRun result (journals_of run.now) }
    ensures said { Says (E.tells err.old) (E.faults err.old) (E.faults err.new) (E.written err.old) (E.written err.new) (run_remarks result run.now.names (journals_of run.now)) }
{
    match first_aborted(&run.journals) {
        Some(number) => {
            let name = &run.names.as_slice()[number];
            say_line(alloc, err, "silkit: ", "ended by abort", name.as_str());
            SimulateStatus::Aborted
        }
        None => SimulateStatus::Done,
    }
}

/// The participant of least number that was aborted.
fn first_aborted(journals: &[Vec<Entry>]) -> Option<usize>
    ensures first { result ≡ position (λ journal. has_aborted journal.items) journals.now }
    ensures below { IfSome result (λ number. number < length journals.now) }
{
    journals.iter().position(|journal| has_aborted(journal))
}

/// Whether State(Aborting) stands in the journal.
#[tactic(auto, unfolding(crate::specs::Running::has_aborted))]
fn has_aborted(journal: &[Entry]) -> bool
    ensures { result ≡ has_aborted journal.now }
{
    journal.iter().any(|entry| is_aborting(entry))
}

/// Whether it is State(Aborting).
#[tactic(auto, unfolding(sk_msg::specs::States::is_state))]
fn is_aborting(entry: &Entry) -> bool
    ensures { result ≡ is_aborting entry.now }
{
    match entry {
        Entry::State(State::Aborting) => true,
        _ => false,
    }
}

/// Says that memory ran out.
pub fn out_of_memory<E: Sink>(err: &mut E) -> SimulateStatus
    ensures { result ≡ OutOfMemory }
{
    say(err, OUT_OF_MEMORY_LINE.as_bytes());
    SimulateStatus::OutOfMemory
}
