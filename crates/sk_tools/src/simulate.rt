//! The command `simulate`.

ghost use Rattle.std.specs.Prelude.{◌≡◌, ◌≢◌, ℕ, true, List};
ghost use Rattle.sk_rules.specs.Faults.{fault_path};
ghost use Rattle.sk_rules.specs.declared.fault.ScenarioFault.TheVariants as faults;
ghost use Rattle.sk_script.specs.Reading.{reading};
ghost use Rattle.sk_tools.specs.Outside.{Says};
ghost use Rattle.sk_tools.specs.Found.{Valid, found_in, found_by, complaint, said_unread};
ghost use Rattle.sk_tools.specs.Simulate.{Leaves, EndsUnread, CountsReads, CountsWrites, broken_rule, text_asked};
ghost use Rattle.sk_tools.specs.declared.simulate.status.SimulateStatus.TheVariants.{BadFile, OutOfMemory, ReadFault};

pub mod running;
mod status;
mod writing;

use crate::outside::lines::warn;
use crate::outside::reading::{ReadRefused, read_file};
use crate::outside::writing::say_line;
use crate::simulate::running::{RunText, out_of_memory, run_scenario};
use sk_base::{Files, Sink};
use sk_script::{ScenarioFault, ScenarioRead, read_scenario};
pub use status::SimulateStatus;
use std::alloc::Global;

/// Which scenario is run, and what is written of the run.
#[derive(Clone, Copy, Debug)]
pub struct SimulatePlan<'a> {
    /// The file that holds it.
    pub file: &'a str,
    /// Whether its report is written in place of its journals.
    pub report: bool,
}

impl SimulatePlan<'_> {
    /// What is written of the run.
    fn text(&self) -> RunText
        ensures { result ≡ text_asked self.now.report }
    {
        if self.report {
            RunText::Report
        } else {
            RunText::Journals
        }
    }
}

/// `simulate FILE [--report]`: reads the scenario in the file, runs all its participants in rounds, and writes
/// their journals, or the report.
pub fn simulate<F: Files, O: Sink, E: Sink>(
    alloc: Global,
    plan: SimulatePlan<'_>,
    files: &mut F,
    out: &mut O,
    err: &mut E,
) -> SimulateStatus
    ensures reads { CountsReads result (F.faults files.old) (F.faults files.new) }
    ensures writes { CountsWrites result (O.faults out.old) (O.faults out.new) }
    ensures leaves { F.tells files.old ≡ true → Leaves (text_asked plan.entry.report) result plan.entry.file.now (found_in reading (F.content files.old plan.entry.file.now))
        (record { tells = O.tells out.old; faults = O.faults out.old; faults_now = O.faults out.new; written = O.written out.old; written_now = O.written out.new })
        (record { tells = E.tells err.old; faults = E.faults err.old; faults_now = E.faults err.new; written = E.written err.old; written_now = E.written err.new }) }
{
    match read_file(alloc, files, plan.file) {
        Ok(bytes) => simulate_bytes(alloc, &bytes, plan.text(), out, err),
        Err(why) => refuse_file(alloc, plan.file, why, err),
    }
}

/// Says why a file wasn't read.
fn refuse_file<E: Sink>(alloc: Global, file: &str, why: ReadRefused, err: &mut E) -> SimulateStatus
    ensures ends { EndsUnread why result }
    ensures said { result ≢ OutOfMemory →
        Says (E.tells err.old) (E.faults err.old) (E.faults err.new) (E.written err.old) (E.written err.new) (said_unread file.now why) }
{
    match why {
        ReadRefused::Absent => {
            say_line(alloc, err, "silkit: ", file, "no such file");
            SimulateStatus::BadFile
        }
        ReadRefused::TooLong => {
            say_line(alloc, err, "silkit: ", file, "more than 16777216 bytes");
            SimulateStatus::BadFile
        }
        ReadRefused::Fault => {
            say_line(alloc, err, "silkit: ", "read fault", file);
            SimulateStatus::ReadFault
        }
        ReadRefused::WantOfMemory => out_of_memory(err),
    }
}

/// Reads the scenario that these bytes are, and runs it.
fn simulate_bytes<O: Sink, E: Sink>(
    alloc: Global,
    bytes: &[u8],
    what: RunText,
    out: &mut O,
    err: &mut E,
) -> SimulateStatus
    ensures reads { result ≢ ReadFault }
    ensures writes { CountsWrites result (O.faults out.old) (O.faults out.new) }
    ensures leaves { (file : List ℕ) → Leaves what result file (found_by (reading bytes.now))
        (record { tells = O.tells out.old; faults = O.faults out.old; faults_now = O.faults out.new; written = O.written out.old; written_now = O.written out.new })
        (record { tells = E.tells err.old; faults = E.faults err.old; faults_now = E.faults err.new; written = E.written err.old; written_now = E.written err.new }) }
{
    match read_scenario(alloc, bytes) {
        Ok(read) => simulate_read(alloc, &read, what, out, err),
        Err(fault) => refuse_scenario(alloc, fault, err),
    }
}

/// Says what is wrong with a scenario.
fn refuse_scenario<E: Sink>(alloc: Global, fault: ScenarioFault, err: &mut E) -> SimulateStatus
    ensures memory { fault ≡ faults.WantOfMemory → result ≡ OutOfMemory }
    ensures refused { fault ≢ faults.WantOfMemory → (result ≡ BadFile)
        × Says (E.tells err.old) (E.faults err.old) (E.faults err.new) (E.written err.old) (E.written err.new) (complaint (fault_path fault) (broken_rule fault)) }
{
    match fault.rule() {
        Some(rule) => {
            say_line(alloc, err, "silkit: ", fault.path(), rule.text());
            SimulateStatus::BadFile
        }
        None => out_of_memory(err),
    }
}

/// Says the warnings, runs the scenario, and writes the text of the run.
fn simulate_read<O: Sink, E: Sink>(
    alloc: Global,
    read: &ScenarioRead,
    what: RunText,
    out: &mut O,
    err: &mut E,
) -> SimulateStatus
    ensures reads { result ≢ ReadFault }
    ensures writes { CountsWrites result (O.faults out.old) (O.faults out.new) }
    ensures leaves { (file : List ℕ) → Leaves what result file (Valid read.now)
        (record { tells = O.tells out.old; faults = O.faults out.old; faults_now = O.faults out.new; written = O.written out.old; written_now = O.written out.new })
        (record { tells = E.tells err.old; faults = E.faults err.old; faults_now = E.faults err.new; written = E.written err.old; written_now = E.written err.new }) }
{
    warn(alloc, read.warnings.as_slice(), err);
    run_scenario(alloc, &read.scenario, what, out, err)
}
