//! The command `generate`.

ghost use Rattle.std.specs.Prelude.{◌≡◌, ◌≢◌, true, IfOk, string_bytes};
ghost use Rattle.sk_tools.specs.Jobs.{job_of};
ghost use Rattle.sk_tools.specs.OfflineCall.{Does};
ghost use Rattle.sk_tools.specs.Outside.{Says};
ghost use Rattle.sk_tools.specs.Plans.{scenario_plan};
ghost use Rattle.sk_tools.specs.Seen.{FilesSeen};
ghost use Rattle.sk_tools.specs.Check.{Leaves, CountsWrites};
ghost use Rattle.sk_script.specs.Generated.{generated};
ghost use Rattle.sk_tools.specs.Running.{LeavesRan};
ghost use Rattle.sk_tools.specs.Simulate as simulate;
ghost use Rattle.sk_tools.specs.Generate.{IsPlan, generated_text, said_written, MayWrite};
ghost use Rattle.sk_tools.specs.declared.check.status.CheckStatus.TheVariants.{OutOfMemory};
ghost use Rattle.sk_tools.specs.declared.simulate.running.RunText.TheVariants.{Totals};

use crate::check::{CheckStatus, out_of_memory};
use crate::outside::WRITE_FAULT_LINE;
use crate::outside::writing::{say, write_out};
use crate::simulate::SimulateStatus;
use crate::simulate::running::{self, RunText, run_scenario};
use sk_base::{Sink, WantOfMemory};
use sk_script::generate as generate_scenario;
use sk_script_text::scenario_text;
use std::alloc::Global;

/// What a scenario is made of.
#[derive(Clone, Copy, Debug)]
pub struct GeneratePlan {
    /// The number that it is drawn from.
    pub number: u64,
    /// How many participants it has, 2 to 32.
    pub participants: u32,
    /// How many milliseconds of virtual time it lasts, 1 to 2,000.
    pub steps: u32,
    /// Whether it is run, and the last line of its report written.
    pub run: bool,
}

/// `generate NUMBER PARTICIPANTS STEPS [--run]`: writes the scenario that is made so, or runs it. Answers the
/// number of the status.
pub fn write_or_run<O: Sink, E: Sink>(
    alloc: Global,
    plan: GeneratePlan,
    out: &mut O,
    err: &mut E,
) -> u8
    requires plan { IsPlan plan }
    ensures { (files : FilesSeen) → files.faults_now ≡ files.faults → Does (job_of (scenario_plan plan)) files
        (record { tells = O.tells out.old; faults = O.faults out.old; faults_now = O.faults out.new; written = O.written out.old; written_now = O.written out.new })
        (record { tells = E.tells err.old; faults = E.faults err.old; faults_now = E.faults err.new; written = E.written err.old; written_now = E.written err.new })
        result }
{
    let run = plan.run;
    if run {
        run_generated(alloc, plan, out, err).exit_status().number()
    } else {
        generate(alloc, plan, out, err).exit_status().number()
    }
}

/// `generate NUMBER PARTICIPANTS STEPS`: writes the scenario that is made so.
fn generate<O: Sink, E: Sink>(
    alloc: Global,
    plan: GeneratePlan,
    out: &mut O,
    err: &mut E,
) -> CheckStatus
    requires plan { IsPlan plan }
    ensures ends { MayWrite result }
    ensures writes { CountsWrites result (O.faults out.old) (O.faults out.new) }
    ensures written { O.tells out.old ≡ true → Leaves result (generated_text plan) (O.written out.old) (O.written out.new) }
    ensures said { result ≢ OutOfMemory →
        Says (E.tells err.old) (E.faults err.old) (E.faults err.new) (E.written err.old) (E.written err.new) (said_written result) }
{
    let Ok(text) = text_of(alloc, plan) else {
        return out_of_memory(err);
    };
    match write_out(out, text.as_bytes()) {
        Ok(()) => CheckStatus::Done,
        Err(_) => {
            say(err, WRITE_FAULT_LINE.as_bytes());
            CheckStatus::WriteFault
        }
    }
}

/// `generate NUMBER PARTICIPANTS STEPS --run`: runs the scenario that is made so, and writes the last line
/// of its report.
fn run_generated<O: Sink, E: Sink>(
    alloc: Global,
    plan: GeneratePlan,
    out: &mut O,
    err: &mut E,
) -> SimulateStatus
    requires plan { IsPlan plan }
    ensures writes { simulate.CountsWrites result (O.faults out.old) (O.faults out.new) }
    ensures leaves { LeavesRan Totals (generated plan.number plan.participants plan.steps) result
        (record { tells = O.tells out.old; faults = O.faults out.old; faults_now = O.faults out.new; written = O.written out.old; written_now = O.written out.new })
        (record { tells = E.tells err.old; faults = E.faults err.old; faults_now = E.faults err.new; written = E.written err.old; written_now = E.written err.new }) }
{
    match generate_scenario(alloc, plan.number, plan.participants, plan.steps) {
        Ok(scenario) => run_scenario(alloc, &scenario, RunText::Totals, out, err),
        Err(_) => running::out_of_memory(err),
    }
}

/// The text of the scenario that is made so.
#[tactic(auto, unfolding(crate::specs::Generate::generated_text))]
fn text_of(alloc: Global, plan: GeneratePlan) -> Result<String, WantOfMemory>
    requires plan { IsPlan plan }
    ensures { IfOk result (λ text. string_bytes text ≡ generated_text plan) }
{
    let scenario = generate_scenario(alloc, plan.number, plan.participants, plan.steps)?;
    scenario_text(alloc, &scenario)
}
