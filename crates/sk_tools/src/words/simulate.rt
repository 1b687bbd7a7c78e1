//! The words of `simulate`.

ghost use Rattle.std.specs.Prelude.{◌≡◌, IfOk, map, string_bytes, MatchResult};
ghost use Rattle.clap.specs.Words.{app_of};
ghost use Rattle.sk_tools.specs.Words.{simulate_app, simulation_of};
ghost use Rattle.sk_tools.specs.Plans.{IsSimulationOf};
ghost use Rattle.sk_tools.specs.Usage.{IsRefusalOf};

use crate::simulate::SimulatePlan;
use crate::words::{Refused, flag, is_command, is_set, needed, parse, value};
use clap::Command;
use std::alloc::{AllocError, Global};

const ABOUT: &str = "Runs all participants of a scenario and writes their journals";

const FILE_HELP: &str = "A JSON file; - is a file of that name";

const REPORT_HELP: &str = "Writes the report of the run in place of the journals";

const STATUSES: &str =
    "Status: 0 written, 1 no scenario, 2 usage or help, 3 read fault, 4 write fault, \
     5 out of memory, 6 written and aborted, 12 stalled";

/// Reads `simulate FILE [--report]`.
pub fn read_simulate<'a>(alloc: Global, words: &'a [String]) -> Result<SimulatePlan<'a>, Refused>
    ensures { MatchResult result
        (IsSimulationOf (simulation_of (map string_bytes words.entry.now)))
        (IsRefusalOf (simulation_of (map string_bytes words.entry.now))) }
{
    if !is_command(words, "simulate") {
        return Err(Refused::Usage);
    }
    let matches = parse(alloc, simulate_command(alloc)?, words)?;
    let Some(file) = value(&matches, "FILE") else {
        return Err(Refused::Usage);
    };
    let report = is_set(&matches, "report");
    Ok(SimulatePlan { file, report })
}

fn simulate_command<'a>(alloc: Global) -> Result<Command<'a>, AllocError>
    ensures { IfOk result (λ command. app_of command ≡ simulate_app) }
{
    let command = Command::new(alloc, "simulate")
        .about(ABOUT)
        .after_help(STATUSES)
        .bin_name("silkit simulate")?;
    let command = command.arg(needed(alloc, "FILE").help(FILE_HELP))?;
    Ok(command.arg(flag(alloc, "report").help(REPORT_HELP))?)
}
