//! The words of `generate`.

ghost use Rattle.std.specs.Prelude.{◌≡◌, IfOk, map, string_bytes, MatchResult};
ghost use Rattle.clap.specs.Words.{app_of};
ghost use Rattle.sk_tools.specs.Words.{generate_app, scenario_of, scenario_from};
ghost use Rattle.sk_tools.specs.Generate.{IsPlan};
ghost use Rattle.sk_tools.specs.Plans.{IsScenarioOf};
ghost use Rattle.sk_tools.specs.Usage.{IsRefusalOf};

use crate::generate::GeneratePlan;
use crate::words::{Refused, flag, is_command, is_set, needed, number_between, parse, value};
use clap::Command;
use std::alloc::{AllocError, Global};

const ABOUT: &str = "Writes a scenario that is made of a number";

const NUMBER_HELP: &str = "What it is drawn from, 0 to 2^64 - 1";

const PARTICIPANTS_HELP: &str = "How many participants it has, 2 to 32";

const STEPS_HELP: &str = "How many milliseconds of virtual time it lasts, 1 to 2,000";

const RUN_HELP: &str = "Runs it and writes the last line of its report";

const STATUSES: &str = "Status: 0 written, 2 usage or help, 4 write fault, 5 out of memory; \
     of a run also 6 written and aborted, 12 stalled";

/// Reads `generate NUMBER PARTICIPANTS STEPS [--run]`.
pub fn read_generate(alloc: Global, words: &[String]) -> Result<GeneratePlan, Refused>
    ensures reads { MatchResult result (IsScenarioOf (scenario_of (map string_bytes words.now))) (IsRefusalOf (scenario_of (map string_bytes words.now))) }
    ensures plan { IfOk result (λ plan. IsPlan plan) }
{
    if !is_command(words, "generate") {
        return Err(Refused::Usage);
    }
    let matches = parse(alloc, generate_command(alloc)?, words)?;
    let Some(number) = value(&matches, "NUMBER") else {
        return Err(Refused::Usage);
    };
    let Some(participants) = value(&matches, "PARTICIPANTS") else {
        return Err(Refused::Usage);
    };
    let Some(steps) = value(&matches, "STEPS") else {
        return Err(Refused::Usage);
    };
    let run = is_set(&matches, "run");
    read_scenario_words(number, participants, steps, run)
}

fn generate_command<'a>(alloc: Global) -> Result<Command<'a>, AllocError>
    ensures { IfOk result (λ command. app_of command ≡ generate_app) }
{
    let command = Command::new(alloc, "generate")
        .about(ABOUT)
        .after_help(STATUSES)
        .bin_name("silkit generate")?
        .arg(needed(alloc, "NUMBER").help(NUMBER_HELP))?
        .arg(needed(alloc, "PARTICIPANTS").help(PARTICIPANTS_HELP))?
        .arg(needed(alloc, "STEPS").help(STEPS_HELP))?
        .arg(flag(alloc, "run").help(RUN_HELP))?;
    Ok(command)
}

/// What three words say of a scenario that is run, or not.
#[tactic(auto, unfolding(crate::specs::Words::scenario_from))]
fn read_scenario_words(
    number: &str,
    participants: &str,
    steps: &str,
    run: bool,
) -> Result<GeneratePlan, Refused>
    ensures reads { let read = scenario_from number.now participants.now steps.now run in MatchResult result (IsScenarioOf read) (IsRefusalOf read) }
    ensures plan { IfOk result (λ plan. IsPlan plan) }
{
    let Some(number) = number_between(0, u64::MAX, number) else {
        return Err(Refused::Usage);
    };
    let Some(participants) = number_between(2, 32, participants) else {
        return Err(Refused::Usage);
    };
    let Some(steps) = number_between(1, 2000, steps) else {
        return Err(Refused::Usage);
    };
    Ok(GeneratePlan {
        number,
        participants: participants as u32,
        steps: steps as u32,
        run,
    })
}
