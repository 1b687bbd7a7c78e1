//! The words of `pipe`.

ghost use Rattle.std.specs.Prelude.{◌≡◌, IfOk, map, string_bytes, MatchResult};
ghost use Rattle.clap.specs.Words.{app_of};
ghost use Rattle.sk_tools.specs.Words.{pipe_app, plan_of, plan_from};
ghost use Rattle.sk_tools.specs.Plans.{IsPlanOf};
ghost use Rattle.sk_tools.specs.Usage.{IsRefusalOf};

use crate::words::{Refused, is_command, needed, number_between, parse, value};
use clap::Command;
use sk_base::limits::{LONGEST_RUN_NS, LONGEST_STEP_NS};
use sk_base::{Name, NameFault};
use sk_pipe::Plan;
use std::alloc::{AllocError, Global};

const ABOUT: &str = "Keeps step with one peer, over standard input and output";

const NAME_HELP: &str = "The own name, 1 to 64 bytes";

const STEP_HELP: &str = "The step size in nanoseconds of virtual time, 1 to 2^60";

const DURATION_HELP: &str = "The duration in nanoseconds of virtual time, 0 to 2^61";

const STATUSES: &str =
    "Status: 0 the peer left, 2 usage or help, 4 link fault, 5 out of memory, 8 limit, 10 bad input, 11 no leave";

/// Reads `pipe NAME STEP DURATION`.
pub fn read_pipe(alloc: Global, words: &[String]) -> Result<Plan, Refused>
    ensures { MatchResult result (IsPlanOf (plan_of (map string_bytes words.now))) (IsRefusalOf (plan_of (map string_bytes words.now))) }
{
    if !is_command(words, "pipe") {
        return Err(Refused::Usage);
    }
    let matches = parse(alloc, pipe_command(alloc)?, words)?;
    let (Some(name), Some(step), Some(duration)) = (
        value(&matches, "NAME"),
        value(&matches, "STEP"),
        value(&matches, "DURATION"),
    ) else {
        return Err(Refused::Usage);
    };
    read_plan(alloc, name, step, duration)
}

fn pipe_command<'a>(alloc: Global) -> Result<Command<'a>, AllocError>
    ensures { IfOk result (λ command. app_of command ≡ pipe_app) }
{
    let command = Command::new(alloc, "pipe")
        .about(ABOUT)
        .after_help(STATUSES)
        .bin_name("silkit pipe")?
        .arg(needed(alloc, "NAME").help(NAME_HELP))?
        .arg(needed(alloc, "STEP").help(STEP_HELP))?
        .arg(needed(alloc, "DURATION").help(DURATION_HELP))?;
    Ok(command)
}

/// The plan that three words say.
#[tactic(auto, unfolding(sk_msg::specs::Rules::is_step_size))]
fn read_plan(alloc: Global, name: &str, step: &str, duration: &str) -> Result<Plan, Refused>
    ensures { let read = plan_from name.now step.now duration.now in MatchResult result (IsPlanOf read) (IsRefusalOf read) }
{
    let Some(step) = number_between(1, LONGEST_STEP_NS, step) else {
        return Err(Refused::Usage);
    };
    let Some(duration) = number_between(0, LONGEST_RUN_NS, duration) else {
        return Err(Refused::Usage);
    };
    match Name::new(alloc, name) {
        Ok(name) => Ok(Plan {
            name,
            step,
            duration,
        }),
        Err(fault) => match fault {
            NameFault::WantOfMemory => Err(Refused::WantOfMemory),
            _ => Err(Refused::Usage),
        },
    }
}
