//! A row of a table: what it asks for.

use crate::fault::Fault;
use sk_base::WantOfMemory;
use sk_config::Warning;
use sk_script::{ScenarioFault, ScenarioRead, generate, is_closed, read_scenario};
use sk_script_text::scenario_text;
use std::alloc::Global;

/// The answer to a row, with its line ends.
pub fn answer(alloc: Global, row: &str) -> Result<String, Fault> {
    let (word, rest) = row.split_once(' ').ok_or(Fault::BadRow)?;
    match word {
        "read" => read(alloc, rest),
        "text" => text(alloc, rest),
        "generate" => generated(alloc, rest),
        _ => Err(Fault::BadRow),
    }
}

/// What the bytes of these digits read as.
fn read(alloc: Global, digits: &str) -> Result<String, Fault> {
    let Ok(bytes) = hex::decode(alloc, digits) else {
        return Err(Fault::BadRow);
    };
    match read_scenario(alloc, &bytes) {
        Ok(read) => Ok(read_text(alloc, &read)?),
        Err(fault) => refusal(alloc, &fault),
    }
}

/// The text of what the bytes of these digits read as, or why they read as nothing.
fn text(alloc: Global, digits: &str) -> Result<String, Fault> {
    let Ok(bytes) = hex::decode(alloc, digits) else {
        return Err(Fault::BadRow);
    };
    match read_scenario(alloc, &bytes) {
        Ok(read) => Ok(scenario_text(alloc, &read.scenario)?),
        Err(fault) => refusal(alloc, &fault),
    }
}

/// The text of the scenario that a number, a count of participants and a count of steps make.
fn generated(alloc: Global, words: &str) -> Result<String, Fault> {
    let (number, rest) = words.split_once(' ').ok_or(Fault::BadRow)?;
    let (participants, steps) = rest.split_once(' ').ok_or(Fault::BadRow)?;
    let number = number.parse::<u64>().ok().ok_or(Fault::BadRow)?;
    let participants = participants.parse::<u32>().ok().ok_or(Fault::BadRow)?;
    let steps = steps.parse::<u32>().ok().ok_or(Fault::BadRow)?;
    if participants < 2 || participants > 32 || steps < 1 || steps > 2000 {
        return Err(Fault::BadRow);
    }
    let scenario = generate(alloc, number, participants, steps)?;
    Ok(scenario_text(alloc, &scenario)?)
}

/// What was read of a file.
fn read_text(alloc: Global, read: &ScenarioRead) -> Result<String, WantOfMemory> {
    let warnings = read.warnings.as_slice();
    let mut text = String::from_str(alloc, "scenario ")?;
    text.push_str(warnings.len().to_string(alloc)?.as_str())?;
    text.push('\n')?;
    push_warnings(alloc, &mut text, warnings)?;
    text.push_str(if is_closed(&read.scenario) {
        "closed\n"
    } else {
        "open\n"
    })?;
    Ok(text)
}

/// A line for each warning.
fn push_warnings(
    alloc: Global,
    text: &mut String,
    warnings: &[Warning],
) -> Result<(), WantOfMemory> {
    for warning in warnings {
        text.push_str(warning.text(alloc)?.as_str())?;
        text.push('\n')?;
    }
    Ok(())
}

/// Why a file was refused.
fn refusal(alloc: Global, fault: &ScenarioFault) -> Result<String, Fault> {
    let Some(rule) = fault.rule() else {
        return Err(Fault::WantOfMemory);
    };
    let mut text = String::from_str(alloc, "fault ")?;
    text.push_str(fault.path())?;
    text.push_str(": ")?;
    text.push_str(rule.text())?;
    text.push('\n')?;
    Ok(text)
}
