//! Reading: from bytes to a scenario, or the first fault.

ghost use Rattle.std.specs.Prelude.{◌≡◌, ◌++◌, IfOk, IsTrue, OnOk};
ghost use Rattle.std.specs.List.{flat_map, list_all};
ghost use Rattle.serde_json.specs.View.{view, items_view};
ghost use Rattle.sk_rules.specs.Outcome.{Answers, AnswersAs};
ghost use Rattle.sk_script.specs.Reading as spec;
ghost use Rattle.sk_script.specs.Reading.{reading};
ghost use Rattle.sk_script.specs.Scenarios.{is_part};

use crate::keys::{DURATION, Object, PARTICIPANTS, REQUIRED};
use crate::ordering::in_order;
use crate::part::PartReader;
use crate::scenario::{Part, PartRead, Scenario, ScenarioRead};
use crate::together;
use serde_json::Value;
use sk_base::limits::{LONGEST_RUN_NS, MOST_PARTICIPANTS};
use sk_base::{Name, Text, WantOfMemory};
use sk_config::{Path, Warning, Warnings, json};
use sk_msg::Names;
use sk_msg::rules::is_new_name;
use sk_rules::{ReadItem, Rule, ScenarioFault, field, read_items};
use std::alloc::Global;

/// Reads a scenario from the bytes of its file: the scenario with its warnings, or the first fault.
#[tactic(auto, unfolding(crate::specs::Reading::reading))]
pub fn read_scenario(alloc: Global, text: &[u8]) -> Result<ScenarioRead, ScenarioFault>
    ensures { Answers (reading text.now) result }
{
    let value = json::parse::<ScenarioFault>(alloc, text)?;
    read_value(alloc, &Path::root(alloc), &value)
}

/// Reads a scenario from a JSON value that stands at this path of a file: what is said at the keys
/// of the file, in their order, and then what they say together.
#[tactic(auto, unfolding(crate::specs::Reading::scenario_read))]
fn read_value(alloc: Global, at: &Path, root: &Value) -> Result<ScenarioRead, ScenarioFault>
    ensures { Answers (spec.scenario_read at.now (view root.now)) result }
{
    field::enter(alloc, &Object::Root, at, root)?;
    let duration = field::needed_number(alloc, at, DURATION, root, 0, LONGEST_RUN_NS)?;
    let given = read_required(alloc, at, root)?;
    let reads = read_participants(alloc, at, root)?;
    together::are_distinct(alloc, &at.key(alloc, PARTICIPANTS)?, &reads)?;
    let warnings = all_warnings(alloc, &reads)?;
    let Taken { parts, uris } = take_apart(alloc, in_order(alloc, reads)?)?;
    let required = together::required_names(alloc, &at.key(alloc, REQUIRED)?, &parts, given)?;
    Ok(ScenarioRead {
        scenario: Scenario {
            duration,
            required,
            participants: parts,
        },
        uris,
        warnings,
    })
}

/// A reader of required names.
#[derive(Drop)]
struct NameReader;

impl ReadItem for NameReader {
    type Item = Name;

    ghost meaning = { λ _. spec.required_name_read };

    fn read(
        &self,
        alloc: Global,
        at: &Path,
        earlier: &[Name],
        value: &Value,
    ) -> Result<Name, ScenarioFault> {
        read_name(alloc, at, earlier, value)
    }
}

/// The name that this value is, which is none of the earlier ones.
fn read_name(
    alloc: Global,
    at: &Path,
    earlier: &[Name],
    item: &Value,
) -> Result<Name, ScenarioFault>
    ensures { Answers (spec.required_name_read at.now earlier.now (view item.now)) result }
{
    let Some(text) = item.as_str() else {
        return Err(field::refused_at(alloc, at, Rule::WrongType));
    };
    let Some(name) = Name::from_utf8(alloc, text.as_bytes())? else {
        return Err(field::refused_at(alloc, at, Rule::BadText));
    };
    if !is_new_name(earlier, &name) {
        return Err(field::refused_at(alloc, at, Rule::NameTaken));
    }
    Ok(name)
}

/// The required names, where the file has them.
#[tactic(auto, unfolding(crate::specs::Reading::required_read))]
fn read_required(alloc: Global, at: &Path, root: &Value) -> Result<Option<Names>, ScenarioFault>
    ensures { Answers (spec.required_read at.now (view root.now)) result }
{
    let most = MOST_PARTICIPANTS as usize;
    let Some(items) = field::list_at(alloc, at, REQUIRED, root, 1, most)? else {
        return Ok(None);
    };
    let path = at.key(alloc, REQUIRED)?;
    let names = read_items(alloc, &NameReader, &path, items)?;
    Ok(Some(Names::new(names)))
}

/// The participants, in the file's order.
#[tactic(auto, unfolding(crate::specs::Reading::participants_read))]
fn read_participants(alloc: Global, at: &Path, root: &Value) -> Result<Vec<PartRead>, ScenarioFault>
    ensures { AnswersAs (λ reads. reads.items) (spec.participants_read at.now (view root.now)) result }
{
    let most = MOST_PARTICIPANTS as usize;
    let Some(items) = field::list_at(alloc, at, PARTICIPANTS, root, 1, most)? else {
        return Err(field::refused(alloc, at, PARTICIPANTS, Rule::Missing));
    };
    let path = at.key(alloc, PARTICIPANTS)?;
    read_items(alloc, &PartReader, &path, items)
}

/// The warnings of all these participants.
fn all_warnings(alloc: Global, reads: &[PartRead]) -> Result<Warnings, WantOfMemory>
    ensures { IfOk result (λ warnings. warnings ≡ flat_map (λ read. read.warnings) reads.now) }
{
    let mut all = Vec::new(alloc);
    for read in reads {
        copy_warnings(alloc, read.warnings.as_slice(), &mut all)?;
    }
    Ok(Warnings::new(all))
}

/// Appends copies of these warnings.
fn copy_warnings(
    alloc: Global,
    warnings: &[Warning],
    all: &mut Vec<Warning>,
) -> Result<(), WantOfMemory>
    ensures { OnOk result (all.new.items ≡ all.old.items ++ warnings.now) }
{
    for warning in warnings {
        all.push(Warning {
            path: warning.path.copy(alloc)?,
            unused: warning.unused,
        })?;
    }
    Ok(())
}

/// Participants, and beside them the addresses that their configurations name.
#[derive(Drop)]
struct Taken {
    parts: Vec<Part>,
    uris: Vec<Option<Text>>,
}

/// The participants themselves, and the addresses that their configurations name.
fn take_apart(alloc: Global, reads: Vec<PartRead>) -> Result<Taken, WantOfMemory>
    ensures parts { IfOk result (λ taken. taken.parts.items ≡ spec.parts_of reads.items) }
    ensures uris { IfOk result (λ taken. taken.uris.items ≡ spec.uris_of reads.items) }
    ensures rules { IfOk result (λ taken. IsTrue (list_all is_part taken.parts.items)) }
{
    let mut parts = Vec::with_capacity(alloc, reads.len())?;
    let mut uris = Vec::with_capacity(alloc, reads.len())?;
    for read in reads {
        let PartRead { part, uri, .. } = read;
        parts.push(part)?;
        uris.push(uri)?;
    }
    Ok(Taken { parts, uris })
}
