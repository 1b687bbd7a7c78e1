//! Writing: the one text of a scenario.

ghost use Rattle.std.specs.Prelude.{◌≡◌, [], Ok, IfOk, OnOk, IsTrue};
ghost use Rattle.std.specs.List.{list_all};
ghost use Rattle.std.specs.String.{string_bytes};
ghost use Rattle.serde_json.specs.Data.{string};
ghost use Rattle.serde_json.specs.View.{view, items_view, members_view};
ghost use Rattle.sk_script.specs.Keys.{mode_key, step_key, required_key};
ghost use Rattle.sk_script.specs.Reading.{reading};
ghost use Rattle.sk_script.specs.Scenarios.{is_scenario};
ghost use Rattle.sk_script_text.specs.Fitting.{fits, part_fits};
ghost use Rattle.sk_script_text.specs.Objects.{put_some, items};
ghost use Rattle.sk_script_text.specs.Written as spec;
ghost use Rattle.sk_script_text.specs.Written.{part_data, scenario_data, canonical, no_uris};

use crate::object::Object;
use crate::write_action::{action_values, rule_values};
use crate::write_service::{put_vars, service_values};
use serde_json::Value;
use sk_base::{Name, WantOfMemory};
use sk_script::keys::{
    DURATION, MODE, NAME, PARTICIPANTS, READY, REQUIRED, SCRIPT, SERVICES, STEP,
};
use sk_script::{Part, Scenario, coordinated_names};
use std::alloc::Global;

/// The one text of a scenario: compact JSON of all that isn't as by default, with keys in byte
/// order, and a newline. Configurations are applied already, so none is written. It reads back to the
/// same scenario, without a warning.
pub fn scenario_text(alloc: Global, scenario: &Scenario) -> Result<String, WantOfMemory>
    ensures text { IfOk result (λ text. string_bytes text ≡ canonical scenario.now) }
    ensures reads_back { IfOk result (λ text. reading (string_bytes text) ≡ Ok (record { scenario = scenario.now; uris = no_uris scenario.now.participants; warnings = [] })) }
{
    let value = scenario_value(alloc, scenario)?;
    let mut text = value.to_string(alloc)?;
    text.push('\n')?;
    Ok(text)
}

/// What is written of a scenario.
#[tactic(auto, unfolding(crate::specs::Written::scenario_data, crate::specs::Objects::with_fields, crate::specs::Objects::put_some, crate::specs::Fitting::fits))]
fn scenario_value(alloc: Global, scenario: &Scenario) -> Result<Value, WantOfMemory>
    ensures value { IfOk result (λ value. view value ≡ scenario_data scenario.now) }
    ensures fits { IfOk result (λ _. IsTrue (fits scenario.now)) }
    ensures rules { IfOk result (λ _. IsTrue (is_scenario scenario.now)) }
{
    let mut object = Object::new(alloc);
    object.put_number(alloc, DURATION, scenario.duration())?;
    put_required(alloc, &mut object, scenario)?;
    let parts = part_values(alloc, scenario.participants())?;
    object.put(alloc, PARTICIPANTS, Value::Array(parts))?;
    Ok(object.into_value())
}

/// Puts the required names, unless they are those of all coordinated participants.
#[tactic(auto, unfolding(crate::specs::Written::required_data, crate::specs::Objects::put_some))]
fn put_required(alloc: Global, object: &mut Object, scenario: &Scenario) -> Result<(), WantOfMemory>
    ensures { OnOk result (members_view object.new.members.entries ≡ put_some required_key (spec.required_data scenario.now) (members_view object.old.members.entries)) }
{
    let required = scenario.required().as_slice();
    let default = coordinated_names(alloc, scenario.participants())?;
    if are_same(required, &default) {
        return Ok(());
    }
    object.put(alloc, REQUIRED, Value::Array(name_values(alloc, required)?))
}

/// Whether these are the same names in the same order.
fn are_same(names: &[Name], others: &[Name]) -> bool
    ensures { result ≡ spec.are_same names.now others.now }
{
    if names.len() != others.len() {
        return false;
    }
    for (index, name) in names.iter().enumerate() {
        if !name.is(&others[index]) {
            return false;
        }
    }
    true
}

/// Names, each as a text.
fn name_values(alloc: Global, names: &[Name]) -> Result<Vec<Value>, WantOfMemory>
    ensures { IfOk result (λ values. items_view values.items ≡ items string names.now) }
{
    let mut values = Vec::with_capacity(alloc, names.len())?;
    for name in names {
        values.push(Value::String(String::from_str(alloc, name.as_str())?))?;
    }
    Ok(values)
}

/// What is written of participants.
fn part_values(alloc: Global, parts: &[Part]) -> Result<Vec<Value>, WantOfMemory>
    ensures value { IfOk result (λ values. items_view values.items ≡ items part_data parts.now) }
    ensures fits { IfOk result (λ _. IsTrue (list_all part_fits parts.now)) }
{
    let mut values = Vec::with_capacity(alloc, parts.len())?;
    for part in parts {
        values.push(part_value(alloc, part)?)?;
    }
    Ok(values)
}

/// What is written of a participant.
#[tactic(auto, unfolding(crate::specs::Written::part_data, crate::specs::Objects::with_fields, crate::specs::Fitting::part_fits))]
fn part_value(alloc: Global, part: &Part) -> Result<Value, WantOfMemory>
    ensures value { IfOk result (λ value. view value ≡ part_data part.now) }
    ensures fits { IfOk result (λ _. IsTrue (part_fits part.now)) }
{
    let mut object = Object::new(alloc);
    object.put_text(alloc, NAME, part.name().as_str())?;
    put_mode(alloc, &mut object, part.is_coordinated())?;
    put_step(alloc, &mut object, part.step())?;
    object.put_list(alloc, SERVICES, service_values(alloc, part.services())?)?;
    put_vars(alloc, &mut object, part.vars())?;
    object.put_list(
        alloc,
        READY,
        action_values(alloc, part.scope(), part.ready())?,
    )?;
    object.put_list(
        alloc,
        SCRIPT,
        rule_values(alloc, part.scope(), part.script())?,
    )?;
    Ok(object.into_value())
}

/// Puts how a participant takes part, unless it is coordinated.
#[tactic(auto, unfolding(crate::specs::Objects::put_some))]
fn put_mode(alloc: Global, object: &mut Object, coordinated: bool) -> Result<(), WantOfMemory>
    ensures { OnOk result (members_view object.new.members.entries ≡ put_some mode_key (spec.mode_data coordinated) (members_view object.old.members.entries)) }
{
    if coordinated {
        Ok(())
    } else {
        object.put_text(alloc, MODE, "autonomous")
    }
}

/// Puts the size of its steps, where it has any.
#[tactic(auto, unfolding(crate::specs::Objects::put_some))]
fn put_step(alloc: Global, object: &mut Object, step: Option<u64>) -> Result<(), WantOfMemory>
    ensures { OnOk result (members_view object.new.members.entries ≡ put_some step_key (spec.step_data step) (members_view object.old.members.entries)) }
{
    match step {
        Some(size) => object.put_number(alloc, STEP, size),
        None => Ok(()),
    }
}
