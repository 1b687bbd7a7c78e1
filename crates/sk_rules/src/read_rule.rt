//! Reading rules: from JSON to what is done when, or the first fault.

ghost use Rattle.std.specs.Prelude.{◌≡◌, [], List, ℕ};
ghost use Rattle.serde_json.specs.View.{view, items_view};
ghost use Rattle.sk_rules.specs.Outcome.{Answers, AnswersAs};
ghost use Rattle.sk_rules.specs.Rules as spec;

use crate::action::Actions;
use crate::fault::{Rule, ScenarioFault};
use crate::field;
use crate::items::{ReadItem, read_items};
use crate::keys::{AT, DO, EVERY, FROM, ON, RuleObject};
use crate::place::{Place, Scope};
use crate::read_action::{named_server, read_actions};
use crate::rule::{Condition, Rules, ScriptRule, When};
use serde_json::Value;
use sk_base::limits::{LATEST_NS, LONGEST_STEP_NS, MOST_ACTIONS};
use sk_config::Path;
use std::alloc::Global;

/// A reader of rules.
#[derive(Drop)]
struct RuleReader<'a> {
    scope: &'a Scope,
}

impl<'a> ReadItem for RuleReader<'a> {
    type Item = ScriptRule;

    ghost meaning = { λ reader at _ d. spec.rule_read reader.scope.now at d };

    fn read(
        &self,
        alloc: Global,
        at: &Path,
        _earlier: &[ScriptRule],
        value: &Value,
    ) -> Result<ScriptRule, ScenarioFault> {
        read_rule(alloc, self.scope, at, value)
    }
}

/// The rules that these values are.
#[tactic(auto, unfolding(crate::specs::Rules::rules_read))]
pub fn read_rules(
    alloc: Global,
    scope: &Scope,
    at: &Path,
    items: &[Value],
) -> Result<Rules, ScenarioFault>
    ensures { Answers (spec.rules_read scope.now at.now (items_view items.now)) result }
{
    let reader = RuleReader { scope };
    let rules = read_items(alloc, &reader, at, items)?;
    Ok(Rules::new(rules))
}

/// The rule that this value is.
#[tactic(auto, unfolding(crate::specs::Rules::rule_read))]
fn read_rule(
    alloc: Global,
    scope: &Scope,
    at: &Path,
    value: &Value,
) -> Result<ScriptRule, ScenarioFault>
    ensures { Answers (spec.rule_read scope.now at.now (view value.now)) result }
{
    field::enter(alloc, &RuleObject::Rule, at, value)?;
    let Some(condition) = condition_of(value) else {
        return Err(field::refused_at(alloc, at, Rule::NotAllowedHere));
    };
    if !may_start(condition, field::has(FROM, value)) {
        return Err(field::refused(alloc, at, FROM, Rule::UnknownKey));
    }
    let actions = read_do(alloc, scope, at, value)?;
    let when = read_when(alloc, scope, condition, at, value)?;
    Ok(ScriptRule { when, actions })
}

/// The one condition that the object has.
#[tactic(auto, unfolding(crate::specs::Rules::condition_of))]
fn condition_of(object: &Value) -> Option<Condition>
    ensures { result ≡ spec.condition_of (view object.now) }
{
    the_condition(
        field::has(AT, object),
        field::has(EVERY, object),
        field::has(ON, object),
    )
}

/// The one condition, by which of the three keys are there.
fn the_condition(at: bool, every: bool, on: bool) -> Option<Condition>
    ensures { result ≡ spec.the_condition at every on }
{
    match (at, every, on) {
        (true, false, false) => Some(Condition::At),
        (false, true, false) => Some(Condition::Every),
        (false, false, true) => Some(Condition::On),
        _ => None,
    }
}

/// Whether `from` may be there or not, as it is.
fn may_start(condition: Condition, from: bool) -> bool
    ensures { result ≡ spec.may_start condition from }
{
    match condition {
        Condition::Every => true,
        Condition::At => !from,
        Condition::On => !from,
    }
}

/// Where the actions of a rule stand.
#[tactic(auto, unfolding(crate::specs::Rules::place_of))]
fn place_of(scope: &Scope, object: &Value) -> Place
    ensures { result ≡ spec.place_of scope.now (view object.now) }
{
    if field::has(ON, object) {
        Place::On(named_server(scope, ON, object))
    } else {
        Place::Timed
    }
}

/// The actions of a rule.
#[tactic(auto, unfolding(crate::specs::Rules::do_read))]
fn read_do(
    alloc: Global,
    scope: &Scope,
    at: &Path,
    object: &Value,
) -> Result<Actions, ScenarioFault>
    ensures { Answers (spec.do_read scope.now at.now (view object.now)) result }
{
    let Some(items) = field::list_at(alloc, at, DO, object, 1, MOST_ACTIONS)? else {
        return Err(field::refused(alloc, at, DO, Rule::Missing));
    };
    let path = at.key(alloc, DO)?;
    read_actions(alloc, scope, place_of(scope, object), &path, items)
}

/// When a rule of this condition is carried out.
fn read_when(
    alloc: Global,
    scope: &Scope,
    condition: Condition,
    at: &Path,
    object: &Value,
) -> Result<When, ScenarioFault>
    ensures { Answers (spec.when_read scope.now condition at.now (view object.now)) result }
{
    match condition {
        Condition::At => read_at(alloc, at, object),
        Condition::Every => read_every(alloc, at, object),
        Condition::On => read_on(alloc, scope, at, object),
    }
}

/// The time at which a rule is carried out.
#[tactic(auto, unfolding(crate::specs::Rules::at_read))]
fn read_at(alloc: Global, at: &Path, object: &Value) -> Result<When, ScenarioFault>
    ensures { Answers (spec.at_read at.now (view object.now)) result }
{
    let time = field::needed_number(alloc, at, AT, object, 0, LATEST_NS)?;
    Ok(When::At(time))
}

/// How often and from when on a rule is carried out.
#[tactic(auto, unfolding(crate::specs::Rules::every_read))]
fn read_every(alloc: Global, at: &Path, object: &Value) -> Result<When, ScenarioFault>
    ensures { Answers (spec.every_read at.now (view object.now)) result }
{
    let size = field::needed_number(alloc, at, EVERY, object, 1, LONGEST_STEP_NS)?;
    let from = field::number_at(alloc, at, FROM, object, 0, u64::MAX)?.unwrap_or(0);
    Ok(When::Every { size, from })
}

/// The service for whose messages a rule is carried out.
#[tactic(auto, unfolding(crate::specs::Rules::on_read))]
fn read_on(alloc: Global, scope: &Scope, at: &Path, object: &Value) -> Result<When, ScenarioFault>
    ensures { Answers (spec.on_read scope.now at.now (view object.now)) result }
{
    let name = field::needed_name(alloc, at, ON, object)?;
    match scope.receiver(name.as_str()) {
        Some(service) => Ok(When::On(service)),
        None => Err(field::refused(alloc, at, ON, Rule::NoSuchService)),
    }
}
