//! Which scenarios are closed.

ghost use Rattle.std.specs.Prelude.{◌≡◌};
ghost use Rattle.std.specs.List.{list_all, list_any};
ghost use Rattle.std.specs.Str.{bytes_eq};
ghost use Rattle.sk_script.specs.Closed as spec;

use crate::scenario::{Part, Scenario};
use sk_base::Name;
use sk_msg::{Action, Command};
use sk_rules::{ScriptAction, ScriptRule};

/// Whether what happens in a run of the scenario depends on the file alone: each participant is
/// coordinated, required and synchronised, none reports an error, and controllers are changed only
/// when a participant gets ready. It takes no memory.
#[tactic(auto, unfolding(crate::specs::Closed::is_closed))]
pub fn is_closed(scenario: &Scenario) -> bool
    ensures { result ≡ spec.is_closed scenario.now }
{
    are_closed(scenario.required.as_slice(), &scenario.participants)
}

/// Whether these participants are as in a closed scenario that requires these names.
fn are_closed(required: &[Name], parts: &[Part]) -> bool
    ensures { result ≡ list_all (spec.is_closed_part required.now) parts.now }
{
    parts.iter().all(|part| is_closed_part(required, part))
}

/// Whether this participant is.
#[tactic(auto, unfolding(crate::specs::Closed::is_closed_part))]
fn is_closed_part(required: &[Name], part: &Part) -> bool
    ensures { result ≡ spec.is_closed_part required.now part.now }
{
    part.coordinated
        && is_required(required, &part.name)
        && part.step.is_some()
        && are_closed_ready(part.ready.as_slice())
        && are_closed_rules(part.script.as_slice())
}

/// Whether this is one of the names.
fn is_required(required: &[Name], name: &Name) -> bool
    ensures { result ≡ list_any (λ one. bytes_eq one name.now) required.now }
{
    required.iter().any(|one| one.is(name))
}

/// Whether these actions may stand where a participant gets ready.
fn are_closed_ready(actions: &[ScriptAction]) -> bool
    ensures { result ≡ list_all spec.is_closed_ready actions.now }
{
    actions.iter().all(|action| is_closed_ready(action))
}

/// Whether these rules may stand in a closed scenario.
fn are_closed_rules(rules: &[ScriptRule]) -> bool
    ensures { result ≡ list_all spec.is_closed_rule rules.now }
{
    rules.iter().all(|rule| is_closed_rule(rule))
}

/// Whether this rule may.
#[tactic(auto, unfolding(crate::specs::Closed::is_closed_rule))]
fn is_closed_rule(rule: &ScriptRule) -> bool
    ensures { result ≡ spec.is_closed_rule rule.now }
{
    are_closed_steps(rule.actions.as_slice())
}

/// Whether these actions may stand in a rule.
fn are_closed_steps(actions: &[ScriptAction]) -> bool
    ensures { result ≡ list_all spec.is_closed_step actions.now }
{
    actions.iter().all(|action| is_closed_step(action))
}

fn is_closed_ready(action: &ScriptAction) -> bool
    ensures { result ≡ spec.is_closed_ready action.now }
{
    match action {
        ScriptAction::Fixed(action) => !reports_error(action),
        ScriptAction::Append(action, _) => !reports_error(action),
        ScriptAction::Reply { .. } => true,
        ScriptAction::Set(_, _) => true,
        ScriptAction::Add(_, _) => true,
        ScriptAction::Take(_) => true,
    }
}

fn is_closed_step(action: &ScriptAction) -> bool
    ensures { result ≡ spec.is_closed_step action.now }
{
    match action {
        ScriptAction::Fixed(action) => !reports_error(action) && !changes_controller(action),
        ScriptAction::Append(action, _) => !reports_error(action) && !changes_controller(action),
        ScriptAction::Reply { .. } => true,
        ScriptAction::Set(_, _) => true,
        ScriptAction::Add(_, _) => true,
        ScriptAction::Take(_) => true,
    }
}

/// Whether a participant reports an error by this.
fn reports_error(action: &Action) -> bool
    ensures { result ≡ spec.reports_error action.now }
{
    match action {
        Action::Ask(Command::ReportError) => true,
        _ => false,
    }
}

/// Whether it changes a controller of a bus, and sends no frame.
fn changes_controller(action: &Action) -> bool
    ensures { result ≡ spec.changes_controller action.now }
{
    match action {
        Action::CanBaud(_, _)
        | Action::CanStart(_)
        | Action::CanStop(_)
        | Action::CanReset(_)
        | Action::CanSleep(_)
        | Action::EthActivate(_)
        | Action::EthDeactivate(_)
        | Action::LinInit(_, _)
        | Action::LinSetResponse(_, _)
        | Action::LinSleep(_)
        | Action::LinWakeup(_) => true,
        _ => false,
    }
}
