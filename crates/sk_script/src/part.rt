//! Reading participants: from JSON to what one is and does, or the first fault.

ghost use Rattle.std.specs.Prelude.{◌≡◌, ◌++◌, Some, unwrap_or, IfOk, IfSome, IsTrue};
ghost use Rattle.serde_json.specs.View.{view, items_view};
ghost use Rattle.sk_config.specs.Configs.{is_config};
ghost use Rattle.sk_rules.specs.Outcome.{Answers, AnswersAs};
ghost use Rattle.sk_rules.specs.Vars.{are_vars};
ghost use Rattle.sk_script.specs.Parts as spec;
ghost use Rattle.sk_script.specs.Scenarios.{is_part};

use crate::keys::{CONFIG, MODE, NAME, Object, READY, SCRIPT, SERVICES, STEP, VARS};
use crate::scenario::{Part, PartRead};
use crate::service::read_services;
use crate::word::Mode;
use serde_json::Value;
use sk_base::limits::{LONGEST_STEP_NS, MOST_SERVICES};
use sk_base::{Name, Text, WantOfMemory};
use sk_config::{Config, ConfigFault, ConfigRead, Path, Warnings, apply_at};
use sk_msg::Service;
use sk_rules::{
    Actions, MOST_RULES, Place, ReadItem, Rule, Rules, ScenarioFault, Scope, Vars, field, laws,
    read_actions, read_rules, read_vars,
};
use std::alloc::Global;
use std::marker::Model;

/// A reader of participants.
#[derive(Drop)]
pub(crate) struct PartReader;

impl ReadItem for PartReader {
    type Item = PartRead;

    ghost meaning = { λ _ at _ d. spec.part_read at d };

    fn read(
        &self,
        alloc: Global,
        at: &Path,
        _earlier: &[PartRead],
        value: &Value,
    ) -> Result<PartRead, ScenarioFault> {
        read_part(alloc, at, value)
    }
}

/// The participant that this value is.
#[tactic(auto, unfolding(crate::specs::Parts::part_read))]
fn read_part(alloc: Global, at: &Path, item: &Value) -> Result<PartRead, ScenarioFault>
    ensures { Answers (spec.part_read at.now (view item.now)) result }
{
    field::enter(alloc, &Object::Participant, at, item)?;
    let name = field::needed_name(alloc, at, NAME, item)?;
    let coordinated = is_coordinated(field::word_at::<Mode>(alloc, at, MODE, item)?);
    let step = field::number_at(alloc, at, STEP, item, 1, LONGEST_STEP_NS)?;
    let services = read_own_services(alloc, at, item)?;
    let config = read_config(alloc, at, item)?;
    let vars = read_own_vars(alloc, at, item)?;
    let scope = Scope { services, vars };
    let ready = read_ready(alloc, &scope, at, item)?;
    let script = read_script(alloc, &scope, at, item)?;
    let path = at.key(alloc, CONFIG)?;
    let Scope { services, vars } = scope;
    let own = apply(alloc, &path, config, name, services)?;
    laws::actions_keep_rules();
    laws::rules_keep_rules();
    Ok(make(own, coordinated, step, vars, ready, script))
}

/// All that was read of a participant.
fn make(
    own: Applied,
    coordinated: bool,
    step: Option<u64>,
    vars: Vars,
    ready: Actions,
    script: Rules,
) -> PartRead
    requires rules { IsTrue (is_part (spec.made own coordinated step vars ready script).part) }
    ensures { result ≡ spec.made own coordinated step vars ready script }
{
    PartRead {
        part: Part {
            name: own.name,
            coordinated,
            step,
            scope: Scope {
                services: own.services,
                vars,
            },
            ready,
            script,
        },
        uri: own.uri,
        warnings: own.warnings,
    }
}

/// Whether a participant of this mode is coordinated, as it is where it doesn't say.
fn is_coordinated(mode: Option<Mode>) -> bool
    ensures { result ≡ spec.is_coordinated mode }
{
    match mode {
        None => true,
        Some(Mode::Coordinated) => true,
        Some(Mode::Autonomous) => false,
    }
}

/// The services of a participant.
#[tactic(auto, unfolding(crate::specs::Parts::services_read, crate::specs::Services::services_in))]
fn read_own_services(alloc: Global, at: &Path, item: &Value) -> Result<Vec<Service>, ScenarioFault>
    ensures { AnswersAs (λ services. services.items) (spec.services_read at.now (view item.now)) result }
{
    let most = MOST_SERVICES as usize;
    let Some(items) = field::list_at(alloc, at, SERVICES, item, 0, most)? else {
        return Ok(Vec::new(alloc));
    };
    let path = at.key(alloc, SERVICES)?;
    read_services(alloc, &path, items)
}

/// The variables of a participant.
#[tactic(auto, unfolding(crate::specs::Parts::own_vars_read))]
fn read_own_vars(alloc: Global, at: &Path, item: &Value) -> Result<Vars, ScenarioFault>
    ensures value { Answers (spec.own_vars_read at.now (view item.now)) result }
    ensures rules { IfOk result (λ vars. IsTrue (are_vars vars)) }
{
    let Some(value) = item.get(VARS) else {
        return Ok(Vars::none(alloc));
    };
    let path = at.key(alloc, VARS)?;
    read_vars(alloc, &path, value)
}

/// What a participant does when it is ready.
#[tactic(auto, unfolding(crate::specs::Parts::ready_read, sk_rules::specs::Actions::actions_read))]
fn read_ready(
    alloc: Global,
    scope: &Scope,
    at: &Path,
    item: &Value,
) -> Result<Actions, ScenarioFault>
    ensures { Answers (spec.ready_read scope.now at.now (view item.now)) result }
{
    let Some(items) = field::list_at(alloc, at, READY, item, 0, usize::MAX)? else {
        return Ok(Actions::new(Vec::new(alloc)));
    };
    let path = at.key(alloc, READY)?;
    read_actions(alloc, scope, Place::Ready, &path, items)
}

/// The rules of a participant.
#[tactic(auto, unfolding(crate::specs::Parts::script_read, sk_rules::specs::Rules::rules_read))]
fn read_script(
    alloc: Global,
    scope: &Scope,
    at: &Path,
    item: &Value,
) -> Result<Rules, ScenarioFault>
    ensures { Answers (spec.script_read scope.now at.now (view item.now)) result }
{
    let Some(items) = field::list_at(alloc, at, SCRIPT, item, 0, MOST_RULES)? else {
        return Ok(Rules::new(Vec::new(alloc)));
    };
    let path = at.key(alloc, SCRIPT)?;
    read_rules(alloc, scope, &path, items)
}

/// The configuration of a participant, if it has one.
#[tactic(auto, unfolding(crate::specs::Parts::config_read))]
fn read_config(alloc: Global, at: &Path, item: &Value) -> Result<Option<ConfigRead>, ScenarioFault>
    ensures { Answers (spec.config_read at.now (view item.now)) result }
{
    let Some(value) = item.get(CONFIG) else {
        return Ok(None);
    };
    let path = at.key(alloc, CONFIG)?;
    match sk_config::read_value(alloc, &path, value) {
        Ok(read) => Ok(Some(read)),
        Err(fault) => Err(said(fault)),
    }
}

/// A fault of a configuration, as a scenario says it.
fn said(fault: ConfigFault) -> ScenarioFault
    ensures { result ≡ spec.said fault }
{
    match fault {
        ConfigFault::NotJson => ScenarioFault::NotJson,
        ConfigFault::Missing(path) => ScenarioFault::Refused(path, Rule::Missing),
        ConfigFault::WrongType(path) => ScenarioFault::Refused(path, Rule::WrongType),
        ConfigFault::BadValue(path) => ScenarioFault::Refused(path, Rule::OutOfRange),
        ConfigFault::Double(path) => ScenarioFault::Refused(path, Rule::NameTaken),
        ConfigFault::WantOfMemory => ScenarioFault::WantOfMemory,
    }
}

/// What a configuration changes of a participant, and what else it says. Contracts see the lists.
#[derive(Drop)]
struct Applied {
    name: Name,
    services: Vec<Service>,
    uri: Option<Text>,
    warnings: Warnings,
}

impl Model for Applied {
    ghost use Rattle.sk_script.specs.Parts.{AppliedValue};

    ghost Value = { AppliedValue };

    ghost view = { λ a. record { name = a.name; services = a.services.items; uri = a.uri; warnings = a.warnings } };
}

/// The name and the services with what the configuration says in place of their own, where it
/// stands at this path.
fn apply(
    alloc: Global,
    at: &Path,
    config: Option<ConfigRead>,
    name: Name,
    services: Vec<Service>,
) -> Result<Applied, WantOfMemory>
    ensures value { IfOk result (λ own. own ≡ spec.applied at.now config name services.items) }
    ensures rules { IfOk result (λ _. IfSome config (λ read. IsTrue (is_config read.config))) }
{
    match config {
        Some(read) => apply_read(alloc, at, read, name, services),
        None => Ok(Applied {
            name,
            services,
            uri: None,
            warnings: Warnings::new(Vec::new(alloc)),
        }),
    }
}

/// The same for a configuration that there is.
fn apply_read(
    alloc: Global,
    at: &Path,
    read: ConfigRead,
    name: Name,
    services: Vec<Service>,
) -> Result<Applied, WantOfMemory>
    ensures value { IfOk result (λ own. own ≡ spec.applied at.now (Some read) name services.items) }
    ensures rules { IfOk result (λ _. IsTrue (is_config read.config)) }
{
    let mut services = services;
    let unserved = apply_at(alloc, at, &read.config, &mut services)?;
    let name = name_in(alloc, &read.config, name)?;
    let uri = uri_in(alloc, &read.config)?;
    let warnings = joined(read.warnings, unserved)?;
    Ok(Applied {
        name,
        services,
        uri,
        warnings,
    })
}

/// The name that a configuration gives a participant, or else this one.
fn name_in(alloc: Global, config: &Config, name: Name) -> Result<Name, WantOfMemory>
    ensures value { IfOk result (λ own. own ≡ unwrap_or config.now.participant_name name) }
    ensures rules { IsTrue (is_config config.now) }
{
    match config.participant_name() {
        Some(given) => given.copy(alloc),
        None => Ok(name),
    }
}

/// The address of the registry that a configuration names.
fn uri_in(alloc: Global, config: &Config) -> Result<Option<Text>, WantOfMemory>
    ensures { IfOk result (λ uri. uri ≡ config.now.registry_uri) }
{
    match config.registry_uri() {
        Some(uri) => Ok(Some(uri.copy(alloc)?)),
        None => Ok(None),
    }
}

/// Both lists of warnings, one behind the other.
fn joined(warnings: Warnings, more: Warnings) -> Result<Warnings, WantOfMemory>
    ensures { IfOk result (λ all. all ≡ warnings ++ more) }
{
    let mut all = warnings.into_vec();
    for warning in more.into_vec() {
        all.push(warning)?;
    }
    Ok(Warnings::new(all))
}
