//! What a scenario says.

use sk_base::{Name, Text};
use sk_config::Warnings;
use sk_msg::{Names, Service};
use sk_rules::{Actions, Rules, Scope, ScriptAction, ScriptRule, Var};
use std::marker::Model;

/// A participant. Contracts see one field for each of its calls.
#[derive(Debug, Drop)]
pub struct Part {
    pub(crate) name: Name,
    pub(crate) coordinated: bool,
    pub(crate) step: Option<u64>,
    pub(crate) scope: Scope,
    pub(crate) ready: Actions,
    pub(crate) script: Rules,
}

impl Model for Part {
    ghost use Rattle.std.specs.Prelude.{IsTrue};
    ghost use Rattle.sk_script.specs.Scenarios.{PartValue, is_part};

    ghost Value = { PartValue };

    ghost view = { λ p. record {
      name = p.name;
      coordinated = p.coordinated;
      step = p.step;
      services = p.scope.services;
      vars = p.scope.vars;
      ready = p.ready;
      script = p.script;
    } };

    ghost invariant = { λ p. IsTrue (is_part (record {
      name = p.name;
      coordinated = p.coordinated;
      step = p.step;
      services = p.scope.services;
      vars = p.scope.vars;
      ready = p.ready;
      script = p.script;
    })) };
}

impl Part {
    ghost use Rattle.std.specs.Prelude.{◌≡◌, IsTrue};
    ghost use Rattle.sk_script.specs.Scenarios.{is_part, scope_of};

    /// A participant of which the rules of the format are known to hold.
    pub fn new(
        name: Name,
        coordinated: bool,
        step: Option<u64>,
        scope: Scope,
        ready: Actions,
        script: Rules,
    ) -> Part
        requires rules { IsTrue (is_part (record {
          name = name;
          coordinated = coordinated;
          step = step;
          services = scope.services;
          vars = scope.vars;
          ready = ready;
          script = script;
        })) }
        ensures { result ≡ record {
          name = name;
          coordinated = coordinated;
          step = step;
          services = scope.services;
          vars = scope.vars;
          ready = ready;
          script = script;
        } }
    {
        Part {
            name,
            coordinated,
            step,
            scope,
            ready,
            script,
        }
    }

    /// Its name. In a [`Scenario`] no other participant has it.
    pub fn name(&self) -> &Name
        ensures value { result.now ≡ self.now.name }
        ensures rules { IsTrue (is_part self.now) }
    {
        &self.name
    }

    /// Whether it is coordinated: the others wait for it, and it for them. Else it is autonomous.
    pub fn is_coordinated(&self) -> bool
        ensures value { result ≡ self.now.coordinated }
        ensures rules { IsTrue (is_part self.now) }
    {
        self.coordinated
    }

    /// The size of its steps, 1 to 2^60 nanoseconds of virtual time, or None where it isn't
    /// synchronised.
    pub fn step(&self) -> Option<u64>
        ensures value { result ≡ self.now.step }
        ensures rules { IsTrue (is_part self.now) }
    {
        self.step
    }

    /// What its actions may name: at most 64 services, whose numbers are their indices, and at most
    /// 64 variables.
    pub fn scope(&self) -> &Scope
        ensures value { result.now ≡ scope_of self.now }
        ensures rules { IsTrue (is_part self.now) }
    {
        &self.scope
    }

    /// Its services.
    pub fn services(&self) -> &[Service]
        ensures value { result.now ≡ self.now.services }
        ensures rules { IsTrue (is_part self.now) }
    {
        self.scope.services.as_slice()
    }

    /// Its variables.
    pub fn vars(&self) -> &[Var]
        ensures value { result.now ≡ self.now.vars }
        ensures rules { IsTrue (is_part self.now) }
    {
        self.scope.vars.as_slice()
    }

    /// What it does when it is ready.
    pub fn ready(&self) -> &[ScriptAction]
        ensures value { result.now ≡ self.now.ready }
        ensures rules { IsTrue (is_part self.now) }
    {
        self.ready.as_slice()
    }

    /// Its rules, at most 256.
    pub fn script(&self) -> &[ScriptRule]
        ensures value { result.now ≡ self.now.script }
        ensures rules { IsTrue (is_part self.now) }
    {
        self.script.as_slice()
    }
}

/// A scenario. It has 1 to 32 participants in the byte order of their names, which are distinct. It
/// lasts 2^61 nanoseconds at most. The required names are distinct too, and each is that of a
/// coordinated participant; there is none only where nobody is coordinated.
///
/// Contracts see one field for each key.
#[derive(Debug, Drop)]
pub struct Scenario {
    pub(crate) duration: u64,
    pub(crate) required: Names,
    pub(crate) participants: Vec<Part>,
}

impl Model for Scenario {
    ghost use Rattle.std.specs.Prelude.{IsTrue};
    ghost use Rattle.sk_script.specs.Scenarios.{ScenarioValue, is_scenario};

    ghost Value = { ScenarioValue };

    ghost view = { λ s. record { duration = s.duration; required = s.required; participants = s.participants.items } };

    ghost invariant = { λ s. IsTrue (is_scenario (record { duration = s.duration; required = s.required; participants = s.participants.items })) };
}

impl Scenario {
    ghost use Rattle.std.specs.Prelude.{◌≡◌, IsTrue};
    ghost use Rattle.sk_script.specs.Scenarios.{is_scenario};

    /// A scenario of which the rules of the format are known to hold.
    pub fn new(duration: u64, required: Names, participants: Vec<Part>) -> Scenario
        requires rules { IsTrue (is_scenario (record { duration = duration; required = required; participants = participants.items })) }
        ensures { result ≡ record { duration = duration; required = required; participants = participants.items } }
    {
        Scenario {
            duration,
            required,
            participants,
        }
    }

    /// How long the run is, 0 to 2^61 nanoseconds of virtual time.
    pub fn duration(&self) -> u64
        ensures value { result ≡ self.now.duration }
        ensures rules { IsTrue (is_scenario self.now) }
    {
        self.duration
    }

    /// The names of those whose states make the state of the system: as the file has them, or else
    /// those of all coordinated participants in the order of their numbers. At most 32; there is
    /// none where nobody is coordinated.
    pub fn required(&self) -> &Names
        ensures value { result.now ≡ self.now.required }
        ensures rules { IsTrue (is_scenario self.now) }
    {
        &self.required
    }

    /// The participants, 1 to 32. The number of each is its index.
    pub fn participants(&self) -> &[Part]
        ensures value { result.now ≡ self.now.participants }
        ensures rules { IsTrue (is_scenario self.now) }
    {
        self.participants.as_slice()
    }
}

/// A participant as it was read. Contracts see one field for each of these.
#[derive(Debug, Drop)]
pub(crate) struct PartRead {
    /// What the file says, with its configuration.
    pub(crate) part: Part,
    /// The address of the registry that its configuration names.
    pub(crate) uri: Option<Text>,
    /// What its configuration says in vain.
    pub(crate) warnings: Warnings,
}

impl Model for PartRead {
    ghost use Rattle.sk_script.specs.Scenarios.{PartReadValue};

    ghost Value = { PartReadValue };

    ghost view = { λ r. record { part = r.part; uri = r.uri; warnings = r.warnings } };
}

/// A scenario as it was read. Contracts see the list of addresses.
#[derive(Debug, Drop)]
pub struct ScenarioRead {
    /// What the file says.
    pub scenario: Scenario,
    /// The addresses of the registry that the configurations name, by the participants' numbers.
    pub uris: Vec<Option<Text>>,
    /// What the configurations say in vain, in the order in which the file has the participants.
    pub warnings: Warnings,
}

impl Model for ScenarioRead {
    ghost use Rattle.sk_script.specs.Scenarios.{ScenarioReadValue};

    ghost Value = { ScenarioReadValue };

    ghost view = { λ r. record { scenario = r.scenario; uris = r.uris.items; warnings = r.warnings } };
}
