//! A script, and the values of its variables.

ghost use Rattle.std.specs.Prelude.{◌≡◌, map, length, IfOk, OnOk, OnErr, IsTrue};
ghost use Rattle.std.specs.List.{list_all};
ghost use Rattle.sk_law.specs.Script.{delivered};
ghost use Rattle.sk_rules.specs.Scripts.{is_action, is_rule};
ghost use Rattle.sk_rules.specs.declared.place.Place.TheVariants as places;
ghost use Rattle.sk_machine.specs.Index.{by_service};
ghost use Rattle.sk_machine.specs.Machines.{part_script, first_values};
ghost use Rattle.sk_machine.specs.Playing as spec;
ghost use Rattle.sk_machine.specs.Sound.{leaves_room, is_sound};

use crate::copies::{copy_actions, copy_rules, first_values, kinds_of};
use crate::index::by_service;
use crate::play::{play_ready, play_step};
use sk_base::{SimTime, WantOfMemory};
use sk_law::Visible;
use sk_msg::{Action, ServiceKind};
use sk_rules::{Rules, Scope, ScriptAction, ScriptRule};
use std::alloc::Global;
use std::marker::Model;

/// The script of a participant, and the values of its variables: what the participant does by
/// itself. It may move between threads.
///
/// `ready` is for the call when communication is ready, and `step` for each step. Each answers what
/// is asked of the participant, and the variables have their new values from then on. After want
/// of memory the machine is as it was.
///
/// It keeps a copy of the script, and of the rules of each service one more by which they are looked
/// up, but nothing of what it saw.
#[derive(Debug, Drop)]
pub struct Machine {
    alloc: Global,
    kinds: Vec<ServiceKind>,
    when_ready: Vec<ScriptAction>,
    rules: Vec<ScriptRule>,
    on: Vec<Rules>,
    values: Vec<u64>,
}

impl Model for Machine {
    ghost use Rattle.std.specs.Prelude.{◌≡◌, length, IsTrue};
    ghost use Rattle.std.specs.List.{list_all};
    ghost use Rattle.sk_machine.specs.Index.{by_service};
    ghost use Rattle.sk_machine.specs.Machines.{MachineValue};
    ghost use Rattle.sk_machine.specs.Sound.{leaves_room, is_sound};

    ghost Value = { MachineValue };

    ghost view = { λ m. record {
      part = record { kinds = m.kinds.items; when_ready = m.when_ready.items; rules = m.rules.items };
      values = m.values.items;
    } };

    ghost invariant = { λ m. IsTrue (list_all leaves_room m.when_ready.items) × IsTrue (list_all is_sound m.rules.items) × (m.on.items ≡ by_service (length m.kinds.items) m.rules.items) };
}

impl Machine {
    /// The machine of a participant with these services and variables. It does this when it is
    /// ready, and goes by these rules. The variables have their first values.
    pub fn new(
        alloc: Global,
        scope: &Scope,
        when_ready: &[ScriptAction],
        rules: &[ScriptRule],
    ) -> Result<Machine, WantOfMemory>
        requires actions { IsTrue (list_all (is_action scope.now places.Ready) when_ready.now) }
        requires rules { IsTrue (list_all (is_rule scope.now) rules.now) }
        ensures { IfOk result (λ machine. machine ≡ record { part = part_script scope.now when_ready.now rules.now; values = first_values scope.now.vars }) }
    {
        let kinds = kinds_of(alloc, &scope.services)?;
        let values = first_values(alloc, scope.vars.as_slice())?;
        let when_ready = copy_actions(alloc, when_ready)?;
        let rules = copy_rules(alloc, rules)?;
        let on = by_service(alloc, kinds.len(), &rules)?;
        Ok(make(alloc, kinds, when_ready, rules, on, values))
    }

    /// What is asked for when communication is ready: what the actions of the ready list ask for, in
    /// order.
    pub fn ready(&mut self) -> Result<Vec<Action>, WantOfMemory>
        ensures asked { IfOk result (λ actions. actions.items ≡ (spec.ready self.old.part self.old.values).actions) }
        ensures ok { OnOk result (self.new ≡ record self.old { values = (spec.ready self.old.part self.old.values).values }) }
        ensures err { OnErr result (self.new ≡ self.old) }
    {
        let play = play_ready(self.alloc, &self.values, &self.when_ready)?;
        self.values = play.values;
        Ok(play.actions)
    }

    /// What is asked for in a step at this time that sees these messages: for each of them, in
    /// order, what the rules of its receiver ask for; then what those ask for that are due at the
    /// time. Rules go in order, and so do the actions of a rule.
    pub fn step(&mut self, at: SimTime, seen: &[Visible]) -> Result<Vec<Action>, WantOfMemory>
        ensures asked { IfOk result (λ actions. actions.items ≡ (spec.script self.old.part self.old.values at (map delivered seen.now)).actions) }
        ensures ok { OnOk result (self.new ≡ record self.old { values = (spec.script self.old.part self.old.values at (map delivered seen.now)).values }) }
        ensures err { OnErr result (self.new ≡ self.old) }
    {
        let step = play_step(
            self.alloc,
            &self.values,
            &self.kinds,
            &self.on,
            &self.rules,
            at,
            seen,
        )?;
        self.values = step.values;
        Ok(step.actions)
    }
}

/// A machine of all that it keeps.
fn make(
    alloc: Global,
    kinds: Vec<ServiceKind>,
    when_ready: Vec<ScriptAction>,
    rules: Vec<ScriptRule>,
    on: Vec<Rules>,
    values: Vec<u64>,
) -> Machine
    requires room { IsTrue (list_all leaves_room when_ready.items) }
    requires sound { IsTrue (list_all is_sound rules.items) }
    requires looked_up { on.items ≡ by_service (length kinds.items) rules.items }
    ensures { result ≡ record { part = record { kinds = kinds.items; when_ready = when_ready.items; rules = rules.items }; values = values.items } }
{
    Machine {
        alloc,
        kinds,
        when_ready,
        rules,
        on,
        values,
    }
}
