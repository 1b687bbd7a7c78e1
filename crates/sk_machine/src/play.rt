//! What the rules of a script do, one after another.

ghost use Rattle.std.specs.Prelude.{◌≡◌, List, [], ◌∷◌, ◌++◌, map, length, slice_index, OnOk, IfOk, IsTrue};
ghost use Rattle.std.specs.List.{fold, list_all};
ghost use Rattle.sk_law.specs.Script.{delivered};
ghost use Rattle.sk_machine.specs.Index.{by_service, hear_by};
ghost use Rattle.sk_machine.specs.Machines.{played};
ghost use Rattle.sk_machine.specs.declared.cause.Cause.TheVariants as causes;
ghost use Rattle.sk_machine.specs.Playing as spec;
ghost use Rattle.sk_machine.specs.Sound.{leaves_room, has_room, is_sound};

use crate::cause::{Cause, cause_of, is_taken};
use crate::index::rules_at;
use crate::payload::{appended, extended};
use sk_base::{Bytes, SimTime, WantOfMemory};
use sk_law::Visible;
use sk_msg::{Action, ServiceKind};
use sk_rpc::OpenCall;
use sk_rules::{Rules, ScriptAction, ScriptRule};
use std::alloc::Global;

/// The values of the variables by their places, and what was asked for so far.
#[derive(Debug, Drop)]
pub(crate) struct Play {
    pub(crate) values: Vec<u64>,
    pub(crate) actions: Vec<Action>,
}

impl Play {
    /// With these values, and nothing asked for.
    fn start(alloc: Global, values: &[u64]) -> Result<Play, WantOfMemory>
        ensures { IfOk result (λ play. played play ≡ record { values = values.now; actions = [] }) }
    {
        Ok(Play {
            values: Vec::from_slice(alloc, values)?,
            actions: Vec::new(alloc),
        })
    }

    /// One action more is asked for.
    fn ask(&mut self, action: Action) -> Result<(), WantOfMemory>
        ensures { OnOk result (played self.new ≡ spec.ask (action ∷ []) (played self.old)) }
    {
        self.actions.push(action)?;
        Ok(())
    }

    /// The value of a variable.
    fn value(&self, variable: u32) -> u64
        ensures { result ≡ slice_index self.now.values.items variable }
    {
        self.values.get(variable as usize).copied().unwrap_or(0)
    }

    /// A variable has this value from now on.
    fn assign(&mut self, variable: u32, value: u64)
        ensures { played self.new ≡ spec.assign variable value (played self.old) }
    {
        let place = variable as usize;
        if place < self.values.len() {
            self.values[place] = value;
        }
    }

    /// A server answers this call, if there is one.
    fn answer(
        &mut self,
        alloc: Global,
        call: Option<OpenCall>,
        service: u32,
        payload: &Bytes,
        append: Option<u32>,
    ) -> Result<(), WantOfMemory>
        requires room { IsTrue (has_room payload.now append) }
        ensures { OnOk result (played self.new ≡ spec.ask (spec.answers service (spec.answer_bytes self.old.values.items payload.now append) call) (played self.old)) }
    {
        let Some(call) = call else {
            return Ok(());
        };
        let payload = self.answer_bytes(alloc, payload, append)?;
        self.ask(Action::Submit {
            service,
            peer: call.peer,
            client: call.client,
            call: call.call,
            payload,
        })
    }

    /// The bytes of an answer: with those of a variable behind them, if one is named.
    fn answer_bytes(
        &self,
        alloc: Global,
        payload: &Bytes,
        append: Option<u32>,
    ) -> Result<Bytes, WantOfMemory>
        requires room { IsTrue (has_room payload.now append) }
        ensures { IfOk result (λ bytes. bytes ≡ spec.answer_bytes self.now.values.items payload.now append) }
    {
        match append {
            None => payload.copy(alloc),
            Some(variable) => appended(alloc, payload, self.value(variable)),
        }
    }

    /// Carries out one action.
    fn act(
        &mut self,
        alloc: Global,
        cause: Cause,
        action: &ScriptAction,
    ) -> Result<(), WantOfMemory>
        requires room { IsTrue (leaves_room action.now) }
        ensures { OnOk result (played self.new ≡ spec.act cause (played self.old) action.now) }
    {
        match action {
            ScriptAction::Fixed(action) => self.ask(action.copy(alloc)?),
            ScriptAction::Append(action, variable) => {
                let value = self.value(*variable);
                self.ask(extended(alloc, action, value)?)
            }
            ScriptAction::Reply {
                service,
                payload,
                append,
            } => self.answer(alloc, cause.call(), *service, payload, *append),
            ScriptAction::Set(variable, value) => {
                self.assign(*variable, *value);
                Ok(())
            }
            ScriptAction::Add(variable, value) => {
                let sum = self.value(*variable).saturating_add(*value);
                self.assign(*variable, sum);
                Ok(())
            }
            ScriptAction::Take(variable) => {
                self.assign(*variable, cause.number());
                Ok(())
            }
        }
    }

    /// Carries out actions in order.
    fn act_all(
        &mut self,
        alloc: Global,
        cause: Cause,
        actions: &[ScriptAction],
    ) -> Result<(), WantOfMemory>
        requires room { IsTrue (list_all leaves_room actions.now) }
        ensures { OnOk result (played self.new ≡ spec.act_all cause (played self.old) actions.now) }
    {
        for action in actions {
            self.act(alloc, cause, action)?;
        }
        Ok(())
    }

    /// Carries out a rule, where the cause fires it.
    fn follow(&mut self, alloc: Global, cause: Cause, rule: &ScriptRule) -> Result<(), WantOfMemory>
        requires sound { IsTrue (is_sound rule.now) }
        ensures { OnOk result (played self.new ≡ spec.follow cause (played self.old) rule.now) }
    {
        if cause.fires(rule.when) {
            self.act_all(alloc, cause, rule.actions.as_slice())?;
        }
        Ok(())
    }

    /// Carries out each rule that the cause fires, in order.
    fn follow_all(
        &mut self,
        alloc: Global,
        cause: Cause,
        rules: &[ScriptRule],
    ) -> Result<(), WantOfMemory>
        requires sound { IsTrue (list_all is_sound rules.now) }
        ensures { OnOk result (played self.new ≡ spec.follow_all cause rules.now (played self.old)) }
    {
        for rule in rules {
            self.follow(alloc, cause, rule)?;
        }
        Ok(())
    }

    /// Carries out the rules of the service that a message was handed to. These are the kinds of the
    /// own services, and the rules of each.
    fn hear(
        &mut self,
        alloc: Global,
        kinds: &[ServiceKind],
        on: &[Rules],
        item: &Visible,
    ) -> Result<(), WantOfMemory>
        requires sound { IsTrue (list_all (λ own. list_all is_sound own) on.now) }
        ensures { OnOk result (played self.new ≡ hear_by kinds.now on.now (played self.old) (delivered item.now)) }
    {
        if is_taken(kinds, item) {
            self.follow_all(alloc, cause_of(item), rules_at(on, item.service))?;
        }
        Ok(())
    }

    /// Does so for each message in order.
    fn hear_all(
        &mut self,
        alloc: Global,
        kinds: &[ServiceKind],
        on: &[Rules],
        seen: &[Visible],
    ) -> Result<(), WantOfMemory>
        requires sound { IsTrue (list_all (λ own. list_all is_sound own) on.now) }
        ensures { OnOk result (played self.new ≡ fold (hear_by kinds.now on.now) (played self.old) (map delivered seen.now)) }
    {
        for item in seen {
            self.hear(alloc, kinds, on, item)?;
        }
        Ok(())
    }
}

/// What is done when the participant is ready, from these values on.
pub(crate) fn play_ready(
    alloc: Global,
    values: &[u64],
    actions: &[ScriptAction],
) -> Result<Play, WantOfMemory>
    requires room { IsTrue (list_all leaves_room actions.now) }
    ensures { IfOk result (λ play. played play ≡ spec.act_all causes.Ready (record { values = values.now; actions = [] }) actions.now) }
{
    let mut play = Play::start(alloc, values)?;
    play.act_all(alloc, Cause::Ready, actions)?;
    Ok(play)
}

/// What is done in a step, from these values on. These are the kinds of the own services, the rules of
/// each, and all rules.
pub(crate) fn play_step(
    alloc: Global,
    values: &[u64],
    kinds: &[ServiceKind],
    on: &[Rules],
    rules: &[ScriptRule],
    at: SimTime,
    seen: &[Visible],
) -> Result<Play, WantOfMemory>
    requires sound { IsTrue (list_all is_sound rules.now) }
    requires looked_up { on.now ≡ by_service (length kinds.now) rules.now }
    ensures { IfOk result (λ play. played play ≡ spec.follow_all (causes.Time at) rules.now (fold (spec.hear kinds.now rules.now) (record { values = values.now; actions = [] }) (map delivered seen.now))) }
{
    let mut play = Play::start(alloc, values)?;
    play.hear_all(alloc, kinds, on, seen)?;
    play.follow_all(alloc, Cause::Time(at.ns()), rules)?;
    Ok(play)
}
