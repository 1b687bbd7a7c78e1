//! Writing actions and rules.

ghost use Rattle.std.specs.Prelude.{◌≡◌, [], ◌∷◌, length, IfOk, OnOk, IsTrue};
ghost use Rattle.std.specs.List.{list_all};
ghost use Rattle.serde_json.specs.View.{view, items_view, members_view};
ghost use Rattle.sk_script_text.specs.Actions as spec;
ghost use Rattle.sk_script_text.specs.Actions.{action_data, rule_data};
ghost use Rattle.sk_script_text.specs.Fitting.{are_bytes, sends_bytes, action_fits, rule_fits, is_held};
ghost use Rattle.sk_script_text.specs.Objects.{put_all, items};

use crate::object::Object;
use crate::word::{checksum_word, mode_word, role_word};
use serde_json::Value;
use sk_base::{Bytes, WantOfMemory};
use sk_msg::{Action, CanFrame, Command, LinResponse};
use sk_rules::keys::{
    APPEND, AT, BY, CHECKSUM, DATA, DO, EVERY, EXTENDED, FD, FROM, ID, MODE, ON, RATE, ROLE, TO,
};
use sk_rules::{Scope, ScriptAction, ScriptRule, ServiceVerb, Verb, When};
use std::alloc::Global;

/// What is written of rules of a participant of this scope.
pub fn rule_values(
    alloc: Global,
    scope: &Scope,
    rules: &[ScriptRule],
) -> Result<Vec<Value>, WantOfMemory>
    ensures value { IfOk result (λ values. items_view values.items ≡ items (rule_data scope.now) rules.now) }
    ensures fits { IfOk result (λ _. IsTrue (list_all rule_fits rules.now)) }
{
    let mut values = Vec::with_capacity(alloc, rules.len())?;
    for rule in rules {
        values.push(rule_value(alloc, scope, rule)?)?;
    }
    Ok(values)
}

/// What is written of a rule.
#[tactic(auto, unfolding(crate::specs::Actions::rule_data, crate::specs::Objects::with_fields, crate::specs::Objects::put_some))]
fn rule_value(alloc: Global, scope: &Scope, rule: &ScriptRule) -> Result<Value, WantOfMemory>
    ensures value { IfOk result (λ value. view value ≡ rule_data scope.now rule.now) }
    ensures fits { IfOk result (λ _. IsTrue (rule_fits rule.now)) }
{
    let mut object = Object::new(alloc);
    let actions = action_values(alloc, scope, rule.actions.as_slice())?;
    object.put(alloc, DO, Value::Array(actions))?;
    put_when(alloc, &mut object, scope, rule.when)?;
    Ok(object.into_value())
}

/// Puts when a rule is carried out.
fn put_when(
    alloc: Global,
    object: &mut Object,
    scope: &Scope,
    when: When,
) -> Result<(), WantOfMemory>
    ensures { OnOk result (members_view object.new.members.entries ≡ put_all (spec.when_fields scope.now when) (members_view object.old.members.entries)) }
{
    match when {
        When::At(at) => object.put_number(alloc, AT, at),
        When::Every { size, from } => {
            object.put_number(alloc, EVERY, size)?;
            object.put_some_number(alloc, FROM, from)
        }
        When::On(service) => object.put_text(alloc, ON, service_name(scope, service)),
    }
}

/// What is written of actions of a participant of this scope.
#[tactic(auto, unfolding(crate::specs::Fitting::is_held))]
pub fn action_values(
    alloc: Global,
    scope: &Scope,
    actions: &[ScriptAction],
) -> Result<Vec<Value>, WantOfMemory>
    ensures value { IfOk result (λ values. items_view values.items ≡ items (action_data scope.now) actions.now) }
    ensures fits { IfOk result (λ _. IsTrue (list_all action_fits actions.now)) }
    ensures held { IsTrue (is_held (length actions.now)) }
{
    let mut values = Vec::with_capacity(alloc, actions.len())?;
    for action in actions {
        values.push(action_value(alloc, scope, action)?)?;
    }
    Ok(values)
}

/// What is written of an action.
#[tactic(auto, unfolding(crate::specs::Actions::action_data, crate::specs::Objects::with_fields))]
fn action_value(alloc: Global, scope: &Scope, action: &ScriptAction) -> Result<Value, WantOfMemory>
    ensures value { IfOk result (λ value. view value ≡ action_data scope.now action.now) }
    ensures fits { IfOk result (λ _. IsTrue (action_fits action.now)) }
{
    let mut object = Object::new(alloc);
    put_action(alloc, &mut object, scope, action)?;
    Ok(object.into_value())
}

/// Puts an action.
fn put_action(
    alloc: Global,
    object: &mut Object,
    scope: &Scope,
    action: &ScriptAction,
) -> Result<(), WantOfMemory>
    ensures value { OnOk result (members_view object.new.members.entries ≡ put_all (spec.action_fields scope.now action.now) (members_view object.old.members.entries)) }
    ensures fits { OnOk result (IsTrue (action_fits action.now)) }
{
    match action {
        ScriptAction::Fixed(action) => put_fixed(alloc, object, scope, None, action),
        ScriptAction::Append(action, variable) => {
            put_fixed(alloc, object, scope, Some(*variable), action)
        }
        ScriptAction::Reply {
            service,
            payload,
            append,
        } => {
            put_service(alloc, object, scope, ServiceVerb::Reply, *service)?;
            put_payload(alloc, object, scope, payload, *append)
        }
        ScriptAction::Set(variable, value) => {
            object.put_text(alloc, Verb::Set.key(), variable_name(scope, *variable))?;
            object.put_number(alloc, TO, *value)
        }
        ScriptAction::Add(variable, value) => {
            object.put_text(alloc, Verb::Add.key(), variable_name(scope, *variable))?;
            object.put_number(alloc, BY, *value)
        }
        ScriptAction::Take(variable) => {
            object.put_text(alloc, Verb::Take.key(), variable_name(scope, *variable))
        }
    }
}

/// Puts an action as it stands, with a variable to append, if there is one.
fn put_fixed(
    alloc: Global,
    object: &mut Object,
    scope: &Scope,
    append: Option<u32>,
    action: &Action,
) -> Result<(), WantOfMemory>
    ensures value { OnOk result (members_view object.new.members.entries ≡ put_all (spec.fixed_fields scope.now append action.now) (members_view object.old.members.entries)) }
    ensures fits { OnOk result (IsTrue (sends_bytes action.now)) }
{
    match action {
        Action::CanBaud(service, rate) => {
            put_service(alloc, object, scope, ServiceVerb::CanBaud, *service)?;
            object.put_number(alloc, RATE, u64::from(*rate))
        }
        Action::CanStart(service) => {
            put_service(alloc, object, scope, ServiceVerb::CanStart, *service)
        }
        Action::CanStop(service) => {
            put_service(alloc, object, scope, ServiceVerb::CanStop, *service)
        }
        Action::CanReset(service) => {
            put_service(alloc, object, scope, ServiceVerb::CanReset, *service)
        }
        Action::CanSleep(service) => {
            put_service(alloc, object, scope, ServiceVerb::CanSleep, *service)
        }
        Action::CanSend(service, frame) => {
            put_service(alloc, object, scope, ServiceVerb::CanSend, *service)?;
            put_frame(alloc, object, scope, frame, append)
        }
        Action::EthActivate(service) => {
            put_service(alloc, object, scope, ServiceVerb::EthActivate, *service)
        }
        Action::EthDeactivate(service) => {
            put_service(alloc, object, scope, ServiceVerb::EthDeactivate, *service)
        }
        Action::EthSend(service, payload) => {
            put_service(alloc, object, scope, ServiceVerb::EthSend, *service)?;
            put_payload(alloc, object, scope, payload, append)
        }
        Action::LinInit(service, role) => {
            put_service(alloc, object, scope, ServiceVerb::LinInit, *service)?;
            object.put_text(alloc, ROLE, role_word(*role))
        }
        Action::LinSetResponse(service, response) => {
            put_service(alloc, object, scope, ServiceVerb::LinResponse, *service)?;
            put_response(alloc, object, response)
        }
        Action::LinHeader(service, id) => {
            put_service(alloc, object, scope, ServiceVerb::LinHeader, *service)?;
            object.put_number(alloc, ID, u64::from(*id))
        }
        Action::LinSendFrame(service, response) => {
            put_service(alloc, object, scope, ServiceVerb::LinFrame, *service)?;
            put_lin_frame(alloc, object, response)
        }
        Action::LinSleep(service) => {
            put_service(alloc, object, scope, ServiceVerb::LinSleep, *service)
        }
        Action::LinWakeup(service) => {
            put_service(alloc, object, scope, ServiceVerb::LinWakeup, *service)
        }
        Action::Publish(service, payload) => {
            put_service(alloc, object, scope, ServiceVerb::Publish, *service)?;
            put_payload(alloc, object, scope, payload, append)
        }
        Action::Call(service, payload) => {
            put_service(alloc, object, scope, ServiceVerb::Call, *service)?;
            put_payload(alloc, object, scope, payload, append)
        }
        Action::PauseFor(turns) => {
            object.put_number(alloc, Verb::Pause.key(), u64::from(*turns))
        }
        Action::Ask(command) => put_asked(alloc, object, *command),
        Action::Submit { .. } => Ok(()),
    }
}

/// Puts what a participant asks of itself; a script asks it to stop or reports an error.
fn put_asked(alloc: Global, object: &mut Object, command: Command) -> Result<(), WantOfMemory>
    ensures { OnOk result (members_view object.new.members.entries ≡ put_all (spec.asked_fields command) (members_view object.old.members.entries)) }
{
    match command {
        Command::Stop => object.put_flag(alloc, Verb::Stop.key(), true),
        Command::ReportError => object.put_flag(alloc, Verb::Error.key(), true),
        Command::Pause | Command::Continue | Command::Abort => Ok(()),
    }
}

/// Puts a CAN frame.
fn put_frame(
    alloc: Global,
    object: &mut Object,
    scope: &Scope,
    frame: &CanFrame,
    append: Option<u32>,
) -> Result<(), WantOfMemory>
    ensures value { OnOk result (members_view object.new.members.entries ≡ put_all (spec.frame_fields scope.now frame.now append) (members_view object.old.members.entries)) }
    ensures fits { OnOk result (IsTrue (are_bytes frame.now.payload)) }
{
    object.put_number(alloc, ID, u64::from(frame.id))?;
    object.put_flag(alloc, EXTENDED, frame.extended)?;
    object.put_flag(alloc, FD, frame.fd)?;
    put_payload(alloc, object, scope, &frame.payload, append)
}

/// Puts how a LIN controller answers a header.
fn put_response(
    alloc: Global,
    object: &mut Object,
    response: &LinResponse,
) -> Result<(), WantOfMemory>
    ensures value { OnOk result (members_view object.new.members.entries ≡ put_all (spec.response_fields response.now) (members_view object.old.members.entries)) }
    ensures fits { OnOk result (IsTrue (are_bytes response.now.payload)) }
{
    object.put_number(alloc, ID, u64::from(response.id))?;
    object.put_text(alloc, MODE, mode_word(response.mode))?;
    object.put_some_text(alloc, CHECKSUM, checksum_word(response.checksum))?;
    object.put_hex(alloc, DATA, response.payload.as_slice())
}

/// Puts a LIN frame that is sent.
fn put_lin_frame(
    alloc: Global,
    object: &mut Object,
    response: &LinResponse,
) -> Result<(), WantOfMemory>
    ensures value { OnOk result (members_view object.new.members.entries ≡ put_all (spec.lin_frame_fields response.now) (members_view object.old.members.entries)) }
    ensures fits { OnOk result (IsTrue (are_bytes response.now.payload)) }
{
    object.put_number(alloc, ID, u64::from(response.id))?;
    object.put_some_text(alloc, CHECKSUM, checksum_word(response.checksum))?;
    object.put_hex(alloc, DATA, response.payload.as_slice())
}

/// Puts the first key of an action, with its service.
fn put_service(
    alloc: Global,
    object: &mut Object,
    scope: &Scope,
    verb: ServiceVerb,
    service: u32,
) -> Result<(), WantOfMemory>
    ensures { OnOk result (members_view object.new.members.entries ≡ put_all (spec.of_service scope.now verb service ∷ []) (members_view object.old.members.entries)) }
{
    object.put_text(alloc, verb.key(), service_name(scope, service))
}

/// Puts bytes, and the variable that is appended to them.
#[tactic(auto, unfolding(crate::specs::Objects::put_some))]
fn put_payload(
    alloc: Global,
    object: &mut Object,
    scope: &Scope,
    payload: &Bytes,
    append: Option<u32>,
) -> Result<(), WantOfMemory>
    ensures value { OnOk result (members_view object.new.members.entries ≡ put_all (spec.payload_fields scope.now payload.now append) (members_view object.old.members.entries)) }
    ensures fits { OnOk result (IsTrue (are_bytes payload.now)) }
{
    object.put_hex(alloc, DATA, payload.as_slice())?;
    match append {
        Some(variable) => object.put_text(alloc, APPEND, variable_name(scope, variable)),
        None => Ok(()),
    }
}

/// The name of the service of this number.
#[tactic(auto, unfolding(crate::specs::Actions::service_name))]
fn service_name(scope: &Scope, service: u32) -> &str
    ensures { result.now ≡ spec.service_name scope.now service }
{
    match scope.services.get(service as usize) {
        Some(service) => service.name.as_str(),
        None => "",
    }
}

/// The name of the variable in this place.
#[tactic(auto, unfolding(crate::specs::Actions::variable_name))]
fn variable_name(scope: &Scope, place: u32) -> &str
    ensures { result.now ≡ spec.variable_name scope.now place }
{
    match scope.vars.as_slice().get(place as usize) {
        Some(var) => var.name.as_str(),
        None => "",
    }
}
