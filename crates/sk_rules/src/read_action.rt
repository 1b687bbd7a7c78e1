//! Reading actions: from JSON to what is done, or the first fault.

ghost use Rattle.std.specs.Prelude.{◌≡◌, [], List, ℕ, Ok, unwrap_or};
ghost use Rattle.sk_rules.specs.Places.{server_of};
ghost use Rattle.sk_rules.specs.Scripts.{sends};
ghost use Rattle.serde_json.specs.View.{view, items_view};
ghost use Rattle.sk_config.specs.Json.{text_at};
ghost use Rattle.sk_rules.specs.Outcome.{Answers, AnswersAs};
ghost use Rattle.sk_rules.specs.Actions as spec;

use crate::action::{Actions, ScriptAction};
use crate::fault::{Rule, ScenarioFault};
use crate::field;
use crate::items::{ReadItem, read_items};
use crate::keys::{APPEND, BY, CHECKSUM, DATA, EXTENDED, FD, ID, MODE, RATE, ROLE, RuleObject, TO};
use crate::place::{Place, Scope};
use crate::verb::{ServiceVerb, Verb, only_verb};
use serde_json::Value;
use sk_base::limits::LONGEST_PAYLOAD;
use sk_base::{Bytes, Name};
use sk_config::Path;
use sk_msg::{Action, CanFrame, Command, LinChecksum, LinMode, LinResponse, LinRole, ServiceKind};
use std::alloc::Global;

/// The bytes of a variable.
const VARIABLE_BYTES: usize = 8;

/// The most turns that a script may pause.
const LONGEST_PAUSE: u32 = 1000;

/// A reader of actions that stand here.
#[derive(Drop)]
struct ActionReader<'a> {
    scope: &'a Scope,
    place: Place,
}

impl<'a> ReadItem for ActionReader<'a> {
    type Item = ScriptAction;

    ghost meaning = { λ reader at _ d. spec.action_read reader.scope.now reader.place at d };

    fn read(
        &self,
        alloc: Global,
        at: &Path,
        _earlier: &[ScriptAction],
        value: &Value,
    ) -> Result<ScriptAction, ScenarioFault> {
        read_action(alloc, self.scope, self.place, at, value)
    }
}

/// The actions that these values are, in this place.
#[tactic(auto, unfolding(crate::specs::Actions::actions_read))]
pub fn read_actions(
    alloc: Global,
    scope: &Scope,
    place: Place,
    at: &Path,
    items: &[Value],
) -> Result<Actions, ScenarioFault>
    ensures { Answers (spec.actions_read scope.now place at.now (items_view items.now)) result }
{
    let reader = ActionReader { scope, place };
    let actions = read_items(alloc, &reader, at, items)?;
    Ok(Actions::new(actions))
}

/// The action that this value is, in this place.
#[tactic(auto, unfolding(crate::specs::Actions::action_read))]
fn read_action(
    alloc: Global,
    scope: &Scope,
    place: Place,
    at: &Path,
    value: &Value,
) -> Result<ScriptAction, ScenarioFault>
    ensures { Answers (spec.action_read scope.now place at.now (view value.now)) result }
{
    field::enter(alloc, &RuleObject::AnyAction, at, value)?;
    let Some(verb) = only_verb(value) else {
        return Err(field::refused_at(alloc, at, Rule::NotAllowedHere));
    };
    if !verb.may_stand(place, named_server(scope, ServiceVerb::Reply.key(), value)) {
        return Err(field::refused_at(alloc, at, Rule::NotAllowedHere));
    }
    field::enter(alloc, &RuleObject::Action(verb), at, value)?;
    read_verb(alloc, scope, verb, at, value)
}

/// The server that the text at a key names.
#[tactic(auto, unfolding(crate::specs::Places::server_of))]
pub(crate) fn named_server(scope: &Scope, key: &str, object: &Value) -> Option<u32>
    ensures { result ≡ server_of scope.now (text_at key.now (view object.now)) }
{
    let value = object.get(key)?;
    let text = value.as_str()?;
    scope.service(ServiceKind::Server, text)
}

/// What an action of this kind says.
fn read_verb(
    alloc: Global,
    scope: &Scope,
    verb: Verb,
    at: &Path,
    object: &Value,
) -> Result<ScriptAction, ScenarioFault>
    ensures { Answers (spec.told scope.now verb at.now (view object.now)) result }
{
    match verb {
        Verb::Of(verb) => {
            let service = read_service(alloc, scope, verb.kind(), at, verb.key(), object)?;
            read_served(alloc, scope, verb, service, at, object)
        }
        Verb::Set => read_set(alloc, scope, at, object),
        Verb::Add => read_add(alloc, scope, at, object),
        Verb::Take => read_take(alloc, scope, at, object),
        Verb::Pause => read_pause(alloc, at, object),
        Verb::Stop => read_stop(alloc, at, object),
        Verb::Error => read_error(alloc, at, object),
    }
}

/// The number of an own service of this kind, which the name at a key is.
#[tactic(auto, unfolding(crate::specs::Actions::service_read))]
fn read_service(
    alloc: Global,
    scope: &Scope,
    kind: ServiceKind,
    at: &Path,
    key: &str,
    object: &Value,
) -> Result<u32, ScenarioFault>
    ensures { Answers (spec.service_read scope.now kind at.now key.now (view object.now)) result }
{
    let name = field::needed_name(alloc, at, key, object)?;
    match scope.service(kind, name.as_str()) {
        Some(service) => Ok(service),
        None => Err(field::refused(alloc, at, key, Rule::NoSuchService)),
    }
}

/// The place of an own variable, which the name at a key is.
#[tactic(auto, unfolding(crate::specs::Actions::variable_read))]
fn read_variable(
    alloc: Global,
    scope: &Scope,
    at: &Path,
    key: &str,
    object: &Value,
) -> Result<u32, ScenarioFault>
    ensures { Answers (spec.variable_read scope.now at.now key.now (view object.now)) result }
{
    let name = field::needed_name(alloc, at, key, object)?;
    match scope.variable(name.as_str()) {
        Some(variable) => Ok(variable),
        None => Err(field::refused(alloc, at, key, Rule::NoSuchVariable)),
    }
}

/// The place of the variable to append, if one is named.
#[tactic(auto, unfolding(crate::specs::Actions::append_read))]
fn read_append(
    alloc: Global,
    scope: &Scope,
    at: &Path,
    object: &Value,
) -> Result<Option<u32>, ScenarioFault>
    ensures { Answers (spec.append_read scope.now at.now (view object.now)) result }
{
    let Some(name) = field::name_at(alloc, at, APPEND, object)? else {
        return Ok(None);
    };
    match scope.variable(name.as_str()) {
        Some(variable) => Ok(Some(variable)),
        None => Err(field::refused(alloc, at, APPEND, Rule::NoSuchVariable)),
    }
}

/// The bytes of an action, behind which a variable fits where one is appended.
#[tactic(auto, unfolding(crate::specs::Actions::payload_read))]
fn read_payload(alloc: Global, at: &Path, object: &Value) -> Result<Bytes, ScenarioFault>
    ensures { Answers (spec.payload_read at.now (view object.now)) result }
{
    let most = if field::has(APPEND, object) {
        LONGEST_PAYLOAD - VARIABLE_BYTES
    } else {
        LONGEST_PAYLOAD
    };
    let payload = field::bytes_at(alloc, at, DATA, object, most)?;
    bytes_or_none(alloc, payload)
}

/// These bytes, or none.
fn bytes_or_none(alloc: Global, payload: Option<Bytes>) -> Result<Bytes, ScenarioFault>
    ensures { Answers (Ok (unwrap_or payload [])) result }
{
    match payload {
        Some(payload) => Ok(payload),
        None => no_bytes(alloc),
    }
}

/// No bytes.
fn no_bytes(alloc: Global) -> Result<Bytes, ScenarioFault>
    ensures { Answers (Ok []) result }
{
    match Bytes::new(alloc, &[]) {
        Ok(bytes) => Ok(bytes),
        Err(_) => Err(ScenarioFault::WantOfMemory),
    }
}

/// The action, with what is appended to its bytes.
fn appending(action: Action, append: Option<u32>) -> ScriptAction
    ensures { result ≡ spec.appending action append }
{
    match append {
        Some(variable) => ScriptAction::Append(action, variable),
        None => ScriptAction::Fixed(action),
    }
}

/// True at a key, which is all that may stand there.
#[tactic(auto, unfolding(crate::specs::Actions::true_read))]
fn read_true(alloc: Global, at: &Path, key: &str, object: &Value) -> Result<bool, ScenarioFault>
    ensures { Answers (spec.true_read at.now key.now (view object.now)) result }
{
    let given = field::bool_at(alloc, at, key, object)?;
    let value = field::needed(alloc, at, key, given)?;
    if !value {
        return Err(field::refused(alloc, at, key, Rule::OutOfRange));
    }
    Ok(value)
}

/// What is asked of the service of this number.
fn read_served(
    alloc: Global,
    scope: &Scope,
    verb: ServiceVerb,
    service: u32,
    at: &Path,
    object: &Value,
) -> Result<ScriptAction, ScenarioFault>
    ensures { Answers (spec.served scope.now verb service at.now (view object.now)) result }
{
    match verb {
        ServiceVerb::CanBaud => read_can_baud(alloc, service, at, object),
        ServiceVerb::CanStart => Ok(ScriptAction::Fixed(Action::CanStart(service))),
        ServiceVerb::CanStop => Ok(ScriptAction::Fixed(Action::CanStop(service))),
        ServiceVerb::CanReset => Ok(ScriptAction::Fixed(Action::CanReset(service))),
        ServiceVerb::CanSleep => Ok(ScriptAction::Fixed(Action::CanSleep(service))),
        ServiceVerb::CanSend => read_can_send(alloc, scope, service, at, object),
        ServiceVerb::EthActivate => Ok(ScriptAction::Fixed(Action::EthActivate(service))),
        ServiceVerb::EthDeactivate => Ok(ScriptAction::Fixed(Action::EthDeactivate(service))),
        ServiceVerb::EthSend => read_eth_send(alloc, scope, service, at, object),
        ServiceVerb::LinInit => read_lin_init(alloc, service, at, object),
        ServiceVerb::LinResponse => read_lin_response(alloc, service, at, object),
        ServiceVerb::LinHeader => read_lin_header(alloc, service, at, object),
        ServiceVerb::LinFrame => read_lin_frame(alloc, service, at, object),
        ServiceVerb::LinSleep => Ok(ScriptAction::Fixed(Action::LinSleep(service))),
        ServiceVerb::LinWakeup => Ok(ScriptAction::Fixed(Action::LinWakeup(service))),
        ServiceVerb::Publish => read_publish(alloc, scope, service, at, object),
        ServiceVerb::Call => read_call(alloc, scope, service, at, object),
        ServiceVerb::Reply => read_reply(alloc, scope, service, at, object),
    }
}

/// The baud rate that a CAN controller gets.
#[tactic(auto, unfolding(crate::specs::Actions::can_baud_read))]
fn read_can_baud(
    alloc: Global,
    service: u32,
    at: &Path,
    object: &Value,
) -> Result<ScriptAction, ScenarioFault>
    ensures { Answers (spec.can_baud_read service at.now (view object.now)) result }
{
    let rate = field::needed_u32(alloc, at, RATE, object, 0, u32::MAX)?;
    Ok(ScriptAction::Fixed(Action::CanBaud(service, rate)))
}

/// The frame that a CAN controller sends.
#[tactic(auto, unfolding(crate::specs::Actions::can_send_read))]
fn read_can_send(
    alloc: Global,
    scope: &Scope,
    service: u32,
    at: &Path,
    object: &Value,
) -> Result<ScriptAction, ScenarioFault>
    ensures { Answers (spec.can_send_read scope.now service at.now (view object.now)) result }
{
    let id = field::needed_u32(alloc, at, ID, object, 0, u32::MAX)?;
    let extended = field::bool_at(alloc, at, EXTENDED, object)?.unwrap_or(false);
    let fd = field::bool_at(alloc, at, FD, object)?.unwrap_or(false);
    let payload = read_payload(alloc, at, object)?;
    let append = read_append(alloc, scope, at, object)?;
    let frame = CanFrame {
        id,
        extended,
        fd,
        payload,
    };
    Ok(appending(Action::CanSend(service, frame), append))
}

/// The frame that an Ethernet controller sends.
#[tactic(auto, unfolding(crate::specs::Actions::eth_send_read))]
fn read_eth_send(
    alloc: Global,
    scope: &Scope,
    service: u32,
    at: &Path,
    object: &Value,
) -> Result<ScriptAction, ScenarioFault>
    ensures { Answers (spec.eth_send_read scope.now service at.now (view object.now)) result }
{
    let payload = read_payload(alloc, at, object)?;
    let append = read_append(alloc, scope, at, object)?;
    Ok(appending(Action::EthSend(service, payload), append))
}

/// What a LIN controller is made.
#[tactic(auto, unfolding(crate::specs::Actions::lin_init_read))]
fn read_lin_init(
    alloc: Global,
    service: u32,
    at: &Path,
    object: &Value,
) -> Result<ScriptAction, ScenarioFault>
    ensures { Answers (spec.lin_init_read service at.now (view object.now)) result }
{
    let role = field::needed_word::<LinRole>(alloc, at, ROLE, object)?;
    Ok(ScriptAction::Fixed(Action::LinInit(service, role)))
}

/// How a LIN checksum is made.
#[tactic(auto, unfolding(crate::specs::Actions::checksum_read))]
fn read_checksum(alloc: Global, at: &Path, object: &Value) -> Result<LinChecksum, ScenarioFault>
    ensures { Answers (spec.checksum_read at.now (view object.now)) result }
{
    let checksum = field::word_at::<LinChecksum>(alloc, at, CHECKSUM, object)?;
    Ok(checksum.unwrap_or(LinChecksum::Unknown))
}

/// How a LIN controller answers a header.
#[tactic(auto, unfolding(crate::specs::Actions::lin_response_read))]
fn read_lin_response(
    alloc: Global,
    service: u32,
    at: &Path,
    object: &Value,
) -> Result<ScriptAction, ScenarioFault>
    ensures { Answers (spec.lin_response_read service at.now (view object.now)) result }
{
    let id = field::needed_u8(alloc, at, ID, object)?;
    let mode = field::needed_word::<LinMode>(alloc, at, MODE, object)?;
    let checksum = read_checksum(alloc, at, object)?;
    let most = if sends(mode) { LONGEST_PAYLOAD } else { 0 };
    let given = field::bytes_at(alloc, at, DATA, object, most)?;
    let payload = bytes_or_none(alloc, given)?;
    let response = LinResponse {
        id,
        mode,
        checksum,
        payload,
    };
    Ok(ScriptAction::Fixed(Action::LinSetResponse(service, response)))
}

/// Whether bytes are sent in this mode.
fn sends(mode: LinMode) -> bool
    ensures { result ≡ sends mode }
{
    match mode {
        LinMode::Unused | LinMode::Rx => false,
        LinMode::TxUnconditional => true,
    }
}

/// The header that a LIN controller sends.
#[tactic(auto, unfolding(crate::specs::Actions::lin_header_read))]
fn read_lin_header(
    alloc: Global,
    service: u32,
    at: &Path,
    object: &Value,
) -> Result<ScriptAction, ScenarioFault>
    ensures { Answers (spec.lin_header_read service at.now (view object.now)) result }
{
    let id = field::needed_u8(alloc, at, ID, object)?;
    Ok(ScriptAction::Fixed(Action::LinHeader(service, id)))
}

/// The header and the response that a LIN controller sends.
#[tactic(auto, unfolding(crate::specs::Actions::lin_frame_read))]
fn read_lin_frame(
    alloc: Global,
    service: u32,
    at: &Path,
    object: &Value,
) -> Result<ScriptAction, ScenarioFault>
    ensures { Answers (spec.lin_frame_read service at.now (view object.now)) result }
{
    let id = field::needed_u8(alloc, at, ID, object)?;
    let checksum = read_checksum(alloc, at, object)?;
    let given = field::bytes_at(alloc, at, DATA, object, LONGEST_PAYLOAD)?;
    let payload = bytes_or_none(alloc, given)?;
    let response = LinResponse {
        id,
        mode: LinMode::TxUnconditional,
        checksum,
        payload,
    };
    Ok(ScriptAction::Fixed(Action::LinSendFrame(service, response)))
}

/// What a publisher publishes.
#[tactic(auto, unfolding(crate::specs::Actions::publish_read))]
fn read_publish(
    alloc: Global,
    scope: &Scope,
    service: u32,
    at: &Path,
    object: &Value,
) -> Result<ScriptAction, ScenarioFault>
    ensures { Answers (spec.publish_read scope.now service at.now (view object.now)) result }
{
    let payload = read_payload(alloc, at, object)?;
    let append = read_append(alloc, scope, at, object)?;
    Ok(appending(Action::Publish(service, payload), append))
}

/// What a client calls with.
#[tactic(auto, unfolding(crate::specs::Actions::call_read))]
fn read_call(
    alloc: Global,
    scope: &Scope,
    service: u32,
    at: &Path,
    object: &Value,
) -> Result<ScriptAction, ScenarioFault>
    ensures { Answers (spec.call_read scope.now service at.now (view object.now)) result }
{
    let payload = read_payload(alloc, at, object)?;
    let append = read_append(alloc, scope, at, object)?;
    Ok(appending(Action::Call(service, payload), append))
}

/// What a server answers.
#[tactic(auto, unfolding(crate::specs::Actions::reply_read))]
fn read_reply(
    alloc: Global,
    scope: &Scope,
    service: u32,
    at: &Path,
    object: &Value,
) -> Result<ScriptAction, ScenarioFault>
    ensures { Answers (spec.reply_read scope.now service at.now (view object.now)) result }
{
    let payload = read_payload(alloc, at, object)?;
    let append = read_append(alloc, scope, at, object)?;
    Ok(ScriptAction::Reply {
        service,
        payload,
        append,
    })
}

/// What a variable is set to.
#[tactic(auto, unfolding(crate::specs::Actions::set_read))]
fn read_set(
    alloc: Global,
    scope: &Scope,
    at: &Path,
    object: &Value,
) -> Result<ScriptAction, ScenarioFault>
    ensures { Answers (spec.set_read scope.now at.now (view object.now)) result }
{
    let variable = read_variable(alloc, scope, at, Verb::Set.key(), object)?;
    let value = field::needed_number(alloc, at, TO, object, 0, u64::MAX)?;
    Ok(ScriptAction::Set(variable, value))
}

/// What is added to a variable.
#[tactic(auto, unfolding(crate::specs::Actions::add_read))]
fn read_add(
    alloc: Global,
    scope: &Scope,
    at: &Path,
    object: &Value,
) -> Result<ScriptAction, ScenarioFault>
    ensures { Answers (spec.add_read scope.now at.now (view object.now)) result }
{
    let variable = read_variable(alloc, scope, at, Verb::Add.key(), object)?;
    let value = field::needed_number(alloc, at, BY, object, 0, u64::MAX)?;
    Ok(ScriptAction::Add(variable, value))
}

/// The variable that takes what was received.
#[tactic(auto, unfolding(crate::specs::Actions::take_read))]
fn read_take(
    alloc: Global,
    scope: &Scope,
    at: &Path,
    object: &Value,
) -> Result<ScriptAction, ScenarioFault>
    ensures { Answers (spec.take_read scope.now at.now (view object.now)) result }
{
    let variable = read_variable(alloc, scope, at, Verb::Take.key(), object)?;
    Ok(ScriptAction::Take(variable))
}

/// How long the participant pauses.
#[tactic(auto, unfolding(crate::specs::Actions::pause_read))]
fn read_pause(alloc: Global, at: &Path, object: &Value) -> Result<ScriptAction, ScenarioFault>
    ensures { Answers (spec.pause_read at.now (view object.now)) result }
{
    let turns = field::needed_u32(alloc, at, Verb::Pause.key(), object, 1, LONGEST_PAUSE)?;
    Ok(ScriptAction::Fixed(Action::PauseFor(turns)))
}

/// That the participant stops.
#[tactic(auto, unfolding(crate::specs::Actions::stop_read))]
fn read_stop(alloc: Global, at: &Path, object: &Value) -> Result<ScriptAction, ScenarioFault>
    ensures { Answers (spec.stop_read at.now (view object.now)) result }
{
    read_true(alloc, at, Verb::Stop.key(), object)?;
    Ok(ScriptAction::Fixed(Action::Ask(Command::Stop)))
}

/// That the participant reports an error.
#[tactic(auto, unfolding(crate::specs::Actions::error_read))]
fn read_error(alloc: Global, at: &Path, object: &Value) -> Result<ScriptAction, ScenarioFault>
    ensures { Answers (spec.error_read at.now (view object.now)) result }
{
    read_true(alloc, at, Verb::Error.key(), object)?;
    Ok(ScriptAction::Fixed(Action::Ask(Command::ReportError)))
}
