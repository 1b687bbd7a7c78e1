//! The table of actions: what each one's first key is, which kind of service it is of, and where it
//! may stand. The texts of the keys stand in `specs/Verbs.antt` too, as docs/FORMATS.md has them.

ghost use Rattle.std.specs.Prelude.{◌≡◌, None};
ghost use Rattle.serde_json.specs.View.{view};
ghost use Rattle.sk_rules.specs.Verbs as spec;

use crate::field;
use crate::place::Place;
use serde_json::Value;
use sk_msg::ServiceKind;

/// What an action asks of an own service.
#[derive(Clone, Copy, Debug)]
pub enum ServiceVerb {
    /// Sets the baud rate of a CAN controller.
    CanBaud,
    /// Starts a CAN controller.
    CanStart,
    /// Stops a CAN controller.
    CanStop,
    /// Takes a CAN controller back to where it began.
    CanReset,
    /// Lets a CAN controller sleep.
    CanSleep,
    /// Sends a CAN frame.
    CanSend,
    /// Brings the link of an Ethernet controller up.
    EthActivate,
    /// Takes the link of an Ethernet controller down.
    EthDeactivate,
    /// Sends an Ethernet frame.
    EthSend,
    /// Makes a LIN controller master or slave.
    LinInit,
    /// Says how a LIN controller answers a header.
    LinResponse,
    /// Sends a LIN header.
    LinHeader,
    /// Sends a LIN header and its response.
    LinFrame,
    /// Sends the LIN bus to sleep.
    LinSleep,
    /// Wakes the LIN bus.
    LinWakeup,
    /// Publishes.
    Publish,
    /// Calls.
    Call,
    /// Answers the call that the rule is carried out for.
    Reply,
}

/// What an action does.
#[derive(Clone, Copy, Debug)]
pub enum Verb {
    /// It asks something of an own service.
    Of(ServiceVerb),
    /// Sets a variable.
    Set,
    /// Adds to a variable.
    Add,
    /// Puts the number of what was received into a variable.
    Take,
    /// Pauses the participant.
    Pause,
    /// Stops the participant.
    Stop,
    /// Reports an error of the participant.
    Error,
}

/// All there are.
pub const VERBS: [Verb; 24] = [
    Verb::Of(ServiceVerb::CanBaud),
    Verb::Of(ServiceVerb::CanStart),
    Verb::Of(ServiceVerb::CanStop),
    Verb::Of(ServiceVerb::CanReset),
    Verb::Of(ServiceVerb::CanSleep),
    Verb::Of(ServiceVerb::CanSend),
    Verb::Of(ServiceVerb::EthActivate),
    Verb::Of(ServiceVerb::EthDeactivate),
    Verb::Of(ServiceVerb::EthSend),
    Verb::Of(ServiceVerb::LinInit),
    Verb::Of(ServiceVerb::LinResponse),
    Verb::Of(ServiceVerb::LinHeader),
    Verb::Of(ServiceVerb::LinFrame),
    Verb::Of(ServiceVerb::LinSleep),
    Verb::Of(ServiceVerb::LinWakeup),
    Verb::Of(ServiceVerb::Publish),
    Verb::Of(ServiceVerb::Call),
    Verb::Of(ServiceVerb::Reply),
    Verb::Set,
    Verb::Add,
    Verb::Take,
    Verb::Pause,
    Verb::Stop,
    Verb::Error,
];

impl ServiceVerb {
    /// The kind of the service.
    pub fn kind(self) -> ServiceKind
        ensures { result ≡ spec.kind_of self }
    {
        match self {
            ServiceVerb::CanBaud => ServiceKind::Can,
            ServiceVerb::CanStart => ServiceKind::Can,
            ServiceVerb::CanStop => ServiceKind::Can,
            ServiceVerb::CanReset => ServiceKind::Can,
            ServiceVerb::CanSleep => ServiceKind::Can,
            ServiceVerb::CanSend => ServiceKind::Can,
            ServiceVerb::EthActivate => ServiceKind::Ethernet,
            ServiceVerb::EthDeactivate => ServiceKind::Ethernet,
            ServiceVerb::EthSend => ServiceKind::Ethernet,
            ServiceVerb::LinInit => ServiceKind::Lin,
            ServiceVerb::LinResponse => ServiceKind::Lin,
            ServiceVerb::LinHeader => ServiceKind::Lin,
            ServiceVerb::LinFrame => ServiceKind::Lin,
            ServiceVerb::LinSleep => ServiceKind::Lin,
            ServiceVerb::LinWakeup => ServiceKind::Lin,
            ServiceVerb::Publish => ServiceKind::Publisher,
            ServiceVerb::Call => ServiceKind::Client,
            ServiceVerb::Reply => ServiceKind::Server,
        }
    }

    /// The first key, whose value is the service.
    pub fn key(self) -> &'static str
        ensures { result.now ≡ spec.service_key self }
    {
        match self {
            ServiceVerb::CanBaud => "can_baud",
            ServiceVerb::CanStart => "can_start",
            ServiceVerb::CanStop => "can_stop",
            ServiceVerb::CanReset => "can_reset",
            ServiceVerb::CanSleep => "can_sleep",
            ServiceVerb::CanSend => "can_send",
            ServiceVerb::EthActivate => "eth_activate",
            ServiceVerb::EthDeactivate => "eth_deactivate",
            ServiceVerb::EthSend => "eth_send",
            ServiceVerb::LinInit => "lin_init",
            ServiceVerb::LinResponse => "lin_response",
            ServiceVerb::LinHeader => "lin_header",
            ServiceVerb::LinFrame => "lin_frame",
            ServiceVerb::LinSleep => "lin_sleep",
            ServiceVerb::LinWakeup => "lin_wakeup",
            ServiceVerb::Publish => "publish",
            ServiceVerb::Call => "call",
            ServiceVerb::Reply => "reply",
        }
    }

    /// Whether it may stand where a participant gets ready, too.
    fn is_of_both(self) -> bool
        ensures { result ≡ spec.is_of_both self }
    {
        match self {
            ServiceVerb::CanBaud => true,
            ServiceVerb::CanStart => true,
            ServiceVerb::CanStop => true,
            ServiceVerb::CanReset => true,
            ServiceVerb::CanSleep => true,
            ServiceVerb::CanSend => false,
            ServiceVerb::EthActivate => true,
            ServiceVerb::EthDeactivate => true,
            ServiceVerb::EthSend => false,
            ServiceVerb::LinInit => true,
            ServiceVerb::LinResponse => true,
            ServiceVerb::LinHeader => false,
            ServiceVerb::LinFrame => false,
            ServiceVerb::LinSleep => true,
            ServiceVerb::LinWakeup => true,
            ServiceVerb::Publish => false,
            ServiceVerb::Call => false,
            ServiceVerb::Reply => false,
        }
    }

    /// Whether it answers a call.
    fn is_reply(self) -> bool
        ensures { result ≡ spec.is_reply self }
    {
        match self {
            ServiceVerb::Reply => true,
            _ => false,
        }
    }
}

impl Verb {
    /// The first key.
    pub fn key(self) -> &'static str
        ensures { result.now ≡ spec.verb_key self }
    {
        match self {
            Verb::Of(verb) => verb.key(),
            Verb::Set => "set",
            Verb::Add => "add",
            Verb::Take => "take",
            Verb::Pause => "pause",
            Verb::Stop => "stop",
            Verb::Error => "error",
        }
    }

    /// Whether it may stand here, where its first key names this server, if it names one.
    pub fn may_stand(self, place: Place, named: Option<u32>) -> bool
        ensures { result ≡ spec.may_stand self place named }
    {
        match self {
            Verb::Of(verb) => {
                if verb.is_reply() {
                    place.is_on_server(named)
                } else {
                    verb.is_of_both() || place.is_step()
                }
            }
            Verb::Set | Verb::Add => true,
            Verb::Take => place.is_on(),
            Verb::Pause | Verb::Stop | Verb::Error => place.is_step(),
        }
    }
}

/// The one whose key the object has, where it has only one such key.
#[tactic(auto, unfolding(crate::specs::Verbs::only_verb))]
pub fn only_verb(object: &Value) -> Option<Verb>
    ensures { result ≡ spec.only_verb (view object.now) }
{
    only_of(&VERBS, object)
}

/// The one of these whose key the object has, where it has only one such key.
fn only_of(verbs: &[Verb], object: &Value) -> Option<Verb>
    ensures { result ≡ spec.only_of None verbs.now (view object.now) }
{
    let mut seen = None;
    for verb in verbs {
        if field::has(verb.key(), object) {
            if let Some(_) = seen {
                return None;
            }
            seen = Some(*verb);
        }
    }
    seen
}
