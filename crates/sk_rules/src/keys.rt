//! The keys of actions and rules. In the code each key's text stands here or in the table of actions
//! alone. The contracts go by the texts as `specs/Keys.antt` has them written out.

ghost use Rattle.std.specs.Prelude.{◌≡◌};
ghost use Rattle.std.specs.List.{list_any};
ghost use Rattle.sk_rules.specs.Keys as spec;

use crate::verb::{ServiceVerb, VERBS, Verb};
use sk_config::json::KnownKeys;

/// Of an action: the baud rate, in bit/s.
pub const RATE: &str = "rate";

/// Of an action: the identifier of a frame.
pub const ID: &str = "id";

/// Of an action: whether an identifier has 29 bits.
pub const EXTENDED: &str = "extended";

/// Of an action: whether it is a frame of CAN FD.
pub const FD: &str = "fd";

/// Of an action: what a LIN controller is.
pub const ROLE: &str = "role";

/// Of an action: what a LIN controller does at a header.
pub const MODE: &str = "mode";

/// Of an action: how a LIN checksum is made.
pub const CHECKSUM: &str = "checksum";

/// Of an action: bytes, as hexadecimal digits.
pub const DATA: &str = "data";

/// Of an action: the variable whose bytes stand behind them.
pub const APPEND: &str = "append";

/// Of an action: the value that a variable gets.
pub const TO: &str = "to";

/// Of an action: what is added to a variable.
pub const BY: &str = "by";

/// Of a rule: what is done.
pub const DO: &str = "do";

/// Of a rule: the time when it is done, in nanoseconds of virtual time.
pub const AT: &str = "at";

/// Of a rule: how often it is done, in nanoseconds of virtual time.
pub const EVERY: &str = "every";

/// Of a rule: from which time on, in nanoseconds of virtual time.
pub const FROM: &str = "from";

/// Of a rule: the service for whose messages it is done.
pub const ON: &str = "on";

/// An object that has keys of its own.
#[derive(Clone, Copy, Debug)]
pub enum RuleObject {
    /// An action of which isn't known yet what it does.
    AnyAction,
    /// An action that does this.
    Action(Verb),
    /// A rule.
    Rule,
}

impl KnownKeys for RuleObject {
    ghost is_known = { spec.knows };

    #[tactic(auto, unfolding(crate::specs::Keys::knows))]
    fn knows(&self, key: &str) -> bool {
        match self {
            RuleObject::AnyAction => is_of_any(&VERBS, key),
            RuleObject::Action(verb) => is_of_row(*verb, key),
            RuleObject::Rule => {
                key == DO || key == AT || key == EVERY || key == FROM || key == ON
            }
        }
    }
}

/// Whether this is a key of one of these.
fn is_of_any(verbs: &[Verb], key: &str) -> bool
    ensures { result ≡ list_any (λ verb. spec.is_of_row verb key.now) verbs.now }
{
    verbs.iter().any(|verb| is_of_row(*verb, key))
}

/// Whether this is a key of an action's row.
#[tactic(auto, unfolding(crate::specs::Keys::is_of_row))]
fn is_of_row(verb: Verb, key: &str) -> bool
    ensures { result ≡ spec.is_of_row verb key.now }
{
    key == verb.key() || takes(verb, key)
}

/// Whether this is a key of an action behind the first.
fn takes(verb: Verb, key: &str) -> bool
    ensures { result ≡ spec.takes verb key.now }
{
    match verb {
        Verb::Of(verb) => takes_with(verb, key),
        Verb::Set => key == TO,
        Verb::Add => key == BY,
        Verb::Take => false,
        Verb::Pause => false,
        Verb::Stop => false,
        Verb::Error => false,
    }
}

/// Whether this is a key of an action of a service behind the first.
fn takes_with(verb: ServiceVerb, key: &str) -> bool
    ensures { result ≡ spec.takes_with verb key.now }
{
    match verb {
        ServiceVerb::CanBaud => key == RATE,
        ServiceVerb::CanSend => { key == ID || key == EXTENDED || key == FD || is_payload_key(key) }
        ServiceVerb::EthSend => is_payload_key(key),
        ServiceVerb::LinInit => key == ROLE,
        ServiceVerb::LinResponse => key == ID || key == MODE || key == CHECKSUM || key == DATA,
        ServiceVerb::LinHeader => key == ID,
        ServiceVerb::LinFrame => key == ID || key == CHECKSUM || key == DATA,
        ServiceVerb::Publish => is_payload_key(key),
        ServiceVerb::Call => is_payload_key(key),
        ServiceVerb::Reply => is_payload_key(key),
        ServiceVerb::CanStart => false,
        ServiceVerb::CanStop => false,
        ServiceVerb::CanReset => false,
        ServiceVerb::CanSleep => false,
        ServiceVerb::EthActivate => false,
        ServiceVerb::EthDeactivate => false,
        ServiceVerb::LinSleep => false,
        ServiceVerb::LinWakeup => false,
    }
}

/// Whether this is a key of bytes with a variable behind them.
fn is_payload_key(key: &str) -> bool
    ensures { result ≡ spec.is_payload_key key.now }
{
    key == DATA || key == APPEND
}
