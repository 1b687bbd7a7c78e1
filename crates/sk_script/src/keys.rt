//! The table of keys. In the code each key's text stands here alone. The contracts go by the texts
//! as `specs/Keys.antt` has them written out, so a text that differs from those isn't proved.

ghost use Rattle.std.specs.Prelude.{◌≡◌};
ghost use Rattle.sk_script.specs.Keys as spec;

use sk_config::json::KnownKeys;
use sk_msg::ServiceKind;

/// Of the file: how long the run is, in nanoseconds of virtual time.
pub const DURATION: &str = "duration";

/// Of the file: the names of those whose states make the state of the system.
pub const REQUIRED: &str = "required";

/// Of the file: the list of participants.
pub const PARTICIPANTS: &str = "participants";

/// Of a participant: its name; so of a service.
pub const NAME: &str = "name";

/// Of a participant: whether the others wait for it.
pub const MODE: &str = "mode";

/// Of a participant: the size of its steps, in nanoseconds of virtual time.
pub const STEP: &str = "step";

/// Of a participant: the list of its services.
pub const SERVICES: &str = "services";

/// Of a participant: its configuration.
pub const CONFIG: &str = "config";

/// Of a participant: its variables.
pub const VARS: &str = "vars";

/// Of a participant: what it does when it is ready.
pub const READY: &str = "ready";

/// Of a participant: its rules.
pub const SCRIPT: &str = "script";

/// Of a service: what it is; so of a label.
pub const KIND: &str = "kind";

/// Of a service: the network of a controller.
pub const NETWORK: &str = "network";

/// Of a service: the topic of a publisher or a subscriber.
pub const TOPIC: &str = "topic";

/// Of a service: the function of a server or a client.
pub const FUNCTION: &str = "function";

/// Of a service: the media type.
pub const MEDIA: &str = "media";

/// Of a service: the list of labels.
pub const LABELS: &str = "labels";

/// Of a service: whether a publisher keeps its last publication.
pub const HISTORY: &str = "history";

/// Of a label: what it is about.
pub const KEY: &str = "key";

/// Of a label: what it says of it.
pub const VALUE: &str = "value";

/// An object of the file that has keys of its own.
#[derive(Clone, Copy, Debug)]
pub enum Object {
    /// The whole file.
    Root,
    /// A participant.
    Participant,
    /// A service that doesn't say of which kind it is.
    AnyService,
    /// A service of this kind.
    Service(ServiceKind),
    /// A label.
    Label,
}

impl KnownKeys for Object {
    ghost is_known = { spec.knows };

    #[tactic(auto, unfolding(crate::specs::Keys::knows))]
    fn knows(&self, key: &str) -> bool {
        match self {
            Object::Root => key == DURATION || key == REQUIRED || key == PARTICIPANTS,
            Object::Participant => {
                key == NAME
                    || key == MODE
                    || key == STEP
                    || key == SERVICES
                    || key == CONFIG
                    || key == VARS
                    || key == READY
                    || key == SCRIPT
            }
            Object::AnyService => is_of_service(key),
            Object::Service(kind) => is_of_kind(*kind, key),
            Object::Label => key == KEY || key == VALUE || key == KIND,
        }
    }
}

/// Whether this is a key of a service of some kind.
#[tactic(auto, unfolding(crate::specs::Keys::is_of_service))]
fn is_of_service(key: &str) -> bool
    ensures { result ≡ spec.is_of_service key.now }
{
    key == KIND
        || key == NAME
        || key == NETWORK
        || key == TOPIC
        || key == FUNCTION
        || key == MEDIA
        || key == LABELS
        || key == HISTORY
}

/// Whether this is a key of a service of this kind.
#[tactic(auto, unfolding(crate::specs::Keys::is_of_kind))]
fn is_of_kind(kind: ServiceKind, key: &str) -> bool
    ensures { result ≡ spec.is_of_kind kind key.now }
{
    key == KIND
        || key == NAME
        || key == target(kind)
        || !is_bus(kind) && (key == MEDIA || key == LABELS)
        || has_history(kind) && key == HISTORY
}

/// Whether it is a controller on a bus.
pub fn is_bus(kind: ServiceKind) -> bool
    ensures { result ≡ spec.is_bus kind }
{
    match kind {
        ServiceKind::Can => true,
        ServiceKind::Ethernet => true,
        ServiceKind::Lin => true,
        ServiceKind::Publisher => false,
        ServiceKind::Subscriber => false,
        ServiceKind::Server => false,
        ServiceKind::Client => false,
    }
}

/// Whether a service of this kind may keep what it published last.
pub fn has_history(kind: ServiceKind) -> bool
    ensures { result ≡ spec.has_history kind }
{
    match kind {
        ServiceKind::Publisher => true,
        ServiceKind::Can => false,
        ServiceKind::Ethernet => false,
        ServiceKind::Lin => false,
        ServiceKind::Subscriber => false,
        ServiceKind::Server => false,
        ServiceKind::Client => false,
    }
}

/// The key of what a service of this kind speaks of.
pub fn target(kind: ServiceKind) -> &'static str
    ensures { result.now ≡ spec.target_key kind }
{
    match kind {
        ServiceKind::Can => NETWORK,
        ServiceKind::Ethernet => NETWORK,
        ServiceKind::Lin => NETWORK,
        ServiceKind::Publisher => TOPIC,
        ServiceKind::Subscriber => TOPIC,
        ServiceKind::Server => FUNCTION,
        ServiceKind::Client => FUNCTION,
    }
}
