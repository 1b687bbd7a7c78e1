//! The table of keys. In the code each key's text stands here alone, and the reader and the writer
//! go by it. The contracts go by the texts and the order of the table as `specs/Keys.antt` has them
//! written out, so a text or an order that differs from those isn't proved.

ghost use Rattle.std.specs.Prelude.{◌≡◌};
ghost use Rattle.sk_config.specs.Keys as spec;

use crate::json::KnownKeys;
use sk_msg::ServiceKind::{self, Can, Client, Ethernet, Lin, Publisher, Server, Subscriber};
use std::marker::Model;

/// Of the root: the participant's name, in place of the scenario's.
pub const PARTICIPANT_NAME: &str = "ParticipantName";

/// Of the root: the list of CAN controllers.
pub const CAN_CONTROLLERS: &str = "CanControllers";

/// Of the root: the list of Ethernet controllers.
pub const ETHERNET_CONTROLLERS: &str = "EthernetControllers";

/// Of the root: the list of LIN controllers.
pub const LIN_CONTROLLERS: &str = "LinControllers";

/// Of the root: the list of publishers.
pub const DATA_PUBLISHERS: &str = "DataPublishers";

/// Of the root: the list of subscribers.
pub const DATA_SUBSCRIBERS: &str = "DataSubscribers";

/// Of the root: the list of servers.
pub const RPC_SERVERS: &str = "RpcServers";

/// Of the root: the list of clients.
pub const RPC_CLIENTS: &str = "RpcClients";

/// Of the root: the object that says how the registry is reached.
pub const MIDDLEWARE: &str = "Middleware";

/// Of each entry: the service's name.
pub const NAME: &str = "Name";

/// Of a controller's entry: its network.
pub const NETWORK: &str = "Network";

/// Of a publisher's or subscriber's entry: its topic.
pub const TOPIC: &str = "Topic";

/// Of a server's or client's entry: its function.
pub const FUNCTION_NAME: &str = "FunctionName";

/// Of a publisher's entry: whether it keeps its last publication, 0 or 1.
pub const HISTORY: &str = "History";

/// Of the middleware: the registry's address.
pub const REGISTRY_URI: &str = "RegistryUri";

/// The kinds whose services have a list, in the order in which the lists are read.
pub const KINDS: [ServiceKind; 7] = [Can, Ethernet, Lin, Publisher, Subscriber, Server, Client];

/// The keys of the list of one kind of services. Contracts see their texts.
#[derive(Debug, Drop)]
pub struct Row {
    /// The key of the list.
    list: &'static str,
    /// The key of what an entry's service speaks of: its network, its topic or its function.
    target: &'static str,
    /// Whether an entry may say if a publisher keeps its last publication.
    has_history: bool,
}

impl Model for Row {
    ghost use Rattle.sk_config.specs.Rows.{Row as RowKeys};

    ghost Value = { RowKeys };

    ghost view = { λ r. record { list = r.list.now; target = r.target.now; has_history = r.has_history } };
}

impl Row {
    const fn bus(list: &'static str) -> Row
        ensures { result ≡ spec.bus list.now }
    {
        Row {
            list,
            target: NETWORK,
            has_history: false,
        }
    }

    /// The keys of this kind.
    pub fn of(kind: ServiceKind) -> Row
        ensures { result ≡ spec.row_of kind }
    {
        match kind {
            Can => Row::bus(CAN_CONTROLLERS),
            Ethernet => Row::bus(ETHERNET_CONTROLLERS),
            Lin => Row::bus(LIN_CONTROLLERS),
            Publisher => Row {
                list: DATA_PUBLISHERS,
                target: TOPIC,
                has_history: true,
            },
            Subscriber => Row {
                list: DATA_SUBSCRIBERS,
                target: TOPIC,
                has_history: false,
            },
            Server => Row {
                list: RPC_SERVERS,
                target: FUNCTION_NAME,
                has_history: false,
            },
            Client => Row {
                list: RPC_CLIENTS,
                target: FUNCTION_NAME,
                has_history: false,
            },
        }
    }

    /// The key of the list.
    pub fn list(&self) -> &'static str
        ensures { result.now ≡ self.now.list }
    {
        self.list
    }

    /// The key of what an entry's service speaks of.
    pub fn target(&self) -> &'static str
        ensures { result.now ≡ self.now.target }
    {
        self.target
    }

    /// Whether an entry may say if a publisher keeps its last publication.
    pub fn has_history(&self) -> bool
        ensures { result ≡ self.now.has_history }
    {
        self.has_history
    }
}

/// An object of the file that has keys of its own.
#[derive(Clone, Copy, Debug)]
pub enum Object {
    /// The whole file.
    Root,
    /// An entry of the list of this kind.
    Entry(ServiceKind),
    /// What is said of the middleware.
    Middleware,
}

impl KnownKeys for Object {
    ghost is_known = { spec.knows };

    #[tactic(auto, unfolding(crate::specs::Keys::knows))]
    fn knows(&self, key: &str) -> bool {
        match self {
            Object::Root => key == PARTICIPANT_NAME || is_list_key(key) || key == MIDDLEWARE,
            Object::Entry(kind) => {
                let row = Row::of(*kind);
                key == NAME || key == row.target() || row.has_history() && key == HISTORY
            }
            Object::Middleware => key == REGISTRY_URI,
        }
    }
}

/// Whether this is the key of a list of services.
#[tactic(auto, unfolding(crate::specs::Keys::is_list_key))]
fn is_list_key(key: &str) -> bool
    ensures { result ≡ spec.is_list_key key.now }
{
    KINDS.iter().any(|kind| key == Row::of(*kind).list())
}
