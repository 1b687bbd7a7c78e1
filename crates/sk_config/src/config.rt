//! What a configuration says.

use crate::warning::Warnings;
use sk_base::{Name, Text};
use sk_msg::ServiceKind;
use std::marker::Model;

/// What is said of the service of this name and of the list's kind.
#[derive(Debug, Drop)]
pub struct ConfigEntry {
    /// The service's name. In a [`Config`] no other entry of its list has it.
    pub name: Name,
    /// Its network, its topic or its function, by its kind.
    pub target: Option<Name>,
    /// Whether a publisher keeps its last publication for those who come later.
    pub history: Option<bool>,
}

/// A configuration. Each of its lists has at most 64 entries, of distinct names; only publishers
/// have a history; the URI is an address, `silkit://HOST:PORT`.
///
/// Contracts see one field for each key.
#[derive(Debug, Drop)]
pub struct Config {
    pub(crate) participant_name: Option<Name>,
    pub(crate) can: Vec<ConfigEntry>,
    pub(crate) ethernet: Vec<ConfigEntry>,
    pub(crate) lin: Vec<ConfigEntry>,
    pub(crate) publishers: Vec<ConfigEntry>,
    pub(crate) subscribers: Vec<ConfigEntry>,
    pub(crate) servers: Vec<ConfigEntry>,
    pub(crate) clients: Vec<ConfigEntry>,
    pub(crate) registry_uri: Option<Text>,
}

impl Model for Config {
    ghost use Rattle.std.specs.Prelude.{IsTrue};
    ghost use Rattle.sk_config.specs.Configs.{ConfigValue, is_config};

    ghost Value = { ConfigValue };

    ghost view = { λ c. record {
      participant_name = c.participant_name;
      can = c.can.items;
      ethernet = c.ethernet.items;
      lin = c.lin.items;
      publishers = c.publishers.items;
      subscribers = c.subscribers.items;
      servers = c.servers.items;
      clients = c.clients.items;
      registry_uri = c.registry_uri;
    } };

    ghost invariant = { λ c. IsTrue (is_config (record {
      participant_name = c.participant_name;
      can = c.can.items;
      ethernet = c.ethernet.items;
      lin = c.lin.items;
      publishers = c.publishers.items;
      subscribers = c.subscribers.items;
      servers = c.servers.items;
      clients = c.clients.items;
      registry_uri = c.registry_uri;
    })) };
}

/// A configuration with its warnings.
#[derive(Debug, Drop)]
pub struct ConfigRead {
    /// What the file says.
    pub config: Config,
    /// The keys that were passed over, object by object in the order of the table of keys, and in
    /// each object in byte order.
    pub warnings: Warnings,
}

impl Config {
    ghost use Rattle.std.specs.Prelude.{◌≡◌, IsTrue, option_map};
    ghost use Rattle.sk_config.specs.Configs.{entries_of, is_config};

    /// The name of the participant, in place of the scenario's.
    pub fn participant_name(&self) -> Option<&Name>
        ensures value { option_map (λ name. name.now) result ≡ self.now.participant_name }
        ensures rules { IsTrue (is_config self.now) }
    {
        self.participant_name.as_ref()
    }

    /// The entries of this kind, in the file's order.
    pub fn entries(&self, kind: ServiceKind) -> &[ConfigEntry]
        ensures value { result.now ≡ entries_of self.now kind }
        ensures rules { IsTrue (is_config self.now) }
    {
        match kind {
            ServiceKind::Can => self.can.as_slice(),
            ServiceKind::Ethernet => self.ethernet.as_slice(),
            ServiceKind::Lin => self.lin.as_slice(),
            ServiceKind::Publisher => self.publishers.as_slice(),
            ServiceKind::Subscriber => self.subscribers.as_slice(),
            ServiceKind::Server => self.servers.as_slice(),
            ServiceKind::Client => self.clients.as_slice(),
        }
    }

    /// The address of the registry.
    pub fn registry_uri(&self) -> Option<&Text>
        ensures value { option_map (λ uri. uri.now) result ≡ self.now.registry_uri }
        ensures rules { IsTrue (is_config self.now) }
    {
        self.registry_uri.as_ref()
    }
}
