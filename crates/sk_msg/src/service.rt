//! Services: what a participant offers to others or wants of them.

ghost use Rattle.std.specs.Prelude.{◌≡◌, IfOk};

use crate::spec::Spec;
use sk_base::{Name, WantOfMemory};
use std::alloc::Global;

/// What a service is, in the order of the numbers.
#[derive(Clone, Copy, Debug, PartialEq, Eq)]
pub enum ServiceKind {
    /// A controller on a CAN network.
    Can,
    /// A controller on an Ethernet network.
    Ethernet,
    /// A controller on a LIN network.
    Lin,
    /// It publishes on a topic.
    Publisher,
    /// It receives what is published on a topic.
    Subscriber,
    /// It answers calls.
    Server,
    /// It makes calls.
    Client,
}

/// A service of a participant.
#[derive(Debug, Drop)]
pub struct Service {
    /// Its number at its participant, 0 to 63.
    pub id: u32,
    /// What it is.
    pub kind: ServiceKind,
    /// Its name at its participant.
    pub name: Name,
    /// What it speaks of.
    pub spec: Spec,
    /// Whether a publisher keeps its last publication for those who come later. It isn't announced.
    pub history: bool,
}

impl Service {
    /// The same service again.
    pub fn copy(&self, alloc: Global) -> Result<Service, WantOfMemory>
        ensures { IfOk result (λ copy. copy ≡ self.now) }
    {
        Ok(Service {
            id: self.id,
            kind: self.kind,
            name: self.name.copy(alloc)?,
            spec: self.spec.copy(alloc)?,
            history: self.history,
        })
    }
}
