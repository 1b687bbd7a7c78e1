//! One that is joined.

ghost use Rattle.std.specs.Prelude.{◌≡◌, IfOk};

use sk_base::{Name, Text, WantOfMemory};
use sk_msg::Role;
use std::alloc::Global;

/// One that is joined, as it told of itself.
#[derive(Debug, Drop)]
pub struct Joined {
    pub name: Name,
    pub role: Role,
    /// Where it listens.
    pub address: Text,
}

impl Joined {
    /// The same once more.
    pub fn copy(&self, alloc: Global) -> Result<Joined, WantOfMemory>
        ensures { IfOk result (λ copy. copy ≡ self.now) }
    {
        Ok(Joined {
            name: self.name.copy(alloc)?,
            role: self.role,
            address: self.address.copy(alloc)?,
        })
    }
}
