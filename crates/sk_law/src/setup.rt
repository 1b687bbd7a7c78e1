//! What a participant is made with.

ghost use Rattle.std.specs.Prelude.{◌≡◌, IfOk};

use crate::services::Services;
use sk_base::WantOfMemory;
use sk_msg::Names;
use std::alloc::Global;

/// What a participant is made with.
///
/// `IsSetup` of the definitions says what the laws ask of one. The limits of its services and of
/// the duration are beside it.
#[derive(Debug, Drop)]
pub struct Setup {
    /// Its own place among the names.
    pub number: u32,
    /// All participants, in the order of their numbers. Each but the own one is a peer.
    pub names: Names,
    /// Whether it goes on only as those do that the simulation needs; else it is autonomous.
    pub coordinated: bool,
    /// Of a synchronised participant the size of its steps, 1 to 2^60 ns of virtual time.
    pub step: Option<u64>,
    /// Whether a completion ends its steps, and not the return of the handler.
    pub is_async: bool,
    /// Whether a completion ends its ready handler.
    pub ready_async: bool,
    /// Its services, numbered from 0 on.
    pub services: Services,
    /// No step begins at it or later, in ns of virtual time.
    pub duration: u64,
    /// Whom the simulation needs. Without them a tool tells it.
    pub required: Option<Names>,
}

impl Setup {
    /// The same setup again.
    pub fn copy(&self, alloc: Global) -> Result<Setup, WantOfMemory>
        ensures { IfOk result (λ copy. copy ≡ self.now) }
    {
        let required = copy_required(alloc, &self.required)?;
        Ok(Setup {
            number: self.number,
            names: self.names.copy(alloc)?,
            coordinated: self.coordinated,
            step: self.step,
            is_async: self.is_async,
            ready_async: self.ready_async,
            services: self.services.copy(alloc)?,
            duration: self.duration,
            required,
        })
    }
}

/// The same required names again.
fn copy_required(alloc: Global, required: &Option<Names>) -> Result<Option<Names>, WantOfMemory>
    ensures { IfOk result (λ copy. copy ≡ required.now) }
{
    match required {
        Some(names) => Ok(Some(names.copy(alloc)?)),
        None => Ok(None),
    }
}
