//! A service as a message carries it.

ghost use Rattle.std.specs.Prelude.{◌≡◌, IfOk};

use crate::service::Service;
use sk_base::WantOfMemory;
use std::alloc::Global;
use std::marker::Model;

/// A service in a box. It is wide and rarely told, so a message that tells it stays as small as the
/// others. Contracts see the service.
#[derive(Debug, Drop)]
pub struct Announced {
    service: Box<Service>,
}

impl Model for Announced {
    ghost use Rattle.sk_msg.specs.declared.service.Service.{Service};

    ghost Value = { Service };

    ghost view = { λ announced. announced.service.value };
}

impl Announced {
    /// The service in a box of its own.
    pub fn new(alloc: Global, service: Service) -> Result<Announced, WantOfMemory>
        ensures { IfOk result (λ announced. announced ≡ service) }
    {
        Ok(Announced {
            service: Box::new(alloc, service)?,
        })
    }

    /// The service in the box.
    pub fn service(&self) -> &Service
        ensures { result.now ≡ self.now }
    {
        &self.service
    }

    /// The same service again.
    pub fn copy(&self, alloc: Global) -> Result<Announced, WantOfMemory>
        ensures { IfOk result (λ copy. copy ≡ self.now) }
    {
        Announced::new(alloc, self.service.copy(alloc)?)
    }
}
