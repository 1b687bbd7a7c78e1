//! Services in order.

ghost use Rattle.std.specs.Prelude.{◌≡◌, [], ◌∷◌, ◌++◌, None, IfOk, OnOk, OnErr};
ghost use Rattle.sk_pubsub.specs.Announcing.{announced_by, refusal, IsAdded};

use sk_base::WantOfMemory;
use sk_msg::Service;
use sk_pubsub::{AddRefused, Receivers};
use std::alloc::Global;
use std::marker::Model;

/// Services in order. Contracts see the list.
#[derive(Debug, Drop)]
pub struct Services {
    services: Vec<Service>,
}

impl Model for Services {
    ghost use Rattle.std.specs.Prelude.{List};
    ghost use Rattle.sk_msg.specs.declared.service.Service.{Service};

    ghost Value = { List Service };

    ghost view = { λ services. services.services.items };
}

impl Services {
    /// These services, in this order.
    pub fn new(services: Vec<Service>) -> Services
        ensures { result ≡ services.items }
    {
        Services { services }
    }

    /// The services in order.
    pub fn as_slice(&self) -> &[Service]
        ensures { result.now ≡ self.now }
    {
        self.services.as_slice()
    }

    /// The services by themselves.
    pub fn into_vec(self) -> Vec<Service>
        ensures { result.items ≡ self }
    {
        self.services
    }

    /// One service more, behind the others, which this peer announces: the copy goes into the index.
    pub(crate) fn announce(
        &mut self,
        index: &mut Receivers,
        peer: u32,
        service: Service,
        copy: Service,
    ) -> Result<(), WantOfMemory>
        requires { refusal (announced_by index.old peer) copy ≡ None }
        ensures ok { OnOk result (self.new ≡ self.old ++ service ∷ []) }
        ensures added { OnOk result (IsAdded peer copy index.old index.new) }
        ensures same { OnErr result (self.new ≡ self.old) }
        ensures index { OnErr result (index.new ≡ index.old) }
    {
        self.services.reserve(1)?;
        add(index, peer, copy)?;
        self.services.push(service).unwrap();
        Ok(())
    }

    /// The same services again.
    pub fn copy(&self, alloc: Global) -> Result<Services, WantOfMemory>
        ensures { IfOk result (λ copy. copy ≡ self.now) }
    {
        Ok(Services {
            services: copy_services(alloc, &self.services)?,
        })
    }
}

/// The peer announces this service, which is its next one.
fn add(index: &mut Receivers, peer: u32, service: Service) -> Result<(), WantOfMemory>
    requires { refusal (announced_by index.old peer) service ≡ None }
    ensures ok { OnOk result (IsAdded peer service index.old index.new) }
    ensures same { OnErr result (index.new ≡ index.old) }
{
    match index.add(peer, service) {
        Ok(()) => Ok(()),
        Err(AddRefused::WantOfMemory) => Err(WantOfMemory),
        Err(AddRefused::Full) => unreachable!(),
        Err(AddRefused::OutOfOrder(_)) => unreachable!(),
    }
}

/// The same services again.
fn copy_services(alloc: Global, services: &[Service]) -> Result<Vec<Service>, WantOfMemory>
    ensures { IfOk result (λ copies. copies.items ≡ services.now) }
{
    let mut copies = Vec::new(alloc);
    for service in services {
        copies.push(service.copy(alloc)?)?;
    }
    Ok(copies)
}
