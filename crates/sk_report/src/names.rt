//! What a report calls participants and their services.

ghost use Rattle.std.specs.Prelude.{◌≡◌, [], map, IfOk};
ghost use Rattle.sk_report.specs.Names.{PartNames, part_names, no_names, service_name};

use sk_base::{Name, WantOfMemory};
use sk_msg::Service;
use std::alloc::Global;
use std::marker::Model;

/// The names of a participant and of its services. Contracts see both.
#[derive(Debug, Drop)]
pub struct Reported {
    name: String,
    services: Vec<Name>,
}

impl Model for Reported {
    ghost use Rattle.std.specs.String.{string_bytes};
    ghost use Rattle.sk_report.specs.Names.{PartNames};

    ghost Value = { PartNames };

    ghost view = { λ r. record { name = string_bytes r.name; services = r.services.items } };
}

impl Reported {
    /// Those of a participant with this name and these services, whose numbers are their indices.
    pub fn new(alloc: Global, name: &Name, services: &[Service]) -> Result<Reported, WantOfMemory>
        ensures { IfOk result (λ reported. reported ≡ part_names name.now services.now) }
    {
        Ok(Reported {
            name: String::from_str(alloc, name.as_str())?,
            services: service_names(alloc, services)?,
        })
    }

    /// Those of a participant of whom nothing is known: its name is empty, and it has no service.
    pub(crate) fn nobody(alloc: Global) -> Reported
        ensures { result ≡ no_names }
    {
        Reported {
            name: String::new(alloc),
            services: Vec::new(alloc),
        }
    }

    /// The participant's name.
    pub(crate) fn name(&self) -> &str
        ensures { result.now ≡ self.now.name }
    {
        self.name.as_str()
    }

    /// The name of the own service of this number; it is empty where there is no such service.
    pub(crate) fn service(&self, number: u32) -> &str
        ensures { result.now ≡ service_name self.now number }
    {
        match self.services.get(number as usize) {
            Some(name) => name.as_str(),
            None => "",
        }
    }
}

/// The names of these services.
fn service_names(alloc: Global, services: &[Service]) -> Result<Vec<Name>, WantOfMemory>
    ensures { IfOk result (λ names. names.items ≡ map (λ service. service.name) services.now) }
{
    let mut names = Vec::new(alloc);
    for service in services {
        names.push(service.name.copy(alloc)?)?;
    }
    Ok(names)
}
