//! What an action may name, and where it stands.

ghost use Rattle.std.specs.Prelude.{◌≡◌, not, option_map};
ghost use Rattle.sk_config.specs.Applied.{is_kind};
ghost use Rattle.sk_msg.specs.declared.service.ServiceKind.TheVariants as kinds;
ghost use Rattle.sk_rules.specs.Places as spec;
ghost use Rattle.sk_rules.specs.Places.{service_of, receiver_of, variable_of};

use crate::vars::Vars;
use sk_msg::{Service, ServiceKind};
use std::marker::Model;

/// The services and the variables of a participant. Contracts see both lists.
#[derive(Debug, Drop)]
pub struct Scope {
    /// The services. The number of each is its index.
    pub services: Vec<Service>,
    /// The variables.
    pub vars: Vars,
}

impl Model for Scope {
    ghost use Rattle.sk_rules.specs.Places.{ScopeValue};

    ghost Value = { ScopeValue };

    ghost view = { λ s. record { services = s.services.items; vars = s.vars } };
}

/// Where an action stands.
#[derive(Clone, Copy, Debug, PartialEq, Eq)]
pub enum Place {
    /// In the list of what is done when the participant is ready.
    Ready,
    /// In a rule without `on`.
    Timed,
    /// In a rule with `on`; with the number of the server that it names, if it names one.
    On(Option<u32>),
}

impl Scope {
    /// The number of the service of this kind and name.
    #[tactic(auto, unfolding(crate::specs::Places::service_of))]
    pub(crate) fn service(&self, kind: ServiceKind, name: &str) -> Option<u32>
        ensures { result ≡ service_of self.now kind name.now }
    {
        let service = find_of_kind(&self.services, kind, name)?;
        Some(service.id)
    }

    /// The number of the service of this name, which is no publisher.
    #[tactic(auto, unfolding(crate::specs::Places::receiver_of))]
    pub(crate) fn receiver(&self, name: &str) -> Option<u32>
        ensures { result ≡ receiver_of self.now name.now }
    {
        let service = find_receiver(&self.services, name)?;
        Some(service.id)
    }

    /// The place of the variable of this name.
    #[tactic(auto, unfolding(crate::specs::Places::variable_of))]
    pub(crate) fn variable(&self, name: &str) -> Option<u32>
        ensures { result ≡ variable_of self.now name.now }
    {
        self.vars.position(name)
    }
}

/// The service of this kind and name.
fn find_of_kind<'a>(services: &'a [Service], kind: ServiceKind, name: &str) -> Option<&'a Service>
    ensures { option_map (λ service. service.now) result ≡ spec.find_one (λ one. is_kind one kind) services.now name.now }
{
    services.iter().find(|service| service.kind == kind && service.name.as_str() == name)
}

/// The service of this name, which is no publisher.
fn find_receiver<'a>(services: &'a [Service], name: &str) -> Option<&'a Service>
    ensures { option_map (λ service. service.now) result ≡ spec.find_one (λ one. not (is_kind one kinds.Publisher)) services.now name.now }
{
    services.iter().find(|service| service.kind != ServiceKind::Publisher
        && service.name.as_str() == name)
}

impl Place {
    /// Whether it is in a script.
    pub(crate) fn is_step(self) -> bool
        ensures { result ≡ spec.is_step self }
    {
        match self {
            Place::Ready => false,
            Place::Timed | Place::On(_) => true,
        }
    }

    /// Whether it is in a rule with `on`.
    pub(crate) fn is_on(self) -> bool
        ensures { result ≡ spec.is_on self }
    {
        match self {
            Place::Ready | Place::Timed => false,
            Place::On(_) => true,
        }
    }

    /// Whether it is in a rule on this server, if there is one.
    pub(crate) fn is_on_server(self, named: Option<u32>) -> bool
        ensures { result ≡ spec.is_on_server self named }
    {
        match (self, named) {
            (Place::On(Some(server)), Some(named)) => server == named,
            _ => false,
        }
    }
}
