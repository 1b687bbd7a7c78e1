//! A configuration's effect on the services of a participant.

ghost use Rattle.std.specs.Prelude.{◌≡◌, ◌++◌, [], map, IfOk, OnOk, OnErr, option_map, unwrap_or};
ghost use Rattle.sk_config.specs.Applied as spec;
ghost use Rattle.sk_config.specs.Applied.{entry_for, overridden, entries_unserved, list_unserved, unserved};
ghost use Rattle.std.specs.List.{flat_map};

use crate::config::{Config, ConfigEntry};
use crate::keys::{KINDS, Row};
use crate::path::Path;
use crate::warning::{Warning, Warnings};
use sk_base::{Name, WantOfMemory};
use sk_msg::{Service, ServiceKind, Spec, copy_labels};
use std::alloc::Global;

/// Overrides what the services speak of, and their history, by the entries of the same kind and
/// name. It answers a warning for each entry without a service, in the order of the table of keys.
/// After a refusal the services are as before.
pub fn apply(
    alloc: Global,
    config: &Config,
    services: &mut Vec<Service>,
) -> Result<Warnings, WantOfMemory>
    ensures applied { OnOk result (services.new.items ≡ map (overridden config.now) services.old.items) }
    ensures warned { IfOk result (λ warnings. warnings ≡ unserved services.old.items [] config.now) }
    ensures same { OnErr result (services.new.items ≡ services.old.items) }
{
    apply_at(alloc, &Path::root(alloc), config, services)
}

/// The same for a configuration that stands at this path of a file.
#[tactic(auto, unfolding(crate::specs::Applied::unserved))]
pub fn apply_at(
    alloc: Global,
    at: &Path,
    config: &Config,
    services: &mut Vec<Service>,
) -> Result<Warnings, WantOfMemory>
    ensures applied { OnOk result (services.new.items ≡ map (overridden config.now) services.old.items) }
    ensures warned { IfOk result (λ warnings. warnings ≡ unserved services.old.items at.now config.now) }
    ensures same { OnErr result (services.new.items ≡ services.old.items) }
{
    let changed = all_overridden(alloc, config, services)?;
    let mut warnings = Vec::new(alloc);
    note_kinds(alloc, at, &KINDS, config, services, &mut warnings)?;
    *services = changed;
    Ok(Warnings::new(warnings))
}

/// The services as the configuration has them, each a copy.
fn all_overridden(
    alloc: Global,
    config: &Config,
    services: &[Service],
) -> Result<Vec<Service>, WantOfMemory>
    ensures { IfOk result (λ changed. changed.items ≡ map (overridden config.now) services.now) }
{
    let mut changed = Vec::with_capacity(alloc, services.len())?;
    for service in services {
        changed.push(overridden_copy(alloc, config, service)?)?;
    }
    Ok(changed)
}

#[tactic(auto, unfolding(crate::specs::Applied::overridden))]
fn overridden_copy(
    alloc: Global,
    config: &Config,
    service: &Service,
) -> Result<Service, WantOfMemory>
    ensures { IfOk result (λ changed. changed ≡ overridden config.now service.now) }
{
    let Some(entry) = entry_for(config, service) else {
        return service.copy(alloc);
    };
    Ok(Service {
        id: service.id,
        kind: service.kind,
        name: service.name.copy(alloc)?,
        spec: with_topic(alloc, &service.spec, &entry.target)?,
        history: entry.history.unwrap_or(service.history),
    })
}

/// The entry that speaks of this service.
#[tactic(auto, unfolding(crate::specs::Applied::entry_for))]
fn entry_for<'a>(config: &'a Config, service: &Service) -> Option<&'a ConfigEntry>
    ensures { option_map (λ entry. entry.now) result ≡ entry_for config.now service.now }
{
    config
        .entries(service.kind)
        .iter()
        .find(|entry| entry.name.is(&service.name))
}

/// The specification again, with this topic in place of its own where there is one.
fn with_topic(alloc: Global, spec: &Spec, topic: &Option<Name>) -> Result<Spec, WantOfMemory>
    ensures { IfOk result (λ changed. changed ≡ record spec.now { topic = unwrap_or topic.now spec.now.topic }) }
{
    let topic = match topic {
        Some(topic) => topic.copy(alloc)?,
        None => spec.topic().copy(alloc)?,
    };
    let labels = copy_labels(alloc, spec.labels())?;
    Ok(Spec::with_labels(topic, spec.media().copy(alloc)?, labels))
}

/// Notes the entries of these kinds without a service.
fn note_kinds(
    alloc: Global,
    at: &Path,
    kinds: &[ServiceKind],
    config: &Config,
    services: &[Service],
    warnings: &mut Vec<Warning>,
) -> Result<(), WantOfMemory>
    ensures { OnOk result (warnings.new.items ≡ warnings.old.items ++ flat_map (list_unserved services.now at.now config.now) kinds.now) }
{
    for kind in kinds {
        note_kind(alloc, at, *kind, config, services, warnings)?;
    }
    Ok(())
}

/// Notes the entries of one kind without a service.
#[tactic(auto, unfolding(crate::specs::Applied::list_unserved))]
fn note_kind(
    alloc: Global,
    at: &Path,
    kind: ServiceKind,
    config: &Config,
    services: &[Service],
    warnings: &mut Vec<Warning>,
) -> Result<(), WantOfMemory>
    ensures { OnOk result (warnings.new.items ≡ warnings.old.items ++ list_unserved services.now at.now config.now kind) }
{
    let place = at.key(alloc, Row::of(kind).list())?;
    let entries = config.entries(kind);
    note_unserved(alloc, &place, kind, entries, services, warnings)
}

/// Notes those of these entries, which are of this kind, that have no service.
fn note_unserved(
    alloc: Global,
    at: &Path,
    kind: ServiceKind,
    entries: &[ConfigEntry],
    services: &[Service],
    warnings: &mut Vec<Warning>,
) -> Result<(), WantOfMemory>
    ensures { OnOk result (warnings.new.items ≡ warnings.old.items ++ entries_unserved services.now kind at.now 0 entries.now) }
{
    for (index, entry) in entries.iter().enumerate() {
        if !is_served(services, kind, &entry.name) {
            warnings.push(Warning {
                path: at.index(alloc, index)?,
                unused: false,
            })?;
        }
    }
    Ok(())
}

/// Whether one of the services is of this kind and has this name.
#[tactic(auto, unfolding(crate::specs::Applied::is_served))]
fn is_served(services: &[Service], kind: ServiceKind, name: &Name) -> bool
    ensures { result ≡ spec.is_served services.now kind name.now }
{
    services
        .iter()
        .any(|service| service.kind == kind && service.name.is(name))
}
