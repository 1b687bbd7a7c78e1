//! Reading: from bytes to a configuration, or the first fault.

ghost use Rattle.std.specs.Prelude.{◌≡◌, ◌⊎◌, ◌||◌, ◌++◌, [], is_none, Ok, Err, IfOk, IfErr, IsTrue, MatchResult, length};
ghost use Rattle.serde_json.specs.View.{view, items_view};
ghost use Rattle.sk_base.specs.Ranges.{is_name};
ghost use Rattle.sk_config.specs.Configs.{is_address, is_next_entry, are_entries, is_none_or};
ghost use Rattle.sk_config.specs.Configs as spec;
ghost use Rattle.sk_config.specs.Keys.{row_of};
ghost use Rattle.sk_config.specs.declared.keys.Object.TheVariants as Object;
ghost use Rattle.sk_msg.specs.Each.{each_after};
ghost use Rattle.sk_config.specs.Faults.{config_faults};
ghost use Rattle.sk_config.specs.Json.{IsRead, Refuses, text_at, text_fault};
ghost use Rattle.sk_config.specs.Reading.{reading, reading_at, history_fault, history_of, entry_name_fault, name_of, entry_fault, entry_of, entries_fault, entries_in, entries_unused, kind_fault, list_of, list_unused, unused_keys, all_unused, middleware_fault, middleware_unused, uri_of, fault_of, config_of};

use crate::address::Address;
use crate::config::{Config, ConfigEntry, ConfigRead};
use crate::fault::ConfigFault;
use crate::json;
use crate::keys::{HISTORY, MIDDLEWARE, NAME, Object, PARTICIPANT_NAME, REGISTRY_URI, Row};
use crate::path::Path;
use crate::warning::Warnings;
use serde_json::Value;
use sk_base::limits::MOST_CONFIG_ENTRIES;
use sk_base::{Name, Text};
use sk_msg::ServiceKind;
use std::alloc::Global;

/// Reads a configuration from the bytes of its file: the configuration with its warnings, or the
/// first fault. A refused reading gives no warnings.
#[tactic(auto, unfolding(crate::specs::Reading::reading))]
pub fn read_config(alloc: Global, text: &[u8]) -> Result<ConfigRead, ConfigFault>
    ensures read { IfOk result (λ read. reading text.now ≡ Ok read) }
    ensures refused { IfErr result (λ fault. (fault ≡ ConfigFault.WantOfMemory) ⊎ (reading text.now ≡ Err fault)) }
{
    let value = json::parse::<ConfigFault>(alloc, text)?;
    read_value(alloc, &Path::root(alloc), &value)
}

/// Reads a configuration from a JSON value that stands at this path of a file.
#[tactic(auto, using(crate::proofs::WholeLaws::reading_is, crate::proofs::ReadLaws::reading_refused), unfolding(crate::specs::Reading::warnings_of))]
pub fn read_value(alloc: Global, at: &Path, value: &Value) -> Result<ConfigRead, ConfigFault>
    ensures read { IfOk result (λ read. reading_at at.now (view value.now) ≡ Ok read) }
    ensures refused { IfErr result (λ fault. (fault ≡ ConfigFault.WantOfMemory) ⊎ (reading_at at.now (view value.now) ≡ Err fault)) }
{
    let mut unused = Vec::new(alloc);
    let config = read_fields(alloc, at, value, &mut unused)?;
    let warnings = Warnings::of_unused(alloc, unused)?;
    Ok(ConfigRead { config, warnings })
}

/// What is said at the keys of the root, in the order of the table.
fn read_fields(
    alloc: Global,
    at: &Path,
    root: &Value,
    unused: &mut Vec<Path>,
) -> Result<Config, ConfigFault>
    ensures value { MatchResult result
        (IsRead (fault_of at.now (view root.now)) (config_of (view root.now)))
        (Refuses config_faults (fault_of at.now (view root.now))) }
    ensures noted { IfOk result (λ _. unused.new.items ≡ unused.old.items ++ all_unused at.now (view root.now)) }
{
    json::enter::<Object, ConfigFault>(alloc, &Object::Root, at, root, unused)?;
    Ok(Config {
        participant_name: name_at(alloc, at, PARTICIPANT_NAME, root)?,
        can: read_list(alloc, ServiceKind::Can, at, root, unused)?,
        ethernet: read_list(alloc, ServiceKind::Ethernet, at, root, unused)?,
        lin: read_list(alloc, ServiceKind::Lin, at, root, unused)?,
        publishers: read_list(alloc, ServiceKind::Publisher, at, root, unused)?,
        subscribers: read_list(alloc, ServiceKind::Subscriber, at, root, unused)?,
        servers: read_list(alloc, ServiceKind::Server, at, root, unused)?,
        clients: read_list(alloc, ServiceKind::Client, at, root, unused)?,
        registry_uri: read_middleware(alloc, at, root, unused)?,
    })
}

/// The name at a key, where there is one.
fn name_at(alloc: Global, at: &Path, key: &str, object: &Value) -> Result<Option<Name>, ConfigFault>
    ensures value { MatchResult result
        (IsRead (text_fault config_faults is_name at.now key.now (view object.now)) (text_at key.now (view object.now)))
        (Refuses config_faults (text_fault config_faults is_name at.now key.now (view object.now))) }
    ensures rules { IfOk result (λ name. IsTrue (is_none_or is_name name)) }
{
    json::text_at::<Name, ConfigFault>(alloc, at, key, object)
}

/// The list of one kind, empty where there is none.
#[tactic(auto, unfolding(crate::specs::Reading::kind_fault, crate::specs::Reading::list_unused, crate::specs::Reading::list_of, crate::specs::Json::items_at))]
fn read_list(
    alloc: Global,
    kind: ServiceKind,
    at: &Path,
    root: &Value,
    unused: &mut Vec<Path>,
) -> Result<Vec<ConfigEntry>, ConfigFault>
    ensures value { MatchResult result
        (λ entries. IsRead (kind_fault at.now (view root.now) kind) (list_of kind (view root.now)) entries.items)
        (Refuses config_faults (kind_fault at.now (view root.now) kind)) }
    ensures noted { IfOk result (λ _. unused.new.items ≡ unused.old.items ++ list_unused at.now (view root.now) kind) }
    ensures rules { IfOk result (λ entries. IsTrue (are_entries kind entries.items)) }
{
    let list = Row::of(kind).list();
    let Some(items) = json::list_at::<ConfigFault>(alloc, at, list, root, 0, MOST_CONFIG_ENTRIES)?
    else {
        return Ok(Vec::new(alloc));
    };
    let place = at.key(alloc, list)?;
    read_entries(alloc, kind, &place, items, unused)
}

/// The entries that these values are.
fn read_entries(
    alloc: Global,
    kind: ServiceKind,
    at: &Path,
    items: &[Value],
    unused: &mut Vec<Path>,
) -> Result<Vec<ConfigEntry>, ConfigFault>
    ensures value { MatchResult result
        (λ entries. IsRead (entries_fault kind at.now [] 0 (items_view items.now)) (entries_in kind (items_view items.now)) entries.items)
        (Refuses config_faults (entries_fault kind at.now [] 0 (items_view items.now))) }
    ensures noted { IfOk result (λ _. unused.new.items ≡ unused.old.items ++ entries_unused kind at.now 0 (items_view items.now)) }
    ensures rules { IfOk result (λ entries. (length entries.items ≡ length items.now) × IsTrue (each_after (is_next_entry kind) [] entries.items)) }
{
    let mut entries = Vec::new(alloc);
    for (index, item) in items.iter().enumerate() {
        let place = at.index(alloc, index)?;
        let entry = read_entry(alloc, kind, &place, &entries, item, unused)?;
        entries.push(entry)?;
    }
    Ok(entries)
}

/// The entry that this value is, behind the entries before it.
#[tactic(auto, unfolding(crate::specs::Reading::unused_keys))]
fn read_entry(
    alloc: Global,
    kind: ServiceKind,
    at: &Path,
    earlier: &[ConfigEntry],
    item: &Value,
    unused: &mut Vec<Path>,
) -> Result<ConfigEntry, ConfigFault>
    ensures value { MatchResult result
        (IsRead (entry_fault kind at.now earlier.now (view item.now)) (entry_of kind (view item.now)))
        (Refuses config_faults (entry_fault kind at.now earlier.now (view item.now))) }
    ensures noted { IfOk result (λ _. unused.new.items ≡ unused.old.items ++ unused_keys (Object.Entry kind) at.now (view item.now)) }
    ensures rules { IfOk result (λ entry. IsTrue (is_next_entry kind earlier.now entry)) }
{
    json::enter::<Object, ConfigFault>(alloc, &Object::Entry(kind), at, item, unused)?;
    let name = new_name(alloc, at, earlier, item)?;
    Ok(ConfigEntry {
        name,
        target: name_at(alloc, at, Row::of(kind).target(), item)?,
        history: history_at(alloc, kind, at, item)?,
    })
}

/// The name of an entry, which none of the entries before it has.
#[tactic(auto, using(crate::proofs::ReadLaws::names))]
fn new_name(
    alloc: Global,
    at: &Path,
    earlier: &[ConfigEntry],
    item: &Value,
) -> Result<Name, ConfigFault>
    ensures value { MatchResult result
        (IsRead (entry_name_fault at.now earlier.now (view item.now)) (name_of (view item.now)))
        (Refuses config_faults (entry_name_fault at.now earlier.now (view item.now))) }
    ensures rules { IfOk result (λ name. IsTrue (is_name name) × IsTrue (spec.is_new earlier.now name)) }
{
    let Some(name) = name_at(alloc, at, NAME, item)? else {
        return Err(json::missing_at(alloc, at, NAME));
    };
    if !is_new(earlier, &name) {
        return Err(ConfigFault::Double(at.key(alloc, NAME)?));
    }
    Ok(name)
}

/// Whether none of these entries has the name.
#[tactic(auto, unfolding(crate::specs::Configs::is_new))]
fn is_new(earlier: &[ConfigEntry], name: &Name) -> bool
    ensures { result ≡ spec.is_new earlier.now name.now }
{
    for entry in earlier {
        if entry.name.is(name) {
            return false;
        }
    }
    true
}

/// What an entry of this kind says of history.
#[tactic(auto, unfolding(crate::specs::Reading::history_fault, crate::specs::Reading::history_of))]
fn history_at(
    alloc: Global,
    kind: ServiceKind,
    at: &Path,
    item: &Value,
) -> Result<Option<bool>, ConfigFault>
    ensures value { MatchResult result
        (IsRead (history_fault kind at.now (view item.now)) (history_of kind (view item.now)))
        (Refuses config_faults (history_fault kind at.now (view item.now))) }
    ensures rules { IfOk result (λ history. IsTrue ((row_of kind).has_history || is_none history)) }
{
    if !Row::of(kind).has_history() {
        return Ok(None);
    }
    match json::number_at::<ConfigFault>(alloc, at, HISTORY, item, 0, 1)? {
        Some(number) => Ok(Some(number == 1)),
        None => Ok(None),
    }
}

/// What is said of the middleware: the address of the registry.
#[tactic(auto, unfolding(crate::specs::Reading::unused_keys, crate::specs::Reading::middleware_fault, crate::specs::Reading::middleware_unused, crate::specs::Reading::uri_of))]
fn read_middleware(
    alloc: Global,
    at: &Path,
    root: &Value,
    unused: &mut Vec<Path>,
) -> Result<Option<Text>, ConfigFault>
    ensures value { MatchResult result
        (IsRead (middleware_fault at.now (view root.now)) (uri_of (view root.now)))
        (Refuses config_faults (middleware_fault at.now (view root.now))) }
    ensures noted { IfOk result (λ _. unused.new.items ≡ unused.old.items ++ middleware_unused at.now (view root.now)) }
    ensures rules { IfOk result (λ uri. IsTrue (is_none_or is_address uri)) }
{
    let Some(middleware) = root.get(MIDDLEWARE) else {
        return Ok(None);
    };
    let at = at.key(alloc, MIDDLEWARE)?;
    json::enter::<Object, ConfigFault>(alloc, &Object::Middleware, &at, middleware, unused)?;
    match json::text_at::<Address, ConfigFault>(alloc, &at, REGISTRY_URI, middleware)? {
        Some(address) => Ok(Some(address.into_text())),
        None => Ok(None),
    }
}
