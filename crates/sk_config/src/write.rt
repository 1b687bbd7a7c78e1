//! Writing: the one canonical text of a configuration.

ghost use Rattle.std.specs.Prelude.{◌≡◌, Ok, [], IfOk, OnOk, IsTrue};
ghost use Rattle.sk_config.specs.Configs.{is_config};
ghost use Rattle.std.specs.String.{string_bytes};
ghost use Rattle.serde_json.specs.Data.{put, string};
ghost use Rattle.serde_json.specs.View.{view, items_view, members_view};
ghost use Rattle.sk_config.specs.Written.{put_some, entry_data, entries_data, list_data, middleware_data, config_data, canonical};
ghost use Rattle.sk_config.specs.Written as spec;
ghost use Rattle.sk_config.specs.Reading.{reading};
ghost use Rattle.sk_config.specs.Keys.{row_of};

use crate::config::{Config, ConfigEntry};
use crate::keys::{HISTORY, KINDS, MIDDLEWARE, NAME, PARTICIPANT_NAME, REGISTRY_URI, Row};
use serde_json::{Map, Value};
use sk_base::WantOfMemory;
use sk_msg::ServiceKind;
use std::alloc::Global;

/// The canonical text: compact JSON of what is present, with keys in byte order. It reads back to
/// the same configuration, without a warning.
pub fn config_text(alloc: Global, config: &Config) -> Result<String, WantOfMemory>
    ensures text { IfOk result (λ text. string_bytes text ≡ canonical config.now) }
    ensures reads_back { IfOk result (λ text. reading (string_bytes text) ≡ Ok (record { config = config.now; warnings = [] })) }
{
    let value = config_value(alloc, config)?;
    Ok(value.to_string(alloc)?)
}

#[tactic(auto, using(crate::proofs::WriteLaws::puts), unfolding(crate::specs::Written::config_data, crate::specs::Written::put_some))]
fn config_value(alloc: Global, config: &Config) -> Result<Value, WantOfMemory>
    ensures value { IfOk result (λ value. view value ≡ config_data config.now) }
    ensures rules { IfOk result (λ _. IsTrue (is_config config.now)) }
{
    let mut members = Map::new(alloc);
    if let Some(name) = config.participant_name() {
        put_text(alloc, &mut members, PARTICIPANT_NAME, name.as_str())?;
    }
    put_lists(alloc, &mut members, &KINDS, config)?;
    if let Some(uri) = config.registry_uri() {
        put_member(
            alloc,
            &mut members,
            MIDDLEWARE,
            middleware_value(alloc, uri.as_str())?,
        )?;
    }
    Ok(Value::Object(members))
}

#[tactic(auto, using(crate::proofs::WriteLaws::puts), unfolding(crate::specs::Written::middleware_data, crate::specs::Written::put_some))]
fn middleware_value(alloc: Global, uri: &str) -> Result<Value, WantOfMemory>
    ensures { IfOk result (λ value. view value ≡ middleware_data uri.now) }
{
    let mut members = Map::new(alloc);
    put_text(alloc, &mut members, REGISTRY_URI, uri)?;
    Ok(Value::Object(members))
}

/// Puts the lists of these kinds, except empty ones.
fn put_lists(
    alloc: Global,
    members: &mut Map<String, Value>,
    kinds: &[ServiceKind],
    config: &Config,
) -> Result<(), WantOfMemory>
    ensures { OnOk result (members_view members.new.entries ≡ spec.put_lists config.now kinds.now (members_view members.old.entries)) }
{
    for kind in kinds {
        put_list(alloc, members, *kind, config.entries(*kind))?;
    }
    Ok(())
}

/// Puts the list of a kind, unless it is empty.
#[tactic(auto, using(crate::proofs::WriteLaws::puts), unfolding(crate::specs::Written::put_some))]
fn put_list(
    alloc: Global,
    members: &mut Map<String, Value>,
    kind: ServiceKind,
    entries: &[ConfigEntry],
) -> Result<(), WantOfMemory>
    ensures { OnOk result (members_view members.new.entries
        ≡ put_some (row_of kind).list (list_data kind entries.now) (members_view members.old.entries)) }
{
    if entries.is_empty() {
        return Ok(());
    }
    let items = entry_values(alloc, kind, entries)?;
    put_member(alloc, members, Row::of(kind).list(), Value::Array(items))
}

#[tactic(auto, using(crate::proofs::WriteLaws::entries))]
fn entry_values(
    alloc: Global,
    kind: ServiceKind,
    entries: &[ConfigEntry],
) -> Result<Vec<Value>, WantOfMemory>
    ensures { IfOk result (λ values. items_view values.items ≡ entries_data kind entries.now) }
{
    let mut values = Vec::new(alloc);
    for entry in entries {
        values.push(entry_value(alloc, kind, entry)?)?;
    }
    Ok(values)
}

#[tactic(auto, using(crate::proofs::WriteLaws::puts), unfolding(crate::specs::Written::entry_data, crate::specs::Written::put_some))]
fn entry_value(alloc: Global, kind: ServiceKind, entry: &ConfigEntry) -> Result<Value, WantOfMemory>
    ensures { IfOk result (λ value. view value ≡ entry_data kind entry.now) }
{
    let mut members = Map::new(alloc);
    put_text(alloc, &mut members, NAME, entry.name.as_str())?;
    if let Some(target) = &entry.target {
        put_text(alloc, &mut members, Row::of(kind).target(), target.as_str())?;
    }
    if let Some(history) = entry.history {
        put_member(
            alloc,
            &mut members,
            HISTORY,
            Value::from(u64::from(history)),
        )?;
    }
    Ok(Value::Object(members))
}

fn put_text(
    alloc: Global,
    members: &mut Map<String, Value>,
    key: &str,
    text: &str,
) -> Result<(), WantOfMemory>
    ensures { OnOk result (members_view members.new.entries ≡ put key.now (string text.now) (members_view members.old.entries)) }
{
    put_member(
        alloc,
        members,
        key,
        Value::String(String::from_str(alloc, text)?),
    )
}

/// Puts a member in place, by its key's byte order.
#[tactic(auto, using(crate::proofs::WriteLaws::puts))]
fn put_member(
    alloc: Global,
    members: &mut Map<String, Value>,
    key: &str,
    value: Value,
) -> Result<(), WantOfMemory>
    ensures { OnOk result (members_view members.new.entries ≡ put key.now (view value) (members_view members.old.entries)) }
{
    members.insert(String::from_str(alloc, key)?, value)?;
    Ok(())
}
