//! What stands at a key of an object: its value, or the fault of it. A path is made where something
//! is wrong, and takes memory there alone.

ghost use Rattle.std.specs.Prelude.{◌≡◌, ◌⊎◌, ℕ, ◌^◌, ◌-◌, List, Option, IfOk, option_map, IsTrue};
ghost use Rattle.serde_json.specs.View.{view, items_view};
ghost use Rattle.sk_base.specs.Ranges.{is_name, is_text};
ghost use Rattle.sk_config.specs.Paths.{key_at};
ghost use Rattle.sk_rules.specs.Outcome.{Answers, AnswersAs};
ghost use Rattle.sk_rules.specs.Fields as spec;

use crate::fault::{Rule, ScenarioFault};
use crate::word::Word;
use hex::FromHexError;
use serde_json::Value;
use sk_base::{Bytes, BytesFault, Name, Text};
use sk_config::json::KnownKeys;
use sk_config::{Path, json};
use std::alloc::Global;

/// The fault of what stands at a key, or want of memory for its path.
pub fn refused(alloc: Global, at: &Path, key: &str, rule: Rule) -> ScenarioFault
    ensures { (result ≡ ScenarioFault.WantOfMemory) ⊎ (result ≡ ScenarioFault.Refused (key_at at.now key.now) rule) }
{
    match at.key(alloc, key) {
        Ok(path) => ScenarioFault::Refused(path, rule),
        Err(_) => ScenarioFault::WantOfMemory,
    }
}

/// The fault of what stands at this path, or want of memory for it.
pub fn refused_at(alloc: Global, at: &Path, rule: Rule) -> ScenarioFault
    ensures { (result ≡ ScenarioFault.WantOfMemory) ⊎ (result ≡ ScenarioFault.Refused at.now rule) }
{
    match at.copy(alloc) {
        Ok(path) => ScenarioFault::Refused(path, rule),
        Err(_) => ScenarioFault::WantOfMemory,
    }
}

/// Whether the object has the key.
#[tactic(auto, unfolding(crate::specs::Fields::has))]
pub fn has(key: &str, object: &Value) -> bool
    ensures { result ≡ spec.has key.now (view object.now) }
{
    object.get(key).is_some()
}

/// Enters an object, each of whose keys has to be known. Of those that aren't the first in byte
/// order is answered.
#[tactic(auto, unfolding(crate::specs::Fields::object_read))]
pub fn enter<K: KnownKeys>(
    alloc: Global,
    keys: &K,
    at: &Path,
    value: &Value,
) -> Result<(), ScenarioFault>
    ensures { Answers (spec.object_read (K.is_known keys.now) at.now (view value.now)) result }
{
    let mut unknown = Vec::new(alloc);
    json::enter::<K, ScenarioFault>(alloc, keys, at, value, &mut unknown)?;
    none_unknown(alloc, &unknown)
}

/// Whether there is none of these keys, which no object may have.
fn none_unknown(alloc: Global, unknown: &[Path]) -> Result<(), ScenarioFault>
    ensures { Answers (spec.none_unknown unknown.now) result }
{
    match unknown.first() {
        Some(path) => Err(ScenarioFault::Refused(path.copy(alloc)?, Rule::UnknownKey)),
        None => Ok(()),
    }
}

/// What has to be at a key.
pub fn needed<T: Drop>(
    alloc: Global,
    at: &Path,
    key: &str,
    value: Option<T>,
) -> Result<T, ScenarioFault>
    ensures { Answers (spec.needed at.now key.now value) result }
{
    match value {
        Some(value) => Ok(value),
        None => Err(refused(alloc, at, key, Rule::Missing)),
    }
}

/// The name at a key, where there is one.
#[tactic(auto, unfolding(crate::specs::Fields::text_read))]
pub fn name_at(
    alloc: Global,
    at: &Path,
    key: &str,
    object: &Value,
) -> Result<Option<Name>, ScenarioFault>
    ensures { Answers (spec.text_read is_name at.now key.now (view object.now)) result }
{
    json::text_at::<Name, ScenarioFault>(alloc, at, key, object)
}

/// The name at a key, which has to be there.
#[tactic(auto, unfolding(crate::specs::Fields::needed_text))]
pub fn needed_name(
    alloc: Global,
    at: &Path,
    key: &str,
    object: &Value,
) -> Result<Name, ScenarioFault>
    ensures { Answers (spec.needed_text is_name at.now key.now (view object.now)) result }
{
    let name = name_at(alloc, at, key, object)?;
    needed(alloc, at, key, name)
}

/// The text at a key, where there is one.
#[tactic(auto, unfolding(crate::specs::Fields::text_read))]
pub fn text_at(
    alloc: Global,
    at: &Path,
    key: &str,
    object: &Value,
) -> Result<Option<Text>, ScenarioFault>
    ensures { Answers (spec.text_read is_text at.now key.now (view object.now)) result }
{
    json::text_at::<Text, ScenarioFault>(alloc, at, key, object)
}

/// The text at a key, which has to be there.
#[tactic(auto, unfolding(crate::specs::Fields::needed_text))]
pub fn needed_text(
    alloc: Global,
    at: &Path,
    key: &str,
    object: &Value,
) -> Result<Text, ScenarioFault>
    ensures { Answers (spec.needed_text is_text at.now key.now (view object.now)) result }
{
    let text = text_at(alloc, at, key, object)?;
    needed(alloc, at, key, text)
}

/// The whole number from low to high at a key, where there is one.
#[tactic(auto, unfolding(crate::specs::Fields::number_read))]
pub fn number_at(
    alloc: Global,
    at: &Path,
    key: &str,
    object: &Value,
    low: u64,
    high: u64,
) -> Result<Option<u64>, ScenarioFault>
    ensures { Answers (spec.number_read low high at.now key.now (view object.now)) result }
{
    json::number_at::<ScenarioFault>(alloc, at, key, object, low, high)
}

/// The whole number from low to high at a key, which has to be there.
#[tactic(auto, unfolding(crate::specs::Fields::needed_number))]
pub fn needed_number(
    alloc: Global,
    at: &Path,
    key: &str,
    object: &Value,
    low: u64,
    high: u64,
) -> Result<u64, ScenarioFault>
    ensures { Answers (spec.needed_number low high at.now key.now (view object.now)) result }
{
    let number = number_at(alloc, at, key, object, low, high)?;
    needed(alloc, at, key, number)
}

/// A number of 32 bits at a key, from low to high, which has to be there.
pub fn needed_u32(
    alloc: Global,
    at: &Path,
    key: &str,
    object: &Value,
    low: u32,
    high: u32,
) -> Result<u32, ScenarioFault>
    ensures { Answers (spec.needed_number low high at.now key.now (view object.now)) result }
{
    let number = needed_number(alloc, at, key, object, u64::from(low), u64::from(high))?;
    Ok(number as u32)
}

/// A byte at a key, which has to be there.
pub fn needed_u8(alloc: Global, at: &Path, key: &str, object: &Value) -> Result<u8, ScenarioFault>
    ensures { Answers (spec.needed_number 0 255 at.now key.now (view object.now)) result }
{
    let number = needed_number(alloc, at, key, object, 0, 255)?;
    Ok(number as u8)
}

/// The list of least to most items at a key, where there is one.
#[tactic(auto, unfolding(crate::specs::Fields::list_read))]
pub fn list_at<'a>(
    alloc: Global,
    at: &Path,
    key: &str,
    object: &'a Value,
    least: usize,
    most: usize,
) -> Result<Option<&'a [Value]>, ScenarioFault>
    ensures { AnswersAs (option_map (λ values. items_view values.now)) (spec.list_read least most at.now key.now (view object.now)) result }
{
    json::list_at::<ScenarioFault>(alloc, at, key, object, least, most)
}

/// True or false at a key, where there is one of them.
#[tactic(auto, unfolding(crate::specs::Fields::bool_read))]
pub fn bool_at(
    alloc: Global,
    at: &Path,
    key: &str,
    object: &Value,
) -> Result<Option<bool>, ScenarioFault>
    ensures { Answers (spec.bool_read at.now key.now (view object.now)) result }
{
    let Some(value) = object.get(key) else {
        return Ok(None);
    };
    match value.as_bool() {
        Some(value) => Ok(Some(value)),
        None => Err(refused(alloc, at, key, Rule::WrongType)),
    }
}

/// The choice that the word at a key makes, where there is one.
#[tactic(auto, unfolding(crate::specs::Fields::word_read))]
pub fn word_at<T: Word>(
    alloc: Global,
    at: &Path,
    key: &str,
    object: &Value,
) -> Result<Option<T>, ScenarioFault>
    ensures { Answers (spec.word_read T.meaning at.now key.now (view object.now)) result }
{
    let Some(value) = object.get(key) else {
        return Ok(None);
    };
    let Some(word) = value.as_str() else {
        return Err(refused(alloc, at, key, Rule::WrongType));
    };
    match T::from_word(word) {
        Some(choice) => Ok(Some(choice)),
        None => Err(refused(alloc, at, key, Rule::OutOfRange)),
    }
}

/// The choice that the word at a key makes, which has to be there.
#[tactic(auto, unfolding(crate::specs::Fields::needed_word))]
pub fn needed_word<T: Word + Drop>(
    alloc: Global,
    at: &Path,
    key: &str,
    object: &Value,
) -> Result<T, ScenarioFault>
    ensures { Answers (spec.needed_word T.meaning at.now key.now (view object.now)) result }
{
    let word = word_at::<T>(alloc, at, key, object)?;
    needed(alloc, at, key, word)
}

/// The bytes at a key, where there are some: at most so many, as hexadecimal digits.
#[tactic(auto, unfolding(crate::specs::Fields::bytes_read))]
pub fn bytes_at(
    alloc: Global,
    at: &Path,
    key: &str,
    object: &Value,
    most: usize,
) -> Result<Option<Bytes>, ScenarioFault>
    ensures { Answers (spec.bytes_read most at.now key.now (view object.now)) result }
{
    let Some(value) = object.get(key) else {
        return Ok(None);
    };
    let Some(text) = value.as_str() else {
        return Err(refused(alloc, at, key, Rule::WrongType));
    };
    let bytes = read_bytes(alloc, at, key, text, most)?;
    Ok(Some(bytes))
}

/// The bytes of these digits, which stand at a key.
fn read_bytes(
    alloc: Global,
    at: &Path,
    key: &str,
    text: &str,
    most: usize,
) -> Result<Bytes, ScenarioFault>
    ensures { Answers (spec.bytes_in most (key_at at.now key.now) text.now) result }
{
    let bytes = match hex::decode(alloc, text.as_bytes()) {
        Ok(bytes) => bytes,
        Err(FromHexError::OutOfMemory) => return Err(ScenarioFault::WantOfMemory),
        Err(_) => return Err(refused(alloc, at, key, Rule::BadHex)),
    };
    if bytes.len() > most {
        return Err(refused(alloc, at, key, Rule::OutOfRange));
    }
    match Bytes::new(alloc, &bytes) {
        Ok(bytes) => Ok(bytes),
        Err(BytesFault::WantOfMemory) => Err(ScenarioFault::WantOfMemory),
        Err(BytesFault::TooLong(_)) => Err(refused(alloc, at, key, Rule::OutOfRange)),
    }
}
