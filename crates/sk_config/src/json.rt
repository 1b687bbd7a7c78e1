//! Reading JSON: what stands at a key, and what is wrong there. Readers of several kinds of files can
//! share it, each with its own type of fault.
//!
//! A value that is looked at costs no memory, but for a text, which is copied. A path is made where
//! something is wrong, and for each key that an object has and may not have.
//!
//! ```text
//! let value = json::parse::<MyFault>(alloc, bytes)?;
//! json::enter::<_, MyFault>(alloc, &Root, &at, &value, &mut unknown)?;     // Root: KnownKeys
//! let step = json::number_at::<MyFault>(alloc, &at, "step", &value, 1, 1 << 60)?;
//! ```

ghost use Rattle.std.specs.Prelude.{◌≡◌, ◌⊎◌, ◌++◌, ℕ, Bool, List, Some, None, IfOk, MatchResult, option_map, if◌then◌else◌};
ghost use Rattle.serde_json.specs.View.{view, items_view, members_view};
ghost use Rattle.sk_base.specs.Ranges.{is_name, is_text};
ghost use Rattle.sk_config.specs.Paths.{key_at};
ghost use Rattle.sk_config.specs.Json.{Faults, IsRead, Refuses, json_of, unknown_in, unknown_keys, object_fault, text_fault, number_fault, list_fault};
ghost use Rattle.sk_config.specs.Json as spec;

use crate::path::Path;
use serde_json::{Map, Value};
use sk_base::{Name, Text, WantOfMemory};
use std::alloc::Global;

/// A fault that a reader of JSON answers, with the path where it is, if it is at one.
pub trait JsonFault {
    // How each fault is said.
    ghost faults: { Faults Self };

    /// The bytes are no JSON: `serde_json` has no reading of them.
    fn not_json() -> Self
        ensures { result ≡ faults.not_json };

    /// A key that is needed isn't there.
    fn missing(path: Path) -> Self
        ensures { result ≡ faults.missing path };

    /// A value of another JSON type, or a number that isn't a whole one from 0 to 2^64 - 1.
    fn wrong_type(path: Path) -> Self
        ensures { result ≡ faults.wrong_type path };

    /// A text that isn't of its kind.
    fn bad_text(path: Path) -> Self
        ensures { result ≡ faults.bad_text path };

    /// A number out of its range, or a list with too few or too many items.
    fn out_of_range(path: Path) -> Self
        ensures { result ≡ faults.out_of_range path };

    /// There was no memory for the reading.
    fn no_memory() -> Self
        ensures { result ≡ faults.no_memory };
}

/// A text that stands in JSON and passes the test of its type.
pub trait JsonText {
    // The test.
    ghost is_fine: { List ℕ → Bool };

    // The text that a value of this type is.
    ghost says: { Self → List ℕ };

    /// The value that this text is, or None where it is none.
    fn from_text(alloc: Global, text: &str) -> Result<Option<Self>, WantOfMemory>
        ensures { IfOk result (λ made. option_map says made ≡ (if is_fine text.now then Some text.now else None)) };
}

impl JsonText for Name {
    ghost is_fine = { is_name };

    ghost says = { λ name. name };

    fn from_text(alloc: Global, text: &str) -> Result<Option<Name>, WantOfMemory> {
        Name::from_utf8(alloc, text.as_bytes())
    }
}

impl JsonText for Text {
    ghost is_fine = { is_text };

    ghost says = { λ text. text };

    fn from_text(alloc: Global, text: &str) -> Result<Option<Text>, WantOfMemory> {
        Text::from_utf8(alloc, text.as_bytes())
    }
}

/// The keys that an object may have.
pub trait KnownKeys {
    // Whether it may have this key.
    ghost is_known: { Self → List ℕ → Bool };

    /// Whether it may have this key.
    fn knows(&self, key: &str) -> bool
        ensures { result ≡ is_known self.now key.now };
}

/// The JSON value of the bytes.
#[tactic(auto, using(crate::proofs::JsonLaws::json), unfolding(crate::specs::Json::json_of))]
pub fn parse<E: JsonFault>(alloc: Global, text: &[u8]) -> Result<Value, E>
    ensures { MatchResult result
        (λ value. json_of text.now ≡ Some (view value))
        (λ fault. (fault ≡ E.faults.no_memory) ⊎ ((fault ≡ E.faults.not_json) × (json_of text.now ≡ None))) }
{
    match Value::from_slice(alloc, text) {
        Ok(value) => Ok(value),
        Err(error) => Err(if error.is_memory() {
            E::no_memory()
        } else {
            E::not_json()
        }),
    }
}

/// Enters an object: notes the paths of its keys that are passed over, in byte order. Any other
/// value is refused.
#[tactic(auto, unfolding(crate::specs::Json::object_fault, crate::specs::Json::unknown_keys))]
pub fn enter<K: KnownKeys, E: JsonFault>(
    alloc: Global,
    keys: &K,
    at: &Path,
    value: &Value,
    unknown: &mut Vec<Path>,
) -> Result<(), E>
    ensures { MatchResult result
        (λ _. (object_fault E.faults at.now (view value.now) ≡ None)
        × (unknown.new.items ≡ unknown.old.items ++ unknown_keys (K.is_known keys.now) at.now (view value.now)))
        (Refuses E.faults (object_fault E.faults at.now (view value.now))) }
{
    let Some(members) = value.as_object() else {
        return match at.copy(alloc) {
            Ok(path) => Err(E::wrong_type(path)),
            Err(_) => Err(E::no_memory()),
        };
    };
    match note_unknown(alloc, keys, at, members, unknown) {
        Ok(()) => Ok(()),
        Err(_) => Err(E::no_memory()),
    }
}

/// Notes the paths of those of these members whose keys the object may not have, in byte order.
fn note_unknown<K: KnownKeys>(
    alloc: Global,
    keys: &K,
    at: &Path,
    members: &Map<String, Value>,
    unknown: &mut Vec<Path>,
) -> Result<(), WantOfMemory>
    ensures { IfOk result (λ _. unknown.new.items ≡ unknown.old.items ++ unknown_in (K.is_known keys.now) at.now (members_view members.now.entries)) }
{
    for (key, _) in members {
        if !keys.knows(key.as_str()) {
            unknown.push(at.key(alloc, key.as_str())?)?;
        }
    }
    Ok(())
}

/// The text at a key, where there is one. What is there has to be a text that its type takes.
#[tactic(auto, unfolding(crate::specs::Json::text_fault))]
pub fn text_at<T: JsonText, E: JsonFault>(
    alloc: Global,
    at: &Path,
    key: &str,
    object: &Value,
) -> Result<Option<T>, E>
    ensures { MatchResult result
        (λ text. IsRead (text_fault E.faults T.is_fine at.now key.now (view object.now)) (spec.text_at key.now (view object.now)) (option_map T.says text))
        (Refuses E.faults (text_fault E.faults T.is_fine at.now key.now (view object.now))) }
{
    let Some(value) = object.get(key) else {
        return Ok(None);
    };
    let Some(text) = value.as_str() else {
        return Err(wrong_type_at(alloc, at, key));
    };
    match T::from_text(alloc, text) {
        Ok(Some(text)) => Ok(Some(text)),
        Ok(None) => Err(bad_text_at(alloc, at, key)),
        Err(_) => Err(E::no_memory()),
    }
}

/// The whole number at a key, where there is one. What is there has to be a whole number from low to
/// high.
#[tactic(auto, unfolding(crate::specs::Json::number_fault))]
pub fn number_at<E: JsonFault>(
    alloc: Global,
    at: &Path,
    key: &str,
    object: &Value,
    low: u64,
    high: u64,
) -> Result<Option<u64>, E>
    ensures { MatchResult result
        (IsRead (number_fault E.faults low high at.now key.now (view object.now)) (spec.number_at key.now (view object.now)))
        (Refuses E.faults (number_fault E.faults low high at.now key.now (view object.now))) }
{
    let Some(value) = object.get(key) else {
        return Ok(None);
    };
    let Some(number) = value.as_u64() else {
        return Err(wrong_type_at(alloc, at, key));
    };
    if low <= number && number <= high {
        Ok(Some(number))
    } else {
        Err(out_of_range_at(alloc, at, key))
    }
}

/// The list at a key, where there is one. What is there has to be a list of least to most items;
/// the items aren't looked at.
#[tactic(auto, using(crate::proofs::JsonLaws::counts), unfolding(crate::specs::Json::list_fault))]
pub fn list_at<'a, E: JsonFault>(
    alloc: Global,
    at: &Path,
    key: &str,
    object: &'a Value,
    least: usize,
    most: usize,
) -> Result<Option<&'a [Value]>, E>
    ensures { MatchResult result
        (λ items. IsRead (list_fault E.faults least most at.now key.now (view object.now)) (spec.list_at key.now (view object.now)) (option_map (λ values. items_view values.now) items))
        (Refuses E.faults (list_fault E.faults least most at.now key.now (view object.now))) }
{
    let Some(value) = object.get(key) else {
        return Ok(None);
    };
    let Some(items) = value.as_array() else {
        return Err(wrong_type_at(alloc, at, key));
    };
    if least <= items.len() && items.len() <= most {
        Ok(Some(items.as_slice()))
    } else {
        Err(out_of_range_at(alloc, at, key))
    }
}

/// The fault of a key that isn't there, or want of memory for its path.
pub fn missing_at<E: JsonFault>(alloc: Global, at: &Path, key: &str) -> E
    ensures { (result ≡ E.faults.no_memory) ⊎ (result ≡ E.faults.missing (key_at at.now key.now)) }
{
    match at.key(alloc, key) {
        Ok(path) => E::missing(path),
        Err(_) => E::no_memory(),
    }
}

/// The fault of a value of another type at a key, or want of memory for its path.
pub fn wrong_type_at<E: JsonFault>(alloc: Global, at: &Path, key: &str) -> E
    ensures { (result ≡ E.faults.no_memory) ⊎ (result ≡ E.faults.wrong_type (key_at at.now key.now)) }
{
    match at.key(alloc, key) {
        Ok(path) => E::wrong_type(path),
        Err(_) => E::no_memory(),
    }
}

/// The fault of a text at a key that isn't of its kind, or want of memory for its path.
pub fn bad_text_at<E: JsonFault>(alloc: Global, at: &Path, key: &str) -> E
    ensures { (result ≡ E.faults.no_memory) ⊎ (result ≡ E.faults.bad_text (key_at at.now key.now)) }
{
    match at.key(alloc, key) {
        Ok(path) => E::bad_text(path),
        Err(_) => E::no_memory(),
    }
}

/// The fault of a number or a count at a key that is out of its range, or want of memory for its
/// path.
pub fn out_of_range_at<E: JsonFault>(alloc: Global, at: &Path, key: &str) -> E
    ensures { (result ≡ E.faults.no_memory) ⊎ (result ≡ E.faults.out_of_range (key_at at.now key.now)) }
{
    match at.key(alloc, key) {
        Ok(path) => E::out_of_range(path),
        Err(_) => E::no_memory(),
    }
}
