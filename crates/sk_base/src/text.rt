//! Names and texts: short pieces of UTF-8 that fit a line and a frame.

ghost use Rattle.std.specs.Prelude.{◌≡◌, ℕ, List, length, ◌≤◌, position, ◌⊎◌, Some, None, false, IsTrue, IfOk, IfErr, OnErr, IfNone, IfSome, ◌≢◌, if◌then◌else◌};
ghost use Rattle.std.specs.Char.{is_ascii_digit};
ghost use Rattle.std.specs.List.{list_all};
ghost use Rattle.std.specs.Arc.{arc_str_bytes};
ghost use Rattle.std.specs.Str.{bytes_eq};
ghost use Rattle.sk_base.specs.declared.fault.NameFault.{NameFault};
ghost use Rattle.sk_base.specs.Ranges.{is_control, is_text, is_name, text_fault, name_fault};

use crate::fault::{NameFault, WantOfMemory};
use crate::limits::LONGEST_TEXT;
use std::alloc::Global;
use std::marker::Model;
use std::sync::ArcStr;

/// At most 64 bytes of UTF-8 without control characters (U+0000 to U+001F and U+007F).
///
/// Contracts see its bytes. Copies share one block, which goes with the last of them, and may lie
/// with several threads.
#[derive(Debug, Drop)]
pub struct Text {
    text: ArcStr,
}

impl Model for Text {
    ghost Value = { List ℕ };

    ghost view = { λ t. arc_str_bytes t.text };

    ghost invariant = { λ t. IsTrue (is_text (arc_str_bytes t.text)) };
}

/// A text that isn't empty: what participants, services and topics are called.
///
/// Contracts see its bytes.
#[derive(Debug, Drop)]
pub struct Name {
    text: Text,
}

impl Model for Name {
    ghost Value = { List ℕ };

    ghost view = { λ n. n.text };

    ghost invariant = { λ n. IsTrue (is_name n.text) };
}

impl Text {
    /// The text, or the first reason against it: too long, then a control character.
    pub fn new(alloc: Global, text: &str) -> Result<Text, NameFault>
        ensures made { IfOk result (λ made. (made ≡ text.now) × IsTrue (is_text text.now)) }
        ensures memory { result ≡ Err NameFault.WantOfMemory → IsTrue (is_text text.now) }
        ensures refused { (fault : NameFault) → text_fault text.now ≡ Some fault → (result ≡ Err fault) × (is_text text.now ≡ false) }
        ensures only { IfErr result (λ fault. (fault ≡ NameFault.WantOfMemory) ⊎ (text_fault text.now ≡ Some fault)) }
    {
        if let Some(fault) = first_fault(text) {
            return Err(fault);
        }
        Ok(Text {
            text: ArcStr::from_str(alloc, text)?,
        })
    }

    /// The text that these bytes are, or None where they are none.
    #[tactic(auto, using(crate::proofs::TextLaws::from_bytes))]
    pub fn from_utf8(alloc: Global, bytes: &[u8]) -> Result<Option<Text>, WantOfMemory>
        ensures reads { IfOk result (λ text. text ≡ (if is_text bytes.now then Some bytes.now else None)) }
        ensures memory { OnErr result (IsTrue (is_text bytes.now)) }
    {
        let Ok(text) = str::from_utf8(bytes) else {
            return Ok(None);
        };
        match Text::new(alloc, text) {
            Ok(text) => Ok(Some(text)),
            Err(NameFault::WantOfMemory) => Err(WantOfMemory),
            Err(_) => Ok(None),
        }
    }

    /// The same text again, in constant time. It asks for no memory; it answers want of memory
    /// only where a `u64` can't count the copies.
    pub fn copy(&self, _alloc: Global) -> Result<Text, WantOfMemory>
        ensures { IfOk result (λ copy. copy ≡ self.now) }
    {
        Ok(Text {
            text: self.text.clone()?,
        })
    }

    /// What it says.
    #[tactic(auto, using(crate::proofs::TextLaws::short))]
    pub fn as_str(&self) -> &str
        ensures value { result.now ≡ self.now }
        ensures text { IsTrue (is_text self.now) }
        ensures short { length result.now ≤ 64 }
    {
        self.text.as_str()
    }
}

impl Name {
    /// The name, or the first reason against it: empty, too long, then a control character.
    #[tactic(auto, unfolding(crate::specs::Ranges::is_name, crate::specs::Ranges::name_fault))]
    pub fn new(alloc: Global, text: &str) -> Result<Name, NameFault>
        ensures made { IfOk result (λ made. (made ≡ text.now) × IsTrue (is_name text.now)) }
        ensures memory { result ≡ Err NameFault.WantOfMemory → IsTrue (is_name text.now) }
        ensures refused { (fault : NameFault) → name_fault text.now ≡ Some fault → (result ≡ Err fault) × (is_name text.now ≡ false) }
        ensures only { IfErr result (λ fault. (fault ≡ NameFault.WantOfMemory) ⊎ (name_fault text.now ≡ Some fault)) }
    {
        if text.is_empty() {
            return Err(NameFault::Empty);
        }
        Ok(Name {
            text: Text::new(alloc, text)?,
        })
    }

    /// The name that these bytes are, or None where they are none.
    #[tactic(auto, unfolding(crate::specs::Ranges::is_name))]
    pub fn from_utf8(alloc: Global, bytes: &[u8]) -> Result<Option<Name>, WantOfMemory>
        ensures reads { IfOk result (λ name. name ≡ (if is_name bytes.now then Some bytes.now else None)) }
        ensures memory { OnErr result (IsTrue (is_name bytes.now)) }
    {
        if bytes.is_empty() {
            return Ok(None);
        }
        match Text::from_utf8(alloc, bytes)? {
            Some(text) => Ok(Some(Name { text })),
            None => Ok(None),
        }
    }

    /// The same name again, as [`Text::copy`].
    pub fn copy(&self, alloc: Global) -> Result<Name, WantOfMemory>
        ensures { IfOk result (λ copy. copy ≡ self.now) }
    {
        Ok(Name {
            text: self.text.copy(alloc)?,
        })
    }

    /// Whether the other one has the same bytes.
    pub fn is(&self, other: &Name) -> bool
        ensures { result ≡ bytes_eq self.now other.now }
    {
        self.as_str() == other.as_str()
    }

    /// What it says.
    pub fn as_str(&self) -> &str
        ensures value { result.now ≡ self.now }
        ensures name { IsTrue (is_name self.now) }
        ensures short { length result.now ≤ 64 }
    {
        self.text.as_str()
    }
}

/// The byte offset of the first control character.
fn first_control(bytes: &[u8]) -> Option<usize>
    ensures { result ≡ position is_control bytes.now }
{
    bytes.iter().position(|byte| *byte < 32 || *byte == 127)
}

/// The first reason why this is no text.
fn first_fault(text: &str) -> Option<NameFault>
    ensures value { result ≡ text_fault text.now }
    ensures fine { IfNone result (IsTrue (is_text text.now)) }
    ensures wrong { IfSome result (λ fault. (is_text text.now ≡ false) × (fault ≢ NameFault.WantOfMemory)) }
{
    if text.len() > LONGEST_TEXT {
        return Some(NameFault::TooLong(text.len()));
    }
    match first_control(text.as_bytes()) {
        Some(at) => Some(NameFault::Control(at)),
        None => None,
    }
}

/// Whether each character is a decimal digit of ASCII.
pub fn is_digits(text: &str) -> bool
    ensures { result ≡ list_all is_ascii_digit text.now }
{
    text.as_bytes().iter().all(|byte| byte.is_ascii_digit())
}
