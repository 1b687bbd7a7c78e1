//! Bytes that a message carries.

ghost use Rattle.std.specs.Prelude.{◌≡◌, ◌⊎◌, ℕ, List, length, ◌≤◌, false, IsTrue, IfOk, IfErr};
ghost use Rattle.sk_base.specs.declared.fault.BytesFault.{BytesFault};
ghost use Rattle.sk_base.specs.Ranges.{is_payload};

use crate::fault::{BytesFault, WantOfMemory};
use crate::limits::LONGEST_PAYLOAD;
use std::alloc::Global;
use std::marker::Model;
use std::sync::ArcSlice;

/// At most 4,096 bytes. Contracts see them.
///
/// Copies share one block, which goes with the last of them, and may lie with several threads.
#[derive(Debug, Drop)]
pub struct Bytes {
    bytes: ArcSlice<u8>,
}

impl Model for Bytes {
    ghost use Rattle.std.specs.Prelude.{List, ℕ, IsTrue};
    ghost use Rattle.std.specs.Arc.{arc_slice_items};
    ghost use Rattle.sk_base.specs.Ranges.{is_payload};

    ghost Value = { List ℕ };

    ghost view = { λ b. arc_slice_items b.bytes };

    ghost invariant = { λ b. IsTrue (is_payload (arc_slice_items b.bytes)) };
}

impl Bytes {
    /// These bytes, or TooLong where there are more than 4,096.
    #[tactic(auto, unfolding(crate::specs::Ranges::is_payload))]
    pub fn new(alloc: Global, payload: &[u8]) -> Result<Bytes, BytesFault>
        ensures made { IfOk result (λ made. (made ≡ payload.now) × IsTrue (is_payload payload.now)) }
        ensures memory { result ≡ Err BytesFault.WantOfMemory → IsTrue (is_payload payload.now) }
        ensures refused { is_payload payload.now ≡ false → result ≡ Err (BytesFault.TooLong (length payload.now)) }
        ensures only { IfErr result (λ fault. (fault ≡ BytesFault.WantOfMemory) ⊎ ((fault ≡ BytesFault.TooLong (length payload.now)) × (is_payload payload.now ≡ false))) }
    {
        if payload.len() > LONGEST_PAYLOAD {
            return Err(BytesFault::TooLong(payload.len()));
        }
        Ok(Bytes {
            bytes: ArcSlice::from_slice(alloc, payload)?,
        })
    }

    /// The same bytes again, in constant time. It asks for no memory; it answers want of memory
    /// only where a `u64` can't count the copies.
    pub fn copy(&self, _alloc: Global) -> Result<Bytes, WantOfMemory>
        ensures { IfOk result (λ copy. copy ≡ self.now) }
    {
        Ok(Bytes {
            bytes: self.bytes.clone()?,
        })
    }

    /// The bytes.
    #[tactic(auto, unfolding(crate::specs::Ranges::is_payload))]
    pub fn as_slice(&self) -> &[u8]
        ensures value { result.now ≡ self.now }
        ensures payload { IsTrue (is_payload self.now) }
        ensures short { length result.now ≤ 4096 }
    {
        self.bytes.as_slice()
    }
}
