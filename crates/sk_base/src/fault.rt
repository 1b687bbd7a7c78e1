//! Why a call or a value is refused.

ghost use Rattle.std.specs.Prelude.{◌≡◌};
ghost use Rattle.sk_base.specs.declared.fault.BytesFault.TheVariants as bytes_faults;
ghost use Rattle.sk_base.specs.declared.fault.NameFault.TheVariants as faults;

use std::alloc::{AllocError, AllocFailed};

/// Memory ran out. What the call was made on is as before, unless the call says otherwise.
#[derive(Clone, Copy, Debug, PartialEq, Eq)]
pub struct WantOfMemory;

impl From<AllocError> for WantOfMemory {
    fn from(_error: AllocError) -> WantOfMemory {
        WantOfMemory
    }
}

impl<T: Drop> From<AllocFailed<T>> for WantOfMemory {
    fn from(_error: AllocFailed<T>) -> WantOfMemory {
        WantOfMemory
    }
}

/// A call on an outside object did nothing, and the object's count of faults rose.
#[derive(Clone, Copy, Debug, PartialEq, Eq)]
pub struct Failed;

/// Why a text is no [`Name`](crate::Name) or no [`Text`](crate::Text), the first reason that fits.
#[derive(Clone, Copy, Debug, PartialEq, Eq)]
pub enum NameFault {
    /// A name has at least one byte.
    Empty,
    /// Over 64 bytes; with the length in bytes.
    TooLong(usize),
    /// A control character, U+0000 to U+001F or U+007F; with the byte offset of the first.
    Control(usize),
    /// The text is in order, and there was no memory to keep it.
    WantOfMemory,
}

impl From<WantOfMemory> for NameFault {
    ghost from_gives = { λ _ fault. fault ≡ faults.WantOfMemory };

    fn from(_error: WantOfMemory) -> NameFault {
        NameFault::WantOfMemory
    }
}

impl From<AllocError> for NameFault {
    ghost from_gives = { λ _ fault. fault ≡ faults.WantOfMemory };

    fn from(_error: AllocError) -> NameFault {
        NameFault::WantOfMemory
    }
}

/// Why bytes are no [`Bytes`](crate::Bytes).
#[derive(Clone, Copy, Debug, PartialEq, Eq)]
pub enum BytesFault {
    /// Over 4,096; with how many there are.
    TooLong(usize),
    /// They are few enough, and there was no memory to keep them.
    WantOfMemory,
}

impl From<AllocError> for BytesFault {
    ghost from_gives = { λ _ fault. fault ≡ bytes_faults.WantOfMemory };

    fn from(_error: AllocError) -> BytesFault {
        BytesFault::WantOfMemory
    }
}
