//! Why bytes are no message, and where.

ghost use Rattle.std.specs.Prelude.{◌≡◌};
ghost use Rattle.sk_wire.specs.declared.fault.ReadError.TheVariants as errors;

use sk_base::WantOfMemory;
use std::alloc::{AllocError, AllocFailed};

/// What is wrong.
#[derive(Clone, Copy, Debug, PartialEq, Eq)]
pub enum What {
    /// A length below 2, or a field that needs more bytes than its body has left.
    Short,
    /// A length above 8,192.
    TooLong,
    /// A version other than 1.
    BadVersion,
    /// A kind that the format doesn't have.
    BadKind,
    /// A field out of its range, or bytes behind the last field.
    BadField,
}

/// The first fault of a stream.
#[derive(Clone, Copy, Debug, PartialEq, Eq)]
pub struct WireFault {
    /// How many bytes of the stream stand before it.
    pub at: u64,
    /// What is wrong there.
    pub what: What,
}

/// The first fault of a body. A reader needn't know where the body stands in the stream.
#[derive(Clone, Copy, Debug, PartialEq, Eq)]
pub struct BodyFault {
    /// How many bytes the body has from the fault on.
    pub left: usize,
    /// What is wrong there.
    pub what: What,
}

/// Why a body wasn't read.
#[derive(Clone, Copy, Debug, PartialEq, Eq)]
pub enum ReadError {
    /// Memory ran out. Whether the body has a fault isn't known.
    WantOfMemory,
    /// It is no body of the format; with its first fault.
    Fault(BodyFault),
}

impl From<WantOfMemory> for ReadError {
    ghost from_gives = { λ _ error. error ≡ errors.WantOfMemory };

    fn from(_error: WantOfMemory) -> ReadError {
        ReadError::WantOfMemory
    }
}

impl From<AllocError> for ReadError {
    ghost from_gives = { λ _ error. error ≡ errors.WantOfMemory };

    fn from(_error: AllocError) -> ReadError {
        ReadError::WantOfMemory
    }
}

impl<T: Drop> From<AllocFailed<T>> for ReadError {
    ghost from_gives = { λ _ error. error ≡ errors.WantOfMemory };

    fn from(_error: AllocFailed<T>) -> ReadError {
        ReadError::WantOfMemory
    }
}
