//! Why a row has no answer.

use sk_base::WantOfMemory;
use std::alloc::{AllocError, AllocFailed};

/// Why a row has no answer.
#[derive(Clone, Copy, Debug, PartialEq, Eq)]
pub enum Fault {
    /// It isn't of this form.
    BadRow,
    /// No memory was there.
    WantOfMemory,
}

impl From<WantOfMemory> for Fault {
    fn from(_fault: WantOfMemory) -> Fault {
        Fault::WantOfMemory
    }
}

impl From<AllocError> for Fault {
    fn from(_fault: AllocError) -> Fault {
        Fault::WantOfMemory
    }
}

impl<T: Drop> From<AllocFailed<T>> for Fault {
    fn from(_fault: AllocFailed<T>) -> Fault {
        Fault::WantOfMemory
    }
}
