//! Why a join is refused.

ghost use Rattle.std.specs.Prelude.{◌≡◌};
ghost use Rattle.sk_registry.specs.declared.refused.JoinRefused.TheVariants as refusals;

use sk_base::WantOfMemory;
use std::alloc::{AllocError, AllocFailed};

/// Why a join is refused, the first reason that fits. The table is as before.
#[derive(Clone, Copy, Debug, PartialEq, Eq)]
pub enum JoinRefused {
    /// One of this name is joined.
    NameTaken,
    /// As many are joined as may be, 36: 32 participants and 4 tools.
    Full,
    /// It may join, and there was no memory for it.
    WantOfMemory,
}

impl From<WantOfMemory> for JoinRefused {
    ghost from_gives = { λ _ refused. refused ≡ refusals.WantOfMemory };

    fn from(_error: WantOfMemory) -> JoinRefused {
        JoinRefused::WantOfMemory
    }
}

impl From<AllocError> for JoinRefused {
    ghost from_gives = { λ _ refused. refused ≡ refusals.WantOfMemory };

    fn from(_error: AllocError) -> JoinRefused {
        JoinRefused::WantOfMemory
    }
}

impl<T: Drop> From<AllocFailed<T>> for JoinRefused {
    ghost from_gives = { λ _ refused. refused ≡ refusals.WantOfMemory };

    fn from(_error: AllocFailed<T>) -> JoinRefused {
        JoinRefused::WantOfMemory
    }
}
