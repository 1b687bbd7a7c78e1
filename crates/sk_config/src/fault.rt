//! Why bytes are no configuration.

ghost use Rattle.std.specs.Prelude.{◌≡◌};
ghost use Rattle.sk_config.specs.declared.fault.ConfigFault.TheVariants as faults;

use crate::json::JsonFault;
use crate::path::Path;
use sk_base::WantOfMemory;
use std::alloc::{AllocError, AllocFailed};
use thiserror::Error;

/// Why bytes are no configuration: the first fault in the order of the table of keys, and where it
/// is.
#[derive(Debug, Drop, Error)]
pub enum ConfigFault {
    /// `serde_json` has no reading of the bytes: they are no UTF-8, or no JSON, or nest over 127
    /// deep, or have a number that no float holds, or half of a surrogate pair.
    #[error("not JSON")]
    NotJson,
    /// A key that is needed isn't there.
    #[error("{0}: missing")]
    Missing(Path),
    /// A value of another JSON type, or a number that isn't whole.
    #[error("{0}: wrong type")]
    WrongType(Path),
    /// A text that is no name or no address, a number out of range, or a list that is too long.
    #[error("{0}: bad value")]
    BadValue(Path),
    /// A name that stands earlier in the same list.
    #[error("{0}: double")]
    Double(Path),
    /// There was no memory for the reading.
    #[error("out of memory")]
    WantOfMemory,
}

impl ConfigFault {
    ghost use Rattle.std.specs.Prelude.{◌≡◌};
    ghost use Rattle.sk_config.specs.Warned.{fault_path, fault_rule};

    /// Where the fault is, as text; empty where it is of the bytes as a whole.
    pub fn path(&self) -> &str
        ensures { result.now ≡ fault_path self.now }
    {
        match self {
            ConfigFault::NotJson | ConfigFault::WantOfMemory => "",
            ConfigFault::Missing(path) => path.as_str(),
            ConfigFault::WrongType(path) => path.as_str(),
            ConfigFault::BadValue(path) => path.as_str(),
            ConfigFault::Double(path) => path.as_str(),
        }
    }

    /// The rule that is broken, as text.
    pub fn rule(&self) -> &'static str
        ensures { result.now ≡ fault_rule self.now }
    {
        match self {
            ConfigFault::NotJson => "not JSON",
            ConfigFault::Missing(_) => "missing",
            ConfigFault::WrongType(_) => "wrong type",
            ConfigFault::BadValue(_) => "bad value",
            ConfigFault::Double(_) => "double",
            ConfigFault::WantOfMemory => "out of memory",
        }
    }
}

impl JsonFault for ConfigFault {
    ghost use Rattle.sk_config.specs.Faults.{config_faults};

    ghost faults = { config_faults };

    fn not_json() -> ConfigFault {
        ConfigFault::NotJson
    }

    fn missing(path: Path) -> ConfigFault {
        ConfigFault::Missing(path)
    }

    fn wrong_type(path: Path) -> ConfigFault {
        ConfigFault::WrongType(path)
    }

    fn bad_text(path: Path) -> ConfigFault {
        ConfigFault::BadValue(path)
    }

    fn out_of_range(path: Path) -> ConfigFault {
        ConfigFault::BadValue(path)
    }

    fn no_memory() -> ConfigFault {
        ConfigFault::WantOfMemory
    }
}

impl From<WantOfMemory> for ConfigFault {
    ghost from_gives = { λ _ fault. fault ≡ faults.WantOfMemory };

    fn from(_error: WantOfMemory) -> ConfigFault {
        ConfigFault::WantOfMemory
    }
}

impl From<AllocError> for ConfigFault {
    ghost from_gives = { λ _ fault. fault ≡ faults.WantOfMemory };

    fn from(_error: AllocError) -> ConfigFault {
        ConfigFault::WantOfMemory
    }
}

impl<T: Drop> From<AllocFailed<T>> for ConfigFault {
    ghost from_gives = { λ _ fault. fault ≡ faults.WantOfMemory };

    fn from(_error: AllocFailed<T>) -> ConfigFault {
        ConfigFault::WantOfMemory
    }
}
