//! Why bytes are no scenario.

ghost use Rattle.std.specs.Prelude.{◌≡◌};
ghost use Rattle.sk_rules.specs.declared.fault.ScenarioFault.TheVariants as faults;

use sk_base::WantOfMemory;
use sk_config::Path;
use sk_config::json::JsonFault;
use std::alloc::{AllocError, AllocFailed};
use std::fmt;
use thiserror::Error;

/// A rule of the format that is broken.
#[derive(Clone, Copy, Debug, PartialEq, Eq)]
pub enum Rule {
    /// `serde_json` has no reading of the bytes: they are no UTF-8, or no JSON, or nest over 127
    /// deep, or have a number that no float holds, or half of a surrogate pair.
    NotJson,
    /// A key that is needed isn't there.
    Missing,
    /// A value of another JSON type, or a number that isn't a whole one from 0 to 2^64 - 1.
    WrongType,
    /// A number out of its range, a word that isn't in its list, `false` where only `true` may
    /// stand, or a list, an object of variables or bytes of a length that isn't in its range.
    OutOfRange,
    /// A key that its object may not have.
    UnknownKey,
    /// A text that is no name, or too long or with control characters, where such a text is read.
    BadText,
    /// A text that isn't an even number of hexadecimal digits where bytes are read.
    BadHex,
    /// A name that stands earlier.
    NameTaken,
    /// A name that no service of the participant has, or none of the kind that is wanted.
    NoSuchService,
    /// A name that no variable of the participant has.
    NoSuchVariable,
    /// An action or a rule of none or of several kinds, or an action that may not stand where it does.
    NotAllowedHere,
    /// A required name that no coordinated participant has.
    NoSuchParticipant,
}

impl Rule {
    ghost use Rattle.sk_rules.specs.Faults.{rule_text};

    /// Its text, as the program prints it.
    pub const fn text(self) -> &'static str
        ensures { result.now ≡ rule_text self }
    {
        match self {
            Rule::NotJson => "not JSON",
            Rule::Missing => "missing",
            Rule::WrongType => "wrong type",
            Rule::OutOfRange => "out of range",
            Rule::UnknownKey => "unknown key",
            Rule::BadText => "bad text",
            Rule::BadHex => "bad hex",
            Rule::NameTaken => "name taken",
            Rule::NoSuchService => "no such service",
            Rule::NoSuchVariable => "no such variable",
            Rule::NotAllowedHere => "not allowed here",
            Rule::NoSuchParticipant => "no such participant",
        }
    }
}

impl fmt::Display for Rule {
    fn fmt<W: fmt::Write>(&self, f: &mut fmt::Formatter<W>) -> fmt::Result {
        f.write_str(self.text())
    }
}

/// Why bytes are no scenario: the first fault in the order in which a file is checked, and where it
/// is. Its text is `PATH: RULE`.
#[derive(Debug, Drop, Error)]
pub enum ScenarioFault {
    /// The bytes are no JSON. The path is empty.
    #[error(": not JSON")]
    NotJson,
    /// What stands at this path breaks this rule.
    #[error("{0}: {1}")]
    Refused(Path, Rule),
    /// There was no memory for the reading.
    #[error("out of memory")]
    WantOfMemory,
}

impl ScenarioFault {
    ghost use Rattle.sk_rules.specs.Faults.{fault_path, fault_rule};

    /// Where the fault is, as text; empty where it is of the bytes as a whole.
    pub fn path(&self) -> &str
        ensures { result.now ≡ fault_path self.now }
    {
        match self {
            ScenarioFault::NotJson | ScenarioFault::WantOfMemory => "",
            ScenarioFault::Refused(path, _) => path.as_str(),
        }
    }

    /// The rule that is broken, or None where there was no memory.
    pub fn rule(&self) -> Option<Rule>
        ensures { result ≡ fault_rule self.now }
    {
        match self {
            ScenarioFault::NotJson => Some(Rule::NotJson),
            ScenarioFault::Refused(_, rule) => Some(*rule),
            ScenarioFault::WantOfMemory => None,
        }
    }
}

impl JsonFault for ScenarioFault {
    ghost use Rattle.sk_rules.specs.Faults.{scenario_faults};

    ghost faults = { scenario_faults };

    fn not_json() -> ScenarioFault {
        ScenarioFault::NotJson
    }

    fn missing(path: Path) -> ScenarioFault {
        ScenarioFault::Refused(path, Rule::Missing)
    }

    fn wrong_type(path: Path) -> ScenarioFault {
        ScenarioFault::Refused(path, Rule::WrongType)
    }

    fn bad_text(path: Path) -> ScenarioFault {
        ScenarioFault::Refused(path, Rule::BadText)
    }

    fn out_of_range(path: Path) -> ScenarioFault {
        ScenarioFault::Refused(path, Rule::OutOfRange)
    }

    fn no_memory() -> ScenarioFault {
        ScenarioFault::WantOfMemory
    }
}

impl From<WantOfMemory> for ScenarioFault {
    ghost from_gives = { λ _ fault. fault ≡ faults.WantOfMemory };

    fn from(_error: WantOfMemory) -> ScenarioFault {
        ScenarioFault::WantOfMemory
    }
}

impl From<AllocError> for ScenarioFault {
    ghost from_gives = { λ _ fault. fault ≡ faults.WantOfMemory };

    fn from(_error: AllocError) -> ScenarioFault {
        ScenarioFault::WantOfMemory
    }
}

impl<T: Drop> From<AllocFailed<T>> for ScenarioFault {
    ghost from_gives = { λ _ fault. fault ≡ faults.WantOfMemory };

    fn from(_error: AllocFailed<T>) -> ScenarioFault {
        ScenarioFault::WantOfMemory
    }
}
