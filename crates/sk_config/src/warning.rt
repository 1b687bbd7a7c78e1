//! What a configuration says in vain.

ghost use Rattle.std.specs.Prelude.{◌≡◌, List};
ghost use Rattle.sk_config.specs.declared.warning.Warning.{Warning};

use crate::path::Path;
use sk_base::WantOfMemory;
use std::alloc::Global;
use std::marker::Model;

/// A place in a configuration that has no effect.
#[derive(Debug, Drop)]
pub struct Warning {
    /// Where in the file the place is.
    pub path: Path,
    /// Whether this is a key that was passed over. Else it is an entry without a service.
    pub unused: bool,
}

impl Warning {
    ghost use Rattle.std.specs.Prelude.{◌≡◌, IfOk};
    ghost use Rattle.std.specs.String.{string_bytes};
    ghost use Rattle.sk_config.specs.Warned.{warning_rule, warning_text};

    /// What is said of the place: `not used` or `no such service`.
    pub fn rule(&self) -> &'static str
        ensures { result.now ≡ warning_rule self.now }
    {
        if self.unused {
            "not used"
        } else {
            "no such service"
        }
    }

    /// Its line, without the line's end: `warning: PATH: not used`, or `no such service`.
    pub fn text(&self, alloc: Global) -> Result<String, WantOfMemory>
        ensures { IfOk result (λ text. string_bytes text ≡ warning_text self.now) }
    {
        let mut text = String::from_str(alloc, "warning: ")?;
        text.push_str(self.path.as_str())?;
        text.push_str(": ")?;
        text.push_str(self.rule())?;
        Ok(text)
    }
}

/// Warnings in order. Contracts see the list.
#[derive(Debug, Drop)]
pub struct Warnings {
    warnings: Vec<Warning>,
}

impl Model for Warnings {
    ghost Value = { List Warning };

    ghost view = { λ warnings. warnings.warnings.items };
}

impl Warnings {
    ghost use Rattle.std.specs.Prelude.{IfOk, map};
    ghost use Rattle.sk_config.specs.Reading.{not_used};

    /// These warnings, in this order.
    pub fn new(warnings: Vec<Warning>) -> Warnings
        ensures { result ≡ warnings.items }
    {
        Warnings { warnings }
    }

    /// Keys that were passed over, at these paths.
    pub fn of_unused(alloc: Global, paths: Vec<Path>) -> Result<Warnings, WantOfMemory>
        ensures { IfOk result (λ warnings. warnings ≡ map not_used paths.items) }
    {
        let mut warnings = Vec::with_capacity(alloc, paths.len())?;
        for path in paths {
            warnings.push(Warning { path, unused: true })?;
        }
        Ok(Warnings { warnings })
    }

    /// The list.
    pub fn as_slice(&self) -> &[Warning]
        ensures { result.now ≡ self.now }
    {
        self.warnings.as_slice()
    }

    /// The list itself, to be changed.
    pub fn into_vec(self) -> Vec<Warning>
        ensures { result.items ≡ self }
    {
        self.warnings
    }
}
