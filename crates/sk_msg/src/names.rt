//! Names in order.

ghost use Rattle.std.specs.Prelude.{◌≡◌, ℕ, List, position, IfOk};
ghost use Rattle.std.specs.Str.{bytes_eq};

use sk_base::{Name, WantOfMemory};
use std::alloc::Global;
use std::marker::Model;

/// Names in order. Contracts see the list.
#[derive(Debug, Drop)]
pub struct Names {
    names: Vec<Name>,
}

impl Model for Names {
    ghost Value = { List (List ℕ) };

    ghost view = { λ names. names.names.items };
}

impl Names {
    /// These names, in this order. They may be equal, and any number of them.
    pub fn new(names: Vec<Name>) -> Names
        ensures { result ≡ names.items }
    {
        Names { names }
    }

    /// The names in order.
    pub fn as_slice(&self) -> &[Name]
        ensures { result.now ≡ self.now }
    {
        self.names.as_slice()
    }

    /// The names in order. Nothing is copied.
    pub fn into_vec(self) -> Vec<Name>
        ensures { result.items ≡ self }
    {
        self.names
    }

    /// The index of the first that is this name, or None where it isn't among them.
    pub fn position(&self, name: &Name) -> Option<usize>
        ensures { result ≡ position (λ other. bytes_eq other name.now) self.now }
    {
        self.names.iter().position(|other| other.is(name))
    }

    /// The same names again.
    pub fn copy(&self, alloc: Global) -> Result<Names, WantOfMemory>
        ensures { IfOk result (λ copy. copy ≡ self.now) }
    {
        Ok(Names {
            names: copy_names(alloc, &self.names)?,
        })
    }
}

/// The same names again.
fn copy_names(alloc: Global, names: &[Name]) -> Result<Vec<Name>, WantOfMemory>
    ensures { IfOk result (λ copies. copies.items ≡ names.now) }
{
    let mut copies = Vec::new(alloc);
    for name in names {
        copies.push(name.copy(alloc)?)?;
    }
    Ok(copies)
}
