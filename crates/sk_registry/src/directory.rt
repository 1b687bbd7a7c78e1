//! The registry's table.

ghost use Rattle.std.specs.Prelude.{◌≡◌, ◌≢◌, ◌⊎◌, ◌++◌, ◌∷◌, [], List, Some, None, Err, IfOk, IfErr, OnOk, OnErr, false, IsTrue, ◌↔◌};
ghost use Rattle.std.specs.Map.{values_of};
ghost use Rattle.sk_registry.specs.Table.{has_name, is_full, refusal, without, IsTable};
ghost use Rattle.sk_registry.specs.Events.{Join, Leave, after};

use crate::joined::Joined;
use crate::refused::JoinRefused;
use indexmap::IndexMap;
use sk_base::limits::MOST_JOINED;
use sk_base::{Name, Text, WantOfMemory};
use sk_msg::Role;
use std::alloc::Global;
use std::marker::Model;

/// Who is joined, at most [`MOST_JOINED`] at once. Contracts see them as a list, in order of
/// joining.
#[derive(Debug, Drop)]
pub struct Directory {
    alloc: Global,
    /// Each under the text of its name, in order of joining.
    table: IndexMap<String, Joined>,
}

impl Model for Directory {
    ghost use Rattle.std.specs.Prelude.{List};
    ghost use Rattle.sk_registry.specs.declared.joined.Joined.{Joined};

    ghost Value = { List Joined };

    ghost use Rattle.sk_registry.specs.Directory.{table_of, IsKept};

    ghost view = { table_of };

    ghost invariant = { IsKept };
}

impl Directory {
    /// A table of nobody. What joins is kept in this memory.
    pub fn new(alloc: Global) -> Directory
        ensures { result ≡ [] }
    {
        Directory {
            alloc,
            table: IndexMap::new(alloc),
        }
    }

    /// Whether nobody is joined.
    pub fn is_empty(&self) -> bool
        ensures { IsTrue result ↔ (self.now ≡ []) }
    {
        self.table.is_empty()
    }

    /// Joins one, and answers those joined before, in order of joining. A name that is joined is
    /// refused as taken, and another one where 36 are joined; a refusal changes nothing.
    pub fn join(
        &mut self,
        name: Name,
        role: Role,
        address: Text,
    ) -> Result<Vec<Joined>, JoinRefused>
        ensures told { IfOk result (λ told. told.items ≡ self.old) }
        ensures last { OnOk result
            (self.new ≡ self.old ++ record { name = name; role = role; address = address } ∷ []) }
        ensures accepted { OnOk result (refusal self.old name ≡ None) }

        // A reason against it is the answer, and besides there is want of memory alone.
        ensures refused { (reason : JoinRefused) →
            refusal self.old name ≡ Some reason → result ≡ Err reason }
        ensures only { IfErr result (λ reason.
            (reason ≡ JoinRefused.WantOfMemory) ⊎ (refusal self.old name ≡ Some reason)) }
        ensures same { OnErr result (self.new ≡ self.old) }

        ensures step { result ≢ Err JoinRefused.WantOfMemory →
            self.new ≡ after self.old (Join (record { name = name; role = role; address = address })) }
        ensures table { IsTable self.old × IsTable self.new }
    {
        if let Some(reason) = self.refusal(&name) {
            return Err(reason);
        }
        let told = self.copies()?;
        self.put_last(Joined {
            name,
            role,
            address,
        })?;
        Ok(told)
    }

    /// Takes a name out, and answers whether it was joined. The others keep their order.
    pub fn leave(&mut self, name: &Name) -> bool
        ensures joined { result ≡ has_name self.old name.now }
        ensures others { self.new ≡ without name.now self.old }
        ensures same { result ≡ false → self.new ≡ self.old }
        ensures step { self.new ≡ after self.old (Leave name.now) }
        ensures table { IsTable self.new }
    {
        self.table.shift_remove(name.as_str()).is_some()
    }

    /// Why nobody of this name can join.
    fn refusal(&self, name: &Name) -> Option<JoinRefused>
        ensures reason { result ≡ refusal self.now name.now }
        ensures table { IsTable self.now }
    {
        if self.has(name) {
            return Some(JoinRefused::NameTaken);
        }
        if self.is_full() {
            return Some(JoinRefused::Full);
        }
        None
    }

    /// Whether one of this name is joined.
    fn has(&self, name: &Name) -> bool
        ensures joined { result ≡ has_name self.now name.now }
        ensures table { IsTable self.now }
    {
        self.table.contains_key(name.as_str())
    }

    /// Whether as many are joined as may be.
    fn is_full(&self) -> bool
        ensures full { result ≡ is_full self.now }
        ensures table { IsTable self.now }
    {
        self.table.len() == MOST_JOINED
    }

    /// All that are joined, once more.
    fn copies(&self) -> Result<Vec<Joined>, WantOfMemory>
        ensures { IfOk result (λ copies. copies.items ≡ self.now) }
    {
        copies_of(self.alloc, &self.table)
    }

    /// Puts one at the end.
    fn put_last(&mut self, joined: Joined) -> Result<(), WantOfMemory>
        requires { refusal self.old joined.name ≡ None }
        ensures last { OnOk result (self.new ≡ self.old ++ joined ∷ []) }
        ensures same { OnErr result (self.new ≡ self.old) }
        ensures table { IsTable self.new }
    {
        let key = String::from_str(self.alloc, joined.name.as_str())?;
        self.table.insert(key, joined)?;
        Ok(())
    }
}

/// All that the map keeps, in order, once more.
fn copies_of(alloc: Global, table: &IndexMap<String, Joined>) -> Result<Vec<Joined>, WantOfMemory>
    ensures { IfOk result (λ copies. copies.items ≡ values_of table.now.entries) }
{
    let mut copies = Vec::with_capacity(alloc, table.len())?;
    for joined in table.values() {
        copies.push(joined.copy(alloc)?)?;
    }
    Ok(copies)
}
