//! What a tool has seen of each participant, by name.

ghost use Rattle.std.specs.Prelude.{◌≡◌, [], OnOk, OnErr, position};
ghost use Rattle.std.specs.Str.{bytes_eq};
ghost use Rattle.sk_system.specs.Table.{with_state, with_ending, is_gone, state_or_error, seen_of, put};

use crate::required::LastStates;
use sk_base::{Name, WantOfMemory};
use sk_msg::State;
use std::alloc::Global;
use std::marker::Model;

/// How a participant went.
#[derive(Clone, Copy, Debug, PartialEq, Eq)]
pub enum Ending {
    /// It said that nothing follows.
    Left,
    /// Its link ended before that.
    Lost,
}

/// What was seen of one participant.
#[derive(Clone, Copy, Debug)]
pub struct Seen {
    /// The last state that it told.
    pub state: Option<State>,
    /// Whether it has left or is lost.
    pub ending: Option<Ending>,
}

/// What was seen of one that wasn't heard of.
const UNSEEN: Seen = Seen {
    state: None,
    ending: None,
};

/// A name, and what was seen of it.
#[derive(Debug, Drop)]
pub struct TableEntry {
    pub name: Name,
    pub seen: Seen,
}

/// What was seen of each name. A look-up goes through all names, of which there are few.
///
/// Contracts see the entries.
#[derive(Debug, Drop)]
pub struct ParticipantTable {
    entries: Vec<TableEntry>,
}

impl Model for ParticipantTable {
    ghost use Rattle.std.specs.Prelude.{List};
    ghost use Rattle.sk_system.specs.declared.table.TableEntry.{TableEntry};

    ghost Value = { List TableEntry };

    ghost view = { λ table. table.entries.items };
}

impl Seen {
    /// It told this state.
    pub fn with_state(self, state: State) -> Seen
        ensures { result ≡ with_state state self }
    {
        Seen {
            state: Some(state),
            ending: self.ending,
        }
    }

    /// It went so, unless it had gone before.
    pub fn with_ending(self, ending: Ending) -> Seen
        ensures { result ≡ with_ending ending self }
    {
        Seen {
            state: self.state,
            ending: self.ending.or(Some(ending)),
        }
    }

    /// Whether it has left or is lost.
    pub fn is_gone(self) -> bool
        ensures { result ≡ is_gone self }
    {
        self.ending.is_some()
    }

    /// Its state, where that of a lost one is taken as Error.
    pub fn state_or_error(self) -> Option<State>
        ensures { result ≡ state_or_error self }
    {
        match self.ending {
            Some(Ending::Lost) => Some(State::Error),
            Some(Ending::Left) | None => self.state,
        }
    }
}

impl ParticipantTable {
    /// A table of nobody.
    pub fn new(alloc: Global) -> ParticipantTable
        ensures { result ≡ [] }
    {
        ParticipantTable {
            entries: Vec::new(alloc),
        }
    }

    /// What was seen of this name.
    #[tactic(auto, using(crate::proofs::TableLaws::places))]
    pub fn of(&self, name: &Name) -> Seen
        ensures { result ≡ seen_of self.now name.now }
    {
        match index_of(&self.entries, name) {
            Some(index) => self.entries[index].seen,
            None => UNSEEN,
        }
    }

    /// This is what was seen of the name from now on.
    #[tactic(auto, using(crate::proofs::TableLaws::places))]
    pub fn put(&mut self, alloc: Global, name: &Name, seen: Seen) -> Result<(), WantOfMemory>
        ensures ok { OnOk result (self.new ≡ put name.now seen self.old) }
        ensures same { OnErr result (self.new ≡ self.old) }
    {
        match index_of(&self.entries, name) {
            Some(index) => self.entries[index].seen = seen,
            None => self.entries.push(TableEntry {
                name: name.copy(alloc)?,
                seen,
            })?,
        }
        Ok(())
    }
}

/// Where the entry of this name stands.
fn index_of(entries: &[TableEntry], name: &Name) -> Option<usize>
    ensures { result ≡ position (λ entry. bytes_eq entry.name name.now) entries.now }
{
    entries.iter().position(|entry| entry.name.is(name))
}

/// A table with one entry laid over it: what would be seen of each name, if this was seen of one.
#[derive(Clone, Copy)]
pub struct Overlay<'a> {
    pub table: &'a ParticipantTable,
    pub name: &'a Name,
    pub seen: Seen,
}

impl Overlay<'_> {
    /// What was then seen of this name.
    #[tactic(auto, using(crate::proofs::TableLaws::overlay))]
    pub fn of(&self, name: &Name) -> Seen
        ensures { result ≡ seen_of (put self.now.name.now self.now.seen self.now.table.now) name.now }
    {
        if self.name.is(name) {
            self.seen
        } else {
            self.table.of(name)
        }
    }
}

impl LastStates<Name> for ParticipantTable {
    ghost known = { λ table name. (seen_of table name).state };

    fn last_state(&self, name: &Name) -> State {
        self.of(name).state.unwrap_or(State::Invalid)
    }
}

impl LastStates<Name> for Overlay<'_> {
    ghost known = { λ overlay name. (seen_of (put overlay.name.now overlay.seen overlay.table.now) name).state };

    fn last_state(&self, name: &Name) -> State {
        self.of(name).state.unwrap_or(State::Invalid)
    }
}
