//! The responses that are kept, by identifier.

ghost use Rattle.std.specs.Prelude.{◌≡◌, ◌<◌, [], OnOk, OnErr, length, set, slice_index_or};
ghost use Rattle.sk_lin.specs.Kept as kept_as;
ghost use Rattle.sk_lin.specs.Lin.{responders};
ghost use Rattle.sk_lin.specs.Table.{joined, AreByIdentifier};

use crate::kept::{self, Kept};
use sk_base::WantOfMemory;
use std::alloc::Global;
use std::marker::Model;

/// The responses that are kept. Contracts see them as one list, in order.
#[derive(Debug, Drop)]
pub(crate) struct ResponseTable {
    alloc: Global,
    /// At each identifier its responses, as far as places were made.
    by_id: Vec<Responses>,
}

impl Model for ResponseTable {
    ghost use Rattle.std.specs.Prelude.{List};
    ghost use Rattle.sk_lin.specs.declared.kept.Kept.{Kept};
    ghost use Rattle.sk_lin.specs.Table.{kept_in, IsTable};

    ghost Value = { List Kept };

    ghost view = { kept_in };

    ghost invariant = { IsTable };
}

/// Responses in order. Contracts see the list.
#[derive(Debug, Drop)]
struct Responses {
    kept: Vec<Kept>,
}

impl Model for Responses {
    ghost use Rattle.std.specs.Prelude.{List};
    ghost use Rattle.sk_lin.specs.declared.kept.Kept.{Kept};

    ghost Value = { List Kept };

    ghost view = { λ responses. responses.kept.items };
}

impl ResponseTable {
    /// Nothing is kept. What is kept later stands in this memory.
    pub(crate) fn new(alloc: Global) -> ResponseTable
        ensures { result ≡ [] }
    {
        ResponseTable {
            alloc,
            by_id: Vec::new(alloc),
        }
    }

    /// Those that a header of this identifier may bring: no others answer it.
    pub(crate) fn of(&self, id: u8) -> &[Kept]
        ensures { responders id result.now ≡ responders id self.now }
    {
        responses_at(&self.by_id, id)
    }

    /// Keeps a response in place of the earlier one of its identifier and source.
    #[tactic(auto, using(crate::proofs::TableLaws::kept_joined, crate::proofs::TableLaws::kept_ordered))]
    pub(crate) fn keep(&mut self, new: Kept) -> Result<(), WantOfMemory>
        ensures kept { OnOk result (self.new ≡ kept_as.keep new self.old) }
        ensures same { OnErr result (self.new ≡ self.old) }
    {
        make_places(self.alloc, &mut self.by_id, new.response.id)?;
        keep_at(&mut self.by_id, new)?;
        Ok(())
    }
}

impl Responses {
    /// There are none.
    fn new(alloc: Global) -> Responses
        ensures { result ≡ [] }
    {
        Responses {
            kept: Vec::new(alloc),
        }
    }

    /// All of them.
    fn as_slice(&self) -> &[Kept]
        ensures { result.now ≡ self.now }
    {
        self.kept.as_slice()
    }

    /// Keeps a response in place of the earlier one of its identifier and source.
    fn keep(&mut self, new: Kept) -> Result<(), WantOfMemory>
        ensures kept { OnOk result (self.new ≡ kept_as.keep new self.old) }
        ensures same { OnErr result (self.new ≡ self.old) }
    {
        kept::keep(&mut self.kept, new)
    }
}

/// What stands at the place of this identifier, and nothing where there is none.
fn responses_at(by_id: &[Responses], id: u8) -> &[Kept]
    ensures { result.now ≡ slice_index_or by_id.now id [] }
{
    match by_id.get(id as usize) {
        Some(responses) => responses.as_slice(),
        None => &[],
    }
}

/// Makes a place for this identifier and each lower one. Nothing stands there.
fn make_places(alloc: Global, by_id: &mut Vec<Responses>, id: u8) -> Result<(), WantOfMemory>
    ensures same { joined by_id.new.items ≡ joined by_id.old.items }
    ensures ordered { AreByIdentifier 0 by_id.old.items → AreByIdentifier 0 by_id.new.items }
    ensures room { OnOk result (id < length by_id.new.items) }
{
    let missing = (id as usize + 1).saturating_sub(by_id.len());
    for _ in 0..missing {
        by_id.push(Responses::new(alloc))?;
    }
    Ok(())
}

/// Keeps a response among those of its identifier, which has a place.
fn keep_at(by_id: &mut Vec<Responses>, new: Kept) -> Result<(), WantOfMemory>
    requires { new.response.id < length by_id.old.items }
    ensures kept { OnOk result (by_id.new.items ≡ set by_id.old.items new.response.id (kept_as.keep new (slice_index_or by_id.old.items new.response.id []))) }
    ensures same { OnErr result (by_id.new.items ≡ by_id.old.items) }
{
    let id = new.response.id as usize;
    by_id[id].keep(new)
}
