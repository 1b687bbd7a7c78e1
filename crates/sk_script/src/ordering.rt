//! Participants in the byte order of their names.

ghost use Rattle.std.specs.Prelude.{◌≡◌, ◌≤◌, IfOk, OnOk, length, not};
ghost use Rattle.std.specs.List.{position};
ghost use Rattle.sk_rules.specs.Orders.{is_before};
ghost use Rattle.sk_script.specs.Placing as spec;

use crate::scenario::PartRead;
use sk_base::{Name, WantOfMemory};
use std::alloc::Global;

/// These participants in the byte order of their names.
pub fn in_order(alloc: Global, reads: Vec<PartRead>) -> Result<Vec<PartRead>, WantOfMemory>
    ensures { IfOk result (λ ordered. ordered.items ≡ spec.in_order reads.items) }
{
    let mut ordered = Vec::with_capacity(alloc, reads.len())?;
    for one in reads {
        put_in_place(&mut ordered, one)?;
    }
    Ok(ordered)
}

/// Puts a participant behind those whose names come before its own.
fn put_in_place(ordered: &mut Vec<PartRead>, part: PartRead) -> Result<(), WantOfMemory>
    ensures { OnOk result (ordered.new.items ≡ spec.put_in_place part ordered.old.items) }
{
    let place = place_of(ordered, &part);
    ordered.insert(place, part)?;
    Ok(())
}

/// How many of these stand before a participant.
#[tactic(auto, using(crate::proofs::PlacingLaws::place_is, crate::proofs::PlacingLaws::place_within))]
fn place_of(ordered: &[PartRead], part: &PartRead) -> usize
    ensures place { result ≡ spec.place part.now ordered.now }
    ensures within { result ≤ length ordered.now }
{
    first_behind(ordered, part).unwrap_or(ordered.len())
}

/// The place of the first of these whose name doesn't come before the participant's.
fn first_behind(ordered: &[PartRead], part: &PartRead) -> Option<usize>
    ensures { result ≡ position (λ one. not (is_before one.part.name part.now.part.name)) ordered.now }
{
    ordered
        .iter()
        .position(|one| !is_before(&one.part.name, &part.part.name))
}

/// Whether the name comes before the other in the order of bytes.
fn is_before(name: &Name, other: &Name) -> bool
    ensures { result ≡ is_before name.now other.now }
{
    name.as_str() < other.as_str()
}
