//! The responses that are kept, in one order.

ghost use Rattle.std.specs.Prelude.{◌≡◌, ◌≤◌, ◌==◌, ◌&&◌, ◌||◌, OnOk, OnErr, length, nat_lt, not};
ghost use Rattle.std.specs.List.{position};
ghost use Rattle.sk_lin.specs.Kept as kept_as;

use sk_base::WantOfMemory;
use sk_msg::LinResponse;

/// Whose response it is.
#[derive(Clone, Copy, Debug, PartialEq, Eq)]
pub enum Source {
    /// The controller's own.
    Own,
    /// It was noted of this peer's service of this number.
    Noted(u32, u32),
}

/// A response that is kept.
#[derive(Debug, Drop)]
pub struct Kept {
    pub source: Source,
    pub response: LinResponse,
}

/// Keeps a response in place of the earlier one of its identifier and source.
pub(crate) fn keep(kept: &mut Vec<Kept>, new: Kept) -> Result<(), WantOfMemory>
    ensures kept { OnOk result (kept.new.items ≡ kept_as.keep new kept.old.items) }
    ensures same { OnErr result (kept.new.items ≡ kept.old.items) }
{
    let at = place_of(kept, &new);
    if at < kept.len() && has_key_of(&kept[at], &new) {
        kept[at] = new;
    } else {
        kept.insert(at, new)?;
    }
    Ok(())
}

/// How many of these stand before a new one.
#[tactic(auto, using(crate::proofs::KeptLaws::place_is, crate::proofs::KeptLaws::place_within))]
fn place_of(kept: &[Kept], new: &Kept) -> usize
    ensures place { result ≡ kept_as.place new.now kept.now }
    ensures within { result ≤ length kept.now }
{
    first_behind(kept, new).unwrap_or(kept.len())
}

/// The place of the first of these that doesn't stand before a new one.
fn first_behind(kept: &[Kept], new: &Kept) -> Option<usize>
    ensures { result ≡ position (λ one. not (kept_as.is_before one new.now)) kept.now }
{
    kept.iter().position(|one| !is_before(one, new))
}

/// Whether the one stands before the other: by identifier, then by source.
fn is_before(one: &Kept, other: &Kept) -> bool
    ensures { result ≡ kept_as.is_before one.now other.now }
{
    one.response.id < other.response.id
        || one.response.id == other.response.id && comes_before(one.source, other.source)
}

/// Whether the one source comes before the other: the own one first, then by peer and service.
fn comes_before(one: Source, other: Source) -> bool
    ensures { result ≡ (nat_lt (kept_as.peer_rank one) (kept_as.peer_rank other)
        || (kept_as.peer_rank one == kept_as.peer_rank other && nat_lt (kept_as.service_rank one) (kept_as.service_rank other))) }
{
    match (one, other) {
        (Source::Own, Source::Own) => false,
        (Source::Own, Source::Noted(..)) => true,
        (Source::Noted(..), Source::Own) => false,
        (Source::Noted(peer, service), Source::Noted(other_peer, other_service)) => {
            peer < other_peer || peer == other_peer && service < other_service
        }
    }
}

/// Whether both are of one identifier and source.
fn has_key_of(one: &Kept, other: &Kept) -> bool
    ensures { result ≡ kept_as.is_in_place_of one.now other.now }
{
    one.response.id == other.response.id && one.source == other.source
}
