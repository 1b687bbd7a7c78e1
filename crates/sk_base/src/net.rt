//! Links to many peers, opened by calls and by being called.

ghost use Rattle.std.specs.Prelude.{◌≡◌, ◌<◌, ◌++◌, ℕ, Bool, true, false, List, [], ◌∷◌, length, IfOk, IfErr, OnOk, OnErr, IsTrue, MatchResult};
ghost use Rattle.sk_base.specs.Talk.{Said, said_by_take, said_by_give, TakesWithin, GivesWithin, Rose};
ghost use Rattle.sk_base.specs.Calls.{Called, Listened, Connected, IsRefused, called_by_accept, Same, SameBut, OpensLink, OpensSome, Closes, IsBoundTo};

use crate::fault::Failed;
use crate::link::{Gave, Took};
use crate::text::Text;

/// A net: it listens at an address, connects to others, and has links by their numbers.
///
/// A link is open from the `connect` or `accept` that answers its number until its `close`,
/// whatever `take` and `give` answer, and its number is never used again. A call that answers
/// [`Failed`] has taken, given and opened nothing, and its count of faults rose: one count is that
/// of `listen`, `connect` and `accept`, and each link has one of its own for `take` and `give`.
pub trait Net {
    // How many calls of `listen`, `connect` and `accept` failed. The count never falls, and stands
    // still at the end of a u64.
    ghost faults: { Self → ℕ };

    // The same of `take` and `give`, by the link's number.
    ghost link_faults: { Self → ℕ → ℕ };

    // Which numbers are those of open links, and which were ever used. Each implementation tells
    // this.
    ghost is_open_of: { Self → ℕ → Bool };

    ghost was_opened: { Self → ℕ → Bool };

    // Whether the calls and the talks are told. Nets of the outside leave this at its default.
    ghost tells: { Self → Bool } = { λ _. false };

    // The calls of `listen`, `connect` and `accept` with their answers, in one order. A `listen` or
    // `connect` that failed stands there with its address, or not at all; an `accept` that failed
    // names no address, and never does.
    ghost calls: { Self → List Called } = { λ _. [] };

    // All that was said so far on each link.
    ghost talk: { Self → ℕ → List Said } = { λ _ _. [] };

    /// Whether the number is that of an open link.
    fn is_open(&self, link: u32) -> bool
        ensures { result ≡ is_open_of self.now link };

    /// Listens at this address, and answers the address that it is bound to: that one, with a free
    /// port in place of the port 0, which is asked for by `:0` at the end.
    fn listen(&mut self, at: &Text) -> Result<Text, Failed>
        ensures bound { IfOk result (IsBoundTo at.now) }
        ensures rose { OnErr result (Rose (faults self.old) (faults self.new)) }
        ensures steady { OnOk result (faults self.new ≡ faults self.old) }
        ensures counts { Same (link_faults self.old) (link_faults self.new) }
        ensures open_links { Same (is_open_of self.old) (is_open_of self.new) }
        ensures used { Same (was_opened self.old) (was_opened self.new) }
        ensures tells { tells self.new ≡ tells self.old }
        ensures talks { tells self.old ≡ true → Same (talk self.old) (talk self.new) }
        ensures calls { tells self.old ≡ true → MatchResult result
            (λ bound. calls self.new ≡ calls self.old ++ Listened at.now bound ∷ [])
            (λ _. IsRefused at.now (calls self.old) (calls self.new)) };

    /// Opens a link to the net that listens at this address, and answers its number.
    fn connect(&mut self, at: &Text) -> Result<u32, Failed>
        ensures rose { OnErr result (Rose (faults self.old) (faults self.new)) }
        ensures steady { OnOk result (faults self.new ≡ faults self.old) }
        ensures counts { Same (link_faults self.old) (link_faults self.new) }
        ensures opens { IfOk result (OpensLink (is_open_of self.old) (was_opened self.old) (is_open_of self.new) (was_opened self.new)) }
        ensures none { IfErr result (λ _. Same (is_open_of self.old) (is_open_of self.new) × Same (was_opened self.old) (was_opened self.new)) }
        ensures tells { tells self.new ≡ tells self.old }
        ensures silent { tells self.old ≡ true → IfOk result (λ link. talk self.new link ≡ []) }
        ensures talks { tells self.old ≡ true → (number : ℕ) → was_opened self.old number ≡ true → talk self.new number ≡ talk self.old number }
        ensures calls { tells self.old ≡ true → MatchResult result
            (λ link. calls self.new ≡ calls self.old ++ Connected at.now link ∷ [])
            (λ _. IsRefused at.now (calls self.old) (calls self.new)) };

    /// Opens a link to one that called, and answers its number; None only where nobody waited.
    fn accept(&mut self) -> Result<Option<u32>, Failed>
        ensures rose { OnErr result (Rose (faults self.old) (faults self.new)) }
        ensures steady { OnOk result (faults self.new ≡ faults self.old) }
        ensures counts { Same (link_faults self.old) (link_faults self.new) }
        ensures opens { IfOk result (OpensSome (is_open_of self.old) (was_opened self.old) (is_open_of self.new) (was_opened self.new)) }
        ensures none { IfErr result (λ _. Same (is_open_of self.old) (is_open_of self.new) × Same (was_opened self.old) (was_opened self.new)) }
        ensures tells { tells self.new ≡ tells self.old }
        ensures silent { tells self.old ≡ true → (link : ℕ) → was_opened self.old link ≡ false → was_opened self.new link ≡ true → talk self.new link ≡ [] }
        ensures talks { tells self.old ≡ true → (number : ℕ) → was_opened self.old number ≡ true → talk self.new number ≡ talk self.old number }
        ensures calls { tells self.old ≡ true → MatchResult result
            (λ found. calls self.new ≡ calls self.old ++ called_by_accept found ∷ [])
            (λ _. calls self.new ≡ calls self.old) };

    /// Takes at most a buffer of bytes from the link's peer.
    fn take(&mut self, link: u32, buf: &mut [u8]) -> Result<Took, Failed>
        requires is_open { IsTrue (is_open_of self.old link) }
        requires room { 0 < length buf.old }
        ensures within { IfOk result (TakesWithin (length buf.old)) }
        ensures rose { OnErr result (Rose (link_faults self.old link) (link_faults self.new link)) }
        ensures steady { OnOk result (link_faults self.new link ≡ link_faults self.old link) }
        ensures counts { SameBut link (link_faults self.old) (link_faults self.new) }
        ensures count { faults self.new ≡ faults self.old }
        ensures open_links { Same (is_open_of self.old) (is_open_of self.new) }
        ensures used { Same (was_opened self.old) (was_opened self.new) }
        ensures tells { tells self.new ≡ tells self.old }
        ensures calls { tells self.old ≡ true → calls self.new ≡ calls self.old }
        ensures talks { tells self.old ≡ true → SameBut link (talk self.old) (talk self.new) }
        ensures talk { tells self.old ≡ true → MatchResult result
            (λ took. talk self.new link ≡ talk self.old link ++ said_by_take took buf.new ∷ [])
            (λ _. talk self.new link ≡ talk self.old link) };

    /// Gives at most a piece of bytes to the link's peer.
    fn give(&mut self, link: u32, piece: &[u8]) -> Result<Gave, Failed>
        requires is_open { IsTrue (is_open_of self.old link) }
        requires some { 0 < length piece.now }
        ensures within { IfOk result (GivesWithin (length piece.now)) }
        ensures rose { OnErr result (Rose (link_faults self.old link) (link_faults self.new link)) }
        ensures steady { OnOk result (link_faults self.new link ≡ link_faults self.old link) }
        ensures counts { SameBut link (link_faults self.old) (link_faults self.new) }
        ensures count { faults self.new ≡ faults self.old }
        ensures open_links { Same (is_open_of self.old) (is_open_of self.new) }
        ensures used { Same (was_opened self.old) (was_opened self.new) }
        ensures tells { tells self.new ≡ tells self.old }
        ensures calls { tells self.old ≡ true → calls self.new ≡ calls self.old }
        ensures talks { tells self.old ≡ true → SameBut link (talk self.old) (talk self.new) }
        ensures talk { tells self.old ≡ true → MatchResult result
            (λ gave. talk self.new link ≡ talk self.old link ++ said_by_give gave piece.now ∷ [])
            (λ _. talk self.new link ≡ talk self.old link) };

    /// Closes the link.
    fn close(&mut self, link: u32)
        requires is_open { IsTrue (is_open_of self.old link) }
        ensures closes { Closes link (is_open_of self.old) (is_open_of self.new) }
        ensures counts { Same (link_faults self.old) (link_faults self.new) }
        ensures count { faults self.new ≡ faults self.old }
        ensures used { Same (was_opened self.old) (was_opened self.new) }
        ensures tells { tells self.new ≡ tells self.old }
        ensures calls { tells self.old ≡ true → calls self.new ≡ calls self.old }
        ensures talks { tells self.old ≡ true → Same (talk self.old) (talk self.new) };
}
