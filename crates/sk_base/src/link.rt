//! A link to one peer: bytes in order, both ways.

ghost use Rattle.std.specs.Prelude.{◌≡◌, ◌<◌, ◌++◌, ℕ, Bool, true, false, List, [], ◌∷◌, length, IfOk, OnOk, OnErr, MatchResult};
ghost use Rattle.sk_base.specs.Talk.{Said, said_by_take, said_by_give, TakesWithin, GivesWithin, Rose};

use crate::fault::Failed;

/// What a take answers.
#[derive(Clone, Copy, Debug, PartialEq, Eq)]
pub enum Took {
    /// So many bytes stand at the front of the buffer, at least one. More may be waiting.
    Bytes(usize),
    /// Nothing now. It isn't said whether anything will come.
    NotYet,
    /// Nothing now or ever again.
    End,
}

/// What a give answers.
#[derive(Clone, Copy, Debug, PartialEq, Eq)]
pub enum Gave {
    /// So many bytes at the front of the piece went through, at least one. It isn't said that
    /// the peer has them yet.
    Bytes(usize),
    /// None now.
    NotYet,
}

/// A link to one peer.
///
/// A call that answers [`Failed`] has taken and given nothing, and the count of faults rose.
pub trait Link {
    // How many calls failed. The count never falls, and stands still at the end of a u64.
    ghost faults: { Self → ℕ };

    // Whether the talk is told. Links to the outside leave this at its default and owe nothing on
    // it.
    ghost tells: { Self → Bool } = { λ _. false };

    // All that was said so far, in one order.
    ghost talk: { Self → List Said } = { λ _. [] };

    /// Takes at most a buffer of bytes from the peer.
    fn take(&mut self, buf: &mut [u8]) -> Result<Took, Failed>
        requires { 0 < length buf.old }
        ensures within { IfOk result (TakesWithin (length buf.old)) }
        ensures rose { OnErr result (Rose (faults self.old) (faults self.new)) }
        ensures steady { OnOk result (faults self.new ≡ faults self.old) }
        ensures tells { tells self.new ≡ tells self.old }
        ensures talk { tells self.old ≡ true → MatchResult result
            (λ took. talk self.new ≡ talk self.old ++ said_by_take took buf.new ∷ [])
            (λ _. talk self.new ≡ talk self.old) };

    /// Gives at most a piece of bytes to the peer.
    fn give(&mut self, piece: &[u8]) -> Result<Gave, Failed>
        requires { 0 < length piece.now }
        ensures within { IfOk result (GivesWithin (length piece.now)) }
        ensures rose { OnErr result (Rose (faults self.old) (faults self.new)) }
        ensures steady { OnOk result (faults self.new ≡ faults self.old) }
        ensures tells { tells self.new ≡ tells self.old }
        ensures talk { tells self.old ≡ true → MatchResult result
            (λ gave. talk self.new ≡ talk self.old ++ said_by_give gave piece.now ∷ [])
            (λ _. talk self.new ≡ talk self.old) };
}
