//! Where text is written to.

ghost use Rattle.std.specs.Prelude.{◌≡◌, ◌<◌, ◌≤◌, ◌++◌, ℕ, Bool, true, false, List, [], length, take, IfOk, OnOk, OnErr, MatchResult};
ghost use Rattle.sk_base.specs.Talk.{Rose};

use crate::fault::Failed;

/// A place that bytes are written to, in order.
///
/// A call that answers [`Failed`] has written nothing, and the count of faults rose.
pub trait Sink {
    // How many calls failed. The count never falls, and stands still at the end of a u64.
    ghost faults: { Self → ℕ };

    // Whether what was written is told. Sinks of the outside leave this at its default.
    ghost tells: { Self → Bool } = { λ _. false };

    // All bytes written so far.
    ghost written: { Self → List ℕ } = { λ _. [] };

    /// Writes so many bytes of the front of a piece, at least one of a piece that isn't empty. It
    /// isn't said that they have come anywhere yet.
    fn write(&mut self, piece: &[u8]) -> Result<usize, Failed>
        ensures some { IfOk result (λ count. 0 < length piece.now → 0 < count) }
        ensures within { IfOk result (λ count. count ≤ length piece.now) }
        ensures rose { OnErr result (Rose (faults self.old) (faults self.new)) }
        ensures steady { OnOk result (faults self.new ≡ faults self.old) }
        ensures tells { tells self.new ≡ tells self.old }
        ensures written { tells self.old ≡ true → MatchResult result
            (λ count. written self.new ≡ written self.old ++ take count piece.now)
            (λ _. written self.new ≡ written self.old) };

    /// Sees what was written off.
    fn flush(&mut self) -> Result<(), Failed>
        ensures rose { OnErr result (Rose (faults self.old) (faults self.new)) }
        ensures steady { OnOk result (faults self.new ≡ faults self.old) }
        ensures tells { tells self.new ≡ tells self.old }
        ensures written { tells self.old ≡ true → written self.new ≡ written self.old };
}
