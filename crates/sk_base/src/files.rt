//! Files to be read, one at a time.

ghost use Rattle.std.specs.Prelude.{◌≡◌, ◌<◌, ◌≤◌, ◌↔◌, ℕ, Bool, true, false, List, [], length, Option, None, IfOk, OnOk, OnErr, IsTrue, MatchResult};
ghost use Rattle.sk_base.specs.Talk.{Rose};
ghost use Rattle.sk_base.specs.Reading.{OpensFile, ReadsFile};
ghost use Rattle.sk_base.specs.declared.files.Opened.TheVariants as opened;

use crate::fault::Failed;

/// What an open answers.
#[derive(Clone, Copy, Debug, PartialEq, Eq)]
pub enum Opened {
    /// The file is open at its first byte.
    Ready,
    /// There is no file of this path.
    Absent,
}

/// Files to be read.
///
/// A call that answers [`Failed`] has read and moved nothing, and the count of faults rose.
pub trait Files {
    // How many calls failed. The count never falls, and stands still at the end of a u64.
    ghost faults: { Self → ℕ };

    // Whether the last open answered Ready. Each implementation tells this.
    ghost is_ready: { Self → Bool };

    // Whether the contents and the place are told. Files of the outside leave this at its default.
    ghost tells: { Self → Bool } = { λ _. false };

    // What a path holds, if it is one of a file. No call changes it.
    ghost content: { Self → List ℕ → Option (List ℕ) } = { λ _ _. None };

    // The path of the file that was opened last, and how many bytes of it were read.
    ghost current: { Self → List ℕ } = { λ _. [] };

    ghost place: { Self → ℕ } = { λ _. 0 };

    /// Opens the file of this path at its first byte, in place of the one before.
    fn open(&mut self, path: &str) -> Result<Opened, Failed>
        ensures ready { IsTrue (is_ready self.new) ↔ (result ≡ Ok opened.Ready) }
        ensures rose { OnErr result (Rose (faults self.old) (faults self.new)) }
        ensures steady { OnOk result (faults self.new ≡ faults self.old) }
        ensures tells { tells self.new ≡ tells self.old }
        ensures contents { (at : List ℕ) → content self.new at ≡ content self.old at }
        ensures told { tells self.old ≡ true → MatchResult result
            (λ answer. OpensFile answer (content self.old path.now) path.now (current self.new) (place self.new))
            (λ _. (current self.new ≡ current self.old) × (place self.new ≡ place self.old)) };

    /// Reads on in the file that was opened last, at most a buffer; 0 only at its end.
    fn read(&mut self, buf: &mut [u8]) -> Result<usize, Failed>
        requires ready { IsTrue (is_ready self.old) }
        requires room { 0 < length buf.old }
        ensures ready { is_ready self.new ≡ is_ready self.old }
        ensures within { IfOk result (λ count. count ≤ length buf.old) }
        ensures rose { OnErr result (Rose (faults self.old) (faults self.new)) }
        ensures steady { OnOk result (faults self.new ≡ faults self.old) }
        ensures tells { tells self.new ≡ tells self.old }
        ensures contents { (at : List ℕ) → content self.new at ≡ content self.old at }
        ensures current { current self.new ≡ current self.old }
        ensures told { tells self.old ≡ true → MatchResult result
            (λ count. ReadsFile count (content self.old (current self.old)) (place self.old) buf.new (place self.new))
            (λ _. place self.new ≡ place self.old) };
}
