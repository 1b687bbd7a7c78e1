//! Laws of the rule: functions that do nothing, whose contracts are the laws.

ghost use Rattle.std.specs.Prelude.{◌≡◌, ◌≢◌, ◌⊎◌, ◌↔◌, ◌++◌, ◌∷◌, ℕ, Bool, true, false, Some, IsSome, List, Contains};
ghost use Rattle.std.specs.List.Sorted.{IsStrictlyIncreasing};
ghost use Rattle.sk_timesync.specs.Notes.{PeerNotes, Notes, numbers, announced_by, with_known, with_announced, with_left, with_peer};
ghost use Rattle.sk_timesync.specs.Rule.{HoldsUp, IsReady, Answers};
ghost use Rattle.sk_timesync.specs.declared.answer.MayBegin.{MayBegin};
ghost use Rattle.sk_timesync.specs.declared.answer.MayBegin.TheVariants.{Yes};

/// A peer is ready for a step or holds it up, and never both.
pub fn ready_or_holds_up()
    ensures one { (at : ℕ) (peer : PeerNotes) → IsReady at peer ⊎ HoldsUp at peer }
    ensures not_both { (at : ℕ) (peer : PeerNotes) → IsReady at peer → HoldsUp at peer → ⊥ }
{}

/// The same notes never have two answers.
pub fn one_answer()
    ensures { (notes : Notes) (one other : MayBegin) → IsStrictlyIncreasing (numbers notes) →
        Answers notes one → Answers notes other → one ≡ other }
{}

/// The answer is Yes exactly where no step is open and no peer holds the next one up.
pub fn yes_exactly()
    ensures { (notes : Notes) (answer : MayBegin) →
        IsStrictlyIncreasing (numbers notes) → Answers notes answer →
        (answer ≡ Yes notes.next)
        ↔ ((notes.is_open ≡ false)
        × ((peer : PeerNotes) → Contains notes.peers peer → HoldsUp notes.next peer → ⊥)) }
{}

/// A known peer that has left counts no more: the answer is the one without it.
pub fn left_counts_no_more()
    ensures { (notes : Notes) (before after : List PeerNotes) (peer : PeerNotes) (answer : MayBegin) →
        IsSome peer.synchronised → peer.left ≡ true →
        Answers (record notes { peers = before ++ peer ∷ after }) answer
        ↔ Answers (record notes { peers = before ++ after }) answer }
{}

/// A peer that isn't synchronised never counts, whatever else was noted of it.
pub fn unsynchronised_never_counts()
    ensures { (notes : Notes) (before after : List PeerNotes) (peer : PeerNotes) (answer : MayBegin) →
        peer.synchronised ≡ Some false →
        Answers (record notes { peers = before ++ peer ∷ after }) answer
        ↔ Answers (record notes { peers = before ++ after }) answer }
{}

/// Of each peer the last announcement counts, and no other note changes it.
pub fn last_announcement()
    ensures announced { (notes : Notes) (number at : ℕ) → Contains (numbers notes) number →
        announced_by (with_peer number (with_announced at) notes) number ≡ Some at }
    ensures others { (notes : Notes) (number other at : ℕ) → other ≢ number →
        announced_by (with_peer number (with_announced at) notes) other ≡ announced_by notes other }
    ensures known { (notes : Notes) (number other : ℕ) (synchronised : Bool) →
        announced_by (with_peer number (with_known synchronised) notes) other ≡ announced_by notes other }
    ensures left { (notes : Notes) (number other : ℕ) →
        announced_by (with_peer number with_left notes) other ≡ announced_by notes other }
{}
