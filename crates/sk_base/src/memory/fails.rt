//! The calls on an object in memory, and which of them fail.

ghost use Rattle.std.specs.Prelude.{◌≡◌, ◌&&◌, ◌||◌, ◌==◌, ◌<◌, OnOk, OnErr};
ghost use Rattle.std.specs.List.{list_any};
ghost use Rattle.sk_base.specs.Talk.{Rose};

use crate::count::one_more;
use crate::fault::Failed;

/// A kind of call on an outside object.
#[derive(Clone, Copy, Debug, PartialEq, Eq)]
pub enum CallKind {
    Write,
    Flush,
    Open,
    Read,
    Take,
    Give,
    /// This and the next two are for a net with links; no object here fails them by number yet.
    Listen,
    Connect,
    Accept,
}

/// A call that is to fail.
#[derive(Clone, Copy, Debug, PartialEq, Eq)]
pub struct FailAt {
    pub call: CallKind,
    /// The link, for a take or a give of a net with links; no object here looks at it yet.
    pub link: u32,
    /// The number among the calls of this kind, failing ones too, from 1; 0 is every call.
    pub number: u64,
}

/// Whether the list names this call.
pub fn is_failing(fails: &[FailAt], call: CallKind, number: u64) -> bool
    ensures { result ≡ list_any
        (λ fail. ⟦<CallKind as PartialEq>⟧.eq fail.call call && (fail.number == 0 || fail.number == number))
        fails.now }
{
    fails.iter().any(|fail| fail.call == call && (fail.number == 0 || fail.number == number))
}

/// How many kinds of calls there are.
const KINDS: usize = 9;

/// The index of a kind in the counts.
fn index_of(kind: CallKind) -> usize
    ensures { result < 9 }
{
    match kind {
        CallKind::Write => 0,
        CallKind::Flush => 1,
        CallKind::Open => 2,
        CallKind::Read => 3,
        CallKind::Take => 4,
        CallKind::Give => 5,
        CallKind::Listen => 6,
        CallKind::Connect => 7,
        CallKind::Accept => 8,
    }
}

/// The calls on one object: how many there were of each kind, and how many failed.
#[derive(Drop)]
pub struct Calls {
    fails: Vec<FailAt>,
    /// By the index of the kind, failing ones too.
    counts: [u64; KINDS],
    faults: u64,
}

impl Calls {
    /// No call yet, with those that are to fail.
    pub fn new(fails: Vec<FailAt>) -> Calls
        ensures { result.faults ≡ 0 }
    {
        Calls {
            fails,
            counts: [0; KINDS],
            faults: 0,
        }
    }

    /// Counts one more call of this kind, and fails where it is to fail.
    pub fn next(&mut self, kind: CallKind) -> Result<(), Failed>
        ensures rose { OnErr result (Rose self.old.faults self.new.faults) }
        ensures steady { OnOk result (self.new.faults ≡ self.old.faults) }
    {
        let index = index_of(kind);
        let number = self.counts[index].saturating_add(1);
        self.counts[index] = number;
        if is_failing(&self.fails, kind, number) {
            return Err(self.fail());
        }
        Ok(())
    }

    /// Counts that the call failed, as where there is no memory for what the object keeps.
    pub fn fail(&mut self) -> Failed
        ensures { Rose self.old.faults self.new.faults }
    {
        self.faults = one_more(self.faults);
        Failed
    }
}
