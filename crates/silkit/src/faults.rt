//! The faults of an object of the host.

ghost use Rattle.std.specs.Prelude.{◌≡◌};
ghost use Rattle.sk_base.specs.Talk.{Rose};

use log::{Log, warn};
use sk_base::{Failed, one_more};
use std::fmt::Display;

/// How many calls have failed, with the log where each is noted.
#[derive(Drop)]
pub struct Faults<L: Log + Drop> {
    log: L,
    count: u64,
}

impl<L: Log + Drop> Faults<L> {
    /// No call has failed.
    pub fn none(log: L) -> Faults<L>
        ensures { result.count ≡ 0 }
    {
        Faults { log, count: 0 }
    }

    /// Counts a call that failed, and notes of what and why.
    pub fn note(&mut self, what: &str, why: impl Display + Drop) -> Failed
        ensures { Rose self.old.count self.new.count }
    {
        warn!(self.log; "{what}: {why}");
        self.count = one_more(self.count);
        Failed
    }
}
