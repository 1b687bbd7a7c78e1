//! Virtual time.

ghost use Rattle.std.specs.Prelude.{◌≡◌, ◌+◌, ℕ, Some, None, IsTrue, if◌then◌else◌};
ghost use Rattle.sk_base.specs.Ranges.{is_time};

use crate::limits::LATEST_NS;
use std::marker::Model;

/// A point of virtual time: 0 to 2^62 nanoseconds from the start of the simulation.
#[derive(Clone, Copy, Debug, PartialEq, Eq, PartialOrd, Ord)]
pub struct SimTime {
    ns: u64,
}

impl Model for SimTime {
    ghost Value = { ℕ };

    ghost view = { λ time. time.ns };

    ghost invariant = { λ time. IsTrue (is_time time.ns) };

    ghost inverse = { λ ns. record { ns = ns } };
}

impl SimTime {
    /// The time of so many nanoseconds, or None above 2^62.
    #[tactic(auto, unfolding(crate::specs::Ranges::is_time))]
    pub fn new(ns: u64) -> Option<SimTime>
        ensures { result ≡ (if is_time ns then Some ns else None) }
    {
        if ns <= LATEST_NS {
            Some(SimTime { ns })
        } else {
            None
        }
    }

    /// The nanoseconds from the start.
    pub fn ns(self) -> u64
        ensures value { result ≡ self }
        ensures range { IsTrue (is_time self) }
    {
        self.ns
    }

    /// So many nanoseconds later, or None where that is above 2^62.
    #[tactic(auto, unfolding(crate::specs::Ranges::is_time))]
    pub fn plus(self, ns: u64) -> Option<SimTime>
        ensures { result ≡ (if is_time (self + ns) then Some (self + ns) else None) }
    {
        SimTime::new(self.ns.saturating_add(ns))
    }
}
