//! What stands in the way of the next step.

use sk_base::SimTime;

/// Whether the next step may begin.
#[derive(Clone, Copy, Debug, PartialEq, Eq)]
pub enum MayBegin {
    /// It may, at this time.
    Yes(SimTime),
    /// It waits for the peer of this number, which announced this time last. Of the peers that
    /// are unknown, or are synchronised, haven't left and have announced nothing or a time below
    /// the next step's, it is the one of the lowest number.
    Waits(u32, Option<SimTime>),
    /// The step of this number is open.
    Open(u64),
}
