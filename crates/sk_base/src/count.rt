//! Counts of faults.

ghost use Rattle.std.specs.Prelude.{◌≡◌, ◌+◌, ◌-◌, ◌^◌, min};
ghost use Rattle.sk_base.specs.Talk.{Rose};

/// A count of faults after one more. At the end of a u64 it stands still.
pub fn one_more(faults: u64) -> u64
    ensures value { result ≡ min (faults + 1) (2 ^ 64 - 1) }
    ensures rose { Rose faults result }
{
    faults.saturating_add(1)
}
