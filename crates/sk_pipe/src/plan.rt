//! What a run is to do.

ghost use Rattle.std.specs.Prelude.{◌≤◌, ◌^◌, IsTrue};
ghost use Rattle.sk_msg.specs.Rules.{is_step_size};

use sk_base::Name;

/// The plan of a run.
#[derive(Debug, Drop)]
pub struct Plan {
    pub name: Name,
    /// The step size, 1 to 2^60 nanoseconds.
    pub step: u64,
    /// The duration, 0 to 2^61 nanoseconds.
    pub duration: u64,
    ghost step_fits: { IsTrue (is_step_size step) },
    ghost duration_fits: { duration ≤ 2 ^ 61 },
}
