//! A rest between two looks at the outside.

/// Where a caller with nothing to do lets others go first.
///
/// It isn't said how long a rest takes, nor that anything will have come.
pub trait Idle: Sync {
    /// Rests for a while.
    fn rest(&self);
}
