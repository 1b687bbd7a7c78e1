//! No rest: no command waits yet.

use sk_base::Idle;

/// Goes on at once.
#[derive(Drop)]
pub struct NoRest;

impl Idle for NoRest {
    fn rest(&self) {}
}
