//! Virtual time without a central clock: when a participant may begin its next step.
//!
//! [`Steps`] keeps the own steps and what was heard of each peer, and [`Steps::may_begin`] is the
//! rule over all of it: a step begins once every peer is known and each one that is synchronised
//! and hasn't left has announced the step's time or a later one. Else the answer names the first
//! peer that is waited for. [`Steps::next`] is when the next step begins, at every moment: 0, and a
//! step size later with each step that was begun. Contracts see the notes themselves, and never how
//! they are kept.
//!
//! Each call looks at every peer at most once. Only [`Steps::add_peer`] takes memory.
//!
//! ```text
//! let mut steps = Steps::new(alloc, 1_000_000);   // 1 ms a step
//! steps.add_peer(2)?;                             // all peers, in rising number, come first
//! steps.know(2, true);
//! steps.announce(2, at)                           // refused unless above the last one
//! match steps.may_begin() { MayBegin::Yes(at) => .., MayBegin::Waits(peer, last) => .., .. }
//! ```
#![tactic(auto)]

mod answer;
pub mod laws;
mod peer;
mod steps;
#[cfg(test)]
mod tests;

pub use answer::MayBegin;
pub use steps::Steps;
