//! The step protocol with one peer: the command `pipe`, without its words.
//!
//! [`run_pipe`] is a synchronised, autonomous participant that takes each of its steps once the peer
//! has announced that time or a later one, and leaves at the end of its duration. Its contract
//! says, at every place of the link's talk, what was given for the bytes taken so far, and for each
//! ending its cause. It holds on each link that tells its talk.
//!
//! A run looks at each byte of its input a constant number of times. A step costs one message, and
//! at most 128 messages are put together before they are given. It makes finitely many calls of the
//! link.
//!
//! ```text
//! let plan = Plan { name, step: 1_000_000, duration: 3_000_000 };     // nanoseconds
//! match run_pipe(alloc, plan, &mut link) {
//!     PipeEnding::Left => ..      // the peer left in order, and all was given
//! }
//! ```
#![tactic(auto)]

mod ending;
pub mod laws;
mod peer;
mod plan;
mod run;
mod session;
#[cfg(test)]
mod tests;

pub use ending::PipeEnding;
pub use plan::Plan;
pub use run::run_pipe;
