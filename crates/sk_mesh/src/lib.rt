//! The rings between the participants of one process: one for each ordered pair.
//!
//! [`mesh`] makes them, and gives each participant its [`Ends`] of them, which may move to a thread
//! of its own. [`Ends::push`] and [`Ends::pop`] move a message and never wait. Contracts see, per
//! peer, what was pushed and popped and what is known of the ring: so many slots are free, these
//! messages wait. Where a slot or a message is known the call succeeds without a look at the ring;
//! else it looks, so an end is never blind to what the other did. [`Ends::beside`], for whoever has
//! both ends, makes all of the two rings known: what was popped is a prefix of what was pushed, and
//! no ring ever held more than its room. So in one hand both answers are exact: [`one_hand`].
//!
//! Only [`mesh`] takes memory: n (n - 1) rings. Messages move, and none is copied. Each call on an
//! end costs the same, however many messages there were.
//!
//! ```text
//! let mut ends = mesh(alloc, 2, 64)?;      // the ends of participant 0 and of participant 1
//! ends[0].push(1, message)                 // Err(message) where the ring has no slot
//! ends[1].pop(0)                           // None where it has no message
//! mine.beside(&mut other)                  // two different ends of one mesh
//! ```
#![tactic(auto)]

mod ends;
mod inlet;
mod making;
pub mod one_hand;
mod outlet;
mod ring_pair;
#[cfg(test)]
mod tests;

pub use ends::Ends;
pub use making::mesh;
