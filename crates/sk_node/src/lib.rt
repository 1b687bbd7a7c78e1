//! A participant of a simulation: its lifecycle, its steps in virtual time, its commands, its services,
//! and the order of its links.
//!
//! A [`Node`] is a state machine. Messages go in, what it puts for the others comes out, and its
//! journal is the whole truth about it. It calls an [`App`] where the simulation needs an answer.
//! Links, threads and clocks are its caller's, who keeps to this loop:
//!
//! ```text
//! node.take(peer, message, &mut app)?;            // what came, in its order, while `is_open(peer)`
//! node.gone(peer, reason, &mut app)?;             // or the link of the peer is lost
//! match node.turn(&mut app)? {                    // what comes next by itself
//!     Turned::Entries(_) | Turned::Counted => {}  // again: more may come
//!     Turned::Quiet => {}                         // somebody else is waited for
//!     Turned::Finished => {}                      // nothing follows
//! }
//! while let Some(message) = node.take_out(peer) { // all that waits, for each peer
//!     ..
//! }
//! ```
//!
//! Whatever is called, the journal stays lawful by the rules of `sk_law`: a call adds one thing that
//! happens with all that follows it, and judges the limits behind it. The app was then called for
//! exactly what the journal says. After want of memory the journal is a front of a lawful one, and
//! what the app was told agrees with it but for the last entry.
//!
//! Its services are those of its setup, at most 64, numbered from 0. A message is handed to those that
//! match what its sender announced and whose controller takes it; an action of the app changes one of
//! them, and what it sends is put. For now the handlers of a participant are blocking ones.
#![tactic(auto)]

mod actions;
mod app;
mod calls;
mod commands;
mod events;
mod limits;
mod losses;
mod making;
mod node;
mod puts;
mod receive;
mod rows;
mod services;
mod states;
mod steps;

pub use app::App;
pub use node::Node;
pub use rows::Turned;
