//! The lifecycle of a participant.
//!
//! A [`Lifecycle`] is the state that a participant is in, and changes it only along the edges of
//! the graph: by a command, by an entry, or on in the chain where what the next state waits for
//! holds. What has no edge is refused with the present state and changes nothing. So the states
//! that it passes are a walk of the graph, whatever is called on it: `laws::states_are_a_walk`.
//!
//! Invalid is no state that it is ever in.
//!
//! [`has_edge`], [`led_to`] and [`next_state`] are the rules themselves, on a state that somebody
//! else keeps: whether there is an edge, where a command leads, and where the chain goes on.
//!
//! No call takes memory. A command and an entry cost one look at the table of 30 edges, an advance
//! at most one look at those that are required.
//!
//! ```text
//! let mut lifecycle = Lifecycle::new(true);
//! lifecycle.advance(&view, known)      // Some(CommunicationInitializing), once all have come so far
//! lifecycle.ask(Command::Pause)        // Refused(CommunicationInitializing)
//! ```
#![tactic(auto)]

mod chain;
mod edges;
mod known;
pub mod laws;
mod lifecycle;

pub use chain::next_state;
pub use edges::{has_edge, led_to};
pub use known::Known;
pub use lifecycle::Lifecycle;
