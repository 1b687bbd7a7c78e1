//! Publish and subscribe: which own services a message of a peer is for, and what a publisher said
//! last.
//!
//! [`Receivers`] has the own services and what each peer announced. For each announced service it
//! keeps the numbers of the own services that match it, made once, by [`Receivers::add`], which
//! compares the new service with each own one. [`Receivers::receivers`] is on the way of every
//! message: it looks them up by two indices, searches nothing and takes no memory. So does
//! [`Receivers::has_match`], which tells a client whether a peer has a server for it. It knows what
//! matches; whether a service admits a message at that moment is its controller's to say.
//!
//! A [`Publisher`] keeps its last publication, if it keeps a history.
//!
//! ```text
//! let mut receivers = Receivers::new(alloc, own);   // own services 0, 1, 2, ..
//! receivers.add(peer, service)?;                    // as the peer announces it
//! for own in receivers.receivers(peer, id) { .. }   // [1, 3]
//! ```
#![tactic(auto)]

mod add_refused;
mod peer;
mod publisher;
mod receivers;
#[cfg(test)]
mod tests;

pub use add_refused::AddRefused;
pub use publisher::Publisher;
pub use receivers::Receivers;
