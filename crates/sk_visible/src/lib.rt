//! The messages that a participant's steps may see, kept in the order in which a step sees them.
//!
//! What is handed to a service is put in its place: by when it was sent, its sender, its place among
//! what was got from the sender, and its receiver. What wasn't sent in a step is seen by none. So
//! what a step sees is one slice of a [`VisibleList`], between the time of the step before and its
//! own.
//!
//! Messages come almost in order, so the place of a new one is looked for from the end: that costs
//! a look at each one that stands behind it. A slice costs two binary searches, and copies nothing.
//!
//! ```text
//! list.note(alloc, peer, place, service, &message)?;  // as it is handed
//! let seen = list.between(from, at);                  // in a step at `at`, behind one at `from`
//! ```
#![tactic(auto)]

mod list;
#[cfg(test)]
mod tests;

pub use list::VisibleList;
