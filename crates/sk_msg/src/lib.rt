//! The messages between participants, the states that they tell of, and what else a participant
//! is told and tells: the actions of its app and the entries of its journal.
//!
//! A [`Message`] is contents that keep the rules of their kind: one that is out of range can't be
//! made, so whoever has a message needn't check it. Contracts see its [`Content`], plain data. The
//! tests of the rules are in [`rules`], for those who read or make contents. What goes from service
//! to service has a [`Head`] in front, and is for the services that match the sender's: [`matches`]
//! compares their specifications, the same for every kind of service.
//!
//! A message moves, and nothing in it is copied unless `copy` is called: that and the boxes
//! [`Announced`] and [`Sent`] are all that take memory. Making a message costs one write, but of a
//! service or of required names one look at each label or name. The test of a specification
//! compares each key with those before it, and [`matches`] each label with those of the other side,
//! of which there are at most 16. An [`Entry`] is at most 64 bytes wide.
//!
//! ```text
//! let at = SimTime::new(5_000_000)?;
//! let step = Message::next_step(at, 1_000_000);   // at 5 ms, 1 ms long
//! match step.content() {
//!     Content::NextStep { at, duration } => ..,
//!     _ => ..,
//! }
//! ```
#![tactic(auto)]

mod action;
mod announced;
mod bus;
mod command;
mod content;
mod entry;
mod head;
mod label;
mod matching;
mod message;
mod names;
mod reason;
mod role;
pub mod rules;
mod sent;
mod service;
mod spec;
mod state;

pub use action::Action;
pub use announced::Announced;
pub use bus::{CanFrame, LinChecksum, LinFrame, LinMode, LinResponse, LinRole, LinStatus};
pub use command::{Command, Verdict};
pub use content::Content;
pub use entry::Entry;
pub use head::Head;
pub use label::{Label, LabelKind, copy_labels};
pub use matching::matches;
pub use message::Message;
pub use names::Names;
pub use reason::RefuseReason;
pub use role::Role;
pub use sent::Sent;
pub use service::{Service, ServiceKind};
pub use spec::{Spec, SpecFault};
pub use state::State;
