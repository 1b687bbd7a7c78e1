//! What the states of all participants add up to, and the cores of the tools that watch them.
//!
//! A [`SystemView`] is told the last known state of each participant, and whom the workflow
//! requires. It answers what a participant told last, the state of the whole simulation, by the
//! first of six rules that fits, and whether all that are required have reached a state of the
//! chain. Contracts see what it was told.
//!
//! A [`Monitor`] and a [`Controller`] are told each message of a name, and the loss of its link,
//! and answer the lines to print; the controller also says when to abort, and with which status it
//! ends. They take the system state from the very same definition, over names. Contracts see what
//! they keep, and each call is one step on it; the lines of all calls are those of all notices:
//! `laws::notices_add_their_lines`. They print nothing and know of no link: whoever calls them does.
//!
//! Of a view only [`SystemView::new`] takes memory. `note` and `last` cost one look; the other
//! answers look at those that are required, a few times over for the system state and once for
//! `all_reached`. A tool looks each required name up among all names that it was told of, of which
//! there are few; it takes memory for its lines and for a name that is new, and where there is none
//! it is as before.
//!
//! ```text
//! let mut view = SystemView::new(alloc, 2)?;
//! view.set_required(vec![in alloc; Some(0), Some(1)]?);
//! view.note(0, State::Running);
//! view.system()                        // Invalid: nothing is known of the other
//!
//! let mut monitor = Monitor::new(alloc);
//! monitor.note(&controller, &workflow)?  // no line
//! monitor.note(&a, &running)?            // "A Running", "system Running"
//! ```
#![tactic(auto)]

mod controller;
pub mod laws;
mod line;
mod monitor;
mod required;
mod table;
mod view;

pub use controller::{Controller, Reaction};
pub use line::Lines;
pub use monitor::Monitor;
pub use view::SystemView;

#[cfg(test)]
mod tests;
