//! The text of journals: a line for each entry, and before them the names of the participants.
//!
//! [`entry_line`] makes one line. The text of a whole world may be long, so whoever writes it out
//! makes it in pieces: [`append_head`], and for each journal [`append_journal_head`] and an
//! [`append_entry`] for each entry, with one buffer that is emptied between them. That takes no
//! more memory than a few lines. [`world_text`] makes all of it.
//!
//! A line is made in time linear in its length, and has fewer than 17,000 bytes. Participants and
//! journals are numbered from 0. Worlds with equal texts are equal:
//! [`laws::equal_texts_have_equal_worlds`].
//!
//! ```text
//! let mut text = String::new(alloc);
//! for entry in entries {
//!     text.clear();
//!     append_entry(alloc, &mut text, entry)?;   // `begin 1 0`, and a newline
//!     write_all(sink, text.as_bytes())?;
//! }
//! ```
#![tactic(auto)]

pub mod laws;
mod lines;
#[cfg(test)]
mod tests;
mod words;
mod worlds;

pub use lines::{append_entry, entry_line};
pub use words::{command_name, kind_name};
pub use worlds::{append_head, append_journal_head, world_text};
