//! The commands of the program, each as one call over the words and the outside that it is handed.
//!
//! [`silkit`] is the program: it hands the words to one of the calls below by the first of them.
//! [`silkit_pipe`] is the bare step protocol with one peer on a link. Its contract says, at every
//! place of the link's talk, what was given for the bytes taken so far, and for each status the
//! cause that forces it. [`silkit_offline`] has the commands on files: what they answer, write and
//! say follows from the words and from what the files hold; of `simulate`, that the journals which it
//! writes are those of a safe world, and of `generate`, which scenario it writes. Clauses on what was taken, given,
//! written or read hold where the object tells it: those in memory do, the real ones don't. What
//! else must be believed, the README says.
//!
//! A run of `pipe` looks at each byte of its input a constant number of times, and keeps no more
//! than one message of it from piece to piece. A step of its own costs one message, and at most 128
//! of them are kept before they are given. A command on files reads each of them whole, at most
//! 16,777,216 bytes. `simulate` keeps all journals until the run is over, and of their text at most
//! 16,384 bytes and a line.
//!
//! ```text
//! let status = silkit_pipe(alloc, &words, &mut link, &mut files);      // pipe A 1000000 3000000
//! let status = silkit_offline(alloc, &words, &mut files, &mut out, &mut err);     // simulate a.json
//! let status = silkit(alloc, &words, &mut host);              // by the first word, one of the two
//! ```
#![tactic(auto)]

mod check;
mod generate;
mod host;
pub mod laws;
mod offline;
mod outside;
mod pipe;
mod simulate;
#[cfg(test)]
mod testing;
mod words;

pub use host::{Host, silkit};
pub use offline::silkit_offline;
pub use outside::{OUT_OF_MEMORY_LINE, USAGE_LINE};
pub use pipe::silkit_pipe;
