//! The wire format, version 1: messages as bytes, and bytes as messages.
//!
//! A frame is the length of its body in four bytes, and the body: the version byte 1, the kind
//! byte, and the fields of the kind. Numbers are little-endian. [`encode`] writes the one
//! spelling of a message; a [`Decoder`] reads a stream that comes in pieces, and answers the
//! same messages however it was cut, and the first fault with its offset. What reading and writing
//! have to do with each other is said in [`laws`].
//!
//! Each byte of a piece is looked at a constant number of times. A decoder keeps the open rest of
//! the stream, at most 8,195 bytes, and takes memory for it and for the messages; `encode` takes
//! memory only where its buffer grows.
//!
//! ```text
//! let mut bytes = Vec::new(alloc);
//! encode(&message, &mut bytes)?;      // 6 to 8,196 bytes more
//!
//! let mut decoder = Decoder::new(alloc);
//! let fed = decoder.feed(&bytes)?;    // fed.messages: those that are whole now
//! if let Some(fault) = fed.fault {    // fault.what, behind fault.at bytes of the stream
//!     ..
//! }
//! ```
#![tactic(auto)]

mod choices;
mod decoder;
mod fault;
mod fields;
mod frames;
mod kinds;
pub mod laws;
mod lists;
mod numbers;

pub use decoder::{Decoder, Fed};
pub use fault::{What, WireFault};
pub use frames::encode;
