//! The outside in memory, for tests and for whoever runs a participant inside a process.
//!
//! Each object plays what it was made from, fails the calls that it was told to fail, and tells
//! what was said. A call that finds no memory for what the object keeps fails too, and counts.

pub mod fails;
pub mod files;
pub mod link;
pub mod net;
pub mod sink;

pub use fails::{CallKind, FailAt};
pub use files::{MemFile, MemFiles};
pub use link::{MemGive, MemLink, MemTake};
pub use net::MemNet;
pub use sink::MemSink;
