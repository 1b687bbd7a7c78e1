//! What every layer shares: virtual time, names, texts and bytes that are always in range, and the
//! traits through which the project meets the outside.
//!
//! A value of a type here keeps its rule from its constructor on, so no layer above checks it
//! again. Each outside object counts its faults, and a call answers [`Failed`] only where that
//! count rose: code that is generic over the trait can't invent a fault. The objects in
//! [`memory`] also tell what was said, so contracts above can speak of it.
//!
//! Names, texts and the bytes of a message lie in blocks that copies share, so `copy` takes constant
//! time and no memory. Their rules are looked at once, by their constructors, in time linear in
//! their length.
//!
//! All limits of the project stand in [`limits`], and all numbers that the program ends with in
//! [`ExitStatus`].
//!
//! ```text
//! let name = Name::new(alloc, "Engine")?;      // 1 to 64 bytes without control characters
//! let start = SimTime::new(0).ok_or(..)?;      // nanoseconds of virtual time
//! let next = start.plus(1_000_000);            // None where the sum is no time
//! ```
#![tactic(auto)]

mod bytes;
mod count;
mod fault;
mod files;
mod idle;
pub mod limits;
mod line;
mod link;
pub mod memory;
mod net;
mod sink;
mod status;
mod text;
mod time;

pub use bytes::Bytes;
pub use count::one_more;
pub use fault::{BytesFault, Failed, NameFault, WantOfMemory};
pub use files::{Files, Opened};
pub use idle::Idle;
pub use line::Line;
pub use link::{Gave, Link, Took};
pub use net::Net;
pub use sink::Sink;
pub use status::ExitStatus;
pub use text::{Name, Text, is_digits};
pub use time::SimTime;
