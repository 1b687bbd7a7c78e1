//! Who is joined in a simulation, and whom each newcomer is told of.
//!
//! A [`Directory`] is the registry's table. A name joins once at a time, and whoever joins is told
//! of all that are joined already, in order of joining. So of two that are in the table at once the
//! later was told of the earlier, once, and the earlier wasn't told of the later. Contracts see the
//! list of those that are joined, and never the map that keeps them.
//!
//! [`Directory::join`] looks a name up and copies the others; [`Directory::leave`] looks a name up,
//! moves those behind it up by one place, and takes no memory.
//!
//! ```text
//! let mut directory = Directory::new(alloc);
//! let told = directory.join(name, Role::Tool, address)?;   // those joined before
//! directory.leave(&other)                                  // whether it was joined
//! ```
#![tactic(auto)]

mod directory;
mod joined;
pub mod laws;
mod refused;
#[cfg(test)]
mod tests;

pub use directory::Directory;
pub use joined::Joined;
pub use refused::JoinRefused;
