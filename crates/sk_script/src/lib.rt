//! Scenario files: JSON that says which participants a run has, what their services are and what
//! they do, how long it is, and whose states make the state of the system.
//!
//! [`read_scenario`] reads the bytes of a file. What it answers is a function of them: the
//! scenario with its warnings, or the first fault, with its path. An object is checked so: its
//! unknown keys in byte order, then its keys in the order of the table of keys; lists go by index;
//! what several participants must keep together comes last. A [`Scenario`] keeps the rules of the
//! format in its type, so no layer above checks it again: its participants stand in the byte order
//! of their names, and the place of each is its number. [`is_closed`] says whether what happens in
//! a run depends on the file alone.
//!
//! Reading takes memory for the JSON value and the result, and time that grows with the file's
//! length: names are looked up among at most 64 services, 64 variables and 32 participants.
//!
//! ```text
//! match read_scenario(alloc, bytes) {
//!     Ok(read) => .. read.scenario.participants() ..,
//!     Err(fault) => .. fault.path() .. fault.rule() ..,
//! }
//! ```
#![tactic(auto)]

mod closed;
mod generator;
pub mod keys;
pub mod laws;
mod ordering;
mod part;
mod read;
mod scenario;
mod service;
mod together;
mod word;

pub use closed::is_closed;
pub use generator::generate;
pub use read::read_scenario;
pub use scenario::{Part, Scenario, ScenarioRead};
pub use sk_rules::{Rule, ScenarioFault};
pub use together::coordinated_names;
