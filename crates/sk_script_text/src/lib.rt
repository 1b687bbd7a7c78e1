//! The one text of a scenario, as a scenario file has it.
//!
//! [`scenario_text`] writes compact JSON: all that isn't as by default, with keys in byte order, and
//! a newline at the end. Reading that text gives the scenario again, without a warning; so two
//! scenarios with one text are the same.
//!
//! ```text
//! let text = scenario_text(alloc, &scenario)?;
//! ```
#![tactic(auto)]

mod object;
mod word;
mod write_action;
mod write_scenario;
mod write_service;

pub use write_scenario::scenario_text;
