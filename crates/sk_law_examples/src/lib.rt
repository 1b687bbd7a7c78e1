//! Journals and worlds written out: lawful ones, wrong ones, and what the laws say of them.
//!
//! Each function does nothing; its contract says of the journals in `specs` what they are.
#![tactic(auto)]

mod laws;

pub use laws::{
    a_world_lives, examples_are_lawful, no_world_runs_in_a_circle, short_ones_are_lawful,
    unsafe_ones_are_refused, wrong_ones_are_not,
};
