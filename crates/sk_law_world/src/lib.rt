//! The laws of lawful journals and worlds.
//!
//! Each is the contract of a function that does nothing. The first page to read is `world_is_safe`:
//! in a lawful world whoever begins a step was handed before what the others sent in earlier steps.
#![tactic(auto)]

mod laws;

pub use laws::{
    all_ready_before_running, announcements, entries_meet_their_rules, gone_has_a_cause,
    messages_are_handed_once, none_out_of_order, puts_are_in_order, states_walk,
    what_is_done_is_sent, world_is_safe,
};
