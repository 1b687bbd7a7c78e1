//! Tests of the command `simulate` against runs whose turns are made here, one by one: it writes what the
//! scenario's participants come to in their seats.
//!
//! They stand in a crate of their own, above both `sk_sim` and `sk_tools`.
#![tactic(auto)]

#[cfg(test)]
mod by_command;
#[cfg(test)]
mod by_hand;
#[cfg(test)]
mod outcome;
#[cfg(test)]
mod runs;
#[cfg(test)]
mod scenarios;
