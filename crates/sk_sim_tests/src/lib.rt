//! Tests of `sk_sim`, by its public calls alone: runs of two and three participants.
//!
//! They stand in a crate of their own, since a crate with tests is proved twice.
#![tactic(auto)]

#[cfg(test)]
mod making;
#[cfg(test)]
mod player;
#[cfg(test)]
mod runs;
#[cfg(test)]
mod words;
