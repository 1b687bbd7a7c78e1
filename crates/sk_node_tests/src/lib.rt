//! Tests of `sk_node`, by its public calls alone: participants that are driven by hand.
//!
//! They stand in a crate of their own, since a crate with tests is proved twice.
#![tactic(auto)]

#[cfg(test)]
mod links;
#[cfg(test)]
mod play;
#[cfg(test)]
mod player;
#[cfg(test)]
mod runs;
