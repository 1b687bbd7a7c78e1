//! Tests of `sk_machine`, by its public calls alone: scripts of scenario files, and steps that see
//! some messages.
//!
//! They stand in a crate of their own, since scenario files are read by a crate beside `sk_machine`.
#![tactic(auto)]

#[cfg(test)]
mod play;
#[cfg(test)]
mod tests;
