//! Tests of `sk_base`, `sk_msg`, `sk_wire`, `sk_config` and `sk_lin`, by their public calls alone.
//!
//! They stand in a crate of their own, since a crate with tests is proved twice. Tables of texts and
//! streams are those of the program `sk_tables`.
#![tactic(auto)]

#[cfg(test)]
mod base;
#[cfg(test)]
mod config;
#[cfg(test)]
mod lin;
#[cfg(test)]
mod made;
#[cfg(test)]
mod matching;
#[cfg(test)]
mod msg;
#[cfg(test)]
mod wire;
