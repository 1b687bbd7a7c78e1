//! The rules of scripts: what a participant of a scenario does by itself, as its file says it.
//!
//! A rule says when it is carried out, at a time, again and again or for each message that a
//! service gets, and which actions are done then. [`Rules`] and [`Actions`] are read from JSON by
//! [`read_rules`] and [`read_actions`]: what they answer is a function of the value, the rules or
//! the first fault with its path. Names of services and variables become their numbers, by the
//! participant's [`Scope`]. The parts of a reader of scenario files stand here too: what is at a
//! key ([`field`]), words, lists, and how a fault is said ([`ScenarioFault`]).
//!
//! An action costs a look at each kind of action and at most 64 services and 64 variables.
//!
//! ```text
//! let scope = Scope { services, vars };
//! let rules = read_rules(alloc, &scope, &path, items)?;
//! ```
#![tactic(auto)]

mod action;
mod fault;
pub mod field;
mod items;
pub mod keys;
pub mod laws;
mod place;
mod read_action;
mod read_rule;
mod rule;
mod vars;
mod verb;
mod word;

pub use action::{Actions, ScriptAction};
pub use fault::{Rule, ScenarioFault};
pub use items::{ReadItem, read_items};
pub use place::{Place, Scope};
pub use read_action::read_actions;
pub use read_rule::read_rules;
pub use rule::{MOST_RULES, Rules, ScriptRule, When};
pub use vars::{MOST_VARIABLES, Var, Vars, read_vars};
pub use verb::{ServiceVerb, Verb};
pub use word::Word;
