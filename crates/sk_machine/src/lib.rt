//! What a participant's script does.
//!
//! A script is a function of the values of the participant's variables, the time of a step and the
//! messages that the step sees: it says which actions are asked for, in order, and which values the
//! variables have from then on. A [`Machine`] keeps a script and the values, and carries it out.
//! After want of memory it is as it was before.
//!
//! For each message the rules of its receiver are carried out, in their order, and then those that
//! are due at the time. So a step costs a look at each rule, and for each message that it sees at
//! those of its receiver; what was seen in earlier steps doesn't matter. What an action carries is
//! shared with the script, and copied only where bytes of a variable are appended.
//!
//! ```text
//! let mut machine = Machine::new(alloc, part.scope(), part.ready(), part.script())?;
//! let asked = machine.ready()?;           // once, when communication is ready
//! let asked = machine.step(at, seen)?;    // in each step
//! ```
#![tactic(auto)]

mod cause;
mod copies;
mod index;
mod machine;
mod payload;
mod play;

pub use machine::Machine;
