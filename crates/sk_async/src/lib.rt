//! Steps that end later than their handler: the token of such a step, and what spends it.
//!
//! A [`StepToken`] stands for a step that is open. No token is just let go of: it is completed, which
//! makes the [`Completion`] that ends the step, or abandoned, which leaves the step open, or handed
//! on. A [`Completer`] holds a token for a number of turns and then completes it.
//!
//! A completion is a number, and anybody may make one. Whether it fits an open step is judged by who
//! takes it; one that a token was spent for has the token's number.
//!
//! Nothing takes memory, and each call takes constant time.
//!
//! ```text
//! let mut completer = Completer::new(2);
//! completer.hold(token);           // the token of step 8
//! completer.turn()                 // None
//! completer.turn()                 // Some(completion), of number 8
//! ```
#![tactic(auto)]

mod completer;
#[cfg(test)]
mod tests;
mod token;

pub use completer::Completer;
pub use token::{Completion, StepToken};
