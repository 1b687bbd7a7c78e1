//! The report of a run: what each step of each participant saw, and what was sent in it.
//!
//! [`report_text`] writes for each participant a line with its name, and for each of its steps a
//! line, one for each message that the step sees and one for each that was sent in it. The last
//! line has the numbers of those lines; [`totals_text`] makes it alone. Times are ns of virtual
//! time, and numbers decimal. Data are in lower-case hexadecimal, and `-` where there are none.
//!
//! ```text
//! participant 1 Display
//! step 1 0
//! step 2 3000000
//! saw 0 0 pub 0a00 Speed      a stamp, the sender's number, the content and the own service
//! sent call 1 - Lamp          the content and the own service
//! steps 2 saw 1 sent 1
//! ```
//!
//! Contents are `can ID FLAGS DATA`, `eth DATA`, `lin ID STATUS DATA`, `pub DATA`, `call NUMBER
//! DATA` and `reply NUMBER DATA`. The flags of a CAN frame are 1 where it is extended and 2 where it
//! is CAN FD, added; the status of a LIN frame is 0 for received, 1 for an error, 2 for no response
//! and 3 for a wake-up. Messages of other kinds, so the responses that LIN controllers announce,
//! have no line and aren't counted.
//!
//! A report goes by what the journals tell, whatever that is. A journal is gone through twice: a
//! first time for what was sent in each step. What a step sees is a slice of a list that is kept in
//! order, so that the time is linear where messages come almost in order.
//!
//! ```text
//! let participants = vec![in alloc; Reported::new(alloc, &name, services)?, ..]?;
//! let text = report_text(alloc, &participants, &journals)?;
//! ```
#![tactic(auto)]

mod contents;
mod got;
mod groups;
mod lines;
mod names;
mod report;
mod sent;
#[cfg(test)]
mod tests;
mod totals;
mod walk;

pub use names::Reported;
pub use report::{report_text, totals_text};
