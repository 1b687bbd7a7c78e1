//! What one link keeps, apart from the link: what was taken and is no whole message yet, what waits
//! to be given, how many answers NotYet came in a row, and whether the input ended.
//!
//! A [`Connection`] makes no call of a link and knows no protocol. Its contract says where a talk
//! on a link leaves it: its messages and its fault are those of all bytes taken, and what was given
//! with what waits is all that was queued. Who has the link makes the calls and says what they
//! answered; several connections may so share one hand, as the links of a net do.
//!
//! Each byte taken is looked at a constant number of times, and each byte queued is written once.
//!
//! ```text
//! connection.queue(&message)?;                         // what is to be said
//! if connection.has_output() {
//!     connection.gave(link.give(connection.next_piece())?);
//! } else {
//!     let took = link.take(&mut buf)?;
//!     let fed = connection.took(took, &buf)?;          // fed.messages, and the fault behind them
//! }
//! if connection.is_tired() { .. }                      // 1,048,576 answers NotYet in a row
//! ```
#![tactic(auto)]

mod connection;
#[cfg(test)]
mod tests;

pub use connection::Connection;
