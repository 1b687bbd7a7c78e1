//! A LIN controller: which calls its state and role allow, what it keeps, and what a header brings.
//!
//! A [`LinController`] has one of three states and, from [`LinController::init`] on, a role. It
//! keeps responses: its own, by identifier, and those that other controllers told of, by peer,
//! service and identifier. What a header brings is told by them alone: nobody answers, one does, or
//! more do. In which order the responses of others were noted makes no difference:
//! [`laws::notes_have_no_order`].
//!
//! Nothing here is on a bus: whoever uses it sends the frame that a call answers, tells the others of
//! a response that was set, and calls [`LinController::received`] for each frame that it hands on.
//!
//! No call looks at more than the responses of one identifier. Keeping one takes memory for it, and
//! so does each frame that is answered; [`LinController::admits`] and [`LinController::received`]
//! take none.
//!
//! ```text
//! let mut lin = LinController::new(alloc);
//! lin.init(LinRole::Master)?;
//! lin.send_header(5)?             // nobody answers: LinStatus::RxNoResponse
//! lin.note(3, 0, response)?;      // peer 3's service 0 answers at 5
//! lin.send_header(5)?             // LinStatus::RxOk, its checksum and bytes
//! ```
#![tactic(auto)]

mod controller;
mod frames;
mod kept;
pub mod laws;
mod refused;
mod state;
mod table;

pub use controller::LinController;
pub use kept::Source;
pub use refused::LinRefused;
pub use state::LinState;
