//! A run of several participants in one process.
//!
//! [`run_rounds`] runs a scenario: it makes the [`seats`] of its participants, turns them to their end, and
//! answers names and journals.
//!
//! A [`Seat`] is a participant with its app and its ends of the rings of a mesh. [`turn_rounds`] has
//! each seat take one turn after another until all are finished or none has anything to do; it always
//! comes to an end by itself, without a clock, a budget or a handle. Whoever makes the turns itself calls
//! [`look_around`] before each [`Seat::turn`], as a round does.
//!
//! ```text
//! let ends = mesh(alloc, 2, 64)?;                     // a ring for each ordered pair
//! let seat = Seat::new(alloc, setup, app, own_ends)?; // one for each end, in number order
//! let (seats, finished) = turn_rounds(seats)?;        // the same seats, each where it came to
//! let journal = seat.close();
//!
//! let run = run_rounds(alloc, &scenario)?;            // all of that, for the participants of a scenario
//! ```
//!
//! The journals of the answered seats are a lawful world, and so a safe one: whoever begins a step
//! was handed before, once and in order, what the others sent in earlier steps. Where the answer is
//! false all stand still: each message that was put was got, and nothing follows by itself.
//!
//! A round costs what it moves and adds. A seat that has nothing to do looks at its rings and at its
//! peers a few times, and at no journal. All journals stand in memory until the run is over, 64 bytes
//! for each entry; each has 500,000 entries and what one call more adds, and a few behind these.
#![tactic(auto)]

mod looks;
mod pushing;
mod rounds;
mod scripted;
mod seat;
mod simulation;
mod taking;
mod turns;
mod wired;

pub use looks::look_around;
pub use rounds::turn_rounds;
pub use scripted::Scripted;
pub use seat::Seat;
pub use simulation::{Finished, SimFault, run_rounds, seats};
