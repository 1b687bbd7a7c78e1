//! What an app is called with, and what it asks for.

use crate::actions::Actions;
use sk_base::SimTime;
use sk_msg::{Message, State};

/// A call of an app that may ask for actions.
#[derive(Debug, Drop)]
pub enum Call {
    /// Communication is ready.
    Ready,
    /// A step begins.
    Step {
        /// Its number, from 1.
        number: u64,
        /// Its time, in ns of virtual time.
        at: SimTime,
    },
    /// A message is handed to a service.
    Message {
        /// The number of its sender.
        peer: u32,
        /// Its place among the messages that were got from the sender, from 1.
        place: u64,
        /// The number of the own service.
        service: u32,
        /// The message.
        message: Message,
    },
}

/// Such a call, with what it asked for.
#[derive(Debug, Drop)]
pub struct Made {
    /// The call.
    pub call: Call,
    /// What it asked for, at most 256 actions.
    pub actions: Actions,
    /// Whether a 257th was tried.
    pub over: bool,
}

/// A message or an answer that an app was called with.
#[derive(Debug, Drop)]
pub enum Heard {
    /// A message was handed to a service; the fields are those of the call.
    Message {
        peer: u32,
        place: u64,
        service: u32,
        message: Message,
    },
    /// An action on an own service was answered.
    Answer {
        /// The number of the service.
        service: u32,
        /// 0 done, 1 refused by the state or role, 2 bad frame, 3 no server, 4 unknown call.
        code: u8,
    },
}

/// What an app was notified of.
#[derive(Clone, Copy, Debug, PartialEq, Eq)]
pub enum Notice {
    /// A state was entered.
    State(State),
    /// The participant has stopped.
    Stop,
    /// It shuts down.
    Shutdown,
    /// It was aborted.
    Abort,
}
