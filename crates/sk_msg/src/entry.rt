//! What a participant's journal tells.

use crate::command::{Command, Verdict};
use crate::message::Message;
use crate::sent::Sent;
use crate::state::State;
use sk_base::SimTime;

/// One thing that happened to a participant. A journal is the list of them in the order in which
/// they happened: an entry is added at its end, and none is changed.
///
/// A peer goes by its number, 0 to 31, and a tool by the one that it has here; a service by its
/// number at this participant, 0 to 63.
#[derive(Debug, Drop)]
pub enum Entry {
    /// This message was got from this peer.
    Got(u32, Message),
    /// This message was put out for this peer.
    Put(u32, Message),
    /// A message was handed to an own service.
    Hand {
        /// The number of the peer that sent it.
        peer: u32,
        /// Its place among the messages got from that peer, from 1.
        place: u64,
        /// The number of the own service.
        service: u32,
    },
    /// The participant entered this state.
    State(State),
    /// The state of the whole system, as seen from here, is now this one.
    System(State),
    /// The step of this number, from 1, began at this time.
    Begin(u64, SimTime),
    /// A completion came that was waited for: of the open asynchronous step of this number, or, with
    /// 0, of the asynchronous ready handler.
    Done(u64),
    /// The step of this number ended.
    End(u64),
    /// This was asked of the participant, and so it answered.
    Ask(Command, Verdict),
    /// The link to this peer is gone. The reason is 5 where the link ended, 6 where it failed, 7 on
    /// bytes that are no message, 8 on a message out of order, 9 on more than 2^32 bytes.
    Gone(u32, u8),
    /// A completion of this number came that nothing waited for. It has no other effect.
    Stray(u64),
    /// An action on this own service was answered by this code, with what it sent, if it sent
    /// anything. The code is 0 where it is done, 1 where its state or role refused it, 2 on a bad
    /// frame, 3 where no server is reachable, 4 where the call isn't open.
    Did(u32, u8, Option<Sent>),
    /// A limit was reached: 2 where a callback tried a 257th action, 3 where the journal has 500,000
    /// entries or more, 4 where it has 33,554,432 bytes or more of payloads that were got or put.
    Fault(u8),
}

// A journal has up to 500,000 of them.
const _: () = prove!(size_of::<Entry>() <= 64);
