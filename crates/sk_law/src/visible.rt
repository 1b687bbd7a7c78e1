//! What a step sees.

use sk_base::SimTime;
use sk_msg::Message;

/// A message of a step that was handed to a service: what a later step may see.
#[derive(Debug, Drop)]
pub struct Visible {
    /// When it was sent, in ns of virtual time.
    pub stamp: SimTime,
    /// The number of its sender.
    pub peer: u32,
    /// Its place among the messages that were got from the sender, from 1.
    pub place: u64,
    /// The number of the own service that it was handed to.
    pub service: u32,
    /// The message.
    pub message: Message,
}
