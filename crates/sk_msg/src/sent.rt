//! What an action sent.

ghost use Rattle.std.specs.Prelude.{◌≡◌, IfOk};

use crate::message::Message;
use sk_base::WantOfMemory;
use std::alloc::Global;
use std::marker::Model;

/// The message that an action sent, in a box: so an entry of a journal that may have one stays as
/// small as one that has a message. Contracts see the message's content.
#[derive(Debug, Drop)]
pub struct Sent {
    message: Box<Message>,
}

impl Model for Sent {
    ghost use Rattle.sk_msg.specs.declared.content.Content.{Content};

    ghost Value = { Content };

    ghost view = { λ sent. sent.message.value };
}

impl Sent {
    /// The message in a box of its own.
    pub fn new(alloc: Global, message: Message) -> Result<Sent, WantOfMemory>
        ensures { IfOk result (λ sent. sent ≡ message) }
    {
        Ok(Sent {
            message: Box::new(alloc, message)?,
        })
    }

    /// The message in the box.
    pub fn message(&self) -> &Message
        ensures { result.now ≡ self.now }
    {
        &self.message
    }
}
