//! The head of what goes from service to service.

ghost use Rattle.std.specs.Prelude.{◌≡◌};
ghost use Rattle.sk_msg.specs.Heads.{head_of};

use crate::content::Content;
use sk_base::SimTime;

/// What stands in front of all that goes from service to service.
#[derive(Clone, Copy, Debug, PartialEq, Eq)]
pub struct Head {
    /// The number of the sender's own service.
    pub service: u32,
    /// When it was sent, in ns of virtual time.
    pub stamp: SimTime,
    /// The number of the step that sent it, 0 outside of steps; at most 2^63.
    pub mark: u64,
}

impl Content {
    /// The head of what goes from service to service, or None of any other message.
    pub fn head(&self) -> Option<Head>
        ensures { result ≡ head_of self.now }
    {
        match self {
            Content::Can { head, .. } => Some(*head),
            Content::Eth { head, .. } => Some(*head),
            Content::Lin { head, .. } => Some(*head),
            Content::LinResponse { head, .. } => Some(*head),
            Content::Publish { head, .. } => Some(*head),
            Content::Call { head, .. } => Some(*head),
            Content::Reply { head, .. } => Some(*head),
            Content::Hello { .. }
            | Content::Leave
            | Content::NextStep { .. }
            | Content::ServiceAdd { .. }
            | Content::ServicesEnd
            | Content::Status { .. }
            | Content::Workflow { .. }
            | Content::Abort
            | Content::Refuse { .. } => None,
        }
    }
}
