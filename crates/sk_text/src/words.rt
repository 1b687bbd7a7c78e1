//! What kinds of messages and commands are called in texts.

ghost use Rattle.std.specs.Prelude.{◌≡◌};
ghost use Rattle.sk_text.specs.Words.{kind_name, command_name};

use sk_msg::{Command, Content};

/// The name of a message's kind, as `NextStep`.
#[tactic(auto, unfolding(crate::specs::Words::kind_name))]
pub fn kind_name(content: &Content) -> &'static str
    ensures { result.now ≡ kind_name content.now }
{
    match content {
        Content::Hello { .. } => "Hello",
        Content::Leave => "Leave",
        Content::NextStep { .. } => "NextStep",
        Content::ServiceAdd { .. } => "ServiceAdd",
        Content::ServicesEnd => "ServicesEnd",
        Content::Status { .. } => "Status",
        Content::Workflow { .. } => "Workflow",
        Content::Abort => "Abort",
        Content::Can { .. } => "Can",
        Content::Eth { .. } => "Eth",
        Content::Lin { .. } => "Lin",
        Content::LinResponse { .. } => "LinResponse",
        Content::Publish { .. } => "Publish",
        Content::Call { .. } => "Call",
        Content::Reply { .. } => "Reply",
        Content::Refuse { .. } => "Refuse",
    }
}

/// The name of a command, as `ReportError`.
#[tactic(auto, unfolding(crate::specs::Words::command_name))]
pub fn command_name(command: Command) -> &'static str
    ensures { result.now ≡ command_name command }
{
    match command {
        Command::Pause => "Pause",
        Command::Continue => "Continue",
        Command::Stop => "Stop",
        Command::ReportError => "ReportError",
        Command::Abort => "Abort",
    }
}
