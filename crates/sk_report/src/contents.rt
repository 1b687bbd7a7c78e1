//! What a report shows of a message.

ghost use Rattle.std.specs.Prelude.{◌≡◌, IfOk};
ghost use Rattle.std.specs.Option.{option_map};
ghost use Rattle.std.specs.String.{string_bytes};
ghost use Rattle.sk_report.specs.Contents.{content_text, is_shown, hex_text, can_flags, status_number};

use sk_base::{Bytes, WantOfMemory};
use sk_msg::{Content, LinStatus};
use std::alloc::Global;

/// What a report shows of a message, or None where it is of a kind that isn't shown.
#[tactic(auto, unfolding(crate::specs::Contents::content_text))]
pub fn content_text(alloc: Global, content: &Content) -> Result<Option<String>, WantOfMemory>
    ensures { IfOk result (λ text. option_map string_bytes text ≡ content_text content.now) }
{
    match content {
        Content::Can { frame, .. } => {
            let id = frame.id;
            let flags = can_flags(frame.extended, frame.fd);
            let hex = hex_text(alloc, &frame.payload)?;
            Ok(Some(format!(in alloc; "can {id} {flags} {hex}")?))
        }
        Content::Eth { payload, .. } => {
            let hex = hex_text(alloc, payload)?;
            Ok(Some(format!(in alloc; "eth {hex}")?))
        }
        Content::Lin { frame, .. } => {
            let id = frame.id;
            let status = status_number(frame.status);
            let hex = hex_text(alloc, &frame.payload)?;
            Ok(Some(format!(in alloc; "lin {id} {status} {hex}")?))
        }
        Content::Publish { payload, .. } => {
            let hex = hex_text(alloc, payload)?;
            Ok(Some(format!(in alloc; "pub {hex}")?))
        }
        Content::Call { call, payload, .. } => {
            let hex = hex_text(alloc, payload)?;
            Ok(Some(format!(in alloc; "call {call} {hex}")?))
        }
        Content::Reply { call, payload, .. } => {
            let hex = hex_text(alloc, payload)?;
            Ok(Some(format!(in alloc; "reply {call} {hex}")?))
        }
        Content::Hello { .. }
        | Content::Leave
        | Content::NextStep { .. }
        | Content::ServiceAdd { .. }
        | Content::ServicesEnd
        | Content::Status { .. }
        | Content::Workflow { .. }
        | Content::Abort
        | Content::Refuse { .. } => Ok(None),
        Content::LinResponse { .. } => Ok(None),
    }
}

/// Whether a report shows it.
#[tactic(auto, unfolding(crate::specs::Contents::is_shown, crate::specs::Contents::content_text))]
pub fn is_shown(content: &Content) -> bool
    ensures { result ≡ is_shown content.now }
{
    match content {
        Content::Can { .. }
        | Content::Eth { .. }
        | Content::Lin { .. }
        | Content::Publish { .. }
        | Content::Call { .. }
        | Content::Reply { .. } => true,
        Content::Hello { .. }
        | Content::Leave
        | Content::NextStep { .. }
        | Content::ServiceAdd { .. }
        | Content::ServicesEnd
        | Content::Status { .. }
        | Content::Workflow { .. }
        | Content::Abort
        | Content::Refuse { .. } => false,
        Content::LinResponse { .. } => false,
    }
}

/// The bytes in lower-case hexadecimal, or `-` where there are none.
#[tactic(auto, unfolding(crate::specs::Contents::hex_text))]
fn hex_text(alloc: Global, bytes: &Bytes) -> Result<String, WantOfMemory>
    ensures { IfOk result (λ text. string_bytes text ≡ hex_text bytes.now) }
{
    let bytes = bytes.as_slice();
    if bytes.is_empty() {
        Ok(String::from_str(alloc, "-")?)
    } else {
        Ok(hex::encode(alloc, bytes)?)
    }
}

/// 1 where a CAN frame is extended and 2 where it is CAN FD, added.
#[tactic(auto, unfolding(crate::specs::Contents::can_flags))]
fn can_flags(extended: bool, fd: bool) -> u8
    ensures { result ≡ can_flags extended fd }
{
    u8::from(extended) + 2 * u8::from(fd)
}

/// The number of a LIN status.
#[tactic(auto, unfolding(crate::specs::Contents::status_number))]
fn status_number(status: LinStatus) -> u8
    ensures { result ≡ status_number status }
{
    match status {
        LinStatus::RxOk => 0,
        LinStatus::RxError => 1,
        LinStatus::RxNoResponse => 2,
        LinStatus::Wakeup => 3,
    }
}
