//! Frames: the length of a body and the body, written, and found at the front of a stream.

ghost use Rattle.std.specs.Prelude.{◌≡◌, ℕ, List, ◌+◌, ◌^◌, ◌<◌, ◌≤◌, ◌++◌, length, take, drop, IfOk, OnOk, OnErr, IsTrue};
ghost use Rattle.std.specs.Int.{w32, to_le_bytes};
ghost use Rattle.sk_msg.specs.Rules.{is_message};
ghost use Rattle.sk_wire.specs.Grammar as grammar;
ghost use Rattle.sk_wire.specs.Faults.{announced};
ghost use Rattle.sk_wire.specs.Parts.{front, parts};
ghost use Rattle.sk_wire.specs.Seen.{seen, following, frames_parts};
ghost use Rattle.sk_wire.specs.Puts.{Puts};

use crate::fault::{ReadError, What, WireFault};
use crate::kinds::{put_body, read_body};
use crate::numbers::put_u32;
use sk_base::WantOfMemory;
use sk_base::limits::{LONGEST_BODY, SHORTEST_BODY};
use sk_msg::{Content, Message};
use std::alloc::Global;

/// How many bytes a length takes.
pub const LENGTH_BYTES: usize = 4;

/// What stands at the front of a stream.
#[derive(Drop)]
pub enum Front<'a> {
    /// Less than a message.
    Open,
    /// A message, and what is behind it.
    Whole(Message, &'a [u8]),
    /// Neither, whatever follows; the offset is counted from the front.
    Broken(WireFault),
}

/// The messages of a stream, and how it ends.
#[derive(Drop)]
pub struct Frames<'a> {
    /// The messages before its end, in order.
    pub messages: Vec<Message>,
    /// The open rest; empty with a fault.
    pub rest: &'a [u8],
    /// What stands behind the messages, with its offset in the whole stream; None where it is the
    /// open rest.
    pub fault: Option<WireFault>,
}

/// Writes a number over the four bytes at a place.
fn set_u32(to: &mut Vec<u8>, at: usize, n: u32)
    requires { at + 4 ≤ length to.old.items }
    ensures { to.new.items ≡ take at to.old.items ++ (to_le_bytes w32 n ++ drop (at + 4) to.old.items) }
{
    to[at..at + LENGTH_BYTES].copy_from_slice(&n.to_le_bytes());
}

/// Writes a frame; its length is filled in once the body stands.
fn put_frame(to: &mut Vec<u8>, content: &Content) -> Result<(), WantOfMemory>
    requires { IsTrue (is_message content.now) }
    ensures { Puts result to.old.items to.new.items (grammar.spelling content.now) }
{
    let start = to.len();
    put_u32(to, 0)?;
    put_body(to, content)?;
    let len = to.len() - start - LENGTH_BYTES;
    set_u32(to, start, len as u32);
    Ok(())
}

/// Appends the one spelling of the message, 6 to 8,196 bytes. After want of memory nothing has
/// changed.
pub fn encode(message: &Message, to: &mut Vec<u8>) -> Result<(), WantOfMemory>
    ensures ok { OnOk result (to.new.items ≡ to.old.items ++ grammar.spelling message.now) }
    ensures spells { grammar.Spells message.now (grammar.spelling message.now) }
    ensures size { OnOk result ((length to.old.items + 6 ≤ length to.new.items) × (length to.new.items ≤ length to.old.items + 8196)) }
    ensures same { OnErr result (to.new.items ≡ to.old.items) }
{
    let start = to.len();
    match put_frame(to, message.content()) {
        Ok(()) => Ok(()),
        Err(error) => {
            to.truncate(start);
            Err(error)
        }
    }
}

/// The length that the first four bytes say.
#[tactic(auto, unfolding(crate::specs::Faults::announced))]
pub fn announced_in(bytes: &[u8]) -> u32
    requires { 4 ≤ length bytes.now }
    ensures { result ≡ announced bytes.now }
{
    u32::from_le_bytes([bytes[0], bytes[1], bytes[2], bytes[3]])
}

/// What stands at the front of the bytes.
pub fn front_of<'a>(alloc: Global, bytes: &'a [u8]) -> Result<Front<'a>, WantOfMemory>
    ensures { IfOk result (λ found. front bytes.entry.now ≡ seen found) }
{
    if bytes.len() < LENGTH_BYTES {
        return Ok(Front::Open);
    }
    let announced = announced_in(bytes) as usize;
    if announced < SHORTEST_BODY {
        return Ok(Front::Broken(WireFault {
            at: 0,
            what: What::Short,
        }));
    }
    if announced > LONGEST_BODY {
        return Ok(Front::Broken(WireFault {
            at: 0,
            what: What::TooLong,
        }));
    }
    let (_, behind) = bytes.split_at(LENGTH_BYTES);
    if behind.len() < announced {
        return Ok(Front::Open);
    }
    let (body, rest) = behind.split_at(announced);
    match read_body(alloc, body) {
        Ok(content) => Ok(Front::Whole(Message::new(content), rest)),
        Err(error) => match error {
            ReadError::WantOfMemory => Err(WantOfMemory),
            ReadError::Fault(fault) => Ok(Front::Broken(WireFault {
                at: (LENGTH_BYTES + announced).saturating_sub(fault.left) as u64,
                what: fault.what,
            })),
        },
    }
}

/// The messages of bytes that have this offset in the stream, behind messages that were read
/// before.
pub fn frames_of<'a>(
    alloc: Global,
    before: Vec<Message>,
    at: u64,
    bytes: &'a [u8],
) -> Result<Frames<'a>, WantOfMemory>
    requires { at + length bytes.now < 2 ^ 64 }
    ensures { IfOk result (λ frames. frames_parts frames ≡ following before.items (parts at bytes.entry.now)) }
{
    let mut messages = before;
    let mut rest = bytes;
    loop {
        match front_of(alloc, rest)? {
            Front::Open => {
                return Ok(Frames {
                    messages,
                    rest,
                    fault: None,
                });
            }
            Front::Broken(fault) => {
                let passed = (bytes.len() - rest.len()) as u64;
                return Ok(Frames {
                    messages,
                    rest: &[],
                    fault: Some(WireFault {
                        at: at + passed + fault.at,
                        what: fault.what,
                    }),
                });
            }
            Front::Whole(message, behind) => {
                messages.push(message)?;
                rest = behind;
            }
        }
    }
}
