//! What a decoder finds in a stream.

use sk_base::WantOfMemory;
use sk_wire::{Decoder, WireFault, encode};
use std::alloc::Global;

/// More bytes than any stream of the tables has. A longer one is refused.
const LONGEST: usize = 100_000;

/// What was found so far.
#[derive(Drop)]
struct Findings {
    alloc: Global,
    decoder: Decoder,
    messages: usize,
    fault: Option<WireFault>,
    /// The copies of the messages, as they are written.
    spelling: Vec<u8>,
}

/// What is found in a stream whose pieces end there: the number of messages, and the fault or the
/// length of the open rest. Behind it what should not be: that the messages are written otherwise,
/// or that other pieces give something else.
pub fn read(alloc: Global, stream: &[u8], ends: &[usize]) -> Result<String, WantOfMemory> {
    let mut findings = Findings::new(alloc);
    let mut start = 0;
    for end in ends {
        findings.feed(stream.get(start..*end).unwrap_or(&[]))?;
        start = *end;
    }
    let mut answer = findings.text()?;
    if !findings.is_spelled_so(stream) {
        answer.push_str(", spelled otherwise")?;
    }
    if !is_same_in_pieces(alloc, stream, &findings)? {
        answer.push_str(", otherwise in other pieces")?;
    }
    Ok(answer)
}

/// The contents of the messages in a stream.
pub fn show(alloc: Global, stream: &[u8]) -> Result<String, WantOfMemory> {
    if stream.len() > LONGEST {
        return Err(WantOfMemory);
    }
    let fed = Decoder::new(alloc).feed(stream)?;
    let mut answer = String::new(alloc);
    for message in &fed.messages {
        let content = message.content();
        answer.push_str(format!(in alloc; "{content:?}")?.as_str())?;
    }
    Ok(answer)
}

impl Findings {
    /// Nothing was fed.
    fn new(alloc: Global) -> Findings {
        Findings {
            alloc,
            decoder: Decoder::new(alloc),
            messages: 0,
            fault: None,
            spelling: Vec::new(alloc),
        }
    }

    /// Feeds the next piece.
    fn feed(&mut self, piece: &[u8]) -> Result<(), WantOfMemory> {
        if self.decoder.fed() > LONGEST as u64 || piece.len() > LONGEST {
            return Err(WantOfMemory);
        }
        let fed = self.decoder.feed(piece)?;
        for message in &fed.messages {
            encode(&message.copy(self.alloc)?, &mut self.spelling)?;
            self.messages = self.messages.saturating_add(1);
        }
        self.fault = fed.fault;
        Ok(())
    }

    /// Whether the same was found.
    fn is_same(&self, other: &Findings) -> bool {
        self.messages == other.messages
            && self.decoder.rest() == other.decoder.rest()
            && self.fault == other.fault
            && self.spelling == other.spelling
    }

    /// Whether the messages stand in this stream as they are written, and nothing else is in front
    /// of the open rest.
    fn is_spelled_so(&self, stream: &[u8]) -> bool {
        let read = self.spelling.len().saturating_add(self.decoder.rest());
        stream.starts_with(&self.spelling) && (self.fault.is_some() || read == stream.len())
    }

    fn text(&self) -> Result<String, WantOfMemory> {
        let messages = self.messages;
        let open = self.decoder.rest();
        Ok(match self.fault {
            None => format!(in self.alloc; "{messages} messages, {open} bytes open")?,
            Some(WireFault { at, what }) => {
                format!(in self.alloc; "{messages} messages, {what:?} at {at}")?
            }
        })
    }
}

/// Whether a stream gives these findings in pieces of one byte, and cut in two anywhere; and what
/// its front gives is spelled so.
fn is_same_in_pieces(
    alloc: Global,
    stream: &[u8],
    findings: &Findings,
) -> Result<bool, WantOfMemory> {
    let mut bytewise = Findings::new(alloc);
    for piece in stream.chunks(1) {
        bytewise.feed(piece)?;
    }
    let mut same = bytewise.is_same(findings);
    for at in 0..stream.len() {
        let (front, back) = stream.split_at(at);
        let mut cut = Findings::new(alloc);
        cut.feed(front)?;
        same = same && cut.is_spelled_so(front);
        cut.feed(back)?;
        same = same && cut.is_same(findings);
    }
    Ok(same)
}
