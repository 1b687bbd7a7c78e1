//! A decoder of a stream that comes in pieces.

ghost use Rattle.std.specs.Prelude.{◌≡◌, ◌⊎◌, ℕ, List, ◌+◌, ◌-◌, ◌^◌, ◌<◌, ◌≤◌, ◌++◌, [], length, take, None, IfOk, OnOk, OnErr, IsTrue};
ghost use Rattle.sk_wire.specs.Stream.{Announces, is_open};
ghost use Rattle.sk_wire.specs.Faults.{announced};
ghost use mathlib.Core.List.{IsPrefix};
ghost use Rattle.sk_wire.specs.Parts.{parts, messages};
ghost use Rattle.sk_wire.specs.Seen.{following};
ghost use Rattle.sk_wire.specs.Fed.{fed_parts};
ghost use Rattle.sk_wire.specs.Feeding.{Feeds, GoesOn, fed_with};

use crate::fault::WireFault;
use crate::frames::{Front, LENGTH_BYTES, announced_in, frames_of, front_of};
use sk_base::WantOfMemory;
use sk_base::limits::{LONGEST_BODY, SHORTEST_BODY};
use sk_msg::Message;
use std::alloc::{AllocError, Global};
use std::marker::Model;

/// What one piece gave.
#[derive(Drop)]
pub struct Fed {
    /// The messages that are whole now, in order.
    pub messages: Vec<Message>,
    /// The fault behind them. Once there is one, every later piece gives it again.
    pub fault: Option<WireFault>,
}

/// Reads a stream of messages that comes in pieces, cut anywhere.
///
/// A piece is read where it lies, and only the open rest at its end is kept: so each byte is
/// looked at a constant number of times. Contracts see what waits: the open rest, how many bytes
/// were fed, and the fault.
#[derive(Drop)]
pub struct Decoder {
    alloc: Global,
    buffer: Vec<u8>,
    fed: u64,
    fault: Option<WireFault>,
}

impl Model for Decoder {
    ghost use Rattle.sk_wire.specs.Feeding.{Waiting, IsWaiting};

    ghost Value = { Waiting };

    ghost view = { λ d. record { rest = d.buffer.items; fed = d.fed; fault = d.fault } };

    ghost invariant = { λ d. IsWaiting (record { rest = d.buffer.items; fed = d.fed; fault = d.fault }) };
}

impl Decoder {
    /// A decoder before the first byte.
    #[tactic(auto, unfolding(crate::specs::Parts::parts))]
    pub fn new(alloc: Global) -> Decoder
        ensures value { result ≡ record { rest = []; fed = 0; fault = None } }
        ensures stream { result ≡ fed_with [] }
    {
        Decoder {
            alloc,
            buffer: Vec::new(alloc),
            fed: 0,
            fault: None,
        }
    }

    /// How many bytes of the open rest are kept; 0 behind a fault.
    pub fn rest(&self) -> usize
        ensures { result ≡ length self.now.rest }
    {
        self.buffer.len()
    }

    /// How many bytes were fed in all.
    pub fn fed(&self) -> u64
        ensures { result ≡ self.now.fed }
    {
        self.fed
    }

    /// The fault of the stream so far.
    pub fn fault(&self) -> Option<WireFault>
        ensures { result ≡ self.now.fault }
    {
        self.fault
    }

    /// Takes the next piece of the stream, where fewer than 2^63 bytes are then fed in all. It
    /// answers the messages that the piece makes whole, and the fault behind them, if any; behind a
    /// fault nothing is read. After want of memory nothing has changed.
    #[tactic(auto, using(crate::proofs::WholeLaws::goes_on, crate::proofs::WholeLaws::messages_grow))]
    pub fn feed(&mut self, piece: &[u8]) -> Result<Fed, WantOfMemory>
        requires { self.old.fed + length piece.now < 2 ^ 63 }
        ensures read { IfOk result (λ fed. Feeds self.old piece.now fed.messages.items fed.fault self.new) }
        ensures stream { IfOk result (λ fed. GoesOn self.old piece.now fed.messages.items fed.fault self.new) }
        ensures grows { (b : List ℕ) → IsPrefix (messages b) (messages (b ++ piece.now)) }
        ensures fed { OnOk result (self.new.fed ≡ self.old.fed + length piece.now) }
        ensures same { OnErr result (self.new ≡ self.old) }
    {
        if let Some(fault) = self.fault {
            self.fed += piece.len() as u64;
            return Ok(Fed {
                messages: Vec::new(self.alloc),
                fault: Some(fault),
            });
        }
        let before = self.buffer.len();
        match read_more(self.alloc, &mut self.buffer, self.fed, piece) {
            Ok(fed) => {
                self.fed += piece.len() as u64;
                self.fault = fed.fault;
                Ok(fed)
            }
            Err(error) => {
                self.buffer.truncate(before);
                Err(error)
            }
        }
    }
}

/// Reads on behind the open rest in the buffer, which came at the end of the bytes fed so far.
/// After want of memory the buffer still begins with that rest.
fn read_more(
    alloc: Global,
    buffer: &mut Vec<u8>,
    fed: u64,
    piece: &[u8],
) -> Result<Fed, WantOfMemory>
    requires room { fed + length piece.now < 2 ^ 64 }
    requires rest { IsTrue (is_open buffer.old.items) }
    requires within { length buffer.old.items ≤ fed }
    ensures read { IfOk result (λ f. parts (fed - length buffer.old.items) (buffer.old.items ++ piece.now) ≡ fed_parts f buffer.new.items) }
    ensures kept { OnErr result (take (length buffer.old.items) buffer.new.items ≡ buffer.old.items) }
{
    if buffer.is_empty() {
        read_fresh(alloc, buffer, fed, piece, Vec::new(alloc))
    } else {
        read_on(alloc, buffer, fed, piece)
    }
}

/// Reads a piece where it lies, behind messages that were read before, and keeps its open rest.
fn read_fresh(
    alloc: Global,
    buffer: &mut Vec<u8>,
    at: u64,
    piece: &[u8],
    before: Vec<Message>,
) -> Result<Fed, WantOfMemory>
    requires { at + length piece.now < 2 ^ 64 }
    ensures read { IfOk result (λ f. fed_parts f buffer.new.items ≡ following before.items (parts at piece.now)) }
    ensures same { OnErr result (buffer.new.items ≡ buffer.old.items) }
{
    let frames = frames_of(alloc, before, at, piece)?;
    let kept = Vec::from_slice(alloc, frames.rest)?;
    *buffer = kept;
    Ok(Fed {
        messages: frames.messages,
        fault: frames.fault,
    })
}

/// Reads the message that begins in the buffer, and then the rest of the piece where it lies.
fn read_on(alloc: Global, buffer: &mut Vec<u8>, fed: u64, piece: &[u8]) -> Result<Fed, WantOfMemory>
    requires room { fed + length piece.now < 2 ^ 64 }
    requires rest { IsTrue (is_open buffer.old.items) }
    requires within { length buffer.old.items ≤ fed }
    ensures read { IfOk result (λ f. parts (fed - length buffer.old.items) (buffer.old.items ++ piece.now) ≡ fed_parts f buffer.new.items) }
    ensures kept { OnErr result (take (length buffer.old.items) buffer.new.items ≡ buffer.old.items) }
{
    let start = fed - buffer.len() as u64;
    let used = fill(buffer, piece)?;
    let (_, behind) = piece.split_at(used);
    match front_of(alloc, buffer)? {
        Front::Open => Ok(Fed {
            messages: Vec::new(alloc),
            fault: None,
        }),
        Front::Broken(fault) => {
            buffer.clear();
            Ok(Fed {
                messages: Vec::new(alloc),
                fault: Some(WireFault {
                    at: start + fault.at,
                    what: fault.what,
                }),
            })
        }
        Front::Whole(message, _) => {
            let mut first = Vec::new(alloc);
            first.push(message)?;
            read_fresh(alloc, buffer, fed + used as u64, behind, first)
        }
    }
}

/// Fills the buffer from the piece until its first message is whole, and says how many bytes it
/// took.
fn fill(buffer: &mut Vec<u8>, piece: &[u8]) -> Result<usize, AllocError>
    requires { IsTrue (is_open buffer.old.items) }
    ensures used { IfOk result (λ n. (n ≤ length piece.now) × (buffer.new.items ≡ buffer.old.items ++ take n piece.now)) }
    // No byte is taken that isn't of the first message.
    ensures most { OnOk result (Announces buffer.new.items → length buffer.new.items ≤ 4 + announced buffer.new.items) }
    ensures all { IfOk result (λ n. IsTrue (is_open buffer.new.items) → n ≡ length piece.now) }
    ensures kept { OnErr result (take (length buffer.old.items) buffer.new.items ≡ buffer.old.items) }
{
    let head = fill_to(buffer, LENGTH_BYTES, piece)?;
    if buffer.len() < LENGTH_BYTES {
        return Ok(head);
    }
    let announced = announced_in(buffer) as usize;
    if announced < SHORTEST_BODY || announced > LONGEST_BODY {
        return Ok(head);
    }
    let (_, behind) = piece.split_at(head);
    let more = fill_to(buffer, LENGTH_BYTES + announced, behind)?;
    Ok(head + more)
}

/// Fills the buffer from the piece up to a length, and says how many bytes it took.
fn fill_to(buffer: &mut Vec<u8>, len: usize, piece: &[u8]) -> Result<usize, AllocError>
    ensures used { IfOk result (λ n. (n ≤ length piece.now) × (buffer.new.items ≡ buffer.old.items ++ take n piece.now)) }
    ensures most { IfOk result (λ n. (length buffer.new.items ≤ len) ⊎ (n ≡ 0)) }
    ensures all { IfOk result (λ n. length buffer.new.items < len → n ≡ length piece.now) }
    ensures same { OnErr result (buffer.new.items ≡ buffer.old.items) }
{
    let missing = len.saturating_sub(buffer.len()).min(piece.len());
    let (taken, _) = piece.split_at(missing);
    buffer.extend_from_slice(taken)?;
    Ok(missing)
}
