//! The controller.

ghost use Rattle.std.specs.Prelude.{◌≡◌, ◌≢◌, ◌⊎◌, true, false, None, Some, Err, IsTrue, IfOk, IfErr, OnOk, length, drop, ◌++◌, ◌≤◌};
ghost use Rattle.sk_msg.specs.Rules.{is_eth_frame};
ghost use Rattle.sk_eth.specs.Ethernet.{is_sendable, padded, refusal, AnswersReason, IsReason};

use crate::refused::EthRefused;
use sk_base::{Bytes, BytesFault};
use std::alloc::Global;
use std::marker::Model;

/// The shortest frame that is sent, in bytes: the head alone, two addresses and a type.
const SHORTEST: usize = 14;

/// The longest frame that is sent, in bytes: the most of IEEE 802.3 without a tag, with the check
/// sequence.
const LONGEST: usize = 1518;

/// A shorter frame is padded to so many bytes: the least of IEEE 802.3 without the check sequence.
const PADDED: usize = 60;

/// An Ethernet controller: active or inactive. Contracts see whether it is active.
#[derive(Debug, Drop)]
pub struct EthController {
    active: bool,
}

impl Model for EthController {
    ghost use Rattle.std.specs.Prelude.{Bool};

    ghost Value = { Bool };

    ghost view = { λ eth. eth.active };
}

impl EthController {
    /// An inactive controller.
    pub fn new() -> EthController
        ensures { result ≡ false }
    {
        EthController { active: false }
    }

    /// The link is up from now on.
    pub fn activate(&mut self)
        ensures { self.new ≡ true }
    {
        self.active = true;
    }

    /// The link is down from now on.
    pub fn deactivate(&mut self)
        ensures { self.new ≡ false }
    {
        self.active = false;
    }

    /// Whether it is handed the frames of others: while it is active.
    pub fn admits(&self) -> bool
        ensures { result ≡ self.now }
    {
        self.active
    }

    /// The frame as it is sent: with zeros behind it up to 60 bytes. Sending it is the caller's.
    /// An inactive controller refuses every frame; an active one those below 14 and above 1,518
    /// bytes, with their length.
    #[tactic(auto, using(crate::proofs::PadLaws::valid_sent), unfolding(crate::specs::Ethernet::refusal))]
    pub fn send(&self, alloc: Global, frame: &[u8]) -> Result<Bytes, EthRefused>
        ensures ok { IfOk result (λ sent. sent ≡ padded frame.now) }
        ensures accepted { OnOk result (refusal self.now frame.now ≡ None) }
        ensures valid { IfOk result (λ sent. IsTrue (is_eth_frame sent)) }

        // A reason against it is the answer, and besides there is want of memory alone.
        ensures refused { AnswersReason (refusal self.now frame.now) result }
        ensures only { IfErr result (λ reason. IsReason (refusal self.now frame.now) reason) }
    {
        if !self.active {
            return Err(EthRefused::ControllerInactive);
        }
        if !is_sendable(frame) {
            return Err(EthRefused::InvalidFrameFormat(frame.len()));
        }
        match pad(alloc, frame) {
            Ok(sent) => Ok(sent),
            Err(_) => Err(EthRefused::WantOfMemory),
        }
    }
}

/// Whether a frame of this length is sent.
#[tactic(auto, unfolding(crate::specs::Ethernet::is_sendable))]
fn is_sendable(frame: &[u8]) -> bool
    ensures { result ≡ is_sendable frame.now }
{
    SHORTEST <= frame.len() && frame.len() <= LONGEST
}

/// The frame with zeros behind it up to 60 bytes.
#[tactic(auto, using(crate::proofs::PadLaws::made_short, crate::proofs::PadLaws::made_long))]
fn pad(alloc: Global, frame: &[u8]) -> Result<Bytes, BytesFault>
    ensures { IfOk result (λ sent. sent ≡ padded frame.now) }
{
    if frame.len() >= PADDED {
        return Bytes::new(alloc, frame);
    }
    let mut sent = [0; PADDED];
    put_front(&mut sent, frame);
    Bytes::new(alloc, &sent)
}

/// Writes these bytes to the front.
fn put_front(to: &mut [u8], bytes: &[u8])
    requires { length bytes.now ≤ length to.old }
    ensures { to.new ≡ bytes.now ++ drop (length bytes.now) to.old }
{
    to[..bytes.len()].copy_from_slice(bytes);
}

#[cfg(test)]
mod tests;
