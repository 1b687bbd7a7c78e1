//! The controller.

ghost use Rattle.std.specs.Prelude.{◌≡◌, OnErr, is_ok};
ghost use Rattle.sk_can.specs.Can.{new_can, answer, moved, with_rate, can_baud, can_start, can_stop, can_reset, can_sleep, is_started, send_answer, is_can_id, is_can_length, is_let_through};

use crate::refused::{CanRefused, FrameRule};
use crate::state::{self, CanState};
use sk_msg::CanFrame;
use std::marker::Model;

/// A CAN controller: the state that it is in, and the baud rate that it was given last.
///
/// Contracts see both. The rate is kept and has no effect on any call.
#[derive(Debug, Drop)]
pub struct CanController {
    state: CanState,
    /// Bits per second.
    rate: Option<u32>,
}

impl Model for CanController {
    ghost use Rattle.sk_can.specs.Can.{Can};

    ghost Value = { Can };

    ghost view = { λ can. record { state = can.state; rate = can.rate } };
}

impl CanController {
    /// A controller in Uninit, without a baud rate.
    pub fn new() -> CanController
        ensures { result ≡ new_can }
    {
        CanController {
            state: CanState::Uninit,
            rate: None,
        }
    }

    /// The present state.
    pub fn state(&self) -> CanState
        ensures { result ≡ self.now.state }
    {
        self.state
    }

    /// Keeps this baud rate, in bits per second; in Uninit and Stopped alone.
    pub fn set_baud_rate(&mut self, rate: u32) -> Result<(), CanRefused>
        ensures answer { result ≡ answer (can_baud self.old.state) self.old.state }
        ensures after { self.new ≡ with_rate rate (can_baud self.old.state) self.old }
        ensures same { OnErr result (self.new ≡ self.old) }
    {
        self.go(state::after_baud(self.state))?;
        self.rate = Some(rate);
        Ok(())
    }

    /// Starts it, from every state but Started.
    pub fn start(&mut self) -> Result<(), CanRefused>
        ensures answer { result ≡ answer (can_start self.old.state) self.old.state }
        ensures after { self.new ≡ moved (can_start self.old.state) self.old }
        ensures same { OnErr result (self.new ≡ self.old) }
    {
        self.go(state::after_start(self.state))
    }

    /// Stops it, from Started and Sleep.
    pub fn stop(&mut self) -> Result<(), CanRefused>
        ensures answer { result ≡ answer (can_stop self.old.state) self.old.state }
        ensures after { self.new ≡ moved (can_stop self.old.state) self.old }
        ensures same { OnErr result (self.new ≡ self.old) }
    {
        self.go(state::after_stop(self.state))
    }

    /// Puts it back to Uninit, from every state. The baud rate stays.
    pub fn reset(&mut self) -> Result<(), CanRefused>
        ensures answer { result ≡ answer (can_reset self.old.state) self.old.state }
        ensures after { self.new ≡ moved (can_reset self.old.state) self.old }
        ensures same { OnErr result (self.new ≡ self.old) }
    {
        self.go(state::after_reset(self.state))
    }

    /// Puts it to sleep, from Stopped and Started.
    pub fn sleep(&mut self) -> Result<(), CanRefused>
        ensures answer { result ≡ answer (can_sleep self.old.state) self.old.state }
        ensures after { self.new ≡ moved (can_sleep self.old.state) self.old }
        ensures same { OnErr result (self.new ≡ self.old) }
    {
        self.go(state::after_sleep(self.state))
    }

    /// Lets the frame through, in Started alone and where it keeps both rules: it is one that a
    /// message may have then. The state is judged first, then the identifier, then the length.
    /// Sending it is the caller's.
    #[tactic(auto, unfolding(crate::specs::Can::send_answer, sk_msg::specs::Rules::is_can_frame))]
    pub fn send(&self, frame: &CanFrame) -> Result<(), CanRefused>
        ensures answer { result ≡ send_answer self.now.state frame.now }
        ensures exactly { is_ok result ≡ is_let_through self.now.state frame.now }
    {
        if !self.admits() {
            return Err(CanRefused::State(self.state));
        }
        if !has_valid_id(frame) {
            return Err(CanRefused::BadFrame(FrameRule::Identifier));
        }
        if !has_valid_length(frame) {
            return Err(CanRefused::BadFrame(FrameRule::Length));
        }
        Ok(())
    }

    /// Whether it is handed the frames of others: in Started alone.
    pub fn admits(&self) -> bool
        ensures { result ≡ is_started self.now.state }
    {
        self.state == CanState::Started
    }

    /// Goes to this state, or refuses with the present one where there is none.
    fn go(&mut self, to: Option<CanState>) -> Result<(), CanRefused>
        ensures answer { result ≡ answer to self.old.state }
        ensures after { self.new ≡ moved to self.old }
    {
        match to {
            Some(to) => {
                self.state = to;
                Ok(())
            }
            None => Err(CanRefused::State(self.state)),
        }
    }
}

/// Whether the identifier has 11 bits, or 29 where it is extended: the two forms of ISO 11898-1.
fn has_valid_id(frame: &CanFrame) -> bool
    ensures { result ≡ is_can_id frame.now.id frame.now.extended }
{
    let limit = if frame.extended { 1 << 29 } else { 1 << 11 };
    frame.id < limit
}

/// Whether there are 0 to 8 bytes; of CAN FD also one of the longer lengths of ISO 11898-1.
fn has_valid_length(frame: &CanFrame) -> bool
    ensures { result ≡ is_can_length frame.now.fd frame.now.payload }
{
    let len = frame.payload.as_slice().len();
    len <= 8 || frame.fd && matches!(len, 12 | 16 | 20 | 24 | 32 | 48 | 64)
}

#[cfg(test)]
mod tests;
