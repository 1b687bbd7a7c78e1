//! Bytes of variables in what is sent, and numbers in what is received.

ghost use Rattle.std.specs.Prelude.{◌≡◌, ◌++◌, slice_index, IfOk, IsTrue};
ghost use Rattle.std.specs.Int.{w64, to_le_bytes};
ghost use Rattle.sk_rules.specs.Scripts.{is_short_payload, appends_to};
ghost use Rattle.sk_machine.specs.Causes as causes;
ghost use Rattle.sk_machine.specs.Playing as spec;

use sk_base::{Bytes, BytesFault, WantOfMemory};
use sk_msg::{Action, CanFrame};
use std::alloc::Global;

/// The little-endian number of the first 8 bytes; where there are fewer, 0 stands for each that is
/// missing.
pub(crate) fn first_number(bytes: &[u8]) -> u64
    ensures { result ≡ causes.first_number bytes.now }
{
    u64::from_le_bytes([
        byte_at(bytes, 0),
        byte_at(bytes, 1),
        byte_at(bytes, 2),
        byte_at(bytes, 3),
        byte_at(bytes, 4),
        byte_at(bytes, 5),
        byte_at(bytes, 6),
        byte_at(bytes, 7),
    ])
}

/// The byte at this place, or 0 behind the last.
fn byte_at(bytes: &[u8], place: usize) -> u8
    ensures { result ≡ slice_index bytes.now place }
{
    bytes.get(place).copied().unwrap_or(0)
}

/// The action with the 8 bytes of a number behind its own, the least first.
pub(crate) fn extended(alloc: Global, action: &Action, number: u64) -> Result<Action, WantOfMemory>
    requires room { IsTrue (appends_to action.now) }
    ensures { IfOk result (λ longer. longer ≡ spec.extended (to_le_bytes w64 number) action.now) }
{
    match action {
        Action::CanSend(service, frame) => {
            Ok(Action::CanSend(*service, extended_frame(alloc, frame, number)?))
        }
        Action::EthSend(service, payload) => {
            Ok(Action::EthSend(*service, appended(alloc, payload, number)?))
        }
        Action::Publish(service, payload) => {
            Ok(Action::Publish(*service, appended(alloc, payload, number)?))
        }
        Action::Call(service, payload) => {
            Ok(Action::Call(*service, appended(alloc, payload, number)?))
        }
        _ => action.copy(alloc),
    }
}

/// The frame with the 8 bytes of a number behind its own.
fn extended_frame(alloc: Global, frame: &CanFrame, number: u64) -> Result<CanFrame, WantOfMemory>
    requires room { IsTrue (is_short_payload frame.now.payload) }
    ensures { IfOk result (λ longer. longer ≡ record frame.now { payload = frame.now.payload ++ to_le_bytes w64 number }) }
{
    Ok(CanFrame {
        id: frame.id,
        extended: frame.extended,
        fd: frame.fd,
        payload: appended(alloc, &frame.payload, number)?,
    })
}

/// The bytes with the 8 bytes of a number behind them, the least first.
#[tactic(auto, unfolding(sk_rules::specs::Scripts::is_short_payload, sk_base::specs::Ranges::is_payload))]
pub(crate) fn appended(alloc: Global, payload: &Bytes, number: u64) -> Result<Bytes, WantOfMemory>
    requires room { IsTrue (is_short_payload payload.now) }
    ensures { IfOk result (λ longer. longer ≡ payload.now ++ to_le_bytes w64 number) }
{
    let mut bytes = Vec::from_slice(alloc, payload.as_slice())?;
    bytes.extend_from_slice(&number.to_le_bytes())?;
    match Bytes::new(alloc, &bytes) {
        Ok(longer) => Ok(longer),
        Err(BytesFault::WantOfMemory) => Err(WantOfMemory),
        Err(BytesFault::TooLong(_)) => unreachable!(),
    }
}
