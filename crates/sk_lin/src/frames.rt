//! Frames, and which of them a header brings.

ghost use Rattle.std.specs.Prelude.{◌≡◌, IsTrue, IfOk, OnOk, OnErr, []};
ghost use Rattle.std.specs.List.{list_any, position};
ghost use Rattle.sk_msg.specs.declared.bus.LinChecksum.TheVariants.{Unknown};
ghost use Rattle.sk_msg.specs.Rules.{is_sent};
ghost use Rattle.sk_lin.specs.Kept.{own, keep};
ghost use Rattle.sk_lin.specs.Lin as lin;
ghost use Rattle.sk_lin.specs.Answers.{Answer};

use crate::kept::{Kept, Source};
use crate::table::ResponseTable;
use sk_base::{Bytes, WantOfMemory};
use sk_msg::rules::is_sent;
use sk_msg::{LinChecksum, LinFrame, LinResponse, LinStatus};
use std::alloc::Global;

/// The identifier of the frame that puts a bus to sleep: that of a master's request in ISO 17987.
const SLEEP_ID: u8 = 0x3C;

/// The bytes of the frame that puts a bus to sleep, by ISO 17987 and LIN 2.x.
const SLEEP_BYTES: [u8; 8] = [0x00, 0xFF, 0xFF, 0xFF, 0xFF, 0xFF, 0xFF, 0xFF];

/// Who answers a header: of those that are kept nobody, the one at this index, or several.
#[derive(Clone, Copy, Debug)]
pub(crate) enum Answers {
    Nobody,
    One(usize),
    Several,
}

/// The frame that a header of this identifier brings, by those that are kept of it.
pub(crate) fn header_frame(alloc: Global, kept: &[Kept], id: u8) -> Result<LinFrame, WantOfMemory>
    ensures { IfOk result (λ frame. frame ≡ lin.frame_of id (lin.responders id kept.now)) }
{
    match who_answers(kept, id) {
        Answers::Nobody => frame_without(alloc, id, LinStatus::RxNoResponse),
        Answers::One(at) => frame_with(alloc, id, &kept[at].response),
        Answers::Several => frame_without(alloc, id, LinStatus::RxError),
    }
}

/// Keeps an own response that answers, and makes the frame that a header of its identifier then
/// brings. Both frames that it may be are made first, so that want of memory changes nothing.
pub(crate) fn keep_and_send(
    alloc: Global,
    kept: &mut ResponseTable,
    response: LinResponse,
) -> Result<LinFrame, WantOfMemory>
    requires { IsTrue (is_sent response.mode) }
    ensures frame { IfOk result (λ frame. frame ≡ lin.frame_of response.id (lin.responders response.id (keep (own response) kept.old))) }
    ensures kept { OnOk result (kept.new ≡ keep (own response) kept.old) }
    ensures same { OnErr result (kept.new ≡ kept.old) }
{
    let id = response.id;
    let alone = frame_with(alloc, id, &response)?;
    let disturbed = frame_without(alloc, id, LinStatus::RxError)?;
    let source = Source::Own;
    kept.keep(Kept { source, response })?;
    match who_answers(kept.of(id), id) {
        Answers::Nobody | Answers::One(_) => Ok(alone),
        Answers::Several => Ok(disturbed),
    }
}

/// Who answers a header of this identifier.
pub(crate) fn who_answers(kept: &[Kept], id: u8) -> Answers
    ensures { Answer id kept.now result }
{
    match first_responder(kept, id) {
        None => Answers::Nobody,
        Some(at) => {
            if has_responder(&kept[at + 1..], id) {
                Answers::Several
            } else {
                Answers::One(at)
            }
        }
    }
}

/// The index of the first of these that answers a header of this identifier.
fn first_responder(kept: &[Kept], id: u8) -> Option<usize>
    ensures { result ≡ position (lin.responds_to id) kept.now }
{
    kept.iter().position(|one| responds_to(one, id))
}

/// Whether one of these answers a header of this identifier.
fn has_responder(kept: &[Kept], id: u8) -> bool
    ensures { result ≡ list_any (lin.responds_to id) kept.now }
{
    kept.iter().any(|one| responds_to(one, id))
}

/// Whether it answers a header of this identifier.
fn responds_to(one: &Kept, id: u8) -> bool
    ensures { result ≡ lin.responds_to id one.now }
{
    one.response.id == id && is_sent(one.response.mode)
}

/// The frame that a header of this identifier brings where this response alone answers.
pub(crate) fn frame_with(
    alloc: Global,
    id: u8,
    response: &LinResponse,
) -> Result<LinFrame, WantOfMemory>
    ensures { IfOk result (λ frame. frame ≡ lin.answered id response.now) }
{
    Ok(LinFrame {
        id,
        checksum: response.checksum,
        status: LinStatus::RxOk,
        payload: response.payload.copy(alloc)?,
    })
}

/// A frame without bytes.
pub(crate) fn frame_without(
    alloc: Global,
    id: u8,
    status: LinStatus,
) -> Result<LinFrame, WantOfMemory>
    ensures { IfOk result (λ frame. frame ≡ record { id = id; checksum = Unknown; status = status; payload = [] }) }
{
    Ok(LinFrame {
        id,
        checksum: LinChecksum::Unknown,
        status,
        payload: short(alloc, &[])?,
    })
}

/// The frame that puts the bus to sleep.
pub(crate) fn sleep_frame(alloc: Global) -> Result<LinFrame, WantOfMemory>
    ensures { IfOk result (λ frame. frame ≡ lin.sleep_frame) }
{
    Ok(LinFrame {
        id: SLEEP_ID,
        checksum: LinChecksum::Classic,
        status: LinStatus::RxOk,
        payload: short(alloc, &SLEEP_BYTES)?,
    })
}

/// Whether the frame puts the bus to sleep.
#[tactic(auto, unfolding(crate::specs::Lin::is_sleep_frame))]
pub(crate) fn is_sleep_frame(frame: &LinFrame) -> bool
    ensures { result ≡ lin.is_sleep_frame frame.now }
{
    frame.id == SLEEP_ID
        && frame.status == LinStatus::RxOk
        && frame.payload.as_slice() == SLEEP_BYTES.as_slice()
}

/// Bytes of which there are few enough.
#[tactic(auto, unfolding(sk_base::specs::Ranges::is_payload))]
fn short(alloc: Global, bytes: &[u8]) -> Result<Bytes, WantOfMemory>
    ensures { IfOk result (λ made. made ≡ bytes.now) }
{
    match Bytes::new(alloc, bytes) {
        Ok(made) => Ok(made),
        Err(_) => Err(WantOfMemory),
    }
}
