//! The rules on fields that no type of a field keeps, as tests.

ghost use Rattle.std.specs.Prelude.{◌≡◌};
ghost use Rattle.sk_msg.specs.Rules as rules;
ghost use Rattle.sk_msg.specs.Specs as specs;

use crate::bus::{LinChecksum, LinMode, LinStatus};
use crate::label::Label;
use crate::state::State;
use sk_base::Name;
use sk_base::limits::{
    HIGHEST_NUMBER, LONGEST_STEP_NS, MOST_LABELS, MOST_PARTICIPANTS, MOST_SERVICES,
};

/// Whether a step may be so long: 1 to 2^60 nanoseconds of virtual time.
#[tactic(auto, unfolding(crate::specs::Rules::is_step_size))]
pub fn is_step_size(ns: u64) -> bool
    ensures { result ≡ rules.is_step_size ns }
{
    1 <= ns && ns <= LONGEST_STEP_NS
}

/// Whether a message may have this mark: at most 2^63.
#[tactic(auto, unfolding(crate::specs::Rules::is_mark))]
pub fn is_mark(mark: u64) -> bool
    ensures { result ≡ rules.is_mark mark }
{
    mark <= HIGHEST_NUMBER
}

/// Whether a call may have this number: 1 to 2^63.
#[tactic(auto, unfolding(crate::specs::Rules::is_call))]
pub fn is_call(call: u64) -> bool
    ensures { result ≡ rules.is_call call }
{
    1 <= call && call <= HIGHEST_NUMBER
}

/// Whether an announced service may have this number: at most 63.
#[tactic(auto, unfolding(crate::specs::Rules::is_service_id))]
pub fn is_service_id(id: u32) -> bool
    ensures { result ≡ rules.is_service_id id }
{
    id < MOST_SERVICES
}

/// Whether a service may have so many labels: at most 16.
#[tactic(auto, unfolding(crate::specs::Specs::is_label_count))]
pub fn is_label_count(count: u8) -> bool
    ensures { result ≡ specs.is_label_count count }
{
    count as usize <= MOST_LABELS
}

/// Whether the key stands in none of these labels.
#[tactic(auto, unfolding(crate::specs::Specs::is_new_key))]
pub fn is_new_key(labels: &[Label], key: &Name) -> bool
    ensures { result ≡ specs.is_new_key labels.now key.now }
{
    for label in labels {
        if label.key.is(key) {
            return false;
        }
    }
    true
}

/// Whether a participant tells this state: any but Invalid.
#[tactic(auto, unfolding(crate::specs::Rules::is_told))]
pub fn is_told(state: State) -> bool
    ensures { result ≡ rules.is_told state }
{
    state.number() != 0
}

/// Whether so many participants may be required: 1 to 32.
#[tactic(auto, unfolding(crate::specs::Rules::is_required_count))]
pub fn is_required_count(count: u8) -> bool
    ensures { result ≡ rules.is_required_count count }
{
    1 <= count && count as u32 <= MOST_PARTICIPANTS
}

/// Whether the name stands among none of these.
#[tactic(auto, unfolding(crate::specs::Rules::is_new_name))]
pub fn is_new_name(names: &[Name], name: &Name) -> bool
    ensures { result ≡ rules.is_new_name names.now name.now }
{
    for other in names {
        if other.is(name) {
            return false;
        }
    }
    true
}

/// Whether a CAN frame may be so: its identifier is below 2^11, or below 2^29 where it is
/// extended; it has 0 to 8 bytes, and of CAN FD also 12, 16, 20, 24, 32, 48 or 64. The identifiers
/// of 11 or 29 bits and the lengths are those of ISO 11898-1.
#[tactic(auto, unfolding(crate::specs::Rules::is_can_frame))]
pub fn is_can_frame(id: u32, extended: bool, fd: bool, payload: &[u8]) -> bool
    ensures { result ≡ rules.is_can_frame id extended fd payload.now }
{
    let limit = if extended { 1 << 29 } else { 1 << 11 };
    let len = payload.len();
    id < limit && (len <= 8 || fd && matches!(len, 12 | 16 | 20 | 24 | 32 | 48 | 64))
}

/// Whether an Ethernet frame may be so long: 60 to 1,518 bytes. By IEEE 802.3 the shortest frame
/// has 60 bytes without the 4 of its check sequence, and the longest without a tag 1,518 with them.
/// Whether the check sequence is there isn't looked at.
#[tactic(auto, unfolding(crate::specs::Rules::is_eth_frame))]
pub fn is_eth_frame(payload: &[u8]) -> bool
    ensures { result ≡ rules.is_eth_frame payload.now }
{
    60 <= payload.len() && payload.len() <= 1518
}

/// Whether a LIN frame may have this identifier: at most 63, the six bits of ISO 17987 and LIN 2.x.
#[tactic(auto, unfolding(crate::specs::Rules::is_lin_id))]
pub fn is_lin_id(id: u8) -> bool
    ensures { result ≡ rules.is_lin_id id }
{
    id <= 63
}

/// Whether a LIN frame of this status carries bytes: of RxOk alone.
pub fn is_received(status: LinStatus) -> bool
    ensures { result ≡ rules.is_received status }
{
    match status {
        LinStatus::RxOk => true,
        LinStatus::RxError => false,
        LinStatus::RxNoResponse => false,
        LinStatus::Wakeup => false,
    }
}

/// Whether a LIN response of this mode carries bytes: of TxUnconditional alone.
pub fn is_sent(mode: LinMode) -> bool
    ensures { result ≡ rules.is_sent mode }
{
    match mode {
        LinMode::Unused => false,
        LinMode::Rx => false,
        LinMode::TxUnconditional => true,
    }
}

/// Whether the payload of LIN may be so: at most 8 bytes, the most of ISO 17987 and LIN 2.x; where
/// its status or mode carries none, no bytes, and the checksum is unknown.
#[tactic(auto, unfolding(crate::specs::Rules::is_lin_payload))]
pub fn is_lin_payload(carries: bool, checksum: LinChecksum, payload: &[u8]) -> bool
    ensures { result ≡ rules.is_lin_payload carries checksum payload.now }
{
    payload.len() <= 8 && (carries || is_unknown(checksum) && payload.is_empty())
}

/// Whether it isn't known how the checksum is made.
fn is_unknown(checksum: LinChecksum) -> bool
    ensures { result ≡ rules.is_unknown checksum }
{
    match checksum {
        LinChecksum::Unknown => true,
        LinChecksum::Classic => false,
        LinChecksum::Enhanced => false,
    }
}
