//! Choices: fields of one byte whose values are those of an enum, each read and beside it written,
//! in the order of the kinds that have them.

ghost use Rattle.std.specs.Prelude.{◌≡◌};
ghost use Rattle.sk_wire.specs.Reading.{Gives};
ghost use Rattle.sk_wire.specs.Kinds as kinds;
ghost use Rattle.sk_wire.specs.Puts.{Puts};

use crate::fault::ReadError;
use crate::numbers::{Cursor, bad_field, put_u8};
use sk_base::WantOfMemory;
use sk_msg::rules::is_told;
use sk_msg::{LabelKind, LinChecksum, LinMode, LinStatus, RefuseReason, Role, ServiceKind, State};

impl<'a> Cursor<'a> {
    /// What a participant is to its peers: the bits 1 coordinated and 2 synchronised, or 4 for a
    /// tool.
    #[tactic(auto, unfolding(crate::specs::Kinds::role))]
    pub fn role(&mut self) -> Result<Role, ReadError>
        ensures { Gives (λ role. (role, self.new)) result (kinds.role.at self.old) }
    {
        let left = self.left();
        match self.u8()? {
            0 => Ok(participant(false, false)),
            1 => Ok(participant(true, false)),
            2 => Ok(participant(false, true)),
            3 => Ok(participant(true, true)),
            4 => Ok(Role::Tool),
            _ => Err(bad_field(left)),
        }
    }
}

/// The role of a participant of the simulation.
fn participant(coordinated: bool, synchronised: bool) -> Role
    ensures { result ≡ Role.Participant coordinated synchronised }
{
    Role::Participant {
        coordinated,
        synchronised,
    }
}

/// Appends what a participant is to its peers.
#[tactic(auto, unfolding(crate::specs::Kinds::role))]
pub fn put_role(to: &mut Vec<u8>, role: Role) -> Result<(), WantOfMemory>
    ensures { Puts result to.old.items to.new.items (kinds.role.spelling role) }
{
    let bits = match role {
        Role::Participant {
            coordinated,
            synchronised,
        } => u8::from(coordinated) + 2 * u8::from(synchronised),
        Role::Tool => 4,
    };
    put_u8(to, bits)
}

impl<'a> Cursor<'a> {
    /// What a service is: 1 to 7.
    #[tactic(auto, unfolding(crate::specs::Kinds::service_kind))]
    pub fn service_kind(&mut self) -> Result<ServiceKind, ReadError>
        ensures { Gives (λ x. (x, self.new)) result (kinds.service_kind.at self.old) }
    {
        let left = self.left();
        match self.u8()? {
            1 => Ok(ServiceKind::Can),
            2 => Ok(ServiceKind::Ethernet),
            3 => Ok(ServiceKind::Lin),
            4 => Ok(ServiceKind::Publisher),
            5 => Ok(ServiceKind::Subscriber),
            6 => Ok(ServiceKind::Server),
            7 => Ok(ServiceKind::Client),
            _ => Err(bad_field(left)),
        }
    }
}

/// Appends what a service is.
#[tactic(auto, unfolding(crate::specs::Kinds::service_kind))]
pub fn put_service_kind(to: &mut Vec<u8>, x: ServiceKind) -> Result<(), WantOfMemory>
    ensures { Puts result to.old.items to.new.items (kinds.service_kind.spelling x) }
{
    let number = match x {
        ServiceKind::Can => 1,
        ServiceKind::Ethernet => 2,
        ServiceKind::Lin => 3,
        ServiceKind::Publisher => 4,
        ServiceKind::Subscriber => 5,
        ServiceKind::Server => 6,
        ServiceKind::Client => 7,
    };
    put_u8(to, number)
}

impl<'a> Cursor<'a> {
    /// Whether the other side needs a label: 0 no, 1 yes.
    #[tactic(auto, unfolding(crate::specs::Kinds::label_kind))]
    pub fn label_kind(&mut self) -> Result<LabelKind, ReadError>
        ensures { Gives (λ x. (x, self.new)) result (kinds.label_kind.at self.old) }
    {
        let left = self.left();
        match self.u8()? {
            0 => Ok(LabelKind::Optional),
            1 => Ok(LabelKind::Mandatory),
            _ => Err(bad_field(left)),
        }
    }
}

/// Appends whether the other side needs a label.
#[tactic(auto, unfolding(crate::specs::Kinds::label_kind))]
pub fn put_label_kind(to: &mut Vec<u8>, x: LabelKind) -> Result<(), WantOfMemory>
    ensures { Puts result to.old.items to.new.items (kinds.label_kind.spelling x) }
{
    let number = match x {
        LabelKind::Optional => 0,
        LabelKind::Mandatory => 1,
    };
    put_u8(to, number)
}

impl<'a> Cursor<'a> {
    /// A state that a participant tells: 10 to 120, not Invalid.
    #[tactic(auto, unfolding(crate::specs::Kinds::state))]
    pub fn state(&mut self) -> Result<State, ReadError>
        ensures { Gives (λ x. (x, self.new)) result (kinds.state.at self.old) }
    {
        let left = self.left();
        match State::from_number(self.u8()?) {
            Some(state) => {
                if is_told(state) {
                    Ok(state)
                } else {
                    Err(bad_field(left))
                }
            }
            None => Err(bad_field(left)),
        }
    }
}

/// Appends the state of a participant.
#[tactic(auto, unfolding(crate::specs::Kinds::state))]
pub fn put_state(to: &mut Vec<u8>, state: State) -> Result<(), WantOfMemory>
    ensures { Puts result to.old.items to.new.items (kinds.state.spelling state) }
{
    put_u8(to, state.number())
}

impl<'a> Cursor<'a> {
    /// Whether a CAN frame is extended, bit 1, and whether it is of CAN FD, bit 2.
    #[tactic(auto, unfolding(crate::specs::Kinds::can_flags))]
    pub fn can_flags(&mut self) -> Result<(bool, bool), ReadError>
        ensures { Gives (λ x. (x, self.new)) result (kinds.can_flags.at self.old) }
    {
        let left = self.left();
        match self.u8()? {
            0 => Ok((false, false)),
            1 => Ok((true, false)),
            2 => Ok((false, true)),
            3 => Ok((true, true)),
            _ => Err(bad_field(left)),
        }
    }
}

/// Appends whether a CAN frame is extended, and whether it is of CAN FD.
#[tactic(auto, unfolding(crate::specs::Kinds::can_flags))]
pub fn put_can_flags(to: &mut Vec<u8>, extended: bool, fd: bool) -> Result<(), WantOfMemory>
    ensures { Puts result to.old.items to.new.items (kinds.can_flags.spelling (kinds.flags extended fd)) }
{
    put_u8(to, u8::from(extended) + 2 * u8::from(fd))
}

impl<'a> Cursor<'a> {
    /// How a LIN checksum is made: 0 to 2.
    #[tactic(auto, unfolding(crate::specs::Kinds::lin_checksum))]
    pub fn lin_checksum(&mut self) -> Result<LinChecksum, ReadError>
        ensures { Gives (λ x. (x, self.new)) result (kinds.lin_checksum.at self.old) }
    {
        let left = self.left();
        match self.u8()? {
            0 => Ok(LinChecksum::Unknown),
            1 => Ok(LinChecksum::Classic),
            2 => Ok(LinChecksum::Enhanced),
            _ => Err(bad_field(left)),
        }
    }
}

/// Appends how a LIN checksum is made.
#[tactic(auto, unfolding(crate::specs::Kinds::lin_checksum))]
pub fn put_lin_checksum(to: &mut Vec<u8>, x: LinChecksum) -> Result<(), WantOfMemory>
    ensures { Puts result to.old.items to.new.items (kinds.lin_checksum.spelling x) }
{
    let number = match x {
        LinChecksum::Unknown => 0,
        LinChecksum::Classic => 1,
        LinChecksum::Enhanced => 2,
    };
    put_u8(to, number)
}

impl<'a> Cursor<'a> {
    /// What became of a LIN frame: 0 to 3.
    #[tactic(auto, unfolding(crate::specs::Kinds::lin_status))]
    pub fn lin_status(&mut self) -> Result<LinStatus, ReadError>
        ensures { Gives (λ x. (x, self.new)) result (kinds.lin_status.at self.old) }
    {
        let left = self.left();
        match self.u8()? {
            0 => Ok(LinStatus::RxOk),
            1 => Ok(LinStatus::RxError),
            2 => Ok(LinStatus::RxNoResponse),
            3 => Ok(LinStatus::Wakeup),
            _ => Err(bad_field(left)),
        }
    }
}

/// Appends what became of a LIN frame.
#[tactic(auto, unfolding(crate::specs::Kinds::lin_status))]
pub fn put_lin_status(to: &mut Vec<u8>, x: LinStatus) -> Result<(), WantOfMemory>
    ensures { Puts result to.old.items to.new.items (kinds.lin_status.spelling x) }
{
    let number = match x {
        LinStatus::RxOk => 0,
        LinStatus::RxError => 1,
        LinStatus::RxNoResponse => 2,
        LinStatus::Wakeup => 3,
    };
    put_u8(to, number)
}

impl<'a> Cursor<'a> {
    /// What a LIN controller does at a header: 0 to 2.
    #[tactic(auto, unfolding(crate::specs::Kinds::lin_mode))]
    pub fn lin_mode(&mut self) -> Result<LinMode, ReadError>
        ensures { Gives (λ x. (x, self.new)) result (kinds.lin_mode.at self.old) }
    {
        let left = self.left();
        match self.u8()? {
            0 => Ok(LinMode::Unused),
            1 => Ok(LinMode::Rx),
            2 => Ok(LinMode::TxUnconditional),
            _ => Err(bad_field(left)),
        }
    }
}

/// Appends what a LIN controller does at a header.
#[tactic(auto, unfolding(crate::specs::Kinds::lin_mode))]
pub fn put_lin_mode(to: &mut Vec<u8>, x: LinMode) -> Result<(), WantOfMemory>
    ensures { Puts result to.old.items to.new.items (kinds.lin_mode.spelling x) }
{
    let number = match x {
        LinMode::Unused => 0,
        LinMode::Rx => 1,
        LinMode::TxUnconditional => 2,
    };
    put_u8(to, number)
}

impl<'a> Cursor<'a> {
    /// Why a Hello was refused: 1 to 3.
    #[tactic(auto, unfolding(crate::specs::Kinds::reason))]
    pub fn reason(&mut self) -> Result<RefuseReason, ReadError>
        ensures { Gives (λ x. (x, self.new)) result (kinds.reason.at self.old) }
    {
        let left = self.left();
        match self.u8()? {
            1 => Ok(RefuseReason::NameTaken),
            2 => Ok(RefuseReason::Full),
            3 => Ok(RefuseReason::Late),
            _ => Err(bad_field(left)),
        }
    }
}

/// Appends why a Hello was refused.
#[tactic(auto, unfolding(crate::specs::Kinds::reason))]
pub fn put_reason(to: &mut Vec<u8>, x: RefuseReason) -> Result<(), WantOfMemory>
    ensures { Puts result to.old.items to.new.items (kinds.reason.spelling x) }
{
    let number = match x {
        RefuseReason::NameTaken => 1,
        RefuseReason::Full => 2,
        RefuseReason::Late => 3,
    };
    put_u8(to, number)
}
