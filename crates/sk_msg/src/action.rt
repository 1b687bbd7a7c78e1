//! What a callback may ask for.

ghost use Rattle.std.specs.Prelude.{◌≡◌, IfOk};

use crate::bus::{CanFrame, LinResponse, LinRole};
use crate::command::Command;
use sk_base::{Bytes, WantOfMemory};
use std::alloc::Global;

/// One thing that an app asks for in a callback: a call of an own controller, something to send, or
/// a command to itself.
///
/// The first number is that of the own service, 0 to 63. Any value may be asked for: whether such a
/// service is there, its state allows the action and what is sent keeps its rules is judged when
/// the action is carried out, and the answer says it.
#[derive(Debug, Drop)]
pub enum Action {
    /// Sets the baud rate of a CAN controller, the second number, in bit/s.
    CanBaud(u32, u32),
    /// Starts a CAN controller.
    CanStart(u32),
    /// Stops a CAN controller.
    CanStop(u32),
    /// Takes a CAN controller back to where it began.
    CanReset(u32),
    /// Lets a CAN controller sleep.
    CanSleep(u32),
    /// Sends a frame by a CAN controller.
    CanSend(u32, CanFrame),
    /// Brings the link of an Ethernet controller up.
    EthActivate(u32),
    /// Takes the link of an Ethernet controller down.
    EthDeactivate(u32),
    /// Sends a frame of 14 to 1,518 bytes by an Ethernet controller, padded with zeros to 60 bytes.
    EthSend(u32, Bytes),
    /// Makes a LIN controller master or slave of its bus.
    LinInit(u32, LinRole),
    /// Says how a LIN controller answers a header from now on.
    LinSetResponse(u32, LinResponse),
    /// Sends the header of this identifier, 0 to 63, by a LIN controller that is master.
    LinHeader(u32, u8),
    /// Sets the response of a LIN controller that is master, and sends the header for it.
    LinSendFrame(u32, LinResponse),
    /// Sends the bus of a LIN controller that is master to sleep.
    LinSleep(u32),
    /// Wakes the bus of a LIN controller.
    LinWakeup(u32),
    /// Publishes these bytes by a publisher.
    Publish(u32, Bytes),
    /// Calls by a client, with these bytes as arguments.
    Call(u32, Bytes),
    /// Answers a call by a server. The call is named by who made it.
    Submit {
        /// The number of the own server.
        service: u32,
        /// The number of the participant that called.
        peer: u32,
        /// The number of the client there.
        client: u32,
        /// The call's number at its client, 1 to 2^63.
        call: u64,
        /// The result.
        payload: Bytes,
    },
    /// Asks a command of the own participant.
    Ask(Command),
    /// Asks Pause of the own participant. Where it is accepted it goes on by itself after so many
    /// turns, at least 1.
    PauseFor(u32),
}

impl Action {
    /// The same action again.
    pub fn copy(&self, alloc: Global) -> Result<Action, WantOfMemory>
        ensures { IfOk result (λ copy. copy ≡ self.now) }
    {
        Ok(match self {
            Action::CanBaud(service, rate) => Action::CanBaud(*service, *rate),
            Action::CanStart(service) => Action::CanStart(*service),
            Action::CanStop(service) => Action::CanStop(*service),
            Action::CanReset(service) => Action::CanReset(*service),
            Action::CanSleep(service) => Action::CanSleep(*service),
            Action::CanSend(service, frame) => Action::CanSend(*service, frame.copy(alloc)?),
            Action::EthActivate(service) => Action::EthActivate(*service),
            Action::EthDeactivate(service) => Action::EthDeactivate(*service),
            Action::EthSend(service, payload) => Action::EthSend(*service, payload.copy(alloc)?),
            Action::LinInit(service, role) => Action::LinInit(*service, *role),
            Action::LinSetResponse(service, response) => {
                Action::LinSetResponse(*service, response.copy(alloc)?)
            }
            Action::LinHeader(service, id) => Action::LinHeader(*service, *id),
            Action::LinSendFrame(service, response) => {
                Action::LinSendFrame(*service, response.copy(alloc)?)
            }
            Action::LinSleep(service) => Action::LinSleep(*service),
            Action::LinWakeup(service) => Action::LinWakeup(*service),
            Action::Publish(service, payload) => Action::Publish(*service, payload.copy(alloc)?),
            Action::Call(service, payload) => Action::Call(*service, payload.copy(alloc)?),
            Action::Submit {
                service,
                peer,
                client,
                call,
                payload,
            } => Action::Submit {
                service: *service,
                peer: *peer,
                client: *client,
                call: *call,
                payload: payload.copy(alloc)?,
            },
            Action::Ask(command) => Action::Ask(*command),
            Action::PauseFor(turns) => Action::PauseFor(*turns),
        })
    }
}
