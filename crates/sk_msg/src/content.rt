//! What each kind of message says, in the order of the kinds.

use crate::announced::Announced;
use crate::bus::{CanFrame, LinFrame, LinResponse};
use crate::head::Head;
use crate::names::Names;
use crate::reason::RefuseReason;
use crate::role::Role;
use crate::state::State;
use sk_base::{Bytes, Name, SimTime, Text};

/// What a message says, before its rules are looked at.
///
/// What goes from service to service has a [`Head`] in front: which service of the sender it comes
/// from, when it was sent, and in which step.
#[derive(Debug, Drop)]
pub enum Content {
    /// Who speaks. It comes first on a link.
    Hello {
        /// The sender's name.
        name: Name,
        /// What the sender is to its peers.
        role: Role,
        /// Where it listens, for the registry; empty on a link between peers.
        address: Text,
    },
    /// Nothing follows.
    Leave,
    /// The sender's next step.
    NextStep {
        /// Where it begins, in ns of virtual time.
        at: SimTime,
        /// Its size, 1 to 2^60 ns of virtual time.
        duration: u64,
    },
    /// The sender has this service. Its history isn't announced: it is false.
    ServiceAdd {
        /// Its number is 0 to 63.
        service: Announced,
    },
    /// All services were told.
    ServicesEnd,
    /// The sender is in this state, which isn't Invalid.
    Status {
        /// What the sender is at.
        state: State,
        /// With the Stopping of an accepted stop a bound in ns of virtual time: coordinated peers
        /// take their steps that begin below it, and no others. Everywhere else it is 0, and bounds
        /// nothing.
        until: SimTime,
    },
    /// Whom the simulation needs: 1 to 32 distinct names.
    Workflow {
        /// Their names.
        required: Names,
    },
    /// The simulation is to end at once.
    Abort,
    /// A CAN frame that the sender's controller sends.
    Can {
        head: Head,
        /// Its identifier and its bytes fit its format.
        frame: CanFrame,
    },
    /// An Ethernet frame that the sender's controller sends.
    Eth {
        head: Head,
        /// The frame, 60 to 1,518 bytes.
        payload: Bytes,
    },
    /// A LIN frame as it was on the bus.
    Lin {
        head: Head,
        /// Its identifier is 0 to 63.
        frame: LinFrame,
    },
    /// How the sender's LIN controller answers a header from now on.
    LinResponse {
        head: Head,
        /// Its identifier is 0 to 63.
        response: LinResponse,
    },
    /// What the sender's publisher publishes.
    Publish {
        head: Head,
        /// 0 to 4,096 bytes.
        payload: Bytes,
    },
    /// A call that the sender's client makes.
    Call {
        head: Head,
        /// The call's number at its client, 1 to 2^63.
        call: u64,
        /// The arguments, 0 to 4,096 bytes.
        payload: Bytes,
    },
    /// What the sender's server answers to a call.
    Reply {
        head: Head,
        /// The number of the service that made the call, at its participant.
        client: u32,
        /// The call's number at its client, 1 to 2^63.
        call: u64,
        /// The result, 0 to 4,096 bytes.
        payload: Bytes,
    },
    /// The sender, the registry or a participant, doesn't take the one that said Hello.
    Refuse {
        /// Why.
        reason: RefuseReason,
    },
}
