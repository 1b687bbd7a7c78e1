//! A message: contents that keep the rules of their kind.

ghost use Rattle.std.specs.Prelude.{◌≡◌, false, [], length, All, IsTrue, IfOk};
ghost use Rattle.sk_base.specs.Ranges.{is_name};
ghost use Rattle.sk_msg.specs.Each.{each_after};
ghost use Rattle.sk_msg.specs.Rules.{IsNamed};
ghost use Rattle.sk_msg.specs.declared.content.Content.TheVariants.{Hello, Leave, NextStep, ServiceAdd, ServicesEnd, Status, Workflow, Abort, Can, Eth, Lin, Publish, Call, Reply, Refuse};
ghost use Rattle.sk_msg.specs.declared.content.Content.TheVariants as contents;

use crate::announced::Announced;
use crate::bus::{CanFrame, LinFrame, LinResponse};
use crate::content::Content;
use crate::head::Head;
use crate::label::Label;
use crate::names::Names;
use crate::reason::RefuseReason;
use crate::role::Role;
use crate::state::State;
use sk_base::{Bytes, Name, SimTime, Text, WantOfMemory};
use std::alloc::Global;
use std::marker::Model;

/// One message. Contracts see its content.
#[derive(Debug, Drop)]
pub struct Message {
    content: Content,
}

impl Model for Message {
    ghost use Rattle.std.specs.Prelude.{IsTrue};
    ghost use Rattle.sk_msg.specs.declared.content.Content.{Content};
    ghost use Rattle.sk_msg.specs.Rules.{is_message};

    ghost Value = { Content };

    ghost view = { λ message. message.content };

    ghost invariant = { λ message. IsTrue (is_message message.content) };
}

impl Message {
    ghost use Rattle.sk_msg.specs.Rules.{is_message, is_step_size, is_service_id, is_told, is_required_count, is_new_name, is_mark, is_call, is_can_frame, is_eth_frame, is_lin_id, is_lin_payload, is_received, is_sent};

    /// The message of these contents, which keep the rules of their kind.
    pub fn new(content: Content) -> Message
        requires { IsTrue (is_message content) }
        ensures { result ≡ content }
    {
        Message { content }
    }

    /// Who speaks: its name, its role, and where it listens. The address is for the registry, and
    /// empty on a link between peers.
    #[tactic(auto, using(std::proofs::lemmas::Bool::and_from), unfolding(crate::specs::Rules::is_message))]
    pub fn hello(name: Name, role: Role, address: Text) -> Message
        ensures { result ≡ Hello name role address }
    {
        let _name = name.as_str();
        let _address = address.as_str();
        Message {
            content: Content::Hello {
                name,
                role,
                address,
            },
        }
    }

    /// Nothing follows.
    #[tactic(auto, unfolding(crate::specs::Rules::is_message))]
    pub fn leave() -> Message
        ensures { result ≡ Leave }
    {
        Message {
            content: Content::Leave,
        }
    }

    /// The next step begins at this time and takes so long, 1 to 2^60. Both are ns of virtual time.
    #[tactic(auto, using(std::proofs::lemmas::Bool::and_from), unfolding(crate::specs::Rules::is_message))]
    pub fn next_step(at: SimTime, duration: u64) -> Message
        requires { IsTrue (is_step_size duration) }
        ensures { result ≡ NextStep at duration }
    {
        let _ns = at.ns();
        Message {
            content: Content::NextStep { at, duration },
        }
    }

    /// The sender has this service. Its number is 0 to 63, and its history false: that isn't told.
    #[tactic(auto, using(crate::proofs::MessageLaws::services), unfolding(crate::specs::Rules::is_message))]
    pub fn service_add(service: Announced) -> Message
        requires id { IsTrue (is_service_id service.id) }
        requires history { service.history ≡ false }
        ensures { result ≡ ServiceAdd service }
    {
        let told = service.service();
        let _name = told.name.as_str();
        let _topic = told.spec.topic().as_str();
        let _media = told.spec.media().as_str();
        see_labels(told.spec.labels());
        Message {
            content: Content::ServiceAdd { service },
        }
    }

    /// All services were told.
    #[tactic(auto, unfolding(crate::specs::Rules::is_message))]
    pub fn services_end() -> Message
        ensures { result ≡ ServicesEnd }
    {
        Message {
            content: Content::ServicesEnd,
        }
    }

    /// The sender is in this state, which isn't Invalid. In the Stopping of an accepted stop
    /// `until` is the bound below which coordinated peers still begin steps, in ns of virtual time;
    /// else it is 0, and bounds nothing.
    #[tactic(auto, using(crate::proofs::MessageLaws::rules), unfolding(crate::specs::Rules::is_message, crate::specs::Rules::is_u32))]
    pub fn status(state: State, until: SimTime) -> Message
        requires told { IsTrue (is_told state) }
        ensures { result ≡ Status state until }
    {
        let _ns = until.ns();
        Message {
            content: Content::Status { state, until },
        }
    }

    /// Whom the simulation needs: 1 to 32 distinct names.
    #[tactic(auto, using(crate::proofs::MessageLaws::services), unfolding(crate::specs::Rules::is_message))]
    pub fn workflow(required: Names) -> Message
        requires count { IsTrue (is_required_count (length required)) }
        requires distinct { IsTrue (each_after is_new_name [] required) }
        ensures { result ≡ Workflow required }
    {
        see_names(required.as_slice());
        Message {
            content: Content::Workflow { required },
        }
    }

    /// The simulation is to end at once.
    #[tactic(auto, unfolding(crate::specs::Rules::is_message))]
    pub fn abort() -> Message
        ensures { result ≡ Abort }
    {
        Message {
            content: Content::Abort,
        }
    }

    /// A CAN frame of the sender's controller. The mark is at most 2^63. The identifier is below
    /// 2^11, or below 2^29 where it is extended; there are 0 to 8 bytes, and of CAN FD also 12, 16,
    /// 20, 24, 32, 48 or 64.
    #[tactic(auto, using(crate::proofs::MessageLaws::rules), unfolding(crate::specs::Rules::is_message, crate::specs::Rules::is_head, crate::specs::Rules::is_u32))]
    pub fn can(head: Head, frame: CanFrame) -> Message
        requires mark { IsTrue (is_mark head.mark) }
        requires frame { IsTrue (is_can_frame frame.id frame.extended frame.fd frame.payload) }
        ensures { result ≡ Can head frame }
    {
        let _ns = head.stamp.ns();
        let _payload = frame.payload.as_slice();
        Message {
            content: Content::Can { head, frame },
        }
    }

    /// An Ethernet frame of 60 to 1,518 bytes of the sender's controller. The mark is at most 2^63.
    #[tactic(auto, using(crate::proofs::MessageLaws::rules), unfolding(crate::specs::Rules::is_message, crate::specs::Rules::is_head, crate::specs::Rules::is_u32))]
    pub fn eth(head: Head, payload: Bytes) -> Message
        requires mark { IsTrue (is_mark head.mark) }
        requires frame { IsTrue (is_eth_frame payload) }
        ensures { result ≡ Eth head payload }
    {
        let _ns = head.stamp.ns();
        let _payload = payload.as_slice();
        Message {
            content: Content::Eth { head, payload },
        }
    }

    /// A LIN frame, told by the sender's controller. The mark is at most 2^63. The identifier is at
    /// most 63; there are at most 8 bytes, and with a status other than RxOk none, and the checksum
    /// is Unknown.
    #[tactic(auto, using(crate::proofs::MessageLaws::rules), unfolding(crate::specs::Rules::is_message, crate::specs::Rules::is_head, crate::specs::Rules::is_u32))]
    pub fn lin(head: Head, frame: LinFrame) -> Message
        requires mark { IsTrue (is_mark head.mark) }
        requires id { IsTrue (is_lin_id frame.id) }
        requires payload { IsTrue (is_lin_payload (is_received frame.status) frame.checksum frame.payload) }
        ensures { result ≡ Lin head frame }
    {
        let _ns = head.stamp.ns();
        let _payload = frame.payload.as_slice();
        Message {
            content: Content::Lin { head, frame },
        }
    }

    /// How the sender's LIN controller answers a header from now on. The mark is at most 2^63. The
    /// identifier is at most 63; there are at most 8 bytes, and with a mode other than
    /// TxUnconditional none, and the checksum is Unknown.
    #[tactic(auto, using(crate::proofs::MessageLaws::rules), unfolding(crate::specs::Rules::is_message, crate::specs::Rules::is_head, crate::specs::Rules::is_u32))]
    pub fn lin_response(head: Head, response: LinResponse) -> Message
        requires mark { IsTrue (is_mark head.mark) }
        requires id { IsTrue (is_lin_id response.id) }
        requires payload { IsTrue (is_lin_payload (is_sent response.mode) response.checksum response.payload) }
        ensures { result ≡ contents.LinResponse head response }
    {
        let _ns = head.stamp.ns();
        let _payload = response.payload.as_slice();
        Message {
            content: Content::LinResponse { head, response },
        }
    }

    /// What the sender's publisher publishes, 0 to 4,096 bytes. The mark is at most 2^63.
    #[tactic(auto, using(crate::proofs::MessageLaws::rules), unfolding(crate::specs::Rules::is_message, crate::specs::Rules::is_head, crate::specs::Rules::is_u32))]
    pub fn publish(head: Head, payload: Bytes) -> Message
        requires mark { IsTrue (is_mark head.mark) }
        ensures { result ≡ Publish head payload }
    {
        let _ns = head.stamp.ns();
        let _payload = payload.as_slice();
        Message {
            content: Content::Publish { head, payload },
        }
    }

    /// A call that the sender's client makes, with 0 to 4,096 bytes. The mark is at most 2^63, and
    /// the number of the call 1 to 2^63.
    #[tactic(auto, using(crate::proofs::MessageLaws::rules), unfolding(crate::specs::Rules::is_message, crate::specs::Rules::is_head, crate::specs::Rules::is_u32))]
    pub fn call(head: Head, call: u64, payload: Bytes) -> Message
        requires mark { IsTrue (is_mark head.mark) }
        requires call { IsTrue (is_call call) }
        ensures { result ≡ Call head call payload }
    {
        let _ns = head.stamp.ns();
        let _payload = payload.as_slice();
        Message {
            content: Content::Call {
                head,
                call,
                payload,
            },
        }
    }

    /// What the sender's server answers, 0 to 4,096 bytes, to the call of that number, 1 to 2^63,
    /// which the service `client` of its receiver made. The mark is at most 2^63.
    #[tactic(auto, using(crate::proofs::MessageLaws::rules), unfolding(crate::specs::Rules::is_message, crate::specs::Rules::is_head, crate::specs::Rules::is_u32))]
    pub fn reply(head: Head, client: u32, call: u64, payload: Bytes) -> Message
        requires mark { IsTrue (is_mark head.mark) }
        requires call { IsTrue (is_call call) }
        ensures { result ≡ Reply head client call payload }
    {
        let _ns = head.stamp.ns();
        let _payload = payload.as_slice();
        Message {
            content: Content::Reply {
                head,
                client,
                call,
                payload,
            },
        }
    }

    /// The sender, the registry or a participant, doesn't take the one that said Hello.
    #[tactic(auto, unfolding(crate::specs::Rules::is_message))]
    pub fn refuse(reason: RefuseReason) -> Message
        ensures { result ≡ Refuse reason }
    {
        Message {
            content: Content::Refuse { reason },
        }
    }

    /// What it says.
    pub fn content(&self) -> &Content
        ensures value { result.now ≡ self.now }
        ensures rules { IsTrue (is_message self.now) }
    {
        &self.content
    }

    /// The same message again.
    pub fn copy(&self, alloc: Global) -> Result<Message, WantOfMemory>
        ensures { IfOk result (λ copy. copy ≡ self.now) }
    {
        Ok(Message {
            content: copy_content(alloc, &self.content)?,
        })
    }
}

/// Each key is a name and each value a text, as their types keep it.
fn see_labels(labels: &[Label])
    ensures { All IsNamed labels.now }
{
    for label in labels {
        let _key = label.key.as_str();
        let _value = label.value.as_str();
    }
}

/// Each is a name, as its type keeps it.
fn see_names(names: &[Name])
    ensures { All (λ name. IsTrue (is_name name)) names.now }
{
    for name in names {
        let _name = name.as_str();
    }
}

/// The same content again.
fn copy_content(alloc: Global, content: &Content) -> Result<Content, WantOfMemory>
    ensures { IfOk result (λ copy. copy ≡ content.now) }
{
    match content {
        Content::Hello {
            name,
            role,
            address,
        } => Ok(Content::Hello {
            name: name.copy(alloc)?,
            role: *role,
            address: address.copy(alloc)?,
        }),
        Content::Leave => Ok(Content::Leave),
        Content::NextStep { at, duration } => Ok(Content::NextStep {
            at: *at,
            duration: *duration,
        }),
        Content::ServiceAdd { service } => Ok(Content::ServiceAdd {
            service: service.copy(alloc)?,
        }),
        Content::ServicesEnd => Ok(Content::ServicesEnd),
        Content::Status { state, until } => Ok(Content::Status {
            state: *state,
            until: *until,
        }),
        Content::Workflow { required } => Ok(Content::Workflow {
            required: required.copy(alloc)?,
        }),
        Content::Abort => Ok(Content::Abort),
        Content::Can { head, frame } => Ok(Content::Can {
            head: *head,
            frame: frame.copy(alloc)?,
        }),
        Content::Eth { head, payload } => Ok(Content::Eth {
            head: *head,
            payload: payload.copy(alloc)?,
        }),
        Content::Lin { head, frame } => Ok(Content::Lin {
            head: *head,
            frame: frame.copy(alloc)?,
        }),
        Content::LinResponse { head, response } => Ok(Content::LinResponse {
            head: *head,
            response: response.copy(alloc)?,
        }),
        Content::Publish { head, payload } => Ok(Content::Publish {
            head: *head,
            payload: payload.copy(alloc)?,
        }),
        Content::Call {
            head,
            call,
            payload,
        } => Ok(Content::Call {
            head: *head,
            call: *call,
            payload: payload.copy(alloc)?,
        }),
        Content::Reply {
            head,
            client,
            call,
            payload,
        } => Ok(Content::Reply {
            head: *head,
            client: *client,
            call: *call,
            payload: payload.copy(alloc)?,
        }),
        Content::Refuse { reason } => Ok(Content::Refuse { reason: *reason }),
    }
}
