//! What a peer or a tool has said.

ghost use Rattle.std.specs.Prelude.{◌≡◌, [], true, OnOk, OnErr};
ghost use Rattle.sk_law.specs.Order.{said_of, said_after};
ghost use Rattle.sk_law.specs.Serving.{IsNext, IsIndexed};

use crate::services::Services;
use sk_base::{SimTime, WantOfMemory};
use sk_msg::{Content, Message, State};
use sk_pubsub::Receivers;
use std::alloc::Global;

/// What a peer or a tool has said in order: all that its next message is judged by.
#[derive(Debug, Drop)]
pub struct Said {
    /// Its Hello.
    pub hello: bool,
    /// That it is coordinated.
    pub coordinated: bool,
    /// That it is synchronised.
    pub synchronised: bool,
    /// Its services, in the order in which they were told.
    pub services: Services,
    /// That all services were told.
    pub ended: bool,
    /// The time of its next step that it announced last, in ns of virtual time.
    pub announced: Option<SimTime>,
    /// The state that it told last.
    pub status: Option<State>,
    /// Its Leave.
    pub left: bool,
}

impl Said {
    /// Nothing was said yet. The services that come are kept in this memory.
    pub fn new(alloc: Global) -> Said
        ensures { result ≡ said_of [] }
    {
        Said {
            hello: false,
            coordinated: false,
            synchronised: false,
            services: Services::new(Vec::new(alloc)),
            ended: false,
            announced: None,
            status: None,
            left: false,
        }
    }

    /// A message more that came in order of this number. A service that it tells goes into the index
    /// too.
    pub fn note(
        &mut self,
        alloc: Global,
        index: &mut Receivers,
        number: u32,
        message: &Message,
    ) -> Result<(), WantOfMemory>
        requires { IsNext index.old number message.now }
        ensures ok { OnOk result (self.new ≡ said_after self.old message.now) }
        ensures indexed { OnOk result (IsIndexed true number message.now index.old index.new) }
        ensures same { OnErr result (self.new ≡ self.old) }
        ensures index { OnErr result (index.new ≡ index.old) }
    {
        match message.content() {
            Content::Hello { role, .. } => {
                self.hello = true;
                self.synchronised |= role.is_synchronised();
                self.coordinated |= role.is_coordinated();
                Ok(())
            }
            Content::ServiceAdd { service } => {
                let service = service.service();
                let copy = service.copy(alloc)?;
                self.services
                    .announce(index, number, service.copy(alloc)?, copy)
            }
            Content::ServicesEnd => {
                self.ended = true;
                Ok(())
            }
            Content::NextStep { at, .. } => {
                self.announced = Some(*at);
                Ok(())
            }
            Content::Status { state, .. } => {
                self.status = Some(*state);
                Ok(())
            }
            Content::Leave => {
                self.left = true;
                Ok(())
            }
            Content::Workflow { .. }
            | Content::Abort
            | Content::Can { .. }
            | Content::Eth { .. }
            | Content::Lin { .. }
            | Content::LinResponse { .. }
            | Content::Publish { .. }
            | Content::Call { .. }
            | Content::Reply { .. }
            | Content::Refuse { .. } => Ok(()),
        }
    }
}
