//! An app that asks for what rows say.

ghost use Rattle.std.specs.Prelude.{◌≡◌, IfOk};

use sk_base::{SimTime, WantOfMemory};
use sk_law::{Actions, Call, Heard, Made, Notice, Outbox};
use sk_msg::{Action, Message, State};
use sk_node::App;
use std::alloc::Global;

/// Asks once for what a row says, and keeps all that it is called with.
#[derive(Drop)]
pub struct Player {
    alloc: Global,
    /// What its next step asks for.
    pub in_step: Vec<Action>,
    /// The own service whose next message asks for something.
    pub service: u32,
    /// What that asks for.
    pub on_service: Vec<Action>,
    heard: Vec<Heard>,
    made: Vec<Made>,
    notified: Vec<Notice>,
}

impl Player {
    /// It asks for nothing.
    pub fn new(alloc: Global) -> Player {
        Player {
            alloc,
            in_step: Vec::new(alloc),
            service: 0,
            on_service: Vec::new(alloc),
            heard: Vec::new(alloc),
            made: Vec::new(alloc),
            notified: Vec::new(alloc),
        }
    }
}

/// The same actions again.
fn copy_actions(alloc: Global, actions: &[Action]) -> Result<Actions, WantOfMemory>
    ensures { IfOk result (λ copies. copies ≡ actions.now) }
{
    let mut copies = Vec::new(alloc);
    for action in actions {
        copies.push(action.copy(alloc)?)?;
    }
    Ok(Actions::new(copies))
}

/// Asks for these.
fn ask(alloc: Global, out: &mut Outbox, actions: &[Action]) -> Result<(), WantOfMemory> {
    for action in actions {
        if let Err(_action) = out.add(action.copy(alloc)?) {}
    }
    Ok(())
}

impl App for Player {
    ghost Origin = { Unit {0} };

    ghost lists = { λ p. record { heard = p.heard.items; made = p.made.items; notified = p.notified.items } };

    ghost origin = { λ p. record {} };

    fn on_ready(&mut self, out: &mut Outbox) -> Result<(), WantOfMemory> {
        let actions = copy_actions(self.alloc, out.actions())?;
        let over = out.is_over();
        self.made.push(Made {
            call: Call::Ready,
            actions,
            over,
        })?;
        Ok(())
    }

    fn on_step(&mut self, number: u64, at: SimTime, out: &mut Outbox) -> Result<(), WantOfMemory> {
        ask(self.alloc, out, &self.in_step)?;
        self.in_step.clear();
        let actions = copy_actions(self.alloc, out.actions())?;
        let over = out.is_over();
        self.made.push(Made {
            call: Call::Step { number, at },
            actions,
            over,
        })?;
        Ok(())
    }

    fn on_message(
        &mut self,
        peer: u32,
        place: u64,
        service: u32,
        message: &Message,
        out: &mut Outbox,
    ) -> Result<(), WantOfMemory> {
        if service == self.service {
            ask(self.alloc, out, &self.on_service)?;
            self.on_service.clear();
        }
        let actions = copy_actions(self.alloc, out.actions())?;
        let over = out.is_over();
        let given = message.copy(self.alloc)?;
        let heard = Heard::Message {
            peer,
            place,
            service,
            message: message.copy(self.alloc)?,
        };
        let call = Call::Message {
            peer,
            place,
            service,
            message: given,
        };
        self.heard.reserve(1)?;
        self.made.push(Made {
            call,
            actions,
            over,
        })?;
        self.heard.push(heard).unwrap();
        Ok(())
    }

    fn on_answer(&mut self, service: u32, code: u8) -> Result<(), WantOfMemory> {
        self.heard.push(Heard::Answer { service, code })?;
        Ok(())
    }

    fn on_state(&mut self, state: State) -> Result<(), WantOfMemory> {
        self.notified.push(Notice::State(state))?;
        Ok(())
    }

    fn on_stop(&mut self) -> Result<(), WantOfMemory> {
        self.notified.push(Notice::Stop)?;
        Ok(())
    }

    fn on_shutdown(&mut self) -> Result<(), WantOfMemory> {
        self.notified.push(Notice::Shutdown)?;
        Ok(())
    }

    fn on_abort(&mut self) -> Result<(), WantOfMemory> {
        self.notified.push(Notice::Abort)?;
        Ok(())
    }
}
