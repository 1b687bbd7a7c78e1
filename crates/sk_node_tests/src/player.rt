//! An app that asks for what a test says, and keeps all that it is called with.

ghost use Rattle.std.specs.Prelude.{◌≡◌, IfOk};

use sk_base::{SimTime, WantOfMemory};
use sk_law::{Actions, Call, Heard, Made, Notice, Outbox};
use sk_msg::{Action, Command, Message, State};
use sk_node::App;
use std::alloc::Global;

/// Asks for commands, and keeps all that it is called with.
#[derive(Drop)]
pub struct Player {
    alloc: Global,
    /// How often its ready handler asks for Continue.
    pub asks: u32,
    /// The step in which it asks for Stop; 0 for none.
    pub stops_in: u64,
    pub heard: Vec<Heard>,
    pub made: Vec<Made>,
    pub notified: Vec<Notice>,
}

impl Player {
    /// It asks for nothing.
    pub fn new(alloc: Global) -> Player {
        Player {
            alloc,
            asks: 0,
            stops_in: 0,
            heard: Vec::new(alloc),
            made: Vec::new(alloc),
            notified: Vec::new(alloc),
        }
    }
}

/// The same actions again.
fn copy_actions(alloc: Global, actions: &[Action]) -> Result<Actions, WantOfMemory>
    ensures { IfOk result (λ copies. copies ≡ actions.now) }
{
    let mut copies = Vec::new(alloc);
    for action in actions {
        copies.push(action.copy(alloc)?)?;
    }
    Ok(Actions::new(copies))
}

/// Asks for the command so often.
fn ask(out: &mut Outbox, command: Command, times: u32) {
    for _time in 0..times {
        if let Err(_action) = out.add(Action::Ask(command)) {}
    }
}

impl App for Player {
    ghost Origin = { Unit {0} };

    ghost lists = { λ p. record { heard = p.heard.items; made = p.made.items; notified = p.notified.items } };

    ghost origin = { λ p. record {} };

    fn on_ready(&mut self, out: &mut Outbox) -> Result<(), WantOfMemory> {
        ask(out, Command::Continue, self.asks);
        let actions = copy_actions(self.alloc, out.actions())?;
        let over = out.is_over();
        self.made.push(Made {
            call: Call::Ready,
            actions,
            over,
        })?;
        Ok(())
    }

    fn on_step(&mut self, number: u64, at: SimTime, out: &mut Outbox) -> Result<(), WantOfMemory> {
        ask(out, Command::Stop, (number == self.stops_in) as u32);
        let actions = copy_actions(self.alloc, out.actions())?;
        let over = out.is_over();
        self.made.push(Made {
            call: Call::Step { number, at },
            actions,
            over,
        })?;
        Ok(())
    }

    fn on_message(
        &mut self,
        peer: u32,
        place: u64,
        service: u32,
        message: &Message,
        out: &mut Outbox,
    ) -> Result<(), WantOfMemory> {
        let actions = copy_actions(self.alloc, out.actions())?;
        let over = out.is_over();
        let given = message.copy(self.alloc)?;
        let heard = Heard::Message {
            peer,
            place,
            service,
            message: message.copy(self.alloc)?,
        };
        let call = Call::Message {
            peer,
            place,
            service,
            message: given,
        };
        self.heard.reserve(1)?;
        self.made.push(Made {
            call,
            actions,
            over,
        })?;
        self.heard.push(heard).unwrap();
        Ok(())
    }

    fn on_answer(&mut self, service: u32, code: u8) -> Result<(), WantOfMemory> {
        self.heard.push(Heard::Answer { service, code })?;
        Ok(())
    }

    fn on_state(&mut self, state: State) -> Result<(), WantOfMemory> {
        self.notified.push(Notice::State(state))?;
        Ok(())
    }

    fn on_stop(&mut self) -> Result<(), WantOfMemory> {
        self.notified.push(Notice::Stop)?;
        Ok(())
    }

    fn on_shutdown(&mut self) -> Result<(), WantOfMemory> {
        self.notified.push(Notice::Shutdown)?;
        Ok(())
    }

    fn on_abort(&mut self) -> Result<(), WantOfMemory> {
        self.notified.push(Notice::Abort)?;
        Ok(())
    }
}
