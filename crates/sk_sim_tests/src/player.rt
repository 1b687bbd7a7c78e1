//! An app that asks for one thing in its first step, and counts its calls.

ghost use Rattle.std.specs.Prelude.{◌≡◌, IfOk};

use sk_base::{Bytes, SimTime, WantOfMemory};
use sk_law::{Actions, Call, Heard, Made, Notice, Outbox};
use sk_msg::{Action, Command, Message, State};
use sk_node::App;
use std::alloc::Global;
use std::cell::Cell;
use std::rc::Rc;

/// What an app asks for in its first step.
#[derive(Clone, Copy, Drop)]
pub enum Wish {
    Nothing,
    Stop,
    /// A pause of so many turns.
    Pause(u32),
    /// A publication by its service 0.
    Publish,
}

/// How often apps were called.
#[derive(Drop)]
pub struct Calls {
    pub ready: Cell<u32>,
    pub steps: Cell<u32>,
    pub states: Cell<u32>,
    pub stops: Cell<u32>,
    pub shutdowns: Cell<u32>,
}

impl Calls {
    /// None was called yet.
    pub fn new() -> Calls {
        Calls {
            ready: Cell::new(0),
            steps: Cell::new(0),
            states: Cell::new(0),
            stops: Cell::new(0),
            shutdowns: Cell::new(0),
        }
    }
}

/// One call more.
fn count(calls: &Cell<u32>) {
    calls.set(calls.get().saturating_add(1));
}

/// Asks for its wish, counts its calls, and keeps all that it is called with.
#[derive(Drop)]
pub struct Player {
    alloc: Global,
    wish: Wish,
    calls: Rc<Calls>,
    heard: Vec<Heard>,
    made: Vec<Made>,
    notified: Vec<Notice>,
}

impl Player {
    /// It was called with nothing yet.
    pub fn new(alloc: Global, wish: Wish, calls: Rc<Calls>) -> Player {
        Player {
            alloc,
            wish,
            calls,
            heard: Vec::new(alloc),
            made: Vec::new(alloc),
            notified: Vec::new(alloc),
        }
    }
}

/// The same actions again.
fn copy_actions(alloc: Global, actions: &[Action]) -> Result<Actions, WantOfMemory>
    ensures { IfOk result (λ copies. copies ≡ actions.now) }
{
    let mut copies = Vec::new(alloc);
    for action in actions {
        copies.push(action.copy(alloc)?)?;
    }
    Ok(Actions::new(copies))
}

/// Asks for it.
fn ask(alloc: Global, out: &mut Outbox, wish: Wish) -> Result<(), WantOfMemory> {
    let action = match wish {
        Wish::Nothing => return Ok(()),
        Wish::Stop => Action::Ask(Command::Stop),
        Wish::Pause(turns) => Action::PauseFor(turns),
        Wish::Publish => match Bytes::new(alloc, b"7") {
            Ok(payload) => Action::Publish(0, payload),
            Err(_fault) => return Err(WantOfMemory),
        },
    };
    if let Err(_action) = out.add(action) {}
    Ok(())
}

impl App for Player {
    ghost Origin = { Unit {0} };

    ghost lists = { λ p. record { heard = p.heard.items; made = p.made.items; notified = p.notified.items } };

    ghost origin = { λ p. record {} };

    fn on_ready(&mut self, out: &mut Outbox) -> Result<(), WantOfMemory> {
        count(&self.calls.ready);
        let actions = copy_actions(self.alloc, out.actions())?;
        let over = out.is_over();
        self.made.push(Made {
            call: Call::Ready,
            actions,
            over,
        })?;
        Ok(())
    }

    fn on_step(&mut self, number: u64, at: SimTime, out: &mut Outbox) -> Result<(), WantOfMemory> {
        count(&self.calls.steps);
        if number == 1 {
            ask(self.alloc, out, self.wish)?;
        }
        let actions = copy_actions(self.alloc, out.actions())?;
        let over = out.is_over();
        self.made.push(Made {
            call: Call::Step { number, at },
            actions,
            over,
        })?;
        Ok(())
    }

    fn on_message(
        &mut self,
        peer: u32,
        place: u64,
        service: u32,
        message: &Message,
        out: &mut Outbox,
    ) -> Result<(), WantOfMemory> {
        let actions = copy_actions(self.alloc, out.actions())?;
        let over = out.is_over();
        let given = message.copy(self.alloc)?;
        let heard = Heard::Message {
            peer,
            place,
            service,
            message: message.copy(self.alloc)?,
        };
        let call = Call::Message {
            peer,
            place,
            service,
            message: given,
        };
        self.heard.reserve(1)?;
        self.made.push(Made {
            call,
            actions,
            over,
        })?;
        self.heard.push(heard).unwrap();
        Ok(())
    }

    fn on_answer(&mut self, service: u32, code: u8) -> Result<(), WantOfMemory> {
        self.heard.push(Heard::Answer { service, code })?;
        Ok(())
    }

    fn on_state(&mut self, state: State) -> Result<(), WantOfMemory> {
        count(&self.calls.states);
        self.notified.push(Notice::State(state))?;
        Ok(())
    }

    fn on_stop(&mut self) -> Result<(), WantOfMemory> {
        count(&self.calls.stops);
        self.notified.push(Notice::Stop)?;
        Ok(())
    }

    fn on_shutdown(&mut self) -> Result<(), WantOfMemory> {
        count(&self.calls.shutdowns);
        self.notified.push(Notice::Shutdown)?;
        Ok(())
    }

    fn on_abort(&mut self) -> Result<(), WantOfMemory> {
        self.notified.push(Notice::Abort)?;
        Ok(())
    }
}
