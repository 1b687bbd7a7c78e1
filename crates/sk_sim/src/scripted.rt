//! The app of a scenario's participant.

ghost use Rattle.sk_sim.specs.Playing.{IsScripted};

mod running;

use crate::scripted::running::{Running, call_message, call_ready, call_step};
use sk_base::{SimTime, WantOfMemory};
use sk_law::{Heard, Made, Notice, Outbox};
use sk_msg::{Message, State};
use sk_node::App;
use sk_script::Scenario;
use std::alloc::Global;
use std::snapshot::Snapshot;

/// The app of a participant of a scenario: it carries out the participant's script. It keeps all that
/// it is called with, and what it asked for.
///
/// The first call of the ready handler asks for what the ready list says, and each step for what the
/// rules say of its time and of what it sees; a message asks for nothing. A step costs a look at each
/// rule and at what it sees, whatever was heard before.
///
/// Where a call that may ask for actions met want of memory, the next ones answer so too.
#[derive(Drop)]
pub struct Scripted {
    alloc: Global,
    of: Snapshot<Scenario>,
    number: u32,
    running: Running,
    /// Whether memory was refused while a script was carried out.
    failed: bool,
    heard: Vec<Heard>,
    made: Vec<Made>,
    notified: Vec<Notice>,
    ghost scripted: { ∥ IsScripted of.value number failed running made.items ∥₁ },
}

impl Scripted {
    ghost use Rattle.std.specs.Prelude.{◌≡◌, ◌<◌, [], ◌∷◌, ◌++◌, length, IfOk, OnOk, OnErr};
    ghost use Rattle.sk_sim.specs.Scripts.{lists_of, no_lists, origin_of};

    /// Of the participant of this number. It was called with nothing yet.
    pub fn new(alloc: Global, scenario: &Scenario, number: u32) -> Result<Scripted, WantOfMemory>
        requires number { number < length scenario.now.participants }
        ensures lists { IfOk result (λ app. lists_of app ≡ no_lists) }
        ensures origin { IfOk result (λ app. origin_of app ≡ record { scenario = scenario.now; number = number }) }
    {
        let part = &scenario.participants()[number as usize];
        Ok(Scripted {
            alloc,
            of: Snapshot::of(scenario),
            number,
            running: Running::new(alloc, part)?,
            failed: false,
            heard: Vec::new(alloc),
            made: Vec::new(alloc),
            notified: Vec::new(alloc),
        })
    }

    /// It was notified so.
    fn note(&mut self, notice: Notice) -> Result<(), WantOfMemory>
        ensures ok { OnOk result (lists_of self.new ≡ record (lists_of self.old) { notified = (lists_of self.old).notified ++ notice ∷ [] }) }
        ensures err { OnErr result (lists_of self.new ≡ lists_of self.old) }
        ensures origin { origin_of self.new ≡ origin_of self.old }
    {
        self.notified.push(notice)?;
        Ok(())
    }
}

impl App for Scripted {
    ghost use Rattle.sk_sim.specs.Scripts.{Origin, lists_of, origin_of};

    ghost Origin = { Origin };

    ghost lists = { λ app. lists_of app };

    ghost origin = { λ app. origin_of app };

    fn on_ready(&mut self, out: &mut Outbox) -> Result<(), WantOfMemory> {
        if self.failed {
            return Err(WantOfMemory);
        }
        let called = call_ready(&mut self.running, &mut self.made, out);
        self.failed = called.is_err();
        called
    }

    fn on_step(&mut self, number: u64, at: SimTime, out: &mut Outbox) -> Result<(), WantOfMemory> {
        if self.failed {
            return Err(WantOfMemory);
        }
        let called = call_step(&mut self.running, &mut self.made, number, at, out);
        self.failed = called.is_err();
        called
    }

    fn on_message(
        &mut self,
        peer: u32,
        place: u64,
        service: u32,
        message: &Message,
        _out: &mut Outbox,
    ) -> Result<(), WantOfMemory> {
        let heard = Heard::Message {
            peer,
            place,
            service,
            message: message.copy(self.alloc)?,
        };
        self.heard.reserve(1)?;
        call_message(
            &mut self.running,
            &mut self.made,
            peer,
            place,
            service,
            message,
        )?;
        self.heard.push(heard).unwrap();
        Ok(())
    }

    fn on_answer(&mut self, service: u32, code: u8) -> Result<(), WantOfMemory> {
        self.heard.push(Heard::Answer { service, code })?;
        Ok(())
    }

    fn on_state(&mut self, state: State) -> Result<(), WantOfMemory> {
        self.note(Notice::State(state))
    }

    fn on_stop(&mut self) -> Result<(), WantOfMemory> {
        self.note(Notice::Stop)
    }

    fn on_shutdown(&mut self) -> Result<(), WantOfMemory> {
        self.note(Notice::Shutdown)
    }

    fn on_abort(&mut self) -> Result<(), WantOfMemory> {
        self.note(Notice::Abort)
    }
}
