//! A participant's script, as far as it was carried out.

ghost use Rattle.std.specs.Prelude.{◌≡◌, List, false, [], ◌∷◌, ◌++◌, IfOk, OnOk, OnErr};
ghost use Rattle.std.specs.List.{filter_map};
ghost use Rattle.sk_law.specs.declared.made.Call.TheVariants as calls;
ghost use Rattle.sk_law.specs.declared.made.Heard.{Heard};
ghost use Rattle.sk_law.specs.declared.made.Heard.TheVariants as hearings;
ghost use Rattle.sk_law.specs.Visible.{shown, sort};
ghost use Rattle.sk_node.specs.Calls.{item};
ghost use Rattle.sk_sim.specs.Playing as spec;

use sk_base::{SimTime, WantOfMemory};
use sk_law::{Actions, Call, Made, Outbox};
use sk_machine::Machine;
use sk_msg::{Action, Message};
use sk_script::Part;
use sk_visible::VisibleList;
use std::alloc::Global;
use std::marker::Model;

/// A participant's script with the values of its variables, what its steps may see, and how far it was
/// carried out. Contracts see these parts.
#[derive(Drop)]
pub(crate) struct Running {
    alloc: Global,
    machine: Machine,
    visible: VisibleList,
    /// The time of the last step, 0 before the first.
    last: SimTime,
    /// Whether the ready list was carried out.
    started: bool,
}

impl Model for Running {
    ghost use Rattle.sk_sim.specs.Playing.{RunningValue};

    ghost Value = { RunningValue };

    ghost view = { λ r. record { machine = r.machine; visible = r.visible; last = r.last; started = r.started } };
}

impl Running {
    /// Nothing was carried out, and nothing handed.
    #[tactic(auto, unfolding(sk_base::specs::Ranges::is_time))]
    pub(crate) fn new(alloc: Global, part: &Part) -> Result<Running, WantOfMemory>
        ensures { IfOk result (λ running. running ≡ spec.first_running part.now) }
    {
        Ok(Running {
            alloc,
            machine: Machine::new(alloc, part.scope(), part.ready(), part.script())?,
            visible: VisibleList::new(alloc),
            last: SimTime::new(0).unwrap(),
            started: false,
        })
    }

    /// A message was handed to a service.
    pub(crate) fn note(
        &mut self,
        peer: u32,
        place: u64,
        service: u32,
        message: &Message,
    ) -> Result<(), WantOfMemory>
        ensures ok { (heard : List Heard) → self.old.visible ≡ sort (filter_map shown heard) → OnOk result (self.new ≡ record self.old { visible = sort (filter_map shown (heard ++ hearings.Message peer place service message.now ∷ [])) }) }
        ensures err { OnErr result (self.new ≡ self.old) }
    {
        self.visible.note(self.alloc, peer, place, service, message)
    }

    /// Carries out the ready list, if it wasn't yet: what it asks for.
    fn start(&mut self) -> Result<Vec<Action>, WantOfMemory>
        ensures asked { IfOk result (λ asked. asked.items ≡ spec.start_asks self.old) }
        ensures ok { OnOk result (self.new ≡ spec.started self.old) }
    {
        if self.started {
            return Ok(Vec::new(self.alloc));
        }
        let asked = self.machine.ready()?;
        self.started = true;
        Ok(asked)
    }

    /// Carries out a step at this time: what it asks for. Where the ready list wasn't carried out before,
    /// it is now, for its values alone.
    fn step(&mut self, at: SimTime) -> Result<Vec<Action>, WantOfMemory>
        ensures asked { IfOk result (λ asked. asked.items ≡ spec.step_asks self.old at) }
        ensures ok { OnOk result (self.new ≡ spec.stepped self.old at) }
    {
        let _ = self.start()?;
        self.play(at)
    }

    /// Carries out the rules in a step at this time: what they ask for.
    fn play(&mut self, at: SimTime) -> Result<Vec<Action>, WantOfMemory>
        ensures asked { IfOk result (λ asked. asked.items ≡ (spec.step_plays self.old at).actions) }
        ensures ok { OnOk result (self.new ≡ spec.played_on self.old at) }
    {
        let seen = self.visible.between(self.last, at);
        let asked = self.machine.step(at, seen)?;
        self.last = at;
        Ok(asked)
    }
}

/// The ready handler is called: it asks for what the ready list says, unless that was carried out
/// before. After want of memory the values of the variables may be lost.
pub(crate) fn call_ready(
    running: &mut Running,
    made: &mut Vec<Made>,
    out: &mut Outbox,
) -> Result<(), WantOfMemory>
    requires empty { out.old.actions ≡ [] }
    requires fits { out.old.over ≡ false }
    ensures made { OnOk result (made.new.items ≡ made.old.items ++ item calls.Ready out.new ∷ []) }
    ensures asked { OnOk result (out.new ≡ spec.offered (spec.start_asks running.old)) }
    ensures running { OnOk result (running.new ≡ spec.started running.old) }
    ensures err { OnErr result (made.new.items ≡ made.old.items) }
{
    let asked = running.start()?;
    keep(running.alloc, made, Call::Ready, asked, out)
}

/// A step is called: it asks for what the script says. After want of memory the values of the variables
/// may be lost.
pub(crate) fn call_step(
    running: &mut Running,
    made: &mut Vec<Made>,
    number: u64,
    at: SimTime,
    out: &mut Outbox,
) -> Result<(), WantOfMemory>
    requires empty { out.old.actions ≡ [] }
    requires fits { out.old.over ≡ false }
    ensures made { OnOk result (made.new.items ≡ made.old.items ++ item (calls.Step number at) out.new ∷ []) }
    ensures asked { OnOk result (out.new ≡ spec.offered (spec.step_asks running.old at)) }
    ensures running { OnOk result (running.new ≡ spec.stepped running.old at) }
    ensures err { OnErr result (made.new.items ≡ made.old.items) }
{
    let asked = running.step(at)?;
    keep(running.alloc, made, Call::Step { number, at }, asked, out)
}

/// A message is handed to a service: it asks for nothing.
pub(crate) fn call_message(
    running: &mut Running,
    made: &mut Vec<Made>,
    peer: u32,
    place: u64,
    service: u32,
    message: &Message,
) -> Result<(), WantOfMemory>
    ensures made { OnOk result (made.new.items ≡ made.old.items ++ item (calls.Message peer place service message.now) (spec.offered []) ∷ []) }
    ensures running { (heard : List Heard) → running.old.visible ≡ sort (filter_map shown heard) → OnOk result (running.new ≡ record running.old { visible = sort (filter_map shown (heard ++ hearings.Message peer place service message.now ∷ [])) }) }
    ensures err { OnErr result ((made.new.items ≡ made.old.items) × (running.new ≡ running.old)) }
{
    let call = Call::Message {
        peer,
        place,
        service,
        message: message.copy(running.alloc)?,
    };
    made.reserve(1)?;
    running.note(peer, place, service, message)?;
    let idle = Made {
        call,
        actions: Actions::new(Vec::new(running.alloc)),
        over: false,
    };
    made.push(idle).unwrap();
    Ok(())
}

/// A call asked for these: the first 256 of them are asked for, and the call is kept with them.
fn keep(
    alloc: Global,
    made: &mut Vec<Made>,
    call: Call,
    asked: Vec<Action>,
    out: &mut Outbox,
) -> Result<(), WantOfMemory>
    requires empty { out.old.actions ≡ [] }
    requires fits { out.old.over ≡ false }
    ensures made { OnOk result (made.new.items ≡ made.old.items ++ item call out.new ∷ []) }
    ensures asked { out.new ≡ spec.offered asked.items }
    ensures err { OnErr result (made.new.items ≡ made.old.items) }
{
    ask(asked, out);
    let actions = copy(alloc, out.actions())?;
    made.push(Made {
        call,
        actions: Actions::new(actions),
        over: out.is_over(),
    })?;
    Ok(())
}

/// Asks for these in order.
fn ask(asked: Vec<Action>, out: &mut Outbox)
    requires empty { out.old.actions ≡ [] }
    requires fits { out.old.over ≡ false }
    ensures { out.new ≡ spec.offered asked.items }
{
    for action in asked {
        offer(out, action);
    }
}

/// Asks for this one, if there is room.
fn offer(out: &mut Outbox, action: Action)
    ensures { out.new ≡ spec.offer out.old action }
{
    let _ = out.add(action);
}

/// The same actions again.
fn copy(alloc: Global, actions: &[Action]) -> Result<Vec<Action>, WantOfMemory>
    ensures { IfOk result (λ copies. copies.items ≡ actions.now) }
{
    let mut copies = Vec::new(alloc);
    for action in actions {
        copies.push(action.copy(alloc)?)?;
    }
    Ok(copies)
}
