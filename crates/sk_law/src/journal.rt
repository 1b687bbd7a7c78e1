//! The journal of a participant, with all that its rules read off it kept at hand.

ghost use Rattle.std.specs.Prelude.{◌≡◌, ℕ, ◌+◌, ◌<◌, ◌≤◌, ◌^◌, Some, None, slice_set, false, [], IsTrue, IfOk, IfSome, length, replicate, slice_index_or, nat_le};
ghost use Rattle.sk_msg.specs.Each.{each_after};
ghost use Rattle.sk_pubsub.specs.Announcing.{are_numbered};
ghost use Rattle.sk_msg.specs.Rules.{is_new_name, is_step_size};
ghost use Rattle.sk_msg.specs.declared.state.State.TheVariants.{Invalid};
ghost use Rattle.sk_law.specs.Readings.{state_of, system_told, has_run, last_begun, open_step, next_number, has_completed_ready, payload, put};
ghost use Rattle.sk_law.specs.Services.{new_states};
ghost use Rattle.sk_law.specs.Tied.{all_of};

mod got;
mod links;
mod needed;
mod out;
mod services;
mod writing;

use crate::journal::needed::{find_needed, require};
use crate::line::{Line, new_lines, zeros};
use crate::tally::Tally;
use crate::{Begun, Memory, ServiceStates, Setup};
use sk_base::{SimTime, WantOfMemory};
use sk_msg::{Entry, Names, State};
use sk_pubsub::Receivers;
use sk_system::SystemView;
use std::alloc::Global;
use std::marker::Model;

/// The journal of a participant: the entries, what is remembered besides, and the messages of its
/// Puts that wait to be taken out. Contracts see the setup, what has happened, and how many messages
/// were taken out for each number.
///
/// Each entry is added with all that hangs on it, or, where memory is refused, nothing is. A reader
/// takes one pass over the numbers at most, of which there are 36, and none over the entries.
#[derive(Debug, Drop)]
pub struct Journal {
    alloc: Global,
    setup: Setup,
    entries: Vec<Entry>,
    memory: Memory,
    tally: Tally,
    lines: Vec<Line>,
    /// The own services, and which of them match what each peer announced.
    index: Receivers,
    out: Vec<usize>,
    view: SystemView,
    /// Whether the own name is among those required, once they are known.
    awaited: Option<bool>,
    /// No step begins at it or later, in ns of virtual time.
    limit: u64,
}

impl Model for Journal {
    ghost use Rattle.sk_law.specs.Kept.{Kept};
    ghost use Rattle.sk_law.specs.Tied.{AllTied};

    ghost Value = { Kept };

    ghost view = { λ j. record { setup = j.setup; past = record { journal = j.entries.items; memory = j.memory }; out = j.out.items } };

    ghost invariant = { λ j. AllTied j.setup j.memory.tools j.memory.services j.out.items j.entries.items j.tally j.lines.items j.index j.view j.awaited j.limit };
}

impl Journal {
    /// With no entry, and each own service as it is at first. What it keeps later is kept in this
    /// memory.
    pub fn new(alloc: Global, setup: Setup) -> Result<Journal, WantOfMemory>
        requires own { setup.number < length setup.names }
        requires few { length setup.names ≤ 32 }
        requires size { IfSome setup.step (λ size. IsTrue (is_step_size size)) }
        requires distinct { IfSome setup.required (λ names. IsTrue (each_after is_new_name [] names)) }
        requires names { IsTrue (each_after is_new_name [] setup.names) }
        requires duration { setup.duration ≤ 2 ^ 61 }
        requires services { length setup.services ≤ 64 }
        requires numbered { IsTrue (are_numbered 0 setup.services) }
        ensures setup { IfOk result (λ journal. journal.setup ≡ setup) }
        ensures journal { IfOk result (λ journal. journal.past.journal ≡ []) }
        ensures memory { IfOk result (λ journal. journal.past.memory ≡ record { called = false; asked = false; pause = None; tools = []; services = new_states setup.services; ready_awaited = false }) }
        ensures out { IfOk result (λ journal. journal.out ≡ replicate (length setup.names) 0) }
    {
        let services = ServiceStates::at_first(alloc, setup.services.as_slice())?;
        let count = setup.names.as_slice().len();
        let lines = new_lines(alloc, count)?;
        let out = zeros(alloc, count)?;
        let own = setup.services.copy(alloc)?;
        let mut view = first_view(alloc, setup.number, count)?;
        let required = find_needed(alloc, &setup, setup.required.as_ref())?;
        let awaited = require(&mut view, required);
        let limit = setup.duration;
        Ok(Journal {
            alloc,
            setup,
            entries: Vec::new(alloc),
            memory: Memory {
                called: false,
                asked: false,
                pause: None,
                tools: Names::new(Vec::new(alloc)),
                services,
                ready_awaited: false,
            },
            tally: Tally::start(),
            lines,
            index: Receivers::new(alloc, own.into_vec()),
            out,
            view,
            awaited,
            limit,
        })
    }

    /// What holds of each journal, whatever has happened.
    pub fn sound(&self)
        ensures own { self.now.setup.number < length self.now.setup.names }
        ensures few { length self.now.setup.names ≤ 32 }
        ensures few_tools { length self.now.past.memory.tools ≤ 4 }
        ensures size { IfSome self.now.setup.step (λ size. IsTrue (is_step_size size)) }
        ensures duration { self.now.setup.duration ≤ 2 ^ 61 }
        ensures all { length self.now.out ≡ all_of self.now.setup self.now.past.memory.tools }
        ensures within { (p : ℕ) → slice_index_or self.now.out p 0 ≤ length (put self.now.past.journal p) }
    {
        let _ = &self.alloc;
    }

    /// What takes memory later takes it here.
    pub fn alloc(&self) -> Global {
        self.alloc
    }

    /// What the participant was made with.
    pub fn setup(&self) -> &Setup
        ensures { result.now ≡ self.now.setup }
    {
        &self.setup
    }

    /// How many participants there are.
    pub fn participants(&self) -> u32
        ensures { result ≡ length self.now.setup.names }
    {
        self.setup.names.as_slice().len() as u32
    }

    /// How many numbers there are: those of the participants, then those of the tools.
    pub fn numbers(&self) -> u32
        ensures { result ≡ length self.now.setup.names + length self.now.past.memory.tools }
    {
        self.lines.as_slice().len() as u32
    }

    /// The entries at the end.
    pub fn close(self) -> Vec<Entry>
        ensures { result.items ≡ self.past.journal }
    {
        self.entries
    }

    /// The entries, in the order in which they happened.
    pub fn entries(&self) -> &[Entry]
        ensures { result.now ≡ self.now.past.journal }
    {
        self.entries.as_slice()
    }

    /// The present state.
    pub fn state(&self) -> State
        ensures { result ≡ state_of self.now.past.journal }
    {
        self.tally.state
    }

    /// The system state that was told last.
    pub fn system_told(&self) -> State
        ensures { result ≡ system_told self.now.past.journal }
    {
        self.tally.told
    }

    /// Whether Running was entered.
    pub fn has_run(&self) -> bool
        ensures { result ≡ has_run self.now.past.journal }
    {
        self.tally.has_run
    }

    /// The step that was begun last.
    pub fn last_begun(&self) -> Option<Begun>
        ensures value { result ≡ last_begun self.now.past.journal }
        ensures early { IfSome result (λ step. step.time ≤ 2 ^ 61) }
    {
        self.tally.begun
    }

    /// The same, where it hasn't ended.
    pub fn open_step(&self) -> Option<Begun>
        ensures value { result ≡ open_step self.now.past.journal }
        ensures early { IfSome result (λ step. step.time ≤ 2 ^ 61) }
        ensures marked { IfSome result (λ step. step.number ≤ 2 ^ 63) }
    {
        self.tally.step
    }

    /// The number of the next step.
    pub fn next_number(&self) -> u64
        ensures value { result ≡ next_number self.now.past.journal }
        ensures small { result ≤ 2 ^ 63 }
    {
        self.tally.next
    }

    /// Whether the asynchronous ready handler was completed.
    pub fn has_completed_ready(&self) -> bool
        ensures { result ≡ has_completed_ready self.now.past.journal }
    {
        self.tally.has_completed
    }

    /// Whether there are too many entries.
    pub fn is_long(&self) -> bool
        ensures { result ≡ nat_le 500000 (length self.now.past.journal) }
    {
        500_000 <= self.entries.len()
    }

    /// Whether there are too many payload bytes.
    pub fn is_heavy(&self) -> bool
        ensures { result ≡ nat_le 33554432 (payload self.now.past.journal) }
    {
        33_554_432 <= self.tally.payload
    }

    /// Whether the ready handler was called.
    pub fn called(&self) -> bool
        ensures { result ≡ self.now.past.memory.called }
    {
        self.memory.called
    }

    /// The pause count that runs, in turns.
    pub fn pause(&self) -> Option<u32>
        ensures { result ≡ self.now.past.memory.pause }
    {
        self.memory.pause
    }

    /// The step size, of one that is synchronised, in ns of virtual time.
    pub fn size(&self) -> Option<u64>
        ensures value { result ≡ self.now.setup.step }
        ensures range { IfSome result (λ size. IsTrue (is_step_size size)) }
    {
        self.setup.step
    }
}

/// Of no entry: the own state is Invalid, and none is required.
fn first_view(alloc: Global, own: u32, count: usize) -> Result<SystemView, WantOfMemory>
    requires own { own < count }
    requires few { count ≤ 32 }
    ensures { IfOk result (λ view. view ≡ record { required = None; known = slice_set (replicate count None) own (Some Invalid) }) }
{
    let mut view = SystemView::new(alloc, count as u32)?;
    view.note(own, State::Invalid);
    Ok(view)
}
