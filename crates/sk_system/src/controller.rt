//! The core of the controller: messages in, lines and decisions out.

ghost use Rattle.std.specs.Prelude.{◌≡◌, ◌||◌, [], false, OnOk, OnErr, IfOk, if◌then◌else◌};
ghost use Rattle.sk_system.specs.Table.{seen_of, put, state_or_error};
ghost use Rattle.sk_system.specs.Notice.{LosesLink, notice_of};
ghost use Rattle.sk_system.specs.Controller.{new_controller, has_ended, end_of, with_decision};
ghost use Rattle.sk_system.specs.Controller.{controller_after, controller_lines, controller_aborts, lines_between, aborts_between};

use crate::line::{Lines, with_system_line};
use crate::required::{LastStates, Required, is_same};
use crate::table::{Ending, Overlay, ParticipantTable, Seen};
use sk_base::{ExitStatus, Name, WantOfMemory};
use sk_msg::{Content, Message, Names, State};
use std::alloc::Global;
use std::marker::Model;

/// What the controller has seen of a simulation. Contracts see what it keeps: whom it requires, of
/// each name the last state and whether it has left or is lost, the state of the last system line,
/// whether an abort was asked for, and whether a participant was Aborting.
#[derive(Debug, Drop)]
pub struct Controller {
    alloc: Global,
    required: Names,
    table: ParticipantTable,
    printed: State,
    aborted: bool,
    aborting: bool,
}

impl Model for Controller {
    ghost use Rattle.sk_system.specs.Controller.{Controller};

    ghost Value = { Controller };

    ghost view = { λ c. record {
      required = c.required;
      table = c.table;
      printed = c.printed;
      aborted = c.aborted;
      aborting = c.aborting;
    } };
}

/// What follows from a message, or from the loss of a link.
#[derive(Debug, Drop)]
pub struct Reaction {
    /// To be printed.
    pub lines: Lines,
    /// Whether Abort is to go to every open link. It is true at most once.
    pub abort: bool,
    /// The status, once each that is required has left or is lost: Aborted where an abort was asked
    /// for or a participant was Aborting, else Done.
    pub ended: Option<ExitStatus>,
}

impl Controller {
    /// These are required, and nothing was seen of them yet. What is seen later is kept in this
    /// memory.
    pub fn new(alloc: Global, required: Vec<Name>) -> Controller
        ensures { result ≡ new_controller required.items }
    {
        Controller {
            alloc,
            required: Names::new(required),
            table: ParticipantTable::new(alloc),
            printed: State::Invalid,
            aborted: false,
            aborting: false,
        }
    }

    /// What follows from a message of this name: a line where the system state has changed, an
    /// abort where one that is required is in Error for the first time, and the end.
    #[tactic(auto, unfolding(crate::specs::Controller::controller_after))]
    pub fn note(&mut self, name: &Name, message: &Message) -> Result<Reaction, WantOfMemory>
        ensures kept { OnOk result
            (self.new ≡ controller_after self.old name.now (notice_of message.now)) }
        ensures lines { IfOk result (λ reaction.
            reaction.lines ≡ controller_lines self.old name.now (notice_of message.now)) }
        ensures abort { IfOk result (λ reaction.
            reaction.abort ≡ controller_aborts self.old name.now (notice_of message.now)) }
        ensures ended { IfOk result (λ reaction. reaction.ended ≡ end_of self.new) }
        ensures same { OnErr result (self.new ≡ self.old) }
    {
        match message.content() {
            Content::Status { state, .. } => {
                let seen = self.table.of(name).with_state(*state);
                self.see(name, seen, is_same(State::Aborting, *state))
            }
            Content::Leave => {
                let seen = self.table.of(name).with_ending(Ending::Left);
                self.see(name, seen, false)
            }
            _ => Ok(self.at_rest()),
        }
    }

    /// What follows from the loss of this name's link before its Leave: from then on its state is
    /// taken as Error. After its Leave, or a second time, it counts no more.
    #[tactic(auto, using(crate::proofs::LineLaws::unchanged), unfolding(crate::specs::Controller::controller_after))]
    pub fn lost(&mut self, name: &Name) -> Result<Reaction, WantOfMemory>
        ensures kept { OnOk result (self.new ≡ controller_after self.old name.now LosesLink) }
        ensures lines { IfOk result (λ reaction.
            reaction.lines ≡ controller_lines self.old name.now LosesLink) }
        ensures abort { IfOk result (λ reaction.
            reaction.abort ≡ controller_aborts self.old name.now LosesLink) }
        ensures ended { IfOk result (λ reaction. reaction.ended ≡ end_of self.new) }
        ensures same { OnErr result (self.new ≡ self.old) }
    {
        let seen = self.table.of(name);
        if seen.is_gone() {
            return Ok(self.at_rest());
        }
        self.see(name, seen.with_ending(Ending::Lost), false)
    }

    /// This was seen of the name; after the end it doesn't count.
    #[tactic(auto, using(crate::proofs::LineLaws::unchanged))]
    fn see(&mut self, name: &Name, seen: Seen, aborting: bool) -> Result<Reaction, WantOfMemory>
        ensures kept { OnOk result (self.new ≡ (if has_ended self.old then self.old
            else with_decision (record self.old { table = put name.now seen self.old.table; aborting = self.old.aborting || aborting }))) }
        ensures lines { IfOk result (λ reaction. reaction.lines ≡ lines_between self.old self.new) }
        ensures abort { IfOk result (λ reaction. reaction.abort ≡ aborts_between self.old self.new) }
        ensures ended { IfOk result (λ reaction. reaction.ended ≡ end_of self.new) }
        ensures same { OnErr result (self.new ≡ self.old) }
    {
        if self.has_ended() {
            return Ok(self.at_rest());
        }
        let known = LossAsError(Overlay {
            table: &self.table,
            name,
            seen,
        });
        let required = Required {
            names: self.required.as_slice(),
            known: &known,
        };
        let system = required.system();
        let has_error = required.some_is(State::Error);
        let lines = with_system_line(self.alloc, Vec::new(self.alloc), self.printed, system)?;
        self.table.put(self.alloc, name, seen)?;
        let abort = has_error && !self.aborted;
        self.printed = system;
        self.aborted |= has_error;
        self.aborting |= aborting;
        Ok(Reaction {
            lines: Lines::new(lines),
            abort,
            ended: self.ended(),
        })
    }

    /// Nothing changes.
    fn at_rest(&self) -> Reaction
        ensures lines { result.lines ≡ [] }
        ensures abort { result.abort ≡ false }
        ensures ended { result.ended ≡ end_of self.now }
    {
        Reaction {
            lines: Lines::new(Vec::new(self.alloc)),
            abort: false,
            ended: self.ended(),
        }
    }

    /// The status with which it has ended.
    fn ended(&self) -> Option<ExitStatus>
        ensures { result ≡ end_of self.now }
    {
        if !self.has_ended() {
            return None;
        }
        if self.aborting || self.aborted {
            Some(ExitStatus::Aborted)
        } else {
            Some(ExitStatus::Done)
        }
    }

    /// Whether each that is required has left or is lost.
    fn has_ended(&self) -> bool
        ensures { result ≡ has_ended self.now }
    {
        self.required
            .as_slice()
            .iter()
            .all(|name| self.table.of(name).is_gone())
    }
}

/// The last states by name, where that of a lost one is taken as Error.
#[derive(Clone, Copy)]
struct LossAsError<'a>(Overlay<'a>);

impl LastStates<Name> for LossAsError<'_> {
    ghost known = { λ states name. state_or_error (seen_of (put states.0.name.now states.0.seen states.0.table.now) name) };

    fn last_state(&self, name: &Name) -> State {
        self.0.of(name).state_or_error().unwrap_or(State::Invalid)
    }
}
