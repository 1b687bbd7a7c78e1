//! The core of the monitor: messages in, lines out.

ghost use Rattle.std.specs.Prelude.{◌≡◌, ◌∷◌, OnOk, OnErr, IfOk};
ghost use Rattle.sk_system.specs.Table.{seen_of, put};
ghost use Rattle.sk_system.specs.Lines.{system_lines};
ghost use Rattle.sk_system.specs.System.{system_state};
ghost use Rattle.sk_system.specs.Notice.{LosesLink, notice_of};
ghost use Rattle.sk_system.specs.Monitor.{new_monitor, with_printed, requiring, monitor_after, monitor_lines};

use crate::line::{left_line, lost_line, state_line, with_system_line};
use crate::required::{LastStates, Required};
use crate::table::{Ending, Overlay, ParticipantTable, Seen};
use sk_base::{Line, Name, WantOfMemory};
use sk_msg::{Content, Message, Names, State};
use std::alloc::Global;
use std::marker::Model;

/// What the monitor has seen of a simulation. Contracts see what it keeps: whom the first Workflow
/// required, of each name the last state and whether it has left or is lost, and the state of the
/// last system line.
#[derive(Debug, Drop)]
pub struct Monitor {
    alloc: Global,
    required: Option<Names>,
    table: ParticipantTable,
    printed: State,
}

impl Model for Monitor {
    ghost use Rattle.sk_system.specs.Monitor.{Monitor};

    ghost Value = { Monitor };

    ghost view = { λ m. record { required = m.required; table = m.table; printed = m.printed } };
}

impl Monitor {
    /// Nothing was seen yet. What is seen later is kept in this memory.
    pub fn new(alloc: Global) -> Monitor
        ensures { result ≡ new_monitor }
    {
        Monitor {
            alloc,
            required: None,
            table: ParticipantTable::new(alloc),
            printed: State::Invalid,
        }
    }

    /// The lines for a message of this name: one for a Status and one for a Leave, and then, as for
    /// the first Workflow, one for the system state where it has changed.
    #[tactic(auto, unfolding(crate::specs::Monitor::monitor_after, crate::specs::Monitor::own_lines))]
    pub fn note(&mut self, name: &Name, message: &Message) -> Result<Vec<Line>, WantOfMemory>
        ensures lines { IfOk result (λ lines.
            lines.items ≡ monitor_lines self.old name.now (notice_of message.now)) }
        ensures kept { OnOk result
            (self.new ≡ monitor_after self.old name.now (notice_of message.now)) }
        ensures same { OnErr result (self.new ≡ self.old) }
    {
        match message.content() {
            Content::Status { state, .. } => {
                let line = state_line(self.alloc, name, *state)?;
                let seen = self.table.of(name).with_state(*state);
                self.see(name, seen, line)
            }
            Content::Leave => {
                let line = left_line(self.alloc, name)?;
                let seen = self.table.of(name).with_ending(Ending::Left);
                self.see(name, seen, line)
            }
            Content::Workflow { required } => self.require(required),
            _ => Ok(Vec::new(self.alloc)),
        }
    }

    /// The lines for the loss of this name's link before its Leave. After that, or a second time,
    /// it counts no more.
    #[tactic(auto, using(crate::proofs::LineLaws::unchanged), unfolding(crate::specs::Monitor::monitor_after, crate::specs::Monitor::own_lines))]
    pub fn lost(&mut self, name: &Name) -> Result<Vec<Line>, WantOfMemory>
        ensures lines { IfOk result (λ lines.
            lines.items ≡ monitor_lines self.old name.now LosesLink) }
        ensures kept { OnOk result (self.new ≡ monitor_after self.old name.now LosesLink) }
        ensures same { OnErr result (self.new ≡ self.old) }
    {
        let seen = self.table.of(name);
        if seen.is_gone() {
            return Ok(Vec::new(self.alloc));
        }
        let line = lost_line(self.alloc, name)?;
        self.see(name, seen.with_ending(Ending::Lost), line)
    }

    /// This was seen of the name, and the line tells of it.
    fn see(&mut self, name: &Name, seen: Seen, line: Line) -> Result<Vec<Line>, WantOfMemory>
        ensures lines { IfOk result (λ lines. lines.items
            ≡ line ∷ system_lines self.old.printed self.new.printed) }
        ensures kept { OnOk result (self.new ≡ with_printed (record self.old { table = put name.now seen self.old.table })) }
        ensures same { OnErr result (self.new ≡ self.old) }
    {
        let overlay = Overlay {
            table: &self.table,
            name,
            seen,
        };
        let system = system_state(&self.required, &overlay);
        let lines = vec![in self.alloc; line]?;
        let lines = with_system_line(self.alloc, lines, self.printed, system)?;
        self.table.put(self.alloc, name, seen)?;
        self.printed = system;
        Ok(lines)
    }

    /// The first Workflow counts.
    #[tactic(auto, using(crate::proofs::LineLaws::unchanged))]
    fn require(&mut self, required: &Names) -> Result<Vec<Line>, WantOfMemory>
        ensures lines { IfOk result (λ lines. lines.items ≡ system_lines self.old.printed self.new.printed) }
        ensures kept { OnOk result (self.new ≡ requiring self.old self.old.required required.now) }
        ensures same { OnErr result (self.new ≡ self.old) }
    {
        if let Some(_) = self.required {
            return Ok(Vec::new(self.alloc));
        }
        let system = Required {
            names: required.as_slice(),
            known: &self.table,
        }
        .system();
        let lines = with_system_line(self.alloc, Vec::new(self.alloc), self.printed, system)?;
        self.required = Some(required.copy(self.alloc)?);
        self.printed = system;
        Ok(lines)
    }
}

/// The system state over these names; Invalid where the workflow isn't known.
fn system_state(required: &Option<Names>, known: &Overlay<'_>) -> State
    ensures { result ≡ system_state required.now
        (λ name. (seen_of (put known.now.name.now known.now.seen known.now.table.now) name).state) }
{
    match required {
        Some(names) => Required {
            names: names.as_slice(),
            known,
        }
        .system(),
        None => State::Invalid,
    }
}
