//! The lines that the tools print.

ghost use Rattle.std.specs.Prelude.{◌≡◌, ◌++◌, IfOk};
ghost use Rattle.sk_system.specs.Lines.{state_line, left_line, lost_line, system_line, system_lines};

use crate::required::is_same;
use sk_base::{Line, Name, WantOfMemory};
use sk_msg::State;
use std::alloc::Global;
use std::marker::Model;

/// Lines in order. Contracts see the list.
#[derive(Debug, Drop)]
pub struct Lines {
    lines: Vec<Line>,
}

impl Model for Lines {
    ghost use Rattle.std.specs.Prelude.{List, ℕ};

    ghost Value = { List (List ℕ) };

    ghost view = { λ lines. lines.lines.items };
}

impl Lines {
    /// These lines, in this order.
    pub fn new(lines: Vec<Line>) -> Lines
        ensures { result ≡ lines.items }
    {
        Lines { lines }
    }

    /// The lines in order.
    pub fn as_slice(&self) -> &[Line]
        ensures { result.now ≡ self.now }
    {
        self.lines.as_slice()
    }

    /// The vector that they were made from.
    pub fn into_vec(self) -> Vec<Line>
        ensures { result.items ≡ self }
    {
        self.lines
    }
}

/// `NAME STATE`: a participant told its state.
#[tactic(auto, unfolding(crate::specs::Lines::state_line))]
pub fn state_line(alloc: Global, name: &Name, state: State) -> Result<Line, WantOfMemory>
    ensures { IfOk result (λ line. line ≡ state_line name.now state) }
{
    let name = name.as_str();
    let state = state.name();
    Ok(Line::new(format!(in alloc; "{name} {state}")?))
}

/// `left NAME`: a participant left.
#[tactic(auto, unfolding(crate::specs::Lines::left_line))]
pub fn left_line(alloc: Global, name: &Name) -> Result<Line, WantOfMemory>
    ensures { IfOk result (λ line. line ≡ left_line name.now) }
{
    let name = name.as_str();
    Ok(Line::new(format!(in alloc; "left {name}")?))
}

/// `lost NAME`: a participant's link ended before that.
#[tactic(auto, unfolding(crate::specs::Lines::lost_line))]
pub fn lost_line(alloc: Global, name: &Name) -> Result<Line, WantOfMemory>
    ensures { IfOk result (λ line. line ≡ lost_line name.now) }
{
    let name = name.as_str();
    Ok(Line::new(format!(in alloc; "lost {name}")?))
}

/// `system STATE`: the state of the whole simulation.
#[tactic(auto, unfolding(crate::specs::Lines::system_line))]
pub fn system_line(alloc: Global, state: State) -> Result<Line, WantOfMemory>
    ensures { IfOk result (λ line. line ≡ system_line state) }
{
    let state = state.name();
    Ok(Line::new(format!(in alloc; "system {state}")?))
}

/// These lines, and behind them one for the system state where it isn't that of the last such line.
pub fn with_system_line(
    alloc: Global,
    mut lines: Vec<Line>,
    last: State,
    system: State,
) -> Result<Vec<Line>, WantOfMemory>
    ensures { IfOk result (λ all. all.items ≡ lines.items ++ system_lines last system) }
{
    if !is_same(last, system) {
        lines.push(system_line(alloc, system)?)?;
    }
    Ok(lines)
}
