//! What is known of the others.

ghost use Rattle.std.specs.Prelude.{◌≡◌, ◌≤◌, ◌<◌, ◌^◌, ◌-◌, ◌&&◌, ◌||◌, not, ◌==◌, length, IfOk, slice_index_or};
ghost use Rattle.std.specs.List.{list_all};
ghost use Rattle.sk_law.specs.Readings.{is_gone, got};
ghost use Rattle.sk_law.specs.Links.{has_announced, told, reached, system, is_peer, is_open, all_reached, knows_all, all_announced, has_tool, limit, said, peers};
ghost use Rattle.sk_law.specs.Rows.{has_stopped, knows_services, are_others_done};
ghost use Rattle.sk_law.specs.Tied.{here_in, no_line};
ghost use Rattle.sk_law.specs.Questions.{answers, line_answers, line_is_here, all_answer, some_here};

use crate::Said;
use crate::journal::Journal;
use crate::line::Line;
use sk_base::{SimTime, WantOfMemory};
use sk_msg::State;
use std::alloc::Global;

impl Journal {
    /// The state of the whole simulation.
    pub fn system(&self) -> State
        ensures { result ≡ system self.now.setup self.now.past }
    {
        self.view.system()
    }

    /// Whether all required have reached this state; true of one that isn't coordinated.
    #[tactic(auto, unfolding(crate::specs::Links::all_reached))]
    pub fn all_reached(&self, goal: State) -> bool
        ensures { result ≡ all_reached self.now.setup self.now.past goal }
    {
        !self.setup.coordinated || self.view.all_reached(goal)
    }

    /// Whether this is the number of a peer.
    pub fn is_peer(&self, number: u32) -> bool
        ensures { result ≡ is_peer self.now.setup number }
    {
        (number as usize) < self.setup.names.as_slice().len() && number != self.setup.number
    }

    /// Whether this is the number of a peer or tool that has neither left nor gone.
    pub fn is_open(&self, number: u32) -> bool
        ensures { result ≡ is_open self.now.setup self.now.past number }
    {
        match self.lines.get(number as usize) {
            Some(line) => number != self.setup.number && is_here(line),
            None => false,
        }
    }

    /// Whether the link of this number is gone.
    pub fn is_gone(&self, number: u32) -> bool
        ensures { result ≡ is_gone self.now.past.journal number }
    {
        match self.lines.get(number as usize) {
            Some(line) => line.gone,
            None => false,
        }
    }

    /// How many messages were got from this number.
    pub fn count_of_got(&self, number: u32) -> u64
        ensures { result ≡ length (got self.now.past.journal number) }
    {
        match self.lines.get(number as usize) {
            Some(line) => line.got,
            None => 0,
        }
    }

    /// Each peer that isn't gone, also one that has left.
    pub fn reached(&self) -> Result<Vec<u32>, WantOfMemory>
        ensures { IfOk result (λ numbers. numbers.items ≡ reached self.now.setup self.now.past) }
    {
        let limit = self.setup.names.as_slice().len();
        let found = here(self.alloc, self.lines.as_slice(), self.setup.number, limit)?;
        Ok(found)
    }

    /// Each peer and tool that isn't gone.
    pub fn told(&self) -> Result<Vec<u32>, WantOfMemory>
        ensures { IfOk result (λ numbers. numbers.items ≡ told self.now.setup self.now.past) }
    {
        let lines = self.lines.as_slice();
        let found = here(self.alloc, lines, self.setup.number, lines.len())?;
        Ok(found)
    }

    /// Whether Hello of each peer was got.
    pub fn knows_all(&self) -> bool
        ensures { result ≡ knows_all self.now.setup self.now.past }
    {
        self.each_peer(Question::Hello)
    }

    /// Whether ServicesEnd of each peer was got.
    pub fn knows_services(&self) -> bool
        ensures { result ≡ knows_services self.now.setup self.now.past }
    {
        self.each_peer(Question::ServicesEnd)
    }

    /// Whether each synchronised peer that is present has announced this time or a later one.
    pub fn all_announced(&self, at: SimTime) -> bool
        ensures { result ≡ all_announced self.now.setup self.now.past at }
    {
        self.each_peer(Question::Announced(at))
    }

    /// Whether each synchronised peer has reached Stopping or has left.
    pub fn are_others_done(&self) -> bool
        ensures { result ≡ are_others_done self.now.setup self.now.past }
    {
        self.each_peer(Question::Done)
    }

    /// Whether a tool is linked.
    pub fn has_tool(&self) -> bool
        ensures { result ≡ has_tool self.now.setup self.now.past }
    {
        some_is_here(self.lines.as_slice(), self.setup.names.as_slice().len())
    }

    /// Whether the answer is yes for each peer.
    fn each_peer(&self, question: Question) -> bool
        ensures { result ≡ list_all (λ p. answers question (is_gone self.now.past.journal p) (said self.now.setup self.now.past p)) (peers self.now.setup) }
    {
        let limit = self.setup.names.as_slice().len();
        all_answer(self.lines.as_slice(), self.setup.number, limit, question)
    }

    /// No step begins at it or later: the duration, and of a coordinated participant each bound that
    /// coordinated peers told. In ns of virtual time.
    pub fn limit(&self) -> u64
        ensures value { result ≡ limit self.now.setup self.now.past }
        ensures early { result ≤ 2 ^ 61 }
    {
        self.limit
    }
}

/// What may be asked of each peer.
#[derive(Clone, Copy, Debug)]
enum Question {
    /// Was its Hello got?
    Hello,
    /// Was its ServicesEnd got?
    ServicesEnd,
    /// Where it is synchronised and present: has it announced this time or a later one?
    Announced(SimTime),
    /// Where it is synchronised: has it reached Stopping, or left?
    Done,
}

/// Whether the answer is yes for each number below the limit but the own one.
fn all_answer(lines: &[Line], own: u32, limit: usize, question: Question) -> bool
    requires { limit ≤ length lines.now }
    ensures { result ≡ all_answer question lines.now own limit }
{
    (0..limit).all(|place| is_answered(lines, own, place, question))
}

/// Whether it is the own number, or the answer is yes.
fn is_answered(lines: &[Line], own: u32, place: usize, question: Question) -> bool
    requires { place < length lines.now }
    ensures { result ≡ (place == own || line_answers question lines.now place) }
{
    place == own as usize || answers(question, &lines[place])
}

/// Whether the answer is yes.
fn answers(question: Question, line: &Line) -> bool
    ensures { result ≡ answers question line.now.gone line.now.said }
{
    let said = &line.said;
    match question {
        Question::Hello => said.hello,
        Question::ServicesEnd => said.ended,
        Question::Announced(at) => {
            !said.synchronised || !is_here(line) || has_announced(said.announced, at)
        }
        Question::Done => !said.synchronised || said.left || has_stopped(said.status),
    }
}

/// Whether it has neither left nor gone.
fn is_here(line: &Line) -> bool
    ensures { result ≡ (not line.now.gone && not line.now.said.left) }
{
    !line.gone && !line.said.left
}

/// Whether this time or a later one was announced.
fn has_announced(announced: Option<SimTime>, at: SimTime) -> bool
    ensures { result ≡ has_announced at announced }
{
    match announced {
        Some(time) => at <= time,
        None => false,
    }
}

/// Whether the state has reached Stopping.
fn has_stopped(status: Option<State>) -> bool
    ensures { result ≡ has_stopped status }
{
    match status {
        Some(state) => state.reached(State::Stopping),
        None => false,
    }
}

/// Whether one from this number on is here.
fn some_is_here(lines: &[Line], from: usize) -> bool
    requires { from ≤ length lines.now }
    ensures { result ≡ some_here lines.now from (length lines.now - from) }
{
    (from..lines.len()).any(|place| is_here_at(lines, place))
}

/// Whether the one of this number has neither left nor gone.
fn is_here_at(lines: &[Line], place: usize) -> bool
    requires { place < length lines.now }
    ensures { result ≡ line_is_here lines.now place }
{
    is_here(&lines[place])
}

/// Each number below the limit but the own one and those that are gone.
fn here(alloc: Global, lines: &[Line], own: u32, limit: usize) -> Result<Vec<u32>, WantOfMemory>
    requires within { limit ≤ length lines.now }
    requires few { length lines.now ≤ 2 ^ 32 }
    ensures { IfOk result (λ numbers. numbers.items ≡ here_in lines.now own limit) }
{
    let mut found = Vec::new(alloc);
    for place in 0..limit {
        if is_told(lines, own, place) {
            found.push(place as u32)?;
        }
    }
    Ok(found)
}

/// Whether this number is another's whose link isn't gone.
fn is_told(lines: &[Line], own: u32, place: usize) -> bool
    requires { place < length lines.now }
    ensures { result ≡ (not (place == own) && not (slice_index_or lines.now place no_line).gone) }
{
    place != own as usize && !lines[place].gone
}
