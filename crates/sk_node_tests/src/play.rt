//! Participants that a test drives by hand: who they are, their messages moved, and their journals in words.

ghost use Rattle.std.specs.Prelude.{◌≡◌, ◌<◌, ◌≤◌, [], IsTrue, IfOk, length};
ghost use Rattle.sk_msg.specs.Each.{each_after};
ghost use Rattle.sk_msg.specs.Rules.{is_new_name, is_step_size, is_told};

use crate::player::Player;
use sk_base::{Name, SimTime};
use sk_law::{Services, Setup};
use sk_msg::rules::{is_new_name, is_step_size, is_told};
use sk_msg::{Command, Content, Entry, Message, Names, State, Verdict};
use sk_node::{Node, Turned};
use std::alloc::Global;
use std::process::Abort;
use std::test::Fail;

/// A participant with its app.
#[derive(Drop)]
pub struct Seat {
    pub number: u32,
    pub node: Node,
    pub app: Player,
}

/// The names, of which none stands twice.
pub fn names(rt: &impl Abort, alloc: Global, texts: &[&str]) -> Result<Names, Fail>
    ensures few { IfOk result (λ names. length names ≤ 32) }
    ensures distinct { IfOk result (λ names. IsTrue (each_after is_new_name [] names)) }
{
    let mut names = Vec::new(alloc);
    for text in texts {
        let name = Name::new(alloc, text)?;
        assert!(rt; is_new_name(&names, &name), "{text} twice");
        names.push(name)?;
    }
    assert!(rt; names.len() <= 32);
    Ok(Names::new(names))
}

/// A coordinated participant of this number, with steps of this size in ns; these are required.
pub fn make_seat(
    rt: &impl Abort,
    alloc: Global,
    all: &[&str],
    required: &[&str],
    number: u32,
    step: u64,
    duration: u64,
) -> Result<Seat, Fail> {
    let required = names(rt, alloc, required)?;
    let all = names(rt, alloc, all)?;
    assert!(rt; (number as usize) < all.as_slice().len());
    assert!(rt; is_step_size(step));
    assert!(rt; duration <= 1 << 61);
    let setup = Setup {
        number,
        names: all,
        coordinated: true,
        step: Some(step),
        is_async: false,
        ready_async: false,
        services: Services::new(Vec::new(alloc)),
        duration,
        required: Some(required),
    };
    Ok(Seat {
        number,
        node: Node::new(alloc, setup)?,
        app: Player::new(alloc),
    })
}

/// Its next turn.
pub fn turn(seat: &mut Seat) -> Result<Turned, Fail> {
    Ok(seat.node.turn(&mut seat.app)?)
}

/// A command is asked of it: its answer.
pub fn command(seat: &mut Seat, command: Command) -> Result<Verdict, Fail> {
    Ok(seat.node.ask(command, &mut seat.app)?)
}

/// It takes a message of a peer while that link is open there: whether it was.
pub fn take(seat: &mut Seat, peer: u32, message: Message) -> Result<bool, Fail> {
    if !seat.node.is_open(peer) {
        return Ok(false);
    }
    seat.node.take(peer, message, &mut seat.app)?;
    Ok(true)
}

/// A peer's link is lost there while it is open, with reason 5: whether it was.
pub fn lose(seat: &mut Seat, peer: u32) -> Result<bool, Fail> {
    if !seat.node.is_open(peer) {
        return Ok(false);
    }
    seat.node.gone(peer, 5, &mut seat.app)?;
    Ok(true)
}

/// One turn after another until nothing comes next by itself, at most a hundred.
pub fn turn_on(seat: &mut Seat) -> Result<Turned, Fail> {
    for _turn in 0..100 {
        match turn(seat)? {
            Turned::Entries(_) | Turned::Counted => {}
            turned => return Ok(turned),
        }
    }
    Ok(Turned::Counted)
}

/// Turns until it is in this state, at most a hundred.
pub fn turn_to(seat: &mut Seat, state: State) -> Result<(), Fail> {
    for _turn in 0..100 {
        if state_of(&seat.node) == state {
            return Ok(());
        }
        turn(seat)?;
    }
    Ok(())
}

/// The state that it entered last.
pub fn state_of(node: &Node) -> State {
    let mut last = State::Invalid;
    for entry in node.journal() {
        if let Entry::State(state) = entry {
            last = *state;
        }
    }
    last
}

/// All that waits at the one for the other is taken there, while its link is open there.
pub fn carry(from: &mut Seat, to: &mut Seat) -> Result<(), Fail> {
    for _message in 0..1000 {
        let Some(message) = from.node.take_out(to.number) else {
            return Ok(());
        };
        take(to, from.number, message)?;
    }
    Ok(())
}

/// All that waits at both is taken at the other.
pub fn exchange(one: &mut Seat, other: &mut Seat) -> Result<(), Fail> {
    carry(one, other)?;
    carry(other, one)?;
    Ok(())
}

/// What an entry says, in words.
pub fn words(alloc: Global, entry: &Entry) -> Result<String, Fail> {
    Ok(match entry {
        Entry::Got(peer, message) => format!(in alloc; "got {peer} {}", said(message))?,
        Entry::Put(peer, message) => format!(in alloc; "put {peer} {}", said(message))?,
        Entry::Hand { .. } => format!(in alloc; "hand")?,
        Entry::State(state) => format!(in alloc; "state {state}")?,
        Entry::System(state) => format!(in alloc; "system {state}")?,
        Entry::Begin(number, at) => format!(in alloc; "begin {number} {}", at.ns())?,
        Entry::Done(number) => format!(in alloc; "done {number}")?,
        Entry::End(number) => format!(in alloc; "end {number}")?,
        Entry::Ask(_, Verdict::Accepted) => format!(in alloc; "ask accepted")?,
        Entry::Ask(_, Verdict::Refused(state)) => format!(in alloc; "ask refused {state}")?,
        Entry::Gone(peer, reason) => format!(in alloc; "gone {peer} {reason}")?,
        Entry::Stray(number) => format!(in alloc; "stray {number}")?,
        Entry::Did(..) => format!(in alloc; "did")?,
        Entry::Fault(number) => format!(in alloc; "fault {number}")?,
    })
}

/// What a message is, in a word.
fn said(message: &Message) -> &'static str {
    match message.content() {
        Content::Hello { .. } => "Hello",
        Content::Leave => "Leave",
        Content::NextStep { .. } => "NextStep",
        Content::ServiceAdd { .. } => "ServiceAdd",
        Content::ServicesEnd => "ServicesEnd",
        Content::Status { .. } => "Status",
        Content::Workflow { .. } => "Workflow",
        Content::Abort => "Abort",
        Content::Refuse { .. } => "Refuse",
        _ => "data",
    }
}

/// From this entry on the journal says this, its Gots and Puts left out.
pub fn expect(
    rt: &impl Abort,
    alloc: Global,
    node: &Node,
    from: usize,
    lines: &[&str],
) -> Result<(), Fail> {
    let mut text = String::new(alloc);
    let mut wanted = String::new(alloc);
    for (index, entry) in node.journal().iter().enumerate() {
        if index >= from && !is_message(entry) {
            text.push_str(words(alloc, entry)?.as_str())?;
            text.push_str("\n")?;
        }
    }
    for line in lines {
        wanted.push_str(line)?;
        wanted.push_str("\n")?;
    }
    assert_eq!(rt; text.as_str(), wanted.as_str());
    Ok(())
}

/// Whether it is of a message got or put.
fn is_message(entry: &Entry) -> bool {
    matches!(entry, Entry::Got(..) | Entry::Put(..))
}
