//! One participant, played by rows.

ghost use Rattle.std.specs.Prelude.{◌<◌, ◌≤◌, [], IsTrue, IfOk, length};
ghost use Rattle.sk_msg.specs.Each.{each_after};
ghost use Rattle.sk_msg.specs.Rules.{is_new_name};
ghost use Rattle.sk_pubsub.specs.Announcing.{are_numbered};

use crate::actions::push_actions;
use crate::fault::Fault;
use crate::lines::line;
use crate::messages::{announcement, hello, message};
use crate::player::Player;
use crate::words::{number_32, service, word, words_of};
use sk_base::Name;
use sk_law::{Services, Setup};
use sk_msg::rules::is_new_name;
use sk_msg::{Entry, Message, Names, Service, State};
use sk_node::{Node, Turned};
use std::alloc::Global;

/// A service of a peer.
#[derive(Drop)]
struct Theirs {
    peer: u32,
    service: Service,
}

/// The participant with its app, and what is told of the others.
#[derive(Drop)]
pub struct Play {
    alloc: Global,
    peers: u32,
    own: Vec<Service>,
    theirs: Vec<Theirs>,
    node: Option<Node>,
    player: Player,
}

impl Play {
    /// Nothing but the number of its peers is known.
    pub fn new(alloc: Global, peers: u32) -> Play {
        Play {
            alloc,
            peers,
            own: Vec::new(alloc),
            theirs: Vec::new(alloc),
            node: None,
            player: Player::new(alloc),
        }
    }

    /// The lines below a row.
    pub fn row(&mut self, row: &str) -> Result<String, Fault> {
        let alloc = self.alloc;
        let words = words_of(alloc, row)?;
        match word(&words, 0) {
            "#" => Ok(String::new(alloc)),
            "case" => {
                let peers = number_32(&words, 1)?;
                *self = Play::new(alloc, peers);
                Ok(String::new(alloc))
            }
            "own" => self.add_own(behind_word(row)),
            "peer" => self.add_theirs(number_32(&words, 1)?, behind_word(behind_word(row))),
            "make" => self.make(),
            "run" => self.run(),
            "do" => self.step(behind_word(row)),
            "on" => self.plan(number_32(&words, 1)?, behind_word(behind_word(row))),
            "got" => self.get(number_32(&words, 1)?, behind_word(behind_word(row))),
            "gone" => self.lose(number_32(&words, 1)?),
            "turn" => self.turn(),
            _ => Err(Fault::BadRow),
        }
    }

    /// It has these services too.
    fn add_own(&mut self, services: &str) -> Result<String, Fault> {
        let alloc = self.alloc;
        for part in services.split(';') {
            let Ok(id) = u32::try_from(self.own.len()) else {
                return Err(Fault::BadRow);
            };
            let words = words_of(alloc, part.trim())?;
            self.own.push(service(alloc, id, &words, 0)?)?;
        }
        Ok(String::new(alloc))
    }

    /// Its peer has these services too.
    fn add_theirs(&mut self, peer: u32, services: &str) -> Result<String, Fault> {
        let alloc = self.alloc;
        for part in services.split(';') {
            let id = count_theirs(&self.theirs, peer);
            let words = words_of(alloc, part.trim())?;
            let service = service(alloc, id, &words, 0)?;
            self.theirs.push(Theirs { peer, service })?;
        }
        Ok(String::new(alloc))
    }

    /// It is made.
    fn make(&mut self) -> Result<String, Fault> {
        self.node = Some(make_node(self.alloc, self.peers, &self.own)?);
        match &self.node {
            Some(node) => lines_from(self.alloc, node, 0),
            None => Err(Fault::BadRow),
        }
    }

    /// It is made, the others are introduced to it, and it runs.
    fn run(&mut self) -> Result<String, Fault> {
        let alloc = self.alloc;
        self.node = Some(make_node(alloc, self.peers, &self.own)?);
        let Some(node) = &mut self.node else {
            return Err(Fault::BadRow);
        };
        for peer in 0..self.peers {
            let number = peer.saturating_add(1);
            introduce(alloc, node, &mut self.player, number, &self.theirs)?;
        }
        for _turn in 0..20 {
            if !is_running(node) {
                turn(node, &mut self.player)?;
            }
        }
        Ok(String::new(alloc))
    }

    /// Its next step asks for these.
    fn step(&mut self, actions: &str) -> Result<String, Fault> {
        let alloc = self.alloc;
        push_actions(alloc, &mut self.player.in_step, actions)?;
        let Some(node) = &mut self.node else {
            return Err(Fault::BadRow);
        };
        let from = node.journal().len();
        for _turn in 0..100 {
            if !self.player.in_step.is_empty() {
                turn(node, &mut self.player)?;
            }
        }
        lines_from(alloc, node, from)
    }

    /// What the next message that is handed to this service asks for.
    fn plan(&mut self, service: u32, actions: &str) -> Result<String, Fault> {
        self.player.service = service;
        push_actions(self.alloc, &mut self.player.on_service, actions)?;
        Ok(String::new(self.alloc))
    }

    /// It takes a message.
    fn get(&mut self, peer: u32, words: &str) -> Result<String, Fault> {
        let alloc = self.alloc;
        let words = words_of(alloc, words)?;
        let message = message(alloc, name_of(peer), &words)?;
        let Some(node) = &mut self.node else {
            return Err(Fault::BadRow);
        };
        let from = node.journal().len();
        if !node.is_open(peer) {
            return Ok(String::from_str(alloc, "  closed\n")?);
        }
        take(node, &mut self.player, peer, message)?;
        lines_from(alloc, node, from)
    }

    /// The link of its peer ends.
    fn lose(&mut self, peer: u32) -> Result<String, Fault> {
        let alloc = self.alloc;
        let Some(node) = &mut self.node else {
            return Err(Fault::BadRow);
        };
        let from = node.journal().len();
        if !node.is_open(peer) {
            return Ok(String::from_str(alloc, "  closed\n")?);
        }
        node.gone(peer, 5, &mut self.player)?;
        lines_from(alloc, node, from)
    }

    /// One turn.
    fn turn(&mut self) -> Result<String, Fault> {
        let alloc = self.alloc;
        let Some(node) = &mut self.node else {
            return Err(Fault::BadRow);
        };
        let from = node.journal().len();
        let turned = turn(node, &mut self.player)?;
        let mut lines = lines_from(alloc, node, from)?;
        lines.push_str(turned_words(turned))?;
        Ok(lines)
    }
}

/// What stands behind the first word of a text.
fn behind_word(text: &str) -> &str {
    match text.split_once(' ') {
        Some((_, rest)) => rest,
        None => "",
    }
}

/// The name of the participant of this number.
fn name_of(number: u32) -> &'static str {
    match number {
        0 => "A",
        1 => "B",
        2 => "C",
        _ => "D",
    }
}

/// How many services of this peer there are.
fn count_theirs(theirs: &[Theirs], peer: u32) -> u32 {
    let mut count = 0_u32;
    for other in theirs {
        if other.peer == peer {
            count = count.saturating_add(1);
        }
    }
    count
}

/// The names of the participant and of so many peers.
fn texts_of(peers: u32) -> Result<&'static [&'static str], Fault> {
    match peers {
        1 => Ok(&["A", "B"]),
        2 => Ok(&["A", "B", "C"]),
        _ => Err(Fault::BadRow),
    }
}

/// The names of these texts, of which none stands twice.
fn names(alloc: Global, texts: &[&str]) -> Result<Names, Fault>
    ensures own { IfOk result (λ names. 0 < length names) }
    ensures few { IfOk result (λ names. length names ≤ 32) }
    ensures distinct { IfOk result (λ names. IsTrue (each_after is_new_name [] names)) }
{
    let mut names = Vec::new(alloc);
    for text in texts {
        let name = Name::new(alloc, text)?;
        if !is_new_name(&names, &name) {
            return Err(Fault::BadRow);
        }
        names.push(name)?;
    }
    if names.is_empty() || names.len() > 32 {
        return Err(Fault::BadRow);
    }
    Ok(Names::new(names))
}

/// The same services again, at most 64 and numbered from 0.
fn copy_services(alloc: Global, services: &[Service]) -> Result<Services, Fault>
    ensures few { IfOk result (λ copies. length copies ≤ 64) }
    ensures numbered { IfOk result (λ copies. IsTrue (are_numbered 0 copies)) }
{
    let mut copies = Vec::new(alloc);
    for service in services {
        let copy = service.copy(alloc)?;
        if copy.id as usize != copies.as_slice().len() {
            return Err(Fault::BadRow);
        }
        copies.push(copy)?;
    }
    if copies.len() > 64 {
        return Err(Fault::BadRow);
    }
    Ok(Services::new(copies))
}

/// The participant with these services.
#[tactic(auto, unfolding(sk_msg::specs::Rules::is_step_size))]
fn make_node(alloc: Global, peers: u32, own: &[Service]) -> Result<Node, Fault> {
    let names = names(alloc, texts_of(peers)?)?;
    let services = copy_services(alloc, own)?;
    let setup = Setup {
        number: 0,
        names,
        coordinated: false,
        step: Some(1),
        is_async: false,
        ready_async: false,
        services,
        duration: 1 << 61,
        required: None,
    };
    Ok(Node::new(alloc, setup)?)
}

/// A peer says who it is, and tells its services.
fn introduce(
    alloc: Global,
    node: &mut Node,
    player: &mut Player,
    peer: u32,
    theirs: &[Theirs],
) -> Result<(), Fault> {
    take(node, player, peer, hello(alloc, name_of(peer), false)?)?;
    for other in theirs {
        if other.peer == peer {
            let told = other.service.copy(alloc)?;
            take(node, player, peer, announcement(alloc, told)?)?;
        }
    }
    take(node, player, peer, Message::services_end())
}

/// Its next turn.
fn turn(node: &mut Node, player: &mut Player) -> Result<Turned, Fault> {
    Ok(node.turn(player)?)
}

/// It takes a message, where its peer is linked.
fn take(node: &mut Node, player: &mut Player, peer: u32, message: Message) -> Result<(), Fault> {
    if node.is_open(peer) {
        node.take(peer, message, player)?;
    }
    Ok(())
}

/// Whether the state that it entered last is Running.
fn is_running(node: &Node) -> bool {
    let mut is_running = false;
    for entry in node.journal() {
        if let Entry::State(state) = entry {
            is_running = *state == State::Running;
        }
    }
    is_running
}

/// The lines of its journal from this entry on.
fn lines_from(alloc: Global, node: &Node, from: usize) -> Result<String, Fault> {
    let mut lines = String::new(alloc);
    for (index, entry) in node.journal().iter().enumerate() {
        if index >= from {
            let place = place_of(node.journal(), index, entry);
            lines.push_str(line(alloc, entry, place)?.as_str())?;
        }
    }
    Ok(lines)
}

/// The place of a message that was got, from 1: this is its entry.
fn place_of(journal: &[Entry], index: usize, entry: &Entry) -> usize {
    match entry {
        Entry::Got(peer, _) => count_got(journal.get(..index).unwrap_or(&[]), *peer).saturating_add(
            1,
        ),
        _ => 0,
    }
}

/// How many messages of this peer were got.
fn count_got(entries: &[Entry], from: u32) -> usize {
    let mut count = 0_usize;
    for entry in entries {
        if let Entry::Got(peer, _) = entry
            && *peer == from
        {
            count = count.saturating_add(1);
        }
    }
    count
}

/// What a turn answered, where it added no entry.
fn turned_words(turned: Turned) -> &'static str {
    match turned {
        Turned::Entries(_) => "",
        Turned::Counted => "  counted\n",
        Turned::Quiet => "  quiet\n",
        Turned::Finished => "  finished\n",
    }
}
