//! The graph of states, as a table.

ghost use Rattle.std.specs.Prelude.{◌≡◌, ◌&&◌, true, IsTrue, IfSome, find, option_map};
ghost use Rattle.std.specs.List.{list_any};
ghost use Rattle.sk_msg.specs.States.{is_state};
ghost use Rattle.sk_msg.specs.Edges.{is_asked_by, has_edge, led_to};
ghost use Rattle.sk_msg.specs.Rules.{is_told};

use sk_msg::Command::{self, Abort, Continue, Pause, ReportError, Stop};
use sk_msg::State::{
    self, Aborting, CommunicationInitialized, CommunicationInitializing, Error, Invalid, Paused,
    ReadyToRun, Running, ServicesCreated, Shutdown, ShuttingDown, Stopped, Stopping,
};
use std::marker::Model;

/// An edge: from which state it leads, by which command, where one asks for it, and to which state.
struct Edge(State, Option<Command>, State);

impl Model for Edge {
    ghost use Rattle.sk_msg.specs.Edges.{Edge as Row};

    ghost Value = { Row };

    ghost view = { λ edge. record { from = edge.0; command = edge.1; to = edge.2 } };

    ghost inverse = { λ row. record { 0 = row.from; 1 = row.command; 2 = row.to } };
}

/// All edges, in the order of the definition.
const EDGES: [Edge; 30] = [
    Edge(Invalid, None, ServicesCreated),
    Edge(ServicesCreated, None, CommunicationInitializing),
    Edge(ServicesCreated, Some(ReportError), Error),
    Edge(ServicesCreated, Some(Abort), Aborting),
    Edge(CommunicationInitializing, None, CommunicationInitialized),
    Edge(CommunicationInitializing, Some(ReportError), Error),
    Edge(CommunicationInitializing, Some(Abort), Aborting),
    Edge(CommunicationInitialized, None, ReadyToRun),
    Edge(CommunicationInitialized, Some(ReportError), Error),
    Edge(CommunicationInitialized, Some(Abort), Aborting),
    Edge(ReadyToRun, None, Running),
    Edge(ReadyToRun, Some(ReportError), Error),
    Edge(ReadyToRun, Some(Abort), Aborting),
    Edge(Running, Some(Pause), Paused),
    Edge(Running, Some(Stop), Stopping),
    Edge(Running, Some(ReportError), Error),
    Edge(Running, Some(Abort), Aborting),
    Edge(Paused, Some(Continue), Running),
    Edge(Paused, Some(Stop), Stopping),
    Edge(Paused, Some(ReportError), Error),
    Edge(Paused, Some(Abort), Aborting),
    Edge(Stopping, None, Stopped),
    Edge(Stopping, Some(ReportError), Error),
    Edge(Stopping, Some(Abort), Aborting),
    Edge(Stopped, None, ShuttingDown),
    Edge(Stopped, Some(ReportError), Error),
    Edge(Stopped, Some(Abort), Aborting),
    Edge(Error, Some(Abort), Aborting),
    Edge(ShuttingDown, None, Shutdown),
    Edge(Aborting, None, Shutdown),
];

impl Edge {
    /// Whether it leads from the one state to the other.
    fn joins(&self, from: State, to: State) -> bool
        ensures { result ≡ (is_state self.now.from from && is_state self.now.to to) }
    {
        is_same(self.0, from) && is_same(self.2, to)
    }

    /// Whether it leads on from this state by the command.
    fn answers(&self, from: State, command: Command) -> bool
        ensures { result ≡ (is_state self.now.from from && is_asked_by command self.now.command) }
    {
        is_same(self.0, from) && self.1 == Some(command)
    }

    /// Where it leads.
    fn to(&self) -> State
        ensures { result ≡ self.now.to }
    {
        self.2
    }
}

/// Whether both are one state, as a test that contracts name.
#[tactic(auto, unfolding(sk_msg::specs::States::is_state))]
fn is_same(one: State, other: State) -> bool
    ensures { result ≡ is_state one other }
{
    one.number() == other.number()
}

/// Whether an edge leads from the one state to the other; none leads to Invalid. It costs a look at
/// the 30 edges.
#[tactic(auto, using(crate::proofs::ToldLaws::told))]
pub fn has_edge(from: State, to: State) -> bool
    ensures edge { result ≡ has_edge from to }
    ensures told { result ≡ true → IsTrue (is_told to) }
{
    some_edge(from, to)
}

/// Where the command leads from this state, or None where the state has no edge of it. It costs a
/// look at the 30 edges.
pub fn led_to(from: State, command: Command) -> Option<State>
    ensures to { result ≡ led_to from command }
    ensures edge { IfSome result (λ to. IsTrue (has_edge from to)) }
    ensures told { IfSome result (λ to. IsTrue (is_told to)) }
{
    first_led_to(from, command)
}

/// Whether one of all edges leads from the one state to the other.
#[tactic(auto, unfolding(sk_msg::specs::Edges::has_edge))]
fn some_edge(from: State, to: State) -> bool
    ensures { result ≡ has_edge from to }
{
    some_joins(&EDGES, from, to)
}

/// Where the first of all edges leads that leads on from this state by the command.
#[tactic(auto, unfolding(sk_msg::specs::Edges::led_to))]
fn first_led_to(from: State, command: Command) -> Option<State>
    ensures { result ≡ led_to from command }
{
    first_answer(&EDGES, from, command)
}

/// Whether one of these leads from the one state to the other.
fn some_joins(edges: &[Edge], from: State, to: State) -> bool
    ensures { result ≡ list_any (λ edge. is_state edge.from from && is_state edge.to to) edges.now }
{
    edges.iter().any(|edge| edge.joins(from, to))
}

/// Where the first of these leads that leads on from this state by the command.
fn first_answer(edges: &[Edge], from: State, command: Command) -> Option<State>
    ensures { result ≡ option_map (λ edge. edge.to)
        (find (λ edge. is_state edge.from from && is_asked_by command edge.command) edges.now) }
{
    edges
        .iter()
        .find(|edge| edge.answers(from, command))
        .map(|edge| edge.to())
}
