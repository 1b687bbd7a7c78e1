//! One run of the step protocol: what was heard, and what was queued.

ghost use Rattle.std.specs.Prelude.{◌≡◌, ◌≢◌, ◌≤◌, ◌<◌, ◌+◌, ◌^◌, ◌++◌, ◌∷◌, [], ℕ, true, not, ◌||◌, nat_lt, nat_le, List, length, Some, None, suc, is_some, IfOk, OnOk, IfNone, IsTrue};
ghost use Rattle.sk_base.specs.Talk.{Said, TakesWithin, said_by_take};
ghost use Rattle.sk_pipe.specs.Frames.{frame, due_after};
ghost use Rattle.sk_wire.specs.Grammar.{spelling};
ghost use Rattle.sk_pipe.specs.Pipe as pipe;

use crate::ending::PipeEnding;
use crate::peer::{Peer, PeerEnding};
use crate::plan::Plan;
use sk_base::{Link, Name, SimTime, Text, Took, WantOfMemory};
use sk_connection::Connection;
use sk_msg::{Message, Role};
use std::alloc::Global;

/// So many messages at most are put together, to be given as one piece.
const BATCH: u32 = 128;

/// One run of the step protocol.
///
/// A turn makes one call of the link, but none at the end: it gives where something is due and the
/// link may take it, else it takes. The messages due are known by their number alone, so they
/// needn't be kept before they are given.
#[derive(Drop)]
pub struct Session {
    /// What was heard of the peer, and what may be announced to it.
    pub peer: Peer,
    /// What the link left behind, and what waits for it.
    pub connection: Connection,
    /// How many messages were queued so far.
    pub sent: u64,
    ghost begun: { 1 ≤ sent },
    ghost due: { sent ≤ peer.total + 3 },
    ghost bounded: { connection.decoder.fed < 2 ^ 33 },
}

impl Session {
    ghost use Rattle.sk_pipe.specs.Session.{Follows, IsAfter, GoesOn, CountsSoFar, MayTake, KeepsHeard, budget, is_closed, has_output};
    ghost use Rattle.sk_pipe.specs.Run.{IsPipe};
    ghost use Rattle.sk_pipe.specs.Hearing.{KeepsPlan};
    ghost use Rattle.sk_pipe.specs.declared.ending.PipeEnding.{PipeEnding};

    /// A run by this plan, with Hello ready to be given.
    pub fn new(alloc: Global, plan: Plan) -> Result<Session, WantOfMemory>
        ensures plan { IfOk result (λ s. (s.peer.step ≡ plan.step) × (s.peer.duration ≡ plan.duration)) }
        ensures follows { IfOk result (λ s. Follows plan.name [] s) }
    {
        let Plan {
            name,
            step,
            duration,
        } = plan;
        let message = hello(alloc, name)?;
        let mut connection = Connection::new(alloc);
        connection.queue(&message)?;
        Ok(Session {
            peer: Peer::new(step, duration),
            connection,
            sent: 1,
        })
    }

    /// One call of the link, or the end.
    pub fn turn<L: Link>(&mut self, link: &mut L, buf: &mut [u8]) -> Option<PipeEnding>
        requires room { 0 < length buf.old }
        requires small { length buf.old ≤ 2 ^ 20 }
        ensures plan { KeepsPlan self.old.peer self.new.peer }
        ensures tells { L.tells link.new ≡ L.tells link.old }
        ensures faults { CountsSoFar result (L.faults link.old) (L.faults link.new) }
        ensures talk { L.tells link.old ≡ true → (name : List ℕ) (talk : List Said) → Follows name talk self.old →
            GoesOn name talk (L.talk link.old) (L.talk link.new) result self.new }
        ensures smaller { IfNone result (budget self.new < budget self.old) }
    {
        let is_closed = self.is_closed();
        if self.has_output() && (is_closed || !self.connection.is_held()) {
            return self.give_some(link);
        }
        if !is_closed {
            return self.take_some(link, buf);
        }
        Some(self.final_ending())
    }

    /// Whether no take may follow.
    fn is_closed(&self) -> bool
        ensures { result ≡ is_closed self.now }
    {
        self.peer.ending.is_some() || self.connection.is_ended() || self.connection.is_full()
    }

    /// Whether something is due to the peer.
    fn has_output(&self) -> bool
        ensures { result ≡ has_output self.now }
    {
        self.connection.has_output() || self.sent < self.peer.due()
    }

    /// Gives what is due, as much as the link lets through now.
    fn give_some<L: Link>(&mut self, link: &mut L) -> Option<PipeEnding>
        requires due { IsTrue (has_output self.old) }
        requires goes { IsTrue (is_closed self.old || not self.old.connection.is_held) }
        ensures plan { KeepsPlan self.old.peer self.new.peer }
        ensures tells { L.tells link.new ≡ L.tells link.old }
        ensures faults { CountsSoFar result (L.faults link.old) (L.faults link.new) }
        ensures talk { L.tells link.old ≡ true → (name : List ℕ) (talk : List Said) → Follows name talk self.old →
            GoesOn name talk (L.talk link.old) (L.talk link.new) result self.new }
        ensures smaller { IfNone result (budget self.new < budget self.old) }
    {
        if self.connection.has_output() {
            return self.give_rest(link);
        }
        match self.refill() {
            Ok(()) => self.give_rest(link),
            Err(_) => Some(PipeEnding::Memory),
        }
    }

    /// Queues the next messages that are due.
    fn refill(&mut self) -> Result<(), WantOfMemory>
        requires more { self.old.sent < due_after self.old.peer.begun self.old.peer.total }
        ensures heard { KeepsHeard self.old self.new }
        ensures ready { OnOk result (0 < length self.new.connection.queued) }
        ensures follows { OnOk result ((name : List ℕ) (talk : List Said) → Follows name talk self.old → Follows name talk self.new) }
        ensures smaller { OnOk result (budget self.new ≤ budget self.old) }
    {
        self.put_next()?;
        for _ in 1..BATCH {
            if self.sent >= self.peer.due() {
                break;
            }
            self.put_next()?;
        }
        Ok(())
    }

    /// Queues the next message.
    fn put_next(&mut self) -> Result<(), WantOfMemory>
        requires more { self.old.sent < due_after self.old.peer.begun self.old.peer.total }
        ensures heard { KeepsHeard self.old self.new }
        ensures ready { OnOk result (0 < length self.new.connection.queued) }
        ensures follows { OnOk result ((name : List ℕ) (talk : List Said) → Follows name talk self.old → Follows name talk self.new) }
        ensures smaller { OnOk result (budget self.new ≤ budget self.old) }
    {
        let message = self.message(self.sent - 1);
        self.connection.queue(&message)?;
        self.sent += 1;
        Ok(())
    }

    /// The message of this number, Hello not counted: an announcement, or Leave behind the last.
    fn message(&self, index: u64) -> Message
        ensures { (name : List ℕ) → spelling result ≡ frame name self.now.peer.step self.now.peer.total (suc index) }
    {
        if index > self.peer.total {
            return Message::leave();
        }
        let at = SimTime::new(self.peer.time_of(index)).unwrap();
        Message::next_step(at, self.peer.step)
    }

    /// Gives what waits, as much as the link lets through now.
    fn give_rest<L: Link>(&mut self, link: &mut L) -> Option<PipeEnding>
        requires some { 0 < length self.old.connection.queued }
        requires goes { IsTrue (is_closed self.old || not self.old.connection.is_held) }
        ensures plan { KeepsPlan self.old.peer self.new.peer }
        ensures tells { L.tells link.new ≡ L.tells link.old }
        ensures faults { CountsSoFar result (L.faults link.old) (L.faults link.new) }
        ensures talk { L.tells link.old ≡ true → (name : List ℕ) (talk : List Said) → Follows name talk self.old →
            GoesOn name talk (L.talk link.old) (L.talk link.new) result self.new }
        ensures smaller { IfNone result (budget self.new < budget self.old) }
    {
        match link.give(self.connection.next_piece()) {
            Err(_) => Some(PipeEnding::LinkFault),
            Ok(gave) => {
                self.connection.gave(gave);
                if self.connection.is_tired() {
                    return Some(PipeEnding::Limit);
                }
                None
            }
        }
    }

    /// Takes what the peer has for us now.
    fn take_some<L: Link>(&mut self, link: &mut L, buf: &mut [u8]) -> Option<PipeEnding>
        requires room { 0 < length buf.old }
        requires small { length buf.old ≤ 2 ^ 20 }
        requires open { IsTrue (not (is_closed self.old)) }
        requires given { IsTrue (self.old.connection.is_held || not (has_output self.old)) }
        ensures plan { KeepsPlan self.old.peer self.new.peer }
        ensures tells { L.tells link.new ≡ L.tells link.old }
        ensures faults { CountsSoFar result (L.faults link.old) (L.faults link.new) }
        ensures talk { L.tells link.old ≡ true → (name : List ℕ) (talk : List Said) → Follows name talk self.old →
            GoesOn name talk (L.talk link.old) (L.talk link.new) result self.new }
        ensures smaller { IfNone result (budget self.new < budget self.old) }
    {
        match link.take(buf) {
            Err(_) => Some(PipeEnding::LinkFault),
            Ok(took) => self.hear(took, buf),
        }
    }

    /// Hears what a take answered, with the buffer that it left.
    fn hear(&mut self, took: Took, buf: &[u8]) -> Option<PipeEnding>
        requires within { TakesWithin (length buf.now) took }
        requires small { length buf.now ≤ 2 ^ 20 }
        requires open { IsTrue (not (is_closed self.old)) }
        ensures plan { KeepsPlan self.old.peer self.new.peer }
        ensures talk { (name : List ℕ) (talk : List Said) → Follows name talk self.old → MayTake name talk self.old →
            IsAfter name (talk ++ said_by_take took buf.now ∷ []) result self.new }
        ensures smaller { IfNone result (budget self.new < budget self.old) }
        ensures no_fault { result ≢ Some PipeEnding.LinkFault }
    {
        let fed = match self.connection.took(took, buf) {
            Ok(fed) => fed,
            Err(_) => return Some(PipeEnding::Memory),
        };
        self.peer.hear_piece(&fed.messages, fed.fault.is_some());
        if self.connection.is_tired() {
            return Some(PipeEnding::Limit);
        }
        None
    }

    /// How the run ends once nothing is taken or given any more.
    fn final_ending(&self) -> PipeEnding
        requires closed { IsTrue (is_closed self.now) }
        requires given { IsTrue (not (has_output self.now)) }
        ensures talk { (name : List ℕ) (talk : List Said) → Follows name talk self.now → IsPipe name self.now.peer.step self.now.peer.duration talk result }
        ensures no_fault { result ≢ PipeEnding.LinkFault }
    {
        match self.peer.ending {
            Some(ending) => match ending {
                PeerEnding::Left => PipeEnding::Left,
                PeerEnding::Broken => PipeEnding::BadInput,
            },
            None => {
                if self.connection.is_ended() {
                    PipeEnding::NoLeave
                } else {
                    PipeEnding::Limit
                }
            }
        }
    }
}

/// Our Hello: a synchronised, autonomous participant.
#[tactic(auto, unfolding(crate::specs::Pipe::hello))]
fn hello(alloc: Global, name: Name) -> Result<Message, WantOfMemory>
    ensures { IfOk result (λ message. spelling message ≡ pipe.hello name) }
{
    let role = Role::Participant {
        coordinated: false,
        synchronised: true,
    };
    let Ok(address) = Text::new(alloc, "") else {
        return Err(WantOfMemory);
    };
    Ok(Message::hello(name, role, address))
}
