//! The participant.

ghost use Rattle.std.specs.Prelude.{◌≡◌, ℕ, ◌<◌, ◌≤◌, ◌+◌, ◌^◌, true, false, Some, None, IsTrue, [], length, replicate, slice_get, slice_index_or, slice_set, IfOk, IfSome, IfNone, OnOk, OnErr, OnSome, IsErr};
ghost use Rattle.sk_msg.specs.Each.{each_after};
ghost use Rattle.sk_msg.specs.Rules.{is_step_size, is_new_name};
ghost use Rattle.sk_pubsub.specs.Announcing.{are_numbered};
ghost use Rattle.sk_law.specs.Blocks.{ask, judge_limits, lose, making};
ghost use Rattle.sk_law.specs.Kept.{IsCut};
ghost use Rattle.sk_law.specs.Lawful.{Lawful, is_loss, note_asked};
ghost use Rattle.sk_law.specs.Links.{is_open};
ghost use Rattle.sk_law.specs.Readings.{put, state_of};
ghost use Rattle.sk_node.specs.Known.{Serves, Stops, IsSound};
ghost use Rattle.sk_node.specs.Peers.{HearsNothing, Hears, Loses};
ghost use Rattle.sk_node.specs.Takes.{Takes, TakesCut};
ghost use Rattle.sk_node.specs.Turning.{IsEnded, IsTurned, RowCut};
ghost use Rattle.sk_node.specs.declared.rows.Turned.TheVariants.{Finished};
ghost use Rattle.sk_node.specs.Verdicts.{verdict_of};

use crate::app::App;
use crate::rows::Turned;
use crate::{events, making};
use sk_base::WantOfMemory;
use sk_law::{Journal, Setup, blocks_only_add, limits_hold, turns_come_to_an_end};
use sk_msg::{Command, Entry, Message, Verdict};
use std::alloc::Global;
use std::marker::Model;

/// A participant as a state machine: no link, file, clock or thread is inside.
///
/// - In: `take`, `gone`, `ask` and `turn`. Each adds its entries to the journal, and has called the
///   app for them when it returns. A turn does the one thing that comes next by itself.
/// - Out: `take_out`. After any call of the first group something may wait, for any peer.
/// - Readers: `is_open` and `journal`. At the end: `close`.
///
/// What was put and not yet taken out waits here, per peer in order, and nowhere else: whoever has
/// the participant carries it on. A message is taken only of a peer that is open; from one that has
/// left or is gone nothing more is taken, but what waits for it may still be carried there.
///
/// After want of memory each call in answers want of memory again, the app is called no more, and
/// what waits can still be taken out.
///
/// A call costs what it adds: a look at each peer for a message that goes to all, and at most a few
/// looks at each peer to decide what comes next. No call reads the journal.
#[derive(Debug, Drop)]
pub struct Node {
    journal: Journal,
    poisoned: bool,
}

impl Model for Node {
    ghost use Rattle.sk_node.specs.Known.{Known, IsSound};

    ghost Value = { Known };

    ghost view = { λ node. record { kept = node.journal; poisoned = node.poisoned } };

    ghost invariant = { λ node. IsSound (record { kept = node.journal; poisoned = node.poisoned }) };
}

impl Node {
    /// A participant in ServicesCreated, which has said to each peer who it is. The app isn't called.
    pub fn new(alloc: Global, setup: Setup) -> Result<Node, WantOfMemory>
        requires own { setup.number < length setup.names }
        requires few { length setup.names ≤ 32 }
        requires names { IsTrue (each_after is_new_name [] setup.names) }
        requires required { IfSome setup.required (λ names. IsTrue (each_after is_new_name [] names)) }
        requires size { IfSome setup.step (λ size. IsTrue (is_step_size size)) }
        requires duration { setup.duration ≤ 2 ^ 61 }
        requires services { length setup.services ≤ 64 }
        requires numbered { IsTrue (are_numbered 0 setup.services) }
        requires blocking { setup.is_async ≡ false }
        requires ready { setup.ready_async ≡ false }
        ensures setup { IfOk result (λ node. node.kept.setup ≡ setup) }
        ensures made { IfOk result (λ node. node.kept.past ≡ making setup) }
        ensures out { IfOk result (λ node. node.kept.out ≡ replicate (length setup.names) 0) }
        ensures sound { IfOk result (λ node. node.poisoned ≡ false) }
        ensures lawful { IfOk result (λ node. Lawful setup node.kept.past []) }
    {
        let journal = making::make(alloc, setup)?;
        journal.sound();
        Ok(Node {
            journal,
            poisoned: false,
        })
    }

    /// A message came from a peer. It is handed to the own services that receive it, one after another
    /// in rising number, as they are judged before it is got. One out of order is noted and has no
    /// other effect; its sender is then gone with reason 8.
    pub fn take<A: App>(
        &mut self,
        peer: u32,
        message: Message,
        app: &mut A,
    ) -> Result<(), WantOfMemory>
        requires is_open { IsTrue (is_open self.old.kept.setup self.old.kept.past peer) }
        ensures ok { OnOk result (Serves self.old self.new (A.lists app.old) (A.lists app.new)) }
        ensures gets { OnOk result (Takes self.old.kept self.new.kept peer message (A.lists app.old) (A.lists app.new)) }
        ensures hears { OnOk result (Hears self.old.kept.setup peer message self.old.kept.past self.new.kept.past) }
        ensures err { self.old.poisoned ≡ false → OnErr result (Stops self.old self.new (A.lists app.old) (A.lists app.new)) }
        ensures cut { self.old.poisoned ≡ false → OnErr result (TakesCut self.old.kept self.new.kept peer message (A.lists app.old) (A.lists app.new)) }
        ensures stopped { self.old.poisoned ≡ true → IsErr result × (self.new ≡ self.old) × (A.lists app.new ≡ A.lists app.old) }
        ensures origin { A.origin app.new ≡ A.origin app.old }
    {
        if self.poisoned {
            return Err(WantOfMemory);
        }
        blocks_only_add();
        limits_hold();
        turns_come_to_an_end();
        match events::take(&mut self.journal, app, peer, message) {
            Ok(()) => {
                self.journal.sound();
                Ok(())
            }
            Err(error) => {
                self.journal.sound();
                self.poisoned = true;
                Err(error)
            }
        }
    }

    /// The link of a peer is lost: 5 it ended, 6 it failed, 7 bytes came that are no message, 9 more
    /// than 2^32 bytes came.
    pub fn gone<A: App>(&mut self, peer: u32, reason: u8, app: &mut A) -> Result<(), WantOfMemory>
        requires is_open { IsTrue (is_open self.old.kept.setup self.old.kept.past peer) }
        requires reason { IsTrue (is_loss reason) }
        ensures ok { OnOk result (Serves self.old self.new (A.lists app.old) (A.lists app.new)) }
        ensures loses { OnOk result (self.new.kept.past ≡ judge_limits self.old.kept.setup (lose self.old.kept.setup peer reason self.old.kept.past)) }
        ensures hears { OnOk result (Loses self.old.kept.setup peer reason self.old.kept.past self.new.kept.past) }
        ensures err { self.old.poisoned ≡ false → OnErr result (Stops self.old self.new (A.lists app.old) (A.lists app.new)) }
        ensures cut { self.old.poisoned ≡ false → OnErr result (IsCut self.old.kept self.new.kept (judge_limits self.old.kept.setup (lose self.old.kept.setup peer reason self.old.kept.past))) }
        ensures stopped { self.old.poisoned ≡ true → IsErr result × (self.new ≡ self.old) × (A.lists app.new ≡ A.lists app.old) }
        ensures origin { A.origin app.new ≡ A.origin app.old }
    {
        if self.poisoned {
            return Err(WantOfMemory);
        }
        blocks_only_add();
        limits_hold();
        turns_come_to_an_end();
        match events::lose(&mut self.journal, app, peer, reason) {
            Ok(()) => {
                self.journal.sound();
                Ok(())
            }
            Err(error) => {
                self.journal.sound();
                self.poisoned = true;
                Err(error)
            }
        }
    }

    /// A command is asked for. It is accepted exactly where the present state has an edge of it, and
    /// takes effect at once, also inside a step.
    pub fn ask<A: App>(&mut self, command: Command, app: &mut A) -> Result<Verdict, WantOfMemory>
        ensures ok { OnOk result (Serves self.old self.new (A.lists app.old) (A.lists app.new)) }
        ensures asks { OnOk result (self.new.kept.past ≡ judge_limits self.old.kept.setup (ask self.old.kept.setup command (note_asked self.old.kept.past))) }
        ensures verdict { IfOk result (λ verdict. verdict ≡ verdict_of (state_of self.old.kept.past.journal) command) }
        ensures hears { OnOk result (HearsNothing self.old.kept.setup self.old.kept.past self.new.kept.past) }
        ensures err { self.old.poisoned ≡ false → OnErr result (Stops self.old self.new (A.lists app.old) (A.lists app.new)) }
        ensures cut { self.old.poisoned ≡ false → OnErr result (IsCut self.old.kept self.new.kept (judge_limits self.old.kept.setup (ask self.old.kept.setup command (note_asked self.old.kept.past)))) }
        ensures stopped { self.old.poisoned ≡ true → IsErr result × (self.new ≡ self.old) × (A.lists app.new ≡ A.lists app.old) }
        ensures origin { A.origin app.new ≡ A.origin app.old }
    {
        if self.poisoned {
            return Err(WantOfMemory);
        }
        blocks_only_add();
        limits_hold();
        turns_come_to_an_end();
        match events::ask(&mut self.journal, app, command) {
            Ok(verdict) => {
                self.journal.sound();
                Ok(verdict)
            }
            Err(error) => {
                self.journal.sound();
                self.poisoned = true;
                Err(error)
            }
        }
    }

    /// Does the one thing that comes next by itself, if there is one.
    pub fn turn<A: App>(&mut self, app: &mut A) -> Result<Turned, WantOfMemory>
        ensures turned { IfOk result (λ turned. IsTurned turned self.old self.new (A.lists app.old) (A.lists app.new)) }
        ensures ended { IfOk result (λ turned. turned ≡ Finished → IsEnded self.old.kept) }
        ensures hears { OnOk result (HearsNothing self.old.kept.setup self.old.kept.past self.new.kept.past) }
        ensures err { self.old.poisoned ≡ false → OnErr result (Stops self.old self.new (A.lists app.old) (A.lists app.new)) }
        ensures cut { self.old.poisoned ≡ false → OnErr result (RowCut self.old.kept self.new.kept (A.lists app.old) (A.lists app.new)) }
        ensures stopped { self.old.poisoned ≡ true → IsErr result × (self.new ≡ self.old) × (A.lists app.new ≡ A.lists app.old) }
        ensures origin { A.origin app.new ≡ A.origin app.old }
    {
        if self.poisoned {
            return Err(WantOfMemory);
        }
        blocks_only_add();
        limits_hold();
        turns_come_to_an_end();
        match events::turn(&mut self.journal, app) {
            Ok(turned) => {
                self.journal.sound();
                Ok(turned)
            }
            Err(error) => {
                self.journal.sound();
                self.poisoned = true;
                Err(error)
            }
        }
    }

    /// Whether messages may come from this one: it is a peer that has neither left nor is gone. False
    /// for every other number, the own one too.
    pub fn is_open(&self, peer: u32) -> bool
        ensures { result ≡ is_open self.now.kept.setup self.now.kept.past peer }
    {
        self.journal.is_open(peer)
    }

    /// The first message that waits for this one. None where nothing waits, and for a number that
    /// nobody has.
    pub fn take_out(&mut self, peer: u32) -> Option<Message>
        ensures some { IfSome result (λ message. slice_get (put self.old.kept.past.journal peer) (slice_index_or self.old.kept.out peer 0) ≡ Some message) }
        ensures there { OnSome result (peer < length self.old.kept.out) }
        ensures taken { OnSome result (self.new ≡ record self.old { kept = record self.old.kept { out = slice_set self.old.kept.out peer (slice_index_or self.old.kept.out peer 0 + 1) } }) }
        ensures none { IfNone result (self.new ≡ self.old) }
        ensures nothing { IfNone result (peer < length self.old.kept.out → slice_index_or self.old.kept.out peer 0 ≡ length (put self.old.kept.past.journal peer)) }
    {
        let message = self.journal.take_out(peer);
        self.journal.sound();
        message
    }

    /// All that happened so far.
    pub fn journal(&self) -> &[Entry]
        ensures entries { result.now ≡ self.now.kept.past.journal }
        ensures sound { IsSound self.now }
    {
        self.journal.entries()
    }

    /// All that happened. What waits is dropped.
    pub fn close(self) -> Vec<Entry>
        ensures { result.items ≡ self.kept.past.journal }
    {
        self.journal.close()
    }
}
