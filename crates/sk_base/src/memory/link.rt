//! A link in memory, which plays a script and tells its talk.

ghost use Rattle.std.specs.Prelude.{◌≡◌, ◌<◌, ◌≤◌, ◌+◌, ◌++◌, true, [], ◌∷◌, length, take, IfOk, OnOk, OnErr};
ghost use Rattle.sk_base.specs.Talk.{said_by_take, said_by_give, TakesWithin, GivesWithin, given as given_in};
ghost use Rattle.sk_base.specs.Memory.{talk_of};

use crate::fault::Failed;
use crate::link::{Gave, Link, Took};
use crate::memory::fails::{CallKind, Calls, FailAt};
use std::alloc::{AllocError, Global};

/// What the peer has for a take.
#[derive(Debug, Drop)]
pub enum MemTake {
    /// These bytes. More than a buffer of them are taken in parts; none is NotYet.
    Bytes(Vec<u8>),
    NotYet,
    End,
}

/// What the peer lets through in a give.
#[derive(Clone, Copy, Debug, PartialEq, Eq)]
pub enum MemGive {
    /// At most so many bytes; 0 is NotYet.
    Bytes(usize),
    NotYet,
}

/// One answer, as it is kept.
#[derive(Debug, Drop)]
enum Kept {
    Took(Vec<u8>),
    Gave(Vec<u8>),
    TookNothing,
    GaveNothing,
    TookEnd,
}

/// A link that plays a script: each list is used up in order, and a failing call uses up nothing.
/// After the last item a take answers End, and a give lets all through.
#[derive(Drop)]
pub struct MemLink {
    alloc: Global,
    takes: Vec<MemTake>,
    take_at: usize,
    /// How many bytes of the item at `take_at` were taken.
    piece_at: usize,
    gives: Vec<MemGive>,
    give_at: usize,
    calls: Calls,
    log: Vec<Kept>,
    given: Vec<u8>,
    ghost all_given: { given.items ≡ given_in (talk_of log.items) },
}

/// Adds one answer to what is kept.
fn keep(log: &mut Vec<Kept>, answer: Kept) -> Result<(), AllocError>
    ensures ok { OnOk result (log.new.items ≡ log.old.items ++ answer ∷ []) }
    ensures same { OnErr result (log.new.items ≡ log.old.items) }
{
    log.push(answer)?;
    Ok(())
}

/// What is left of a piece from this place on.
fn left_of(piece: &[u8], at: usize) -> &[u8]
    ensures { 0 < length result.now → at + length result.now ≡ length piece.now }
{
    match piece.get(at..) {
        Some(left) => left,
        None => &[],
    }
}

/// Writes the bytes at the front of the buffer.
fn put_front(buf: &mut [u8], bytes: &[u8])
    requires { length bytes.now ≤ length buf.old }
    ensures { take (length bytes.now) buf.new ≡ bytes.now }
{
    buf[..bytes.len()].copy_from_slice(bytes);
}

impl MemLink {
    /// A link that plays these takes and gives, and fails the calls that the list names.
    pub fn new(
        alloc: Global,
        takes: Vec<MemTake>,
        gives: Vec<MemGive>,
        fails: Vec<FailAt>,
    ) -> MemLink
        ensures tells { ⟦<MemLink as Link>⟧.tells result ≡ true }
        ensures talk { ⟦<MemLink as Link>⟧.talk result ≡ [] }
        ensures faults { ⟦<MemLink as Link>⟧.faults result ≡ 0 }
    {
        MemLink {
            alloc,
            takes,
            take_at: 0,
            piece_at: 0,
            gives,
            give_at: 0,
            calls: Calls::new(fails),
            log: Vec::new(alloc),
            given: Vec::new(alloc),
        }
    }

    /// All bytes given so far.
    pub fn given(&self) -> &[u8]
        ensures { result.now ≡ given_in (⟦<MemLink as Link>⟧.talk self.now) }
    {
        self.given.as_slice()
    }

    /// The script's answer to a take, kept and used up. Without memory nothing has changed.
    fn play_take(&mut self, buf: &mut [u8]) -> Result<Took, AllocError>
        requires { 0 < length buf.old }
        ensures within { IfOk result (TakesWithin (length buf.old)) }
        ensures faults { self.new.calls.faults ≡ self.old.calls.faults }
        ensures ok { IfOk result (λ took. talk_of self.new.log.items ≡ talk_of self.old.log.items ++ said_by_take took buf.new ∷ []) }
        ensures same { OnErr result (talk_of self.new.log.items ≡ talk_of self.old.log.items) }
    {
        match self.takes.as_slice().get(self.take_at) {
            None => {
                keep(&mut self.log, Kept::TookEnd)?;
                Ok(Took::End)
            }
            Some(MemTake::End) => {
                keep(&mut self.log, Kept::TookEnd)?;
                self.take_at += 1;
                Ok(Took::End)
            }
            Some(MemTake::NotYet) => {
                keep(&mut self.log, Kept::TookNothing)?;
                self.take_at += 1;
                Ok(Took::NotYet)
            }
            Some(MemTake::Bytes(piece)) => {
                let left = left_of(piece.as_slice(), self.piece_at);
                let count = left.len().min(buf.len());
                if count == 0 {
                    keep(&mut self.log, Kept::TookNothing)?;
                    self.take_at += 1;
                    self.piece_at = 0;
                    return Ok(Took::NotYet);
                }
                let copy = Vec::from_slice(self.alloc, &left[..count])?;
                keep(&mut self.log, Kept::Took(copy))?;
                put_front(buf, &left[..count]);
                if count == left.len() {
                    self.take_at += 1;
                    self.piece_at = 0;
                } else {
                    self.piece_at += count;
                }
                Ok(Took::Bytes(count))
            }
        }
    }

    /// The script's answer to a give, kept and used up. Without memory nothing has changed.
    fn play_give(&mut self, piece: &[u8]) -> Result<Gave, AllocError>
        requires { 0 < length piece.now }
        ensures within { IfOk result (GivesWithin (length piece.now)) }
        ensures faults { self.new.calls.faults ≡ self.old.calls.faults }
        ensures ok { IfOk result (λ gave. talk_of self.new.log.items ≡ talk_of self.old.log.items ++ said_by_give gave piece.now ∷ []) }
        ensures same { OnErr result (talk_of self.new.log.items ≡ talk_of self.old.log.items) }
    {
        let room = match self.gives.as_slice().get(self.give_at) {
            None => piece.len(),
            Some(MemGive::Bytes(most)) => piece.len().min(*most),
            Some(MemGive::NotYet) => 0,
        };
        if room == 0 {
            keep(&mut self.log, Kept::GaveNothing)?;
            self.give_at = self.give_at.saturating_add(1);
            return Ok(Gave::NotYet);
        }
        let copy = Vec::from_slice(self.alloc, &piece[..room])?;
        self.log.reserve(1)?;
        self.given.extend_from_slice(&piece[..room])?;
        self.log.push_reserved(Kept::Gave(copy));
        self.give_at = self.give_at.saturating_add(1);
        Ok(Gave::Bytes(room))
    }
}

impl Link for MemLink {
    ghost use Rattle.std.specs.Prelude.{true};
    ghost use Rattle.sk_base.specs.Memory.{talk_of};

    ghost faults = { λ link. link.calls.faults };

    ghost tells = { λ _. true };

    ghost talk = { λ link. talk_of link.log.items };

    fn take(&mut self, buf: &mut [u8]) -> Result<Took, Failed> {
        self.calls.next(CallKind::Take)?;
        match self.play_take(buf) {
            Ok(took) => Ok(took),
            Err(_) => Err(self.calls.fail()),
        }
    }

    fn give(&mut self, piece: &[u8]) -> Result<Gave, Failed> {
        self.calls.next(CallKind::Give)?;
        match self.play_give(piece) {
            Ok(gave) => Ok(gave),
            Err(_) => Err(self.calls.fail()),
        }
    }
}
