//! What one link keeps.

ghost use Rattle.std.specs.Prelude.{◌≡◌, ◌≤◌, ◌<◌, ◌+◌, ◌*◌, ◌^◌, ◌++◌, ℕ, false, List, [], length, drop, take, nat_lt, nat_le, IfOk, OnOk, OnErr, MatchResult};
ghost use mathlib.Core.List.{IsPrefix};
ghost use Rattle.sk_base.specs.Talk.{TakesWithin, GivesWithin};
ghost use Rattle.sk_wire.specs.Grammar.{spelling};
ghost use Rattle.sk_wire.specs.Parts.{messages};
ghost use Rattle.sk_wire.specs.Feeding.{GoesOn};
ghost use Rattle.sk_connection.specs.Connection.{fresh, with_queued, one_wait_more, after_give, after_take, IsFrameLong, MayTake, LessLeft, Follows, FollowsMore, FollowsGive, FollowsTake, IsLost};

use sk_base::limits::{MOST_LINK_BYTES, MOST_WAITS};
use sk_base::{Gave, Took, WantOfMemory};
use sk_msg::Message;
use sk_wire::{Decoder, Fed, encode};
use std::alloc::Global;
use std::marker::Model;

/// What one link keeps: a decoder of what was taken, and the bytes that wait to be given.
///
/// - Out: `queue` puts a message; `next_piece` is what waits, to be given; `gave` notes the answer.
/// - In: `took` notes a take's answer, and hands out the messages that it made whole.
/// - Readers: `has_output`, `is_held`, `is_ended`, `is_full`, `is_tired`, `taken`.
///
/// Each answer of the link but Failed is noted, in order. After want of memory in `took` the bytes
/// of that take are lost: nothing may be noted any more, and what waits may still be given.
#[derive(Drop)]
pub struct Connection {
    alloc: Global,
    decoder: Decoder,
    pending: Vec<u8>,
    /// How many bytes of `pending` were given.
    given: usize,
    waits: u32,
    is_held: bool,
    is_ended: bool,
}

impl Model for Connection {
    ghost use Rattle.std.specs.Prelude.{◌≤◌, length, drop};
    ghost use Rattle.sk_connection.specs.Connection as seen;

    ghost Value = { seen.Connection };

    ghost view = { λ c. record { decoder = c.decoder; queued = drop c.given c.pending.items; waits = c.waits; is_held = c.is_held; is_ended = c.is_ended } };

    ghost invariant = { λ c. (c.given ≤ length c.pending.items) × (c.waits ≤ 1048576) };
}

impl Connection {
    /// A connection on which nothing was said.
    #[tactic(auto, using(crate::proofs::FollowLaws::starts))]
    pub fn new(alloc: Global) -> Connection
        ensures value { result ≡ fresh }
        ensures follows { Follows [] [] result }
    {
        Connection {
            alloc,
            decoder: Decoder::new(alloc),
            pending: Vec::new(alloc),
            given: 0,
            waits: 0,
            is_held: false,
            is_ended: false,
        }
    }

    /// Puts a message behind the bytes that wait. After want of memory nothing has changed.
    #[tactic(auto, using(crate::proofs::FollowLaws::queues))]
    pub fn queue(&mut self, message: &Message) -> Result<(), WantOfMemory>
        ensures ok { OnOk result (self.new ≡ with_queued (spelling message.now) self.old) }
        ensures follows { OnOk result (FollowsMore (spelling message.now) self.old self.new) }
        ensures size { OnOk result (IsFrameLong (length (spelling message.now))) }
        ensures same { OnErr result (self.new ≡ self.old) }
    {
        self.forget_given();
        encode(message, &mut self.pending)?;
        Ok(())
    }

    /// Lets go of the bytes given, where no more than these wait: so each byte is moved once at
    /// most, on average.
    fn forget_given(&mut self)
        ensures { self.new ≡ self.old }
    {
        if self.given > 0 && self.pending.len() - self.given <= self.given {
            remove_front(&mut self.pending, self.given);
            self.given = 0;
        }
    }

    /// Whether something waits to be given.
    pub fn has_output(&self) -> bool
        ensures { result ≡ nat_lt 0 (length self.now.queued) }
    {
        self.given < self.pending.len()
    }

    /// The bytes that wait to be given.
    pub fn next_piece(&self) -> &[u8]
        ensures { result.now ≡ self.now.queued }
    {
        &self.pending.as_slice()[self.given..]
    }

    /// Notes what a give of the bytes that wait answered.
    pub fn gave(&mut self, gave: Gave)
        requires { GivesWithin (length self.old.queued) gave }
        ensures value { self.new ≡ after_give gave self.old }
        ensures follows { FollowsGive gave self.old self.new }
        ensures smaller { LessLeft self.old self.new }
    {
        match gave {
            Gave::Bytes(count) => {
                self.given += count;
                self.waits = 0;
            }
            Gave::NotYet => {
                self.waits = one_more_wait(self.waits);
                self.is_held = true;
            }
        }
    }

    /// Notes what a take answered, with the buffer that it left, where fewer than 2^63 bytes are
    /// then taken in all. Answers the messages that are whole now, and the fault of all bytes taken.
    #[tactic(auto, using(crate::proofs::FollowLaws::taking))]
    pub fn took(&mut self, took: Took, buf: &[u8]) -> Result<Fed, WantOfMemory>
        requires within { TakesWithin (length buf.now) took }
        requires room { self.old.decoder.fed + length buf.now < 2 ^ 63 }
        ensures value { OnOk result (self.new ≡ after_take took self.new.decoder self.old) }
        ensures follows { IfOk result (λ f. FollowsTake took buf.now self.old f.messages.items f.fault self.new) }
        ensures fed { self.new.decoder.fed ≤ self.old.decoder.fed + length buf.now }
        ensures smaller { OnOk result (MayTake self.old → LessLeft self.old self.new) }
        ensures same { OnErr result (self.new ≡ self.old) }
        // Only a take of bytes may want memory.
        ensures lost { OnErr result (IsLost took buf.now) }
    {
        match took {
            Took::Bytes(count) => match self.hear(&buf[..count]) {
                Ok(fed) => Ok(fed),
                Err(error) => Err(error),
            },
            Took::NotYet => {
                self.waits = one_more_wait(self.waits);
                self.is_held = false;
                Ok(self.nothing())
            }
            Took::End => {
                self.waits = 0;
                self.is_held = false;
                self.is_ended = true;
                Ok(self.nothing())
            }
        }
    }

    /// Feeds a piece that was taken.
    fn hear(&mut self, piece: &[u8]) -> Result<Fed, WantOfMemory>
        requires { self.old.decoder.fed + length piece.now < 2 ^ 63 }
        ensures value { OnOk result (self.new ≡ record self.old { decoder = self.new.decoder; waits = 0; is_held = false }) }
        ensures stream { IfOk result (λ f. GoesOn self.old.decoder piece.now f.messages.items f.fault self.new.decoder) }
        ensures grows { (b : List ℕ) → IsPrefix (messages b) (messages (b ++ piece.now)) }
        ensures fed { OnOk result (self.new.decoder.fed ≡ self.old.decoder.fed + length piece.now) }
        ensures same { OnErr result (self.new ≡ self.old) }
    {
        let fed = self.decoder.feed(piece)?;
        self.waits = 0;
        self.is_held = false;
        Ok(fed)
    }

    /// What a take without bytes gives: no message, and the fault that there is.
    fn nothing(&self) -> Fed
        ensures none { result.messages.items ≡ [] }
        ensures fault { result.fault ≡ self.now.decoder.fault }
    {
        Fed {
            messages: Vec::new(self.alloc),
            fault: self.decoder.fault(),
        }
    }

    /// Whether a give since the last take answered NotYet.
    pub fn is_held(&self) -> bool
        ensures { result ≡ self.now.is_held }
    {
        self.is_held
    }

    /// Whether a take answered End.
    pub fn is_ended(&self) -> bool
        ensures { result ≡ self.now.is_ended }
    {
        self.is_ended
    }

    /// How many bytes were taken.
    pub fn taken(&self) -> u64
        ensures { result ≡ self.now.decoder.fed }
    {
        self.decoder.fed()
    }

    /// Whether 2^32 bytes were taken, the most that a link may send.
    pub fn is_full(&self) -> bool
        ensures { result ≡ nat_le (2 ^ 32) self.now.decoder.fed }
    {
        self.taken() >= MOST_LINK_BYTES
    }

    /// Whether 1,048,576 answers NotYet came in a row, the last of them now.
    pub fn is_tired(&self) -> bool
        ensures { result ≡ nat_le 1048576 self.now.waits }
    {
        self.waits >= MOST_WAITS
    }
}

/// Lets go of the first bytes.
fn remove_front(bytes: &mut Vec<u8>, count: usize)
    requires { count ≤ length bytes.old.items }
    ensures { bytes.new.items ≡ drop count bytes.old.items }
{
    let left = bytes.len() - count;
    bytes.copy_within(count.., 0);
    bytes.truncate(left);
}

/// One answer NotYet more in a row; the count stands still where it is [`MOST_WAITS`].
fn one_more_wait(waits: u32) -> u32
    ensures { result ≡ one_wait_more waits }
{
    if waits < MOST_WAITS {
        waits + 1
    } else {
        MOST_WAITS
    }
}
