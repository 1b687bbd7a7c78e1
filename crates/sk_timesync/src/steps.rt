//! The own steps, and what was heard of those of the peers.

ghost use Rattle.std.specs.Prelude.{◌≡◌, ◌<◌, ◌≤◌, ◌+◌, ◌^◌, ℕ, true, false, Some, IfSome, IfNone, OnOk, OnErr, IfErr, [], ◌∷◌, ◌++◌, length, take, map, slice_get, slice_index, All, Contains};
ghost use Rattle.sk_timesync.specs.Notes.{unheard, numbers, announced_by, IsFresh, with_known, with_announced, with_left, with_peer, IsKept};
ghost use Rattle.sk_timesync.specs.Rule.{HoldsUp, IsReady, IsClear, Answers};

use crate::answer::MayBegin;
use crate::peer::Peer;
use sk_base::{SimTime, WantOfMemory};
use std::alloc::Global;
use std::marker::Model;

/// The own steps and the peers. Contracts see what was noted so far.
#[derive(Debug, Drop)]
pub struct Steps {
    /// Nanoseconds of virtual time.
    size: u64,
    begun: u64,
    is_open: bool,
    /// When the next step begins.
    next: SimTime,
    /// In rising number.
    peers: Vec<Peer>,
}

impl Model for Steps {
    ghost use Rattle.sk_timesync.specs.Notes.{Notes, IsKept};

    ghost Value = { Notes };

    ghost use Rattle.sk_timesync.specs.Steps.{notes_of};

    ghost view = { notes_of };

    ghost invariant = { λ s. IsKept (notes_of s) };
}

impl Steps {
    /// No steps yet, the first of them at time 0, and no peers. A step takes `size` nanoseconds
    /// of virtual time, 1 to 2^60. Peers that are added later are kept in this memory.
    #[tactic(auto, unfolding(sk_base::specs::Ranges::is_time))]
    pub fn new(alloc: Global, size: u64) -> Steps
        requires least { 1 ≤ size }
        requires most { size ≤ 2 ^ 60 }
        ensures noted { result
            ≡ record { size = size; begun = 0; is_open = false; next = 0; peers = [] } }
        ensures fresh { IsFresh result }
    {
        Steps {
            size,
            begun: 0,
            is_open: false,
            next: SimTime::new(0).unwrap(),
            peers: Vec::new(alloc),
        }
    }

    /// Adds a peer, which is unknown so far. Peers are added in rising number, and before
    /// anything else is noted.
    pub fn add_peer(&mut self, peer: u32) -> Result<(), WantOfMemory>
        requires fresh { IsFresh self.old }
        requires rising { All (λ number. number < peer) (numbers self.old) }
        ensures noted { OnOk result
            (self.new ≡ record self.old { peers = self.old.peers ++ unheard peer ∷ [] }) }
        ensures numbers { OnOk result (numbers self.new ≡ numbers self.old ++ peer ∷ []) }
        ensures same { OnErr result (self.new ≡ self.old) }
        ensures fresh { IsFresh self.new }
    {
        self.peers.push(Peer::new(peer))?;
        Ok(())
    }

    /// The peer is known now, and is synchronised or not.
    pub fn know(&mut self, peer: u32, synchronised: bool)
        requires { Contains (numbers self.old) peer }
        ensures noted { self.new ≡ with_peer peer (with_known synchronised) self.old }
        ensures numbers { numbers self.new ≡ numbers self.old }
    {
        let index = index_of(&self.peers, peer);
        self.peers[index].know(synchronised);
    }

    /// The peer announced that its next step is at this time. A time that isn't above its last
    /// announcement is refused, and the last announcement handed back. It is noted of every peer,
    /// known or not.
    pub fn announce(&mut self, peer: u32, at: SimTime) -> Result<(), SimTime>
        requires { Contains (numbers self.old) peer }
        ensures noted { OnOk result (self.new ≡ with_peer peer (with_announced at) self.old) }
        ensures rises { OnOk result (IfSome (announced_by self.old peer) (λ last. last < at)) }
        ensures refused { IfErr result (λ last.
            (announced_by self.old peer ≡ Some last) × (at ≤ last)) }
        ensures same { OnErr result (self.new ≡ self.old) }
        ensures numbers { numbers self.new ≡ numbers self.old }
    {
        let index = index_of(&self.peers, peer);
        self.peers[index].announce(at)
    }

    /// The peer has left.
    pub fn leave(&mut self, peer: u32)
        requires { Contains (numbers self.old) peer }
        ensures noted { self.new ≡ with_peer peer with_left self.old }
        ensures numbers { numbers self.new ≡ numbers self.old }
    {
        let index = index_of(&self.peers, peer);
        self.peers[index].leave();
    }

    /// Whether the next step may begin, by all that was noted.
    pub fn may_begin(&self) -> MayBegin
        ensures answer { Answers self.now result }
        ensures kept { IsKept self.now }
    {
        if self.is_open {
            return MayBegin::Open(self.begun);
        }
        match first_to_hold_up(&self.peers, self.next) {
            Some(peer) => MayBegin::Waits(peer.number(), peer.announced()),
            None => MayBegin::Yes(self.next),
        }
    }

    /// Begins the next step, whose time is below 2^61 nanoseconds, and answers its number: 1 for
    /// the first. From now on the next step is the one behind it, a step size later.
    #[tactic(auto, unfolding(sk_base::specs::Ranges::is_time))]
    pub fn begin(&mut self) -> u64
        requires clear { IsClear self.old }
        requires early { self.old.next < 2 ^ 61 }
        ensures noted { self.new ≡ record self.old {
          begun = self.old.begun + 1;
          is_open = true;
          next = self.old.next + self.old.size;
        } }
        ensures number { result ≡ self.new.begun }
    {
        self.begun += 1;
        self.is_open = true;
        self.next = self.next.plus(self.size).unwrap();
        self.begun
    }

    /// Ends the open step, and answers when the next one begins.
    pub fn end(&mut self) -> SimTime
        requires { self.old.is_open ≡ true }
        ensures noted { self.new ≡ record self.old { is_open = false } }
        ensures next { result ≡ self.new.next }
        ensures latest { result < 2 ^ 61 + 2 ^ 60 }
    {
        self.is_open = false;
        self.next
    }

    /// When the next step begins, in nanoseconds of virtual time: at 0 before the first one, else
    /// a step size behind the last one that was begun, also while that one is open. It is so far
    /// below 2^62 that the time behind it is one too.
    pub fn next(&self) -> SimTime
        ensures next { result ≡ self.now.next }
        ensures latest { result < 2 ^ 61 + 2 ^ 60 }
        ensures kept { IsKept self.now }
    {
        self.next
    }
}

/// Where the peer of this number stands.
fn index_of(peers: &[Peer], number: u32) -> usize
    requires { Contains (map (λ peer. peer.number) peers.now) number }
    ensures within { result < length peers.now }
    ensures found { slice_index (map (λ peer. peer.number) peers.now) result ≡ number }
{
    peers
        .iter()
        .position(|peer| peer.number() == number)
        .unwrap()
}

/// The first peer of the list that the step at this time waits for.
fn first_to_hold_up(peers: &[Peer], at: SimTime) -> Option<&Peer>
    ensures none { IfNone result (All (IsReady at) peers.now) }
    ensures holds { IfSome result (λ peer. HoldsUp at peer.now) }
    ensures index { IfSome result (λ peer.
        (index : ℕ) × (slice_get peers.now index ≡ Some peer.now) × All (IsReady at) (take index peers.now)) }
{
    peers.iter().find(|peer| peer.holds_up(at))
}
