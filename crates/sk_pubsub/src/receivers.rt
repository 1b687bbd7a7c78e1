//! Which own services a message of a peer is for.

ghost use Rattle.std.specs.Prelude.{◌≡◌, ◌⊎◌, ◌≤◌, [], Some, Err, IfErr, OnOk, OnErr, length, slice_get, option_copied, IsTrue};
ghost use Rattle.std.specs.List.Sorted.{IsStrictlyIncreasing};
ghost use Rattle.sk_pubsub.specs.Announcing.{are_numbered, refusal, receivers_of, has_match, nothing_announced, announced_by, IsAdded, AnswersReason, IsReason};

use crate::add_refused::AddRefused;
use crate::peer::{Announced, Peer, announced_at, is_matched_at, matched_with, put};
use sk_base::limits::MOST_SERVICES;
use sk_msg::Service;
use std::alloc::Global;
use std::marker::Model;

/// The own services, and what each peer announced. Contracts see these, and never what is kept with
/// it: of each announced service the numbers of the own ones that match it, and of each peer which
/// own services match anything of it.
///
/// It has a place for each number up to that of the highest peer that announced something, so peers
/// are numbered from 0 on without wide gaps.
#[derive(Debug, Drop)]
pub struct Receivers {
    alloc: Global,
    own: Vec<Service>,
    /// At each peer's number what it announced.
    peers: Vec<Peer>,
}

impl Model for Receivers {
    ghost use Rattle.sk_pubsub.specs.Announcing.{Announcing};
    ghost use Rattle.sk_pubsub.specs.Receivers.{announcing_of, IsKept};

    ghost Value = { Announcing };

    ghost view = { announcing_of };

    ghost invariant = { IsKept };
}

impl Receivers {
    /// These are the own services, at most 64, and no peer has announced anything. What is
    /// announced is kept in this memory.
    pub fn new(alloc: Global, own: Vec<Service>) -> Receivers
        requires few { length own.items ≤ 64 }
        requires numbered { IsTrue (are_numbered 0 own.items) }
        ensures { result ≡ nothing_announced own.items }
    {
        Receivers {
            alloc,
            own,
            peers: Vec::new(alloc),
        }
    }

    /// The peer announced this service. It may have 64, with the numbers 0, 1, 2 and on.
    ///
    /// Each own service is compared with it.
    pub fn add(&mut self, peer: u32, service: Service) -> Result<(), AddRefused>
        ensures added { OnOk result (IsAdded peer service self.old self.new) }
        ensures same { OnErr result (self.new ≡ self.old) }

        // A reason against it is the answer, and besides there is want of memory alone.
        ensures refused { AnswersReason (refusal (announced_by self.old peer) service) result }
        ensures only { IfErr result (λ reason. IsReason (refusal (announced_by self.old peer) service) reason) }
    {
        if let Some(reason) = self.refusal(peer, &service) {
            return Err(reason);
        }
        let matched = matched_with(self.alloc, &self.own, &self.peers, peer, &service)?;
        let announced = Announced::new(self.alloc, &self.own, service)?;
        put(self.alloc, &mut self.peers, peer, announced, matched)?;
        Ok(())
    }

    /// The numbers of the own services that match the service of this number of this peer, in
    /// rising order. Empty for a service that wasn't announced.
    pub fn receivers(&self, peer: u32, service: u32) -> &[u32]
        ensures value { result.now ≡ receivers_of self.now.own (slice_get (announced_by self.now peer) service) }
        ensures rising { IsStrictlyIncreasing result.now }
    {
        match announced_at(&self.peers, peer, service) {
            Some(announced) => announced.receivers(),
            None => &[],
        }
    }

    /// Whether this peer has announced a service that the own one of this number matches. Of a
    /// client it is a server that answers its calls.
    pub fn has_match(&self, peer: u32, own: u32) -> bool
        ensures { result ≡ has_match (announced_by self.now peer) (slice_get self.now.own own) }
    {
        is_matched_at(&self.peers, peer, own)
    }

    /// The service of this number that this peer announced.
    pub fn announced(&self, peer: u32, service: u32) -> Option<&Service>
        ensures { option_copied result ≡ slice_get (announced_by self.now peer) service }
    {
        match announced_at(&self.peers, peer, service) {
            Some(announced) => Some(announced.service()),
            None => None,
        }
    }

    /// The own services.
    pub fn own(&self) -> &[Service]
        ensures value { result.now ≡ self.now.own }
        ensures few { length self.now.own ≤ 64 }
        ensures numbered { IsTrue (are_numbered 0 self.now.own) }
    {
        self.own.as_slice()
    }

    /// Why this service of this peer can't be added.
    fn refusal(&self, peer: u32, service: &Service) -> Option<AddRefused>
        ensures { result ≡ refusal (announced_by self.now peer) service.now }
    {
        let count = self.count(peer);
        if count >= MOST_SERVICES as usize {
            return Some(AddRefused::Full);
        }
        let next = count as u32;
        if service.id != next {
            return Some(AddRefused::OutOfOrder(next));
        }
        None
    }

    /// How many services the peer announced.
    fn count(&self, peer: u32) -> usize
        ensures { result ≡ length (announced_by self.now peer) }
    {
        match self.peers.get(peer as usize) {
            Some(peer) => peer.len(),
            None => 0,
        }
    }
}
