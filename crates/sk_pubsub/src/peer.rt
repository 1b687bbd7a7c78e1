//! What one peer announced.

ghost use Rattle.std.specs.Prelude.{◌≡◌, ◌<◌, ◌≤◌, false, [], ◌++◌, ◌∷◌, length, slice_get, slice_index_or, option_copied, OnOk, OnErr, IfOk};
ghost use Rattle.sk_msg.specs.Matching.{matching};
ghost use Rattle.sk_pubsub.specs.Announcing.{ids};
ghost use Rattle.sk_pubsub.specs.Places.{new_peer, at_place, matched_after, HasOneMore, IsPutBehind};

use sk_base::WantOfMemory;
use sk_msg::Service;
use std::alloc::Global;
use std::marker::Model;

/// An announced service, and the numbers of the own services that match it.
#[derive(Debug, Drop)]
pub(crate) struct Announced {
    pub service: Service,
    pub receivers: Vec<u32>,
}

impl Model for Announced {
    ghost use Rattle.sk_pubsub.specs.Places.{AnnouncedValue};

    ghost Value = { AnnouncedValue };

    ghost view = { λ a. record { service = a.service; receivers = a.receivers.items } };
}

/// What one peer announced. Contracts see both lists.
#[derive(Debug, Drop)]
pub(crate) struct Peer {
    /// In the order of their numbers.
    announced: Vec<Announced>,
    /// At the number of each own service, whether it matches one of these.
    matched: Vec<bool>,
}

impl Model for Peer {
    ghost use Rattle.sk_pubsub.specs.Places.{PeerValue};

    ghost Value = { PeerValue };

    ghost view = { λ p. record { announced = p.announced.items; matched = p.matched.items } };
}

impl Announced {
    /// The service, with the numbers of those of `own` that match it.
    pub(crate) fn new(
        alloc: Global,
        own: &[Service],
        service: Service,
    ) -> Result<Announced, WantOfMemory>
        ensures { IfOk result (λ made. made ≡ record { service = service; receivers = ids (matching own.now service) }) }
    {
        let receivers = matching_ids(alloc, own, &service)?;
        Ok(Announced { service, receivers })
    }

    /// What was announced.
    pub(crate) fn service(&self) -> &Service
        ensures { result.now ≡ self.now.service }
    {
        &self.service
    }

    /// The numbers of the own services that match it.
    pub(crate) fn receivers(&self) -> &[u32]
        ensures { result.now ≡ self.now.receivers }
    {
        self.receivers.as_slice()
    }
}

impl Peer {
    /// It announced nothing.
    pub(crate) fn new(alloc: Global) -> Peer
        ensures { result ≡ new_peer }
    {
        Peer {
            announced: Vec::new(alloc),
            matched: Vec::new(alloc),
        }
    }

    /// How many services it announced.
    pub(crate) fn len(&self) -> usize
        ensures { result ≡ length self.now.announced }
    {
        self.announced.len()
    }

    /// The service of this number.
    fn get(&self, id: u32) -> Option<&Announced>
        ensures { option_copied result ≡ slice_get self.now.announced id }
    {
        self.announced.get(id as usize)
    }

    /// Whether the own service of this number matches one of them.
    fn is_matched(&self, own: u32) -> bool
        ensures { result ≡ slice_index_or self.now.matched own false }
    {
        match self.matched.get(own as usize) {
            Some(matched) => *matched,
            None => false,
        }
    }

    /// One more service, and which own ones match one of them all then.
    fn push(&mut self, announced: Announced, matched: Vec<bool>) -> Result<(), WantOfMemory>
        ensures last { OnOk result (self.new ≡ record { announced = self.old.announced ++ announced ∷ []; matched = matched.items }) }
        ensures same { OnErr result (self.new ≡ self.old) }
    {
        self.announced.push(announced)?;
        self.matched = matched;
        Ok(())
    }
}

/// The numbers of those services that match the other one, in their order.
fn matching_ids(
    alloc: Global,
    services: &[Service],
    other: &Service,
) -> Result<Vec<u32>, WantOfMemory>
    ensures { IfOk result (λ found. found.items ≡ ids (matching services.now other.now)) }
{
    let mut found = Vec::new(alloc);
    for service in services {
        if service.matches(other) {
            found.push(service.id)?;
        }
    }
    Ok(found)
}

/// At the number of each own service, whether it matches something that the peer announced, once
/// this service is among it.
pub(crate) fn matched_with(
    alloc: Global,
    own: &[Service],
    peers: &[Peer],
    peer: u32,
    other: &Service,
) -> Result<Vec<bool>, WantOfMemory>
    ensures { IfOk result (λ matched. matched.items ≡ matched_after own.now (at_place peers.now peer).matched other.now) }
{
    let mut matched = Vec::new(alloc);
    for service in own {
        matched.push(is_matched_at(peers, peer, service.id) || service.matches(other))?;
    }
    Ok(matched)
}

/// Adds a service to those of the peer of this number. There is a place for it and for each lower
/// one afterwards.
pub(crate) fn put(
    alloc: Global,
    peers: &mut Vec<Peer>,
    at: u32,
    announced: Announced,
    matched: Vec<bool>,
) -> Result<(), WantOfMemory>
    ensures added { OnOk result (HasOneMore at announced matched.items peers.old.items peers.new.items) }
    ensures same { OnErr result (peers.new.items ≡ peers.old.items) }
{
    if (at as usize) < peers.len() {
        return push_at(peers, at, announced, matched);
    }
    let mut peer = Peer::new(alloc);
    peer.push(announced, matched)?;
    push_behind(alloc, peers, at, peer)
}

/// Adds a service to those of the peer of this number, which has a place.
fn push_at(
    peers: &mut Vec<Peer>,
    at: u32,
    announced: Announced,
    matched: Vec<bool>,
) -> Result<(), WantOfMemory>
    requires { at < length peers.old.items }
    ensures added { OnOk result (HasOneMore at announced matched.items peers.old.items peers.new.items) }
    ensures same { OnErr result (peers.new.items ≡ peers.old.items) }
{
    peers[at as usize].push(announced, matched)
}

/// Puts a peer at its place behind all that there are. Those between have announced nothing.
fn push_behind(
    alloc: Global,
    peers: &mut Vec<Peer>,
    at: u32,
    peer: Peer,
) -> Result<(), WantOfMemory>
    requires { length peers.old.items ≤ at }
    ensures added { OnOk result (IsPutBehind at peer peers.old.items peers.new.items) }
    ensures same { OnErr result (peers.new.items ≡ peers.old.items) }
{
    let missing = at as usize - peers.len();
    peers.reserve(missing + 1)?;
    for _ in 0..missing {
        peers.push_reserved(Peer::new(alloc));
    }
    peers.push_reserved(peer);
    Ok(())
}

/// The service of this number that this peer announced.
pub(crate) fn announced_at(peers: &[Peer], peer: u32, id: u32) -> Option<&Announced>
    ensures { option_copied result ≡ slice_get (at_place peers.now peer).announced id }
{
    peers.get(peer as usize)?.get(id)
}

/// Whether the own service of this number matches something that this peer announced.
pub(crate) fn is_matched_at(peers: &[Peer], peer: u32, own: u32) -> bool
    ensures { result ≡ slice_index_or (at_place peers.now peer).matched own false }
{
    match peers.get(peer as usize) {
        Some(peer) => peer.is_matched(own),
        None => false,
    }
}
