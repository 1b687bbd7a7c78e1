//! What is noted of one peer.

ghost use Rattle.std.specs.Prelude.{◌≡◌, ◌<◌, ◌≤◌, MatchBool, Some, IfSome, IfErr, OnOk, OnErr};
ghost use Rattle.sk_timesync.specs.Notes.{unheard, with_known, with_announced, with_left};
ghost use Rattle.sk_timesync.specs.Rule.{HoldsUp, IsReady};

use sk_base::SimTime;
use std::marker::Model;

/// One peer. Contracts see what was noted of it.
#[derive(Debug, Drop)]
pub(crate) struct Peer {
    number: u32,
    /// None as long as the peer is unknown.
    synchronised: Option<bool>,
    left: bool,
    announced: Option<SimTime>,
}

impl Model for Peer {
    ghost use Rattle.sk_timesync.specs.Notes.{PeerNotes};

    ghost Value = { PeerNotes };

    ghost view = { λ p.
        record { number = p.number; synchronised = p.synchronised; left = p.left; announced = p.announced } };
}

impl Peer {
    /// A peer of which nothing was noted.
    pub(crate) fn new(number: u32) -> Peer
        ensures { result ≡ unheard number }
    {
        Peer {
            number,
            synchronised: None,
            left: false,
            announced: None,
        }
    }

    /// Its number among the participants.
    pub(crate) fn number(&self) -> u32
        ensures { result ≡ self.now.number }
    {
        self.number
    }

    /// The time of its last announcement.
    pub(crate) fn announced(&self) -> Option<SimTime>
        ensures { result ≡ self.now.announced }
    {
        self.announced
    }

    /// It is known now, and is synchronised or not.
    pub(crate) fn know(&mut self, synchronised: bool)
        ensures { self.new ≡ with_known synchronised self.old }
    {
        self.synchronised = Some(synchronised);
    }

    /// Notes a time that is above the last one, or hands the last one back.
    pub(crate) fn announce(&mut self, at: SimTime) -> Result<(), SimTime>
        ensures noted { OnOk result (self.new ≡ with_announced at self.old) }
        ensures rises { OnOk result (IfSome self.old.announced (λ last. last < at)) }
        ensures refused { IfErr result (λ last. (self.old.announced ≡ Some last) × (at ≤ last)) }
        ensures same { OnErr result (self.new ≡ self.old) }
        ensures number { self.new.number ≡ self.old.number }
    {
        if let Some(last) = self.announced
            && at <= last
        {
            return Err(last);
        }
        self.announced = Some(at);
        Ok(())
    }

    /// It has left.
    pub(crate) fn leave(&mut self)
        ensures { self.new ≡ with_left self.old }
    {
        self.left = true;
    }

    /// Whether the step at this time can't begin because of this peer.
    pub(crate) fn holds_up(&self, at: SimTime) -> bool
        ensures { MatchBool result (HoldsUp at self.now) (IsReady at self.now) }
    {
        match self.synchronised {
            None => true,
            Some(false) => false,
            Some(true) => !self.left && self.announced.is_none_or(|time| time < at),
        }
    }
}
