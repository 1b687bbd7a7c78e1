//! A journal, gone through entry by entry.

ghost use Rattle.std.specs.Prelude.{◌≡◌, List, [], ◌∷◌, ◌++◌, None, OnOk, IfOk};
ghost use Rattle.sk_law.specs.Readings.{begun_after, stamp};
ghost use Rattle.sk_law.specs.Told.{heard};
ghost use Rattle.sk_law.specs.Visible.{visible};
ghost use Rattle.sk_msg.specs.declared.entry.Entry.{Entry};
ghost use Rattle.sk_msg.specs.declared.entry.Entry.TheVariants.{Hand};
ghost use Rattle.sk_report.specs.Walks.{IsWalked};

use crate::got::GotMessages;
use sk_base::{SimTime, WantOfMemory};
use sk_law::{Begun, Visible};
use sk_msg::Entry;
use sk_visible::VisibleList;
use std::alloc::Global;

/// What is kept of the entries so far: all that tells what a step sees.
#[derive(Drop)]
pub struct Walk<'a> {
    /// What was got, by the number of the peer.
    pub got: GotMessages<'a>,
    /// What was handed.
    pub visible: VisibleList,
    /// The time of the last step that began, or 0, in ns of virtual time.
    pub stamp: SimTime,
}

impl<'a> Walk<'a> {
    /// Before the first entry.
    #[tactic(auto, unfolding(sk_base::specs::Ranges::is_time))]
    pub fn new(alloc: Global) -> Result<Walk<'a>, WantOfMemory>
        ensures { IfOk result (λ walk. IsWalked [] walk) }
    {
        Ok(Walk {
            got: GotMessages::new(alloc)?,
            visible: VisibleList::new(alloc),
            stamp: SimTime::new(0).unwrap(),
        })
    }

    /// The next entry.
    pub fn note(&mut self, alloc: Global, entry: &'a Entry) -> Result<(), WantOfMemory>
        ensures { (before : List Entry) → IsWalked before self.old → OnOk result (IsWalked (before ++ entry.now ∷ []) self.new) }
    {
        match entry {
            Entry::Got(peer, message) => {
                self.got.add(alloc, *peer, message)?;
                Ok(())
            }
            Entry::Hand {
                peer,
                place,
                service,
            } => {
                self.hand(alloc, *peer, *place, *service)?;
                Ok(())
            }
            Entry::Begin(_, at) => {
                self.stamp = *at;
                Ok(())
            }
            Entry::Put(..) => Ok(()),
            Entry::State(_) => Ok(()),
            Entry::System(_) => Ok(()),
            Entry::Done(_) => Ok(()),
            Entry::End(_) => Ok(()),
            Entry::Ask(..) => Ok(()),
            Entry::Gone(..) => Ok(()),
            Entry::Stray(_) => Ok(()),
            Entry::Did(..) => Ok(()),
            Entry::Fault(_) => Ok(()),
        }
    }

    /// The message at a place of a peer was handed to an own service.
    fn hand(
        &mut self,
        alloc: Global,
        peer: u32,
        place: u64,
        service: u32,
    ) -> Result<(), WantOfMemory>
        ensures { (before : List Entry) → IsWalked before self.old → OnOk result (IsWalked (before ++ Hand peer place service ∷ []) self.new) }
    {
        let index = place.saturating_sub(1) as usize;
        match self.got.get(peer, index) {
            Some(message) => {
                self.visible.note(alloc, peer, place, service, message)?;
                Ok(())
            }
            None => Ok(()),
        }
    }

    /// What a step sees that begins now, at this time.
    pub fn seen(&self, at: SimTime) -> &[Visible]
        ensures { (before : List Entry) → IsWalked before self.now → result.now ≡ visible (heard before) (stamp before) at }
    {
        self.visible.between(self.stamp, at)
    }
}

/// The step that begins with this entry.
pub fn begun(entry: &Entry) -> Option<Begun>
    ensures { result ≡ begun_after None entry.now }
{
    match entry {
        Entry::Begin(number, time) => Some(Begun {
            number: *number,
            time: *time,
        }),
        Entry::Got(..)
        | Entry::Put(..)
        | Entry::Hand { .. }
        | Entry::State(_)
        | Entry::System(_)
        | Entry::Done(_)
        | Entry::End(_)
        | Entry::Ask(..)
        | Entry::Gone(..)
        | Entry::Stray(_)
        | Entry::Did(..)
        | Entry::Fault(_) => None,
    }
}
