//! A net in memory.

ghost use Rattle.std.specs.Prelude.{◌≡◌, ℕ, true, false, []};
ghost use Rattle.sk_base.specs.Calls.{IsRefused};
ghost use Rattle.sk_base.specs.MemoryNet.{calls_of};

use crate::count::one_more;
use crate::fault::Failed;
use crate::link::{Gave, Link, Took};
use crate::memory::link::MemLink;
use crate::net::Net;
use crate::text::Text;
use std::alloc::Global;

/// A call with its answer, as it is kept.
#[derive(Drop)]
enum Kept {
    NobodyWaited,
    /// A listen at, or a connect to, this address failed.
    Refused(Text),
}

/// A link that was opened.
#[derive(Drop)]
struct Opened {
    link: MemLink,
    is_open: bool,
}

/// A net that nobody calls, and whose listens and connects fail. So it has no links yet.
#[derive(Drop)]
pub struct MemNet {
    alloc: Global,
    /// By their numbers.
    links: Vec<Opened>,
    calls: Vec<Kept>,
    faults: u64,
}

impl MemNet {
    /// A net of which nothing was asked yet.
    pub fn without_links(alloc: Global) -> MemNet
        ensures tells { ⟦<MemNet as Net>⟧.tells result ≡ true }
        ensures calls { ⟦<MemNet as Net>⟧.calls result ≡ [] }
        ensures used { (link : ℕ) → ⟦<MemNet as Net>⟧.was_opened result link ≡ false }
        ensures faults { ⟦<MemNet as Net>⟧.faults result ≡ 0 }
    {
        MemNet {
            alloc,
            links: Vec::new(alloc),
            calls: Vec::new(alloc),
            faults: 0,
        }
    }
}

/// Keeps that a call for this address failed, where there is memory for it.
fn keep_refused(alloc: Global, calls: &mut Vec<Kept>, at: &Text)
    ensures { IsRefused at.now (calls_of calls.old.items) (calls_of calls.new.items) }
{
    if let Ok(address) = at.copy(alloc) {
        // Without memory it stays untold.
        let _ = calls.push(Kept::Refused(address));
    }
}

impl Net for MemNet {
    ghost use Rattle.std.specs.Prelude.{true};
    ghost use Rattle.sk_base.specs.MemoryNet.{calls_of, is_open_at, was_opened_at, faults_at, talk_at};

    ghost faults = { λ net. net.faults };

    ghost link_faults = { λ net link. faults_at net.links.items link };

    ghost is_open_of = { λ net link. is_open_at net.links.items link };

    ghost was_opened = { λ net link. was_opened_at net.links.items link };

    ghost tells = { λ _. true };

    ghost calls = { λ net. calls_of net.calls.items };

    ghost talk = { λ net link. talk_at net.links.items link };

    fn is_open(&self, link: u32) -> bool {
        match self.links.get(link as usize) {
            Some(opened) => opened.is_open,
            None => false,
        }
    }

    fn listen(&mut self, at: &Text) -> Result<Text, Failed> {
        keep_refused(self.alloc, &mut self.calls, at);
        self.faults = one_more(self.faults);
        Err(Failed)
    }

    fn connect(&mut self, at: &Text) -> Result<u32, Failed> {
        keep_refused(self.alloc, &mut self.calls, at);
        self.faults = one_more(self.faults);
        Err(Failed)
    }

    fn accept(&mut self) -> Result<Option<u32>, Failed> {
        match self.calls.push(Kept::NobodyWaited) {
            Ok(()) => Ok(None),
            Err(_) => {
                self.faults = one_more(self.faults);
                Err(Failed)
            }
        }
    }

    fn take(&mut self, link: u32, buf: &mut [u8]) -> Result<Took, Failed> {
        self.links[link as usize].link.take(buf)
    }

    fn give(&mut self, link: u32, piece: &[u8]) -> Result<Gave, Failed> {
        self.links[link as usize].link.give(piece)
    }

    fn close(&mut self, link: u32) {
        self.links[link as usize].is_open = false;
    }
}
