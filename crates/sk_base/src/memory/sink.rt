//! A sink in memory.

ghost use Rattle.std.specs.Prelude.{◌≡◌, true, []};

use crate::fault::Failed;
use crate::memory::fails::{CallKind, Calls, FailAt};
use crate::sink::Sink;
use std::alloc::Global;

/// A write takes at most so many bytes of its piece.
const MOST_AT_ONCE: usize = 64;

/// A sink that keeps what is written to it, at most 64 bytes of each piece.
#[derive(Drop)]
pub struct MemSink {
    written: Vec<u8>,
    calls: Calls,
}

impl MemSink {
    /// An empty sink, with the writes and flushes that are to fail.
    pub fn new(alloc: Global, fails: Vec<FailAt>) -> MemSink
        ensures tells { ⟦<MemSink as Sink>⟧.tells result ≡ true }
        ensures written { ⟦<MemSink as Sink>⟧.written result ≡ [] }
        ensures faults { ⟦<MemSink as Sink>⟧.faults result ≡ 0 }
    {
        MemSink {
            written: Vec::new(alloc),
            calls: Calls::new(fails),
        }
    }

    /// All bytes written so far.
    pub fn written(&self) -> &[u8]
        ensures { result.now ≡ ⟦<MemSink as Sink>⟧.written self.now }
    {
        self.written.as_slice()
    }
}

impl Sink for MemSink {
    ghost use Rattle.std.specs.Prelude.{true};

    ghost faults = { λ sink. sink.calls.faults };

    ghost tells = { λ _. true };

    ghost written = { λ sink. sink.written.items };

    fn write(&mut self, piece: &[u8]) -> Result<usize, Failed> {
        self.calls.next(CallKind::Write)?;
        let count = piece.len().min(MOST_AT_ONCE);
        match self.written.extend_from_slice(&piece[..count]) {
            Ok(()) => Ok(count),
            Err(_) => Err(self.calls.fail()),
        }
    }

    fn flush(&mut self) -> Result<(), Failed> {
        self.calls.next(CallKind::Flush)
    }
}
