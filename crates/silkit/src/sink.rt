//! Standard output and standard error as sinks.

ghost use Rattle.std.specs.Prelude.{◌≡◌, ◌<◌, ◌≤◌, length, IfOk, OnOk, OnErr};
ghost use Rattle.std.specs.Io.KnownBytes.{Keeps, WriteAppends};
ghost use Rattle.sk_base.specs.Talk.{Rose};

use crate::faults::Faults;
use crate::tries::{flush_all, write_some};
use log::Log;
use sk_base::{Failed, Sink};
use std::io::Write;

/// Writes to a stream of the host. Each fault is noted in the log.
///
/// Where the stream tells what it holds, each write appends just what it answers. A stream of the
/// host tells nothing, so the sink doesn't.
#[derive(Drop)]
pub struct StdSink<W: Write + Drop, L: Log + Drop> {
    stream: W,
    faults: Faults<L>,
}

impl<W: Write + Drop, L: Log + Drop> StdSink<W, L> {
    /// A sink over this stream, with no fault so far, and with the log for faults.
    pub fn new(stream: W, log: L) -> StdSink<W, L>
        ensures { result.stream ≡ stream }
    {
        StdSink {
            stream,
            faults: Faults::none(log),
        }
    }
}

impl<W: Write + Drop, L: Log + Drop> Sink for StdSink<W, L> {
    ghost faults = { λ sink. sink.faults.count };

    // The trait's clauses, and what the stream holds afterwards.
    fn write(&mut self, piece: &[u8]) -> Result<usize, Failed>
        ensures some { IfOk result (λ count. 0 < length piece.now → 0 < count) }
        ensures within { IfOk result (λ count. count ≤ length piece.now) }
        ensures rose { OnErr result (Rose self.old.faults.count self.new.faults.count) }
        ensures steady { OnOk result (self.new.faults.count ≡ self.old.faults.count) }
        ensures bytes { WriteAppends (W.contents self.old.stream) (W.contents self.new.stream) result piece.now }
    {
        match write_some(&mut self.stream, piece) {
            Ok(count) => Ok(count),
            Err(error) => Err(self.faults.note("write", error)),
        }
    }

    fn flush(&mut self) -> Result<(), Failed>
        ensures rose { OnErr result (Rose self.old.faults.count self.new.faults.count) }
        ensures steady { OnOk result (self.new.faults.count ≡ self.old.faults.count) }
        ensures bytes { Keeps (W.contents self.old.stream) (W.contents self.new.stream) }
    {
        match flush_all(&mut self.stream) {
            Ok(()) => Ok(()),
            Err(error) => Err(self.faults.note("flush", error)),
        }
    }
}
