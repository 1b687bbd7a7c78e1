//! Standard input and output as one link.

ghost use Rattle.std.specs.Prelude.{◌≡◌, ◌<◌, length, IfOk, OnOk, OnErr, MatchResult};
ghost use Rattle.std.specs.Io.KnownBytes.{Keeps};
ghost use Rattle.sk_base.specs.Talk.{Rose, TakesWithin, GivesWithin};
ghost use Rattle.silkit.specs.Streams.{TakesFrom, GivesTo};

use crate::faults::Faults;
use crate::tries::{read_some, write_some};
use log::Log;
use sk_base::{Failed, Gave, Link, Took};
use std::io::{Read, Write};

/// Takes from one stream of the host and gives to another. It never answers NotYet. Each fault is
/// noted in the log.
///
/// Where the streams tell their bytes, a take hands over the next ones, or End where none is left,
/// and a give appends just what it answers. Streams of the host tell nothing, so the link doesn't.
#[derive(Drop)]
pub struct StdLink<R: Read + Drop, W: Write + Drop, L: Log + Drop> {
    input: R,
    output: W,
    faults: Faults<L>,
}

impl<R: Read + Drop, W: Write + Drop, L: Log + Drop> StdLink<R, W, L> {
    /// A link over these streams, with no fault so far, and with the log for faults.
    pub fn new(input: R, output: W, log: L) -> StdLink<R, W, L>
        ensures input { result.input ≡ input }
        ensures output { result.output ≡ output }
    {
        StdLink {
            input,
            output,
            faults: Faults::none(log),
        }
    }
}

impl<R: Read + Drop, W: Write + Drop, L: Log + Drop> Link for StdLink<R, W, L> {
    ghost faults = { λ link. link.faults.count };

    // The trait's clauses, and what the streams have and hold afterwards.
    fn take(&mut self, buf: &mut [u8]) -> Result<Took, Failed>
        requires { 0 < length buf.old }
        ensures within { IfOk result (TakesWithin (length buf.old)) }
        ensures rose { OnErr result (Rose self.old.faults.count self.new.faults.count) }
        ensures steady { OnOk result (self.new.faults.count ≡ self.old.faults.count) }
        ensures bytes { MatchResult result
            (TakesFrom (R.remaining self.old.input) (R.remaining self.new.input) buf.new)
            (λ _. Keeps (R.remaining self.old.input) (R.remaining self.new.input)) }
        ensures output { self.new.output ≡ self.old.output }
    {
        match read_some(&mut self.input, buf) {
            Ok(0) => Ok(Took::End),
            Ok(count) => Ok(Took::Bytes(count)),
            Err(error) => Err(self.faults.note("standard input", error)),
        }
    }

    fn give(&mut self, piece: &[u8]) -> Result<Gave, Failed>
        requires { 0 < length piece.now }
        ensures within { IfOk result (GivesWithin (length piece.now)) }
        ensures rose { OnErr result (Rose self.old.faults.count self.new.faults.count) }
        ensures steady { OnOk result (self.new.faults.count ≡ self.old.faults.count) }
        ensures bytes { MatchResult result
            (GivesTo (W.contents self.old.output) (W.contents self.new.output) piece.now)
            (λ _. Keeps (W.contents self.old.output) (W.contents self.new.output)) }
        ensures input { self.new.input ≡ self.old.input }
    {
        match write_some(&mut self.output, piece) {
            Ok(count) => Ok(Gave::Bytes(count)),
            Err(error) => Err(self.faults.note("standard output", error)),
        }
    }
}
