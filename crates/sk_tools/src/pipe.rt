//! The command `pipe`.

ghost use Rattle.std.specs.Prelude.{◌≡◌, map, string_bytes};
ghost use Rattle.sk_tools.specs.Top.{pipe_exit};
ghost use Rattle.sk_tools.specs.Usage.{ends_refused};
ghost use Rattle.sk_tools.specs.PipeCall.{IsPipeCall};

#[cfg(test)]
mod tests;

use crate::words::Refused;
use crate::words::pipe::read_pipe;
use sk_base::{ExitStatus, Files, Link};
use sk_pipe::{PipeEnding, run_pipe};
use std::alloc::Global;

/// `pipe NAME STEP DURATION`: the bare step protocol with one peer on the link, STEP and DURATION
/// in nanoseconds of virtual time. No file is read. It makes finitely many calls of the link, and
/// returns if they do.
///
/// - 0: the peer left in order.
/// - 2: the words have no reading; nothing was taken or given.
/// - 4: the link failed.
/// - 5: memory ran out.
/// - 8: 2^32 bytes came and the peer hadn't left, or 1,048,576 answers NotYet came in a row.
/// - 10: bytes that are no message, or a message out of order, before the peer's Leave.
/// - 11: the input ended before the peer's Leave.
pub fn silkit_pipe<L: Link, F: Files>(
    alloc: Global,
    words: &[String],
    link: &mut L,
    files: &mut F,
) -> u8
    ensures call { IsPipeCall (map string_bytes words.now)
        (record {
          tells = L.tells link.old;
          faults = L.faults link.old;
          faults_now = L.faults link.new;
          talk = L.talk link.old;
          talk_now = L.talk link.new;
        })
        result }
    ensures files { files.new ≡ files.old }
{
    let _ = files;
    match read_pipe(alloc, words) {
        Ok(plan) => exit_status(run_pipe(alloc, plan, link)).number(),
        Err(refused) => refuse_silently(refused).number(),
    }
}

/// What the program ends with.
fn exit_status(ended: PipeEnding) -> ExitStatus
    ensures { result ≡ pipe_exit ended }
{
    match ended {
        PipeEnding::Left => ExitStatus::Done,
        PipeEnding::LinkFault => ExitStatus::WriteFault,
        PipeEnding::Memory => ExitStatus::OutOfMemory,
        PipeEnding::Limit => ExitStatus::Limit,
        PipeEnding::BadInput => ExitStatus::BadInput,
        PipeEnding::NoLeave => ExitStatus::EndedEarly,
    }
}

/// Words without a reading: nothing is said of them.
fn refuse_silently(refused: Refused) -> ExitStatus
    ensures { result ≡ ends_refused refused }
{
    match refused {
        Refused::Words(_) | Refused::Usage => ExitStatus::Usage,
        Refused::WantOfMemory => ExitStatus::OutOfMemory,
    }
}
