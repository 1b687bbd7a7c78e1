//! The commands that work on files alone.

ghost use Rattle.std.specs.Prelude.{◌≡◌, map, string_bytes};
ghost use Rattle.sk_tools.specs.Usage.{ends_refused};
ghost use Rattle.sk_tools.specs.OfflineCall.{IsOfflineCall};

#[cfg(test)]
mod tests;

use crate::check::{check, out_of_memory};
use crate::generate::write_or_run;
use crate::outside::USAGE_LINE;
use crate::outside::writing::say;
use crate::simulate::simulate;
use crate::words::check::read_check;
use crate::words::generate::read_generate;
use crate::words::simulate::read_simulate;
use crate::words::{Refused, is_command};
use sk_base::{ExitStatus, Files, Sink};
use std::alloc::Global;

/// The commands on files: `check FILE`, `simulate FILE [--report]` and `generate NUMBER PARTICIPANTS STEPS [--run]`. Files
/// are read, the text is written to `out`, and what there is to say of the run to `err`; a fault of
/// `err` changes nothing. It makes finitely many calls of the outside, and returns if they do.
///
/// - 0: the file holds a configuration, and its canonical text and a line end were written; or a
///   scenario, all participants finished, and their journals or their report were written; or the
///   generated scenario was written, or run and the last line of its report written.
/// - 1: the file is absent, has more than 16,777,216 bytes, or holds no configuration or scenario.
/// - 2: the words have no reading, or are those of another call.
/// - 3: the file couldn't be read.
/// - 4: the output couldn't be written: none, a part or all of the text was.
/// - 5: memory ran out.
/// - 6: as 0, and a participant was aborted.
/// - 12: not all participants finished, and none could go on; nothing was written.
pub fn silkit_offline<F: Files, O: Sink, E: Sink>(
    alloc: Global,
    words: &[String],
    files: &mut F,
    out: &mut O,
    err: &mut E,
) -> u8
    ensures { IsOfflineCall (map string_bytes words.now)
        (record { tells = F.tells files.old; faults = F.faults files.old; faults_now = F.faults files.new; content = F.content files.old })
        (record {
          tells = O.tells out.old;
          faults = O.faults out.old;
          faults_now = O.faults out.new;
          written = O.written out.old;
          written_now = O.written out.new;
        })
        (record {
          tells = E.tells err.old;
          faults = E.faults err.old;
          faults_now = E.faults err.new;
          written = E.written err.old;
          written_now = E.written err.new;
        })
        result }
{
    if is_command(words, "simulate") {
        match read_simulate(alloc, words) {
            Ok(plan) => simulate(alloc, plan, files, out, err)
                .exit_status()
                .number(),
            Err(refused) => refuse_words(refused, err).number(),
        }
    } else if is_command(words, "generate") {
        match read_generate(alloc, words) {
            Ok(plan) => write_or_run(alloc, plan, out, err),
            Err(refused) => refuse_words(refused, err).number(),
        }
    } else {
        match read_check(alloc, words) {
            Ok(file) => check(alloc, file, files, out, err).exit_status().number(),
            Err(refused) => refuse_words(refused, err).number(),
        }
    }
}

/// Says why words have no reading.
fn refuse_words<E: Sink>(refused: Refused, err: &mut E) -> ExitStatus
    ensures { result ≡ ends_refused refused }
{
    match refused {
        Refused::Words(text) => {
            say(err, text.as_bytes());
            ExitStatus::Usage
        }
        Refused::Usage => {
            say(err, USAGE_LINE.as_bytes());
            ExitStatus::Usage
        }
        Refused::WantOfMemory => out_of_memory(err).exit_status(),
    }
}
