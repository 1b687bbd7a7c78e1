//! The program as one call.

ghost use Rattle.std.specs.Prelude.{◌≡◌, true, false, codes, map, string_bytes};
ghost use Rattle.sk_tools.specs.Words as words_of;
ghost use Rattle.sk_tools.specs.PipeCall.{IsPipeCall};
ghost use Rattle.sk_tools.specs.OfflineCall.{IsOfflineCall};

use crate::offline::silkit_offline;
use crate::pipe::silkit_pipe;
use crate::words::is_command;
use sk_base::{Files, Idle, Link, Net, Sink};
use std::alloc::Global;

/// The outside that the program is handed.
#[derive(Drop)]
pub struct Host<F, O, E, L, N, I> {
    /// The files that a command on files reads.
    pub files: F,
    /// Where a command on files writes its text.
    pub out: O,
    /// Where it says what there is to say of the run.
    pub err: E,
    /// The one link of `pipe`.
    pub link: L,
    /// The links to more than one peer: no command uses them yet.
    pub net: N,
    /// What a command does while nothing is ready: none uses it yet.
    pub idle: I,
}

/// The program: the first word chooses the command, and with it the call that does all of it.
pub fn silkit<F: Files, O: Sink, E: Sink, L: Link, N: Net, I: Idle>(
    alloc: Global,
    words: &[String],
    host: &mut Host<F, O, E, L, N, I>,
) -> u8
    ensures pipe { words_of.is_command (codes "pipe") (map string_bytes words.now) ≡ true →
        IsPipeCall (map string_bytes words.now)
        (record {
          tells = L.tells host.old.link;
          faults = L.faults host.old.link;
          faults_now = L.faults host.new.link;
          talk = L.talk host.old.link;
          talk_now = L.talk host.new.link;
        })
        result }
    ensures offline { words_of.is_command (codes "pipe") (map string_bytes words.now) ≡ false →
        IsOfflineCall (map string_bytes words.now)
        (record { tells = F.tells host.old.files; faults = F.faults host.old.files; faults_now = F.faults host.new.files; content = F.content host.old.files })
        (record {
          tells = O.tells host.old.out;
          faults = O.faults host.old.out;
          faults_now = O.faults host.new.out;
          written = O.written host.old.out;
          written_now = O.written host.new.out;
        })
        (record {
          tells = E.tells host.old.err;
          faults = E.faults host.old.err;
          faults_now = E.faults host.new.err;
          written = E.written host.old.err;
          written_now = E.written host.new.err;
        })
        result }

    // What a command has no use for stays as it is.
    ensures pipe_leaves { words_of.is_command (codes "pipe") (map string_bytes words.now) ≡ true →
        (host.new.files ≡ host.old.files) × (host.new.out ≡ host.old.out) × (host.new.err ≡ host.old.err) }
    ensures offline_leaves { words_of.is_command (codes "pipe") (map string_bytes words.now) ≡ false → host.new.link ≡ host.old.link }
    ensures leaves { (host.new.net ≡ host.old.net) × (host.new.idle ≡ host.old.idle) }
{
    if is_command(words, "pipe") {
        silkit_pipe(alloc, words, &mut host.link, &mut host.files)
    } else {
        silkit_offline(alloc, words, &mut host.files, &mut host.out, &mut host.err)
    }
}
