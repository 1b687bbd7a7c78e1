//! The files of the host.

ghost use Rattle.std.specs.Prelude.{◌≡◌, ◌<◌, ◌≤◌, length, IsTrue, is_some, IfOk, OnOk, OnErr, option_and_then};
ghost use Rattle.std.specs.Io.KnownBytes.{ReadConsumes};
ghost use Rattle.sk_base.specs.Talk.{Rose};

use crate::faults::Faults;
use crate::tries::read_some;
use log::Log;
use sk_base::{Failed, Files, Opened};
use std::fs::File;
use std::io::ErrorKind;

/// Reads files of the host. Each fault is noted in the log.
///
/// Where a file tells what is left of it, a read hands over the next bytes, and none only at its
/// end. A file of the host tells nothing, so the files don't.
#[derive(Drop)]
pub struct OsFiles<'a, R: std::fs::Files, L: Log + Drop> {
    rt: &'a R,
    opened: Option<R::File>,
    faults: Faults<L>,
}

impl<'a, R: std::fs::Files, L: Log + Drop> OsFiles<'a, R, L> {
    /// The files of this host, none of them open and no fault so far, with the log for faults.
    pub fn new(rt: &'a R, log: L) -> OsFiles<'a, R, L> {
        OsFiles {
            rt,
            opened: None,
            faults: Faults::none(log),
        }
    }
}

impl<R: std::fs::Files, L: Log + Drop> Files for OsFiles<'_, R, L> {
    ghost use Rattle.std.specs.Prelude.{is_some};

    ghost faults = { λ files. files.faults.count };

    ghost is_ready = { λ files. is_some files.opened };

    fn open(&mut self, path: &str) -> Result<Opened, Failed> {
        self.opened = None;
        match File::open(self.rt, path) {
            Ok(file) => {
                self.opened = Some(file);
                Ok(Opened::Ready)
            }
            Err(error) => {
                if error.kind() == ErrorKind::NotFound {
                    return Ok(Opened::Absent);
                }
                Err(self.faults.note(path, error))
            }
        }
    }

    // The trait's clauses, and what is left of the file afterwards.
    fn read(&mut self, buf: &mut [u8]) -> Result<usize, Failed>
        requires ready { IsTrue (is_some self.old.opened) }
        requires room { 0 < length buf.old }
        ensures ready { is_some self.new.opened ≡ is_some self.old.opened }
        ensures within { IfOk result (λ count. count ≤ length buf.old) }
        ensures rose { OnErr result (Rose self.old.faults.count self.new.faults.count) }
        ensures steady { OnOk result (self.new.faults.count ≡ self.old.faults.count) }
        ensures bytes { ReadConsumes
            (option_and_then R.File.remaining self.old.opened)
            (option_and_then R.File.remaining self.new.opened) result buf.new }
    {
        let Some(file) = &mut self.opened else {
            return Err(self.faults.note("read", "no file is open"));
        };
        match read_some(file, buf) {
            Ok(count) => Ok(count),
            Err(error) => Err(self.faults.note("read", error)),
        }
    }
}
