//! The command `check`.

ghost use Rattle.std.specs.Prelude.{◌≡◌, ◌≢◌, ℕ, true, List, string_bytes, IfOk};
ghost use Rattle.sk_config.specs.Reading.{reading};
ghost use Rattle.sk_tools.specs.Outside.{Says};
ghost use Rattle.sk_tools.specs.Found.{found_in, found_by, complaint, said_unread};
ghost use Rattle.sk_tools.specs.Check.{valid_config, said_of, checked_text, MayEnd, EndsUnread, Leaves, CountsReads, CountsWrites};
ghost use Rattle.sk_tools.specs.declared.check.status.CheckStatus.TheVariants.{OutOfMemory, ReadFault};

mod status;

use crate::outside::lines::warn;
use crate::outside::reading::{ReadRefused, read_file};
use crate::outside::writing::{say, say_line, write_out};
use crate::outside::{OUT_OF_MEMORY_LINE, WRITE_FAULT_LINE};
use sk_base::{Files, Sink, WantOfMemory};
use sk_config::{ConfigFault, ConfigRead, config_text, read_config};
pub use status::CheckStatus;
use std::alloc::Global;

/// `check FILE`: reads the configuration in the file, and writes its canonical text and a line end.
pub fn check<F: Files, O: Sink, E: Sink>(
    alloc: Global,
    file: &str,
    files: &mut F,
    out: &mut O,
    err: &mut E,
) -> CheckStatus
    ensures reads { CountsReads result (F.faults files.old) (F.faults files.new) }
    ensures writes { CountsWrites result (O.faults out.old) (O.faults out.new) }
    ensures ends { F.tells files.old ≡ true → MayEnd (found_in reading (F.content files.old file.now)) result }
    ensures written { O.tells out.old ≡ true → F.tells files.old ≡ true →
        Leaves result (checked_text (found_in reading (F.content files.old file.now))) (O.written out.old) (O.written out.new) }
    ensures said { F.tells files.old ≡ true → result ≢ OutOfMemory →
        Says (E.tells err.old) (E.faults err.old) (E.faults err.new) (E.written err.old) (E.written err.new) (said_of file.now (found_in reading (F.content files.old file.now)) result) }
{
    match read_file(alloc, files, file) {
        Ok(bytes) => check_bytes(alloc, &bytes, out, err),
        Err(why) => refuse_file(alloc, file, why, err),
    }
}

/// Says why a file wasn't read.
fn refuse_file<E: Sink>(alloc: Global, file: &str, why: ReadRefused, err: &mut E) -> CheckStatus
    ensures ends { EndsUnread why result }
    ensures said { result ≢ OutOfMemory →
        Says (E.tells err.old) (E.faults err.old) (E.faults err.new) (E.written err.old) (E.written err.new) (said_unread file.now why) }
{
    match why {
        ReadRefused::Absent => {
            complain(alloc, file, "no such file", err);
            CheckStatus::BadFile
        }
        ReadRefused::TooLong => {
            complain(alloc, file, "more than 16777216 bytes", err);
            CheckStatus::BadFile
        }
        ReadRefused::Fault => {
            complain(alloc, "read fault", file, err);
            CheckStatus::ReadFault
        }
        ReadRefused::WantOfMemory => out_of_memory(err),
    }
}

/// Reads the configuration that these bytes are, and writes it.
fn check_bytes<O: Sink, E: Sink>(
    alloc: Global,
    bytes: &[u8],
    out: &mut O,
    err: &mut E,
) -> CheckStatus
    ensures reads { result ≢ ReadFault }
    ensures writes { CountsWrites result (O.faults out.old) (O.faults out.new) }
    ensures ends { MayEnd (found_by (reading bytes.now)) result }
    ensures written { O.tells out.old ≡ true → Leaves result (checked_text (found_by (reading bytes.now))) (O.written out.old) (O.written out.new) }
    ensures said { result ≢ OutOfMemory → (file : List ℕ) →
        Says (E.tells err.old) (E.faults err.old) (E.faults err.new) (E.written err.old) (E.written err.new) (said_of file (found_by (reading bytes.now)) result) }
{
    match read_config(alloc, bytes) {
        Ok(read) => write_config(alloc, &read, out, err),
        Err(ConfigFault::WantOfMemory) => out_of_memory(err),
        Err(fault) => {
            complain(alloc, fault.path(), fault.rule(), err);
            CheckStatus::BadFile
        }
    }
}

/// Writes the canonical text, and says the warnings.
fn write_config<O: Sink, E: Sink>(
    alloc: Global,
    read: &ConfigRead,
    out: &mut O,
    err: &mut E,
) -> CheckStatus
    ensures reads { result ≢ ReadFault }
    ensures writes { CountsWrites result (O.faults out.old) (O.faults out.new) }
    ensures ends { MayEnd (valid_config read.now) result }
    ensures written { O.tells out.old ≡ true → Leaves result (checked_text (valid_config read.now)) (O.written out.old) (O.written out.new) }
    ensures said { result ≢ OutOfMemory → (file : List ℕ) →
        Says (E.tells err.old) (E.faults err.old) (E.faults err.new) (E.written err.old) (E.written err.new) (said_of file (valid_config read.now) result) }
{
    let Ok(text) = output_text(alloc, read) else {
        return out_of_memory(err);
    };
    warn(alloc, read.warnings.as_slice(), err);
    match write_out(out, text.as_bytes()) {
        Ok(()) => CheckStatus::Done,
        Err(_) => {
            say(err, WRITE_FAULT_LINE.as_bytes());
            CheckStatus::WriteFault
        }
    }
}

/// The canonical text and a line end.
fn output_text(alloc: Global, read: &ConfigRead) -> Result<String, WantOfMemory>
    ensures { IfOk result (λ text. string_bytes text ≡ checked_text (valid_config read.now)) }
{
    let mut text = config_text(alloc, &read.config)?;
    text.push_str("\n")?;
    Ok(text)
}

/// Says what is wrong with something.
fn complain<E: Sink>(alloc: Global, about: &str, wrong: &str, err: &mut E)
    ensures tells { E.tells err.new ≡ E.tells err.old }
    ensures says { Says (E.tells err.old) (E.faults err.old) (E.faults err.new) (E.written err.old) (E.written err.new) (complaint about.now wrong.now) }
{
    say_line(alloc, err, "silkit: ", about, wrong);
}

/// Says that memory ran out.
pub fn out_of_memory<E: Sink>(err: &mut E) -> CheckStatus
    ensures { result ≡ OutOfMemory }
{
    say(err, OUT_OF_MEMORY_LINE.as_bytes());
    CheckStatus::OutOfMemory
}
