//! A whole file, read up to a limit.

ghost use Rattle.std.specs.Prelude.{◌≡◌, ◌≢◌, ◌⊎◌, ◌<◌, ◌+◌, ℕ, true, List, length, Some, IfOk, OnOk, IfErr, IsTrue, MatchResult};
ghost use Rattle.sk_tools.specs.Outside.{IsReadTo, IsContent, Explains, CountsRefused};
ghost use Rattle.sk_tools.specs.declared.outside.reading.ReadRefused.TheVariants.{Absent, Fault, WantOfMemory};

use crate::outside::PIECE;
use sk_base::limits::LONGEST_FILE;
use sk_base::{Files, Opened};
use std::alloc::Global;

/// Why a file wasn't read.
#[derive(Clone, Copy, Debug, PartialEq, Eq)]
pub enum ReadRefused {
    /// There is no file of this path.
    Absent,
    /// It has over 16,777,216 bytes.
    TooLong,
    /// Opening or reading it failed.
    Fault,
    /// Memory ran out.
    WantOfMemory,
}

/// All that the file of this path holds, at most 16,777,216 bytes.
pub fn read_file<F: Files>(alloc: Global, files: &mut F, path: &str) -> Result<Vec<u8>, ReadRefused>
    ensures steady { OnOk result (F.faults files.new ≡ F.faults files.old) }
    ensures faults { IfErr result (CountsRefused (F.faults files.old) (F.faults files.new)) }
    ensures tells { F.tells files.new ≡ F.tells files.old }
    ensures contents { (at : List ℕ) → F.content files.new at ≡ F.content files.old at }
    ensures told { F.tells files.old ≡ true → MatchResult result
        (λ bytes. IsContent (F.content files.old path.now) bytes.items)
        (Explains (F.content files.old path.now)) }
{
    match files.open(path) {
        Ok(Opened::Ready) => read_opened(alloc, files),
        Ok(Opened::Absent) => Err(ReadRefused::Absent),
        Err(_) => Err(ReadRefused::Fault),
    }
}

/// All that the file holds that was just opened.
fn read_opened<F: Files>(alloc: Global, files: &mut F) -> Result<Vec<u8>, ReadRefused>
    requires ready { IsTrue (F.is_ready files.old) }
    ensures steady { OnOk result (F.faults files.new ≡ F.faults files.old) }
    ensures faults { IfErr result (CountsRefused (F.faults files.old) (F.faults files.new)) }
    ensures tells { F.tells files.new ≡ F.tells files.old }
    ensures contents { (at : List ℕ) → F.content files.new at ≡ F.content files.old at }
    ensures told { F.tells files.old ≡ true → F.place files.old ≡ 0 →
        (all : List ℕ) → F.content files.old (F.current files.old) ≡ Some all → MatchResult result
        (λ bytes. IsContent (Some all) bytes.items)
        (λ why. why ≢ Absent × Explains (Some all) why) }
{
    let mut bytes = Vec::new(alloc);
    let mut buf = [0u8; PIECE];
    'pieces: loop {
        let count = read_piece(files, &mut bytes, &mut buf)?;
        if count == 0 {
            return Ok(bytes);
        }
        if bytes.len() > LONGEST_FILE {
            return Err(ReadRefused::TooLong);
        }
    }
}

/// Reads one more piece behind the bytes, and says how many bytes it has: 0 at the end.
fn read_piece<F: Files>(
    files: &mut F,
    bytes: &mut Vec<u8>,
    buf: &mut [u8],
) -> Result<usize, ReadRefused>
    requires ready { IsTrue (F.is_ready files.old) }
    requires room { 0 < length buf.old }
    ensures ready { F.is_ready files.new ≡ F.is_ready files.old }
    ensures steady { OnOk result (F.faults files.new ≡ F.faults files.old) }
    ensures faults { IfErr result (CountsRefused (F.faults files.old) (F.faults files.new)) }
    ensures why { IfErr result (λ why. (why ≡ Fault) ⊎ (why ≡ WantOfMemory)) }
    ensures tells { F.tells files.new ≡ F.tells files.old }
    ensures contents { (at : List ℕ) → F.content files.new at ≡ F.content files.old at }
    ensures current { F.current files.new ≡ F.current files.old }
    ensures longer { IfOk result (λ count. length bytes.new.items ≡ length bytes.old.items + count) }
    ensures told { F.tells files.old ≡ true → (all : List ℕ) → F.content files.old (F.current files.old) ≡ Some all →
        IsReadTo all (F.place files.old) bytes.old.items → IfOk result (λ count.
        IsReadTo all (F.place files.new) bytes.new.items × (count ≡ 0 → bytes.new.items ≡ all)) }
{
    let Ok(count) = files.read(buf) else {
        return Err(ReadRefused::Fault);
    };
    match bytes.extend_from_slice(&buf[..count]) {
        Ok(()) => Ok(count),
        Err(_) => Err(ReadRefused::WantOfMemory),
    }
}
