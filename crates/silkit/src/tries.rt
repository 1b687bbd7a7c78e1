//! Reads, writes and flushes of the host, tried again while signals interrupt them.

ghost use Rattle.std.specs.Prelude.{◌<◌, length, IfOk};
ghost use Rattle.std.specs.Io.{ReadsAtMost, WritesAtMost};
ghost use Rattle.std.specs.Io.KnownBytes.{Keeps, ReadConsumes, WriteAppends};

use std::io::{ErrorKind, Read, Result, Write};

/// How often a call is tried at most while signals interrupt it.
const MOST_TRIES: u32 = 1000;

/// One read of at most a buffer. After an error nothing was taken.
pub fn read_some<R: Read>(from: &mut R, buf: &mut [u8]) -> Result<usize>
    ensures within { ReadsAtMost result buf.new }
    ensures bytes { ReadConsumes (R.remaining from.old) (R.remaining from.new) result buf.new }
{
    for _ in 0..MOST_TRIES {
        match from.read(buf) {
            Ok(count) => return Ok(count),
            Err(error) => {
                if error.kind() != ErrorKind::Interrupted {
                    return Err(error);
                }
            }
        }
    }
    Err(ErrorKind::Interrupted.into())
}

/// One write of a piece's front, of at least one byte where there is one. After an error nothing
/// was written.
pub fn write_some<W: Write>(to: &mut W, piece: &[u8]) -> Result<usize>
    ensures some { IfOk result (λ count. 0 < length piece.now → 0 < count) }
    ensures within { WritesAtMost result piece.now }
    ensures bytes { WriteAppends (W.contents to.old) (W.contents to.new) result piece.now }
{
    if piece.is_empty() {
        return Ok(0);
    }
    for _ in 0..MOST_TRIES {
        match to.write(piece) {
            Ok(0) => return Err(ErrorKind::WriteZero.into()),
            Ok(count) => return Ok(count),
            Err(error) => {
                if error.kind() != ErrorKind::Interrupted {
                    return Err(error);
                }
            }
        }
    }
    Err(ErrorKind::Interrupted.into())
}

/// One flush. What was written stays.
pub fn flush_all<W: Write>(to: &mut W) -> Result<()>
    ensures { Keeps (W.contents to.old) (W.contents to.new) }
{
    for _ in 0..MOST_TRIES {
        match to.flush() {
            Ok(()) => return Ok(()),
            Err(error) => {
                if error.kind() != ErrorKind::Interrupted {
                    return Err(error);
                }
            }
        }
    }
    Err(ErrorKind::Interrupted.into())
}
