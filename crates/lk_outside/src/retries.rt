//! Calls of the system that are made again where a signal interrupted them, as std does in
//! `read_to_end` and `write_all`.
ghost use Rattle.std.specs.Prelude.{◌≡◌, ◌≢◌, ◌<◌, ◌≤◌, length, take, IfOk, IfErr, OnErr};
ghost use Rattle.std.specs.Io.KnownBytes.{Appends, Consumes, IsAtEnd, Keeps};
ghost use Rattle.std.specs.IoError.{error_kind};

use std::io;
use std::io::{ErrorKind, Read, Write};

/// One read. The tries are counted so that the loop is proved to end; after the last one it fails.
pub(crate) fn read_retrying<R: Read>(reader: &mut R, piece: &mut [u8]) -> io::Result<usize>
    ensures bound { IfOk result (λ k. k ≤ length piece.new) }
    ensures bytes { IfOk result (λ k. Consumes (R.remaining reader.old) (R.remaining reader.new) (take k piece.new)) }
    ensures end { IfOk result (λ k. k ≡ 0 → 0 < length piece.old → IsAtEnd (R.remaining reader.new)) }
    ensures kept { OnErr result (Keeps (R.remaining reader.old) (R.remaining reader.new)) }
    ensures retried { IfErr result (λ e. error_kind e ≢ ErrorKind.Interrupted) }
{
    for _ in 0..u64::MAX {
        match reader.read(piece) {
            Ok(count) => return Ok(count),
            Err(e) => {
                if e.kind() != ErrorKind::Interrupted {
                    return Err(e);
                }
            }
        }
    }
    Err(io::Error::from(ErrorKind::TimedOut))
}

/// One write. The tries are counted so that the loop is proved to end; after the last one it fails.
pub(crate) fn write_retrying<W: Write>(writer: &mut W, piece: &[u8]) -> io::Result<usize>
    ensures bound { IfOk result (λ k. k ≤ length piece.now) }
    ensures bytes { IfOk result (λ k. Appends (W.contents writer.old) (W.contents writer.new) (take k piece.now)) }
    ensures kept { OnErr result (Keeps (W.contents writer.old) (W.contents writer.new)) }
    ensures retried { IfErr result (λ e. error_kind e ≢ ErrorKind.Interrupted) }
{
    for _ in 0..u64::MAX {
        match writer.write(piece) {
            Ok(count) => return Ok(count),
            Err(e) => {
                if e.kind() != ErrorKind::Interrupted {
                    return Err(e);
                }
            }
        }
    }
    Err(io::Error::from(ErrorKind::TimedOut))
}
