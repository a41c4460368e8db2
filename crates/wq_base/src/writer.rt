//! Writing bytes whole. If a writer fails, it holds the bytes up to some place.
ghost use Rattle.std.specs.Prelude.{◌≤◌, length, take, IfOk, OnErr, OnOk};
ghost use Rattle.std.specs.Io.KnownBytes.{Appends, Keeps};
ghost use Rattle.wq_base.specs.Writing.{WritesFront};

use std::io;
use std::io::{ErrorKind, Write};

/// Writes all bytes.
///
/// # Errors
/// The writer's own error, or `WriteZero` if it takes no more bytes. The writer then holds a front
/// of the bytes, but not all of them. The contract of the standard library's `write_all` does not
/// promise that.
pub fn write_all<W: Write>(writer: &mut W, bytes: &[u8]) -> io::Result<()>
    ensures done { OnOk result (Appends (W.contents writer.old) (W.contents writer.new) bytes.now) }
    ensures front { OnErr result
        (WritesFront (W.contents writer.old) (W.contents writer.new) bytes.now) }
{
    let mut written = 0usize;
    for _ in 0..u64::MAX {
        if written == bytes.len() {
            return Ok(());
        }
        written += write_some(writer, &bytes[written..])?;
    }
    if written == bytes.len() {
        return Ok(());
    }
    Err(ErrorKind::WriteZero.into())
}

/// Writes some of the bytes, which are at least one, and returns their number. The number is 0 if
/// the writer was interrupted.
fn write_some<W: Write>(writer: &mut W, bytes: &[u8]) -> io::Result<usize>
    ensures within { IfOk result (λ count. count ≤ length bytes.now) }
    ensures done { IfOk result (λ count.
        Appends (W.contents writer.old) (W.contents writer.new) (take count bytes.now)) }
    ensures kept { OnErr result (Keeps (W.contents writer.old) (W.contents writer.new)) }
{
    match writer.write(bytes) {
        Ok(0) => Err(ErrorKind::WriteZero.into()),
        Ok(count) => Ok(count),
        Err(error) if error.kind() == ErrorKind::Interrupted => Ok(0),
        Err(error) => Err(error),
    }
}
