//! Takes the lines of a script from a reader. It keeps only a front of a line over the limit, so no line needs
//! more memory. The meaning of a line is left to `script`.
ghost use Rattle.std.specs.Prelude.{◌≡◌, ◌≤◌, true, false, [], length, IfOk, IfSome, OnErr, OnOk};
ghost use Rattle.std.specs.Io.BufRead.{strip_last};
ghost use Rattle.std.specs.Io.KnownBytes.{Keeps};
ghost use Rattle.wq_replay.specs.Replay.{StopsWithin};
ghost use Rattle.wq_replay.specs.Taken.{TakesLine, TakesPart, is_last_line, kept_line, max_kept};

use crate::fault::TakeFault;
use memchr::memchr;
use std::io::{BufRead, Error, ErrorKind};

/// How many bytes a line of a script may have, without its newline.
pub const MAX_SCRIPT_LINE: usize = 1_048_640;

/// How many bytes of a line are kept, with its newline. One byte over the limit shows that a line is too long.
const MAX_KEPT: usize = MAX_SCRIPT_LINE + 1;

/// Takes the next line of a script, without its newline, and says how many bytes were taken: none at the end.
///
/// If the line is over the limit, a front of it is taken that is over the limit too.
pub(crate) fn next_line<R: BufRead>(reader: &mut R, line: &mut Vec<u8>) -> Result<usize, TakeFault>
    ensures done { IfOk result (λ taken. IfSome (R.remaining reader.old) (λ bytes.
        TakesLine bytes taken line.new.items (R.remaining reader.new))) }
    ensures within { OnErr result (IfSome (R.remaining reader.old) (λ bytes.
        StopsWithin bytes (R.remaining reader.new))) }
    ensures few { IfOk result (λ taken. taken ≤ max_kept) }
    ensures kept { length line.new.items ≤ max_kept }
{
    line.clear();
    take_line(reader, line)?;
    let taken = line.len();
    strip_newline(line);
    Ok(taken)
}

/// Takes the next line with its newline, as much of it as is kept.
fn take_line<R: BufRead>(reader: &mut R, line: &mut Vec<u8>) -> Result<(), TakeFault>
    requires { line.old.items ≡ [] }
    ensures done { OnOk result (IfSome (R.remaining reader.old) (λ bytes.
        TakesPart bytes [] true line.new.items (R.remaining reader.new))) }
    ensures within { OnErr result (IfSome (R.remaining reader.old) (λ bytes.
        StopsWithin bytes (R.remaining reader.new))) }
    ensures kept { length line.new.items ≤ max_kept }
{
    for _ in 0..u64::MAX {
        if take_part(reader, line)? {
            return Ok(());
        }
    }
    Err(TakeFault::Read)
}

/// Takes the part of a line that the reader shows, and says whether that was the last part.
fn take_part<R: BufRead>(reader: &mut R, line: &mut Vec<u8>) -> Result<bool, TakeFault>
    requires { length line.old.items ≤ max_kept }
    ensures done { IfOk result (λ last. IfSome (R.remaining reader.old) (λ bytes.
        TakesPart bytes line.old.items last line.new.items (R.remaining reader.new))) }
    ensures within { IfOk result (λ last. last ≡ false → IfSome (R.remaining reader.old) (λ bytes.
        StopsWithin bytes (R.remaining reader.new))) }
    ensures untaken { OnErr result (Keeps (R.remaining reader.old) (R.remaining reader.new)) }
    ensures kept { length line.new.items ≤ max_kept }
{
    let shown = match reader.fill_buf() {
        Ok(shown) => shown,
        Err(error) if error.kind() == ErrorKind::Interrupted => return Ok(false),
        Err(error) => return Err(read_fault(&error)),
    };
    let (count, is_last) = part(shown, MAX_KEPT - line.len());
    line.extend_from_slice(&shown[..count])?;
    reader.consume(count);
    Ok(is_last)
}

/// How many of the shown bytes are taken for the line, and whether nothing is taken after them.
fn part(shown: &[u8], room: usize) -> (usize, bool)
    ensures count { result.0 ≡ length (kept_line room shown.now) }
    ensures last { result.1 ≡ is_last_line room shown.now }
{
    let front = &shown[..room.min(shown.len())];
    match memchr(b'\n', front) {
        Some(at) => (at + 1, true),
        None => (front.len(), front.len() == room || shown.is_empty()),
    }
}

/// Why a script cannot be read.
fn read_fault(error: &Error) -> TakeFault {
    if error.kind() == ErrorKind::OutOfMemory {
        TakeFault::NoMemory
    } else {
        TakeFault::Read
    }
}

/// Drops the newline at the end of a line, if there is one.
fn strip_newline(line: &mut Vec<u8>)
    ensures { line.new.items ≡ strip_last 10 line.old.items }
{
    if line.last() == Some(&b'\n') {
        line.pop();
    }
}
