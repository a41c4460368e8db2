//! The first line of some bytes. The module keeps no bytes.
ghost use Rattle.std.specs.Prelude.{◌≡◌, ◌++◌, false};
ghost use Rattle.wq_stream.specs.Line.{IsFirstLine};
ghost use Rattle.wq_stream.specs.Stream.{IsRest, is_binary};

use memchr::memchr;

/// The greatest number of bytes of a line, without its newline.
pub const MAX_LINE: usize = 1_048_576;

/// The first line of some bytes.
pub(crate) enum FirstLine {
    /// The line ends at the newline in this place, and is within the limit.
    Ends(usize),
    /// The line has not ended, and may still.
    Open,
    /// The line is over the limit.
    Long,
    /// The line begins with byte 0.
    Binary,
}

/// The first line of a rest and of the bytes after it. Places count in those bytes.
pub(crate) fn first_line(rest: &[u8], bytes: &[u8]) -> FirstLine
    requires { IsRest rest.now }
    ensures { IsFirstLine rest.now bytes.now result }
{
    if rest.is_empty() && is_binary(bytes) {
        FirstLine::Binary
    } else {
        first_text_line(rest, bytes)
    }
}

/// Whether bytes begin with byte 0.
fn is_binary(bytes: &[u8]) -> bool
    ensures { result ≡ is_binary bytes.now }
{
    bytes.first() == Some(&0)
}

/// The first line of a rest and of the bytes after it, if it does not begin with byte 0.
fn first_text_line(rest: &[u8], bytes: &[u8]) -> FirstLine
    requires rest { IsRest rest.now }
    requires text { is_binary (rest.now ++ bytes.now) ≡ false }
    ensures { IsFirstLine rest.now bytes.now result }
{
    let room = MAX_LINE - rest.len();
    match memchr(b'\n', bytes) {
        Some(at) if at <= room => FirstLine::Ends(at),
        None if bytes.len() <= room => FirstLine::Open,
        _ => FirstLine::Long,
    }
}
