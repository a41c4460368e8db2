//! The names of files: paths relative to a root. Listings and views share their bytes, so that none of them copies a
//! text. The module finds the basename and the suffix of a name; other crates match names.
ghost use Rattle.std.specs.Prelude.{◌≡◌, ◌==◌, true, false, IfOk, IsTrue, MatchOption};
ghost use Rattle.std.specs.List.{after_last, list_all, list_any, slice_split};
ghost use Rattle.std.specs.Str.{is_utf8};
ghost use Rattle.wq_base.specs.Byte.{is_slash};
ghost use Rattle.wq_base.specs.Name.{suffix_of};
ghost use Rattle.wq_record.specs.Name.{is_plain_part, is_valid_name};

use crate::shared::SharedBytes;
use memchr::{memrchr, memrchr2};
use std::alloc::AllocError;
use std::marker::Model;

/// The greatest number of bytes of a name.
pub const MAX_NAME: usize = 4096;

/// A valid name over shared bytes. A copy of it takes 16 bytes.
#[derive(Drop)]
pub struct Name {
    bytes: SharedBytes,
}

impl Model for Name {
    ghost use Rattle.std.specs.Prelude.{ℕ, List, IsTrue};
    ghost use Rattle.wq_record.specs.Name.{is_valid_name};

    ghost Value = { List ℕ };

    ghost view = { λ n. n.bytes };

    ghost invariant = { λ n. IsTrue (is_valid_name n.bytes) };
}

impl Name {
    /// The name over these bytes, which it shares.
    pub(crate) fn share(bytes: &SharedBytes) -> Result<Name, AllocError>
        requires { IsTrue (is_valid_name bytes.now) }
        ensures { IfOk result (λ name. name ≡ bytes.now) }
    {
        Ok(Name {
            bytes: bytes.copy()?,
        })
    }

    /// Another owner of the same bytes.
    pub fn copy(&self) -> Result<Name, AllocError>
        ensures { IfOk result (λ name. name ≡ self.now) }
    {
        Name::share(&self.bytes)
    }

    /// The bytes of the name, for another owner.
    pub fn shared(&self) -> Result<SharedBytes, AllocError>
        ensures value { IfOk result (λ bytes. bytes ≡ self.now) }
        ensures valid { IfOk result (λ bytes. IsTrue (is_valid_name bytes)) }
    {
        self.bytes.copy()
    }

    /// The name as text. A valid name is UTF-8.
    pub fn as_str(&self) -> &str
        ensures { result.now ≡ self.now }
    {
        // A valid name is UTF-8. That is proved here, and so it is not tested again.
        unsafe { str::from_utf8_unchecked(self.as_bytes()) }
    }

    /// The bytes of the name, from 1 to 4,096.
    pub fn as_bytes(&self) -> &[u8]
        ensures value { result.now ≡ self.now }
        ensures valid { IsTrue (is_valid_name self.now) }
    {
        self.bytes.as_slice()
    }
}

/// Whether bytes are a name: a text in UTF-8 with 1 to 4,096 bytes, in which no byte is 0. Slashes divide it into
/// steps. Each step has at least one byte, and is neither `.` nor `..`. So a name neither begins nor ends with a slash.
#[tactic(auto, unfolding(crate::specs::Name::is_valid_name))]
pub fn is_valid_name(bytes: &[u8]) -> bool
    ensures { result ≡ is_valid_name bytes.now }
{
    let has_fitting_length = 1 <= bytes.len() && bytes.len() <= MAX_NAME;
    has_fitting_length && !bytes.contains(&0) && has_plain_parts(bytes) && is_utf8(bytes)
}

/// Whether each part between slashes is plain.
fn has_plain_parts(bytes: &[u8]) -> bool
    ensures { result ≡ list_all is_plain_part (slice_split is_slash bytes.now) }
{
    bytes.split(|b| *b == b'/').all(is_plain_part)
}

/// Whether a part between slashes names something: it is not empty, not `.` and not `..`.
fn is_plain_part(part: &[u8]) -> bool
    ensures { result ≡ is_plain_part part.now }
{
    !part.is_empty() && part != b".".as_slice() && part != b"..".as_slice()
}

fn is_utf8(bytes: &[u8]) -> bool
    ensures { result ≡ is_utf8 bytes.now }
{
    str::from_utf8(bytes).is_ok()
}

/// The part after the last byte that equals this one, if there is such a byte.
pub(crate) fn after_last(byte: u8, bytes: &[u8]) -> Option<&[u8]>
    ensures { MatchOption result
        ((list_any (λ b. b == byte) bytes.now ≡ false)
        × (after_last (λ b. b == byte) bytes.now ≡ bytes.now))
        (λ rest. (list_any (λ b. b == byte) bytes.now ≡ true)
        × (rest.now ≡ after_last (λ b. b == byte) bytes.now)) }
{
    let Some(at) = memrchr(byte, bytes) else {
        return None;
    };
    Some(bytes.split_at(at + 1).1)
}

/// The part after the last dot of the basename, or nothing if it has no dot. The call reads no byte before that dot,
/// and none before the basename.
pub(crate) fn suffix_of(name: &[u8]) -> &[u8]
    ensures { result.now ≡ suffix_of name.now }
{
    let Some(at) = memrchr2(b'.', b'/', name) else {
        return b"";
    };
    if name[at] == b'.' {
        name.split_at(at + 1).1
    } else {
        b""
    }
}
