//! Single bytes: how a text begins, and letters without their case.
ghost use Rattle.std.specs.Prelude.{◌≡◌, ◌==◌, ◌<◌, length, drop};
ghost use Rattle.wq_glob.specs.Byte.{lower_if, lower_of, upper_of};
ghost use Rattle.wq_glob.specs.Reading.{begins};

/// Whether a text begins with the byte.
pub(crate) fn begins(text: &[u8], byte: u8) -> bool
    ensures { result ≡ begins (λ b. b == byte) text.now }
{
    match text.first() {
        Some(first) => *first == byte,
        None => false,
    }
}

/// The bytes after the first one.
pub(crate) fn behind(text: &[u8]) -> &[u8]
    requires { 0 < length text.now }
    ensures { result.now ≡ drop 1 text.now }
{
    &text[1..]
}

/// A to Z as a to z, every other byte unchanged.
#[tactic(auto, unfolding(crate::specs::Byte::lower_of))]
pub(crate) fn lower(byte: u8) -> u8
    ensures { result ≡ lower_of byte }
{
    if byte >= b'A' && byte <= b'Z' {
        byte + 32
    } else {
        byte
    }
}

/// a to z as A to Z, every other byte unchanged.
#[tactic(auto, unfolding(crate::specs::Byte::upper_of))]
pub(crate) fn upper(byte: u8) -> u8
    ensures { result ≡ upper_of byte }
{
    if byte >= b'a' && byte <= b'z' {
        byte - 32
    } else {
        byte
    }
}

/// The byte as it is compared: in lower case if `fold` says so.
#[inline(always)]
pub(crate) fn lower_if(fold: bool, byte: u8) -> u8
    ensures { result ≡ lower_if fold byte }
{
    if fold { lower(byte) } else { byte }
}
