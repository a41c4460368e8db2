//! Looks for single bytes of a text, in loops that do nothing else.
ghost use Rattle.std.specs.Prelude.{◌≡◌, ◌<◌, ◌≤◌, ◌+◌, ◌-◌, ◌==◌, ℕ, false, true, length};
ghost use Rattle.std.specs.Prelude.{slice_index};
ghost use Rattle.wq_base.specs.Byte.{is_slash};
ghost use Rattle.wq_glob.specs.Byte.{lower_if, lower_of};

use crate::byte::lower;

/// How many of the four bytes from a place on come before the byte: four if it is not among them.
#[inline(always)]
fn before_byte(text: &[u8], at: usize, byte: u8) -> usize
    requires { at + 4 ≤ length text.now }
    ensures few { result ≤ 4 }
    ensures other { (i : ℕ) → at ≤ i → i < at + result
        → (slice_index text.now i == byte) ≡ false }
{
    if text[at] == byte {
        return 0;
    }
    if text[at + 1] == byte {
        return 1;
    }
    if text[at + 2] == byte {
        return 2;
    }
    if text[at + 3] == byte { 3 } else { 4 }
}

/// The first place from `from` on with the byte, or `to`: four bytes at a time, since a name is
/// short.
#[inline(always)]
pub(crate) fn find_same(text: &[u8], from: usize, to: usize, byte: u8) -> usize
    requires order { from ≤ to }
    requires place { to ≤ length text.now }
    ensures after { from ≤ result }
    ensures within { result ≤ to }
    ensures other { (i : ℕ) → from ≤ i → i < result → (slice_index text.now i == byte) ≡ false }
{
    let mut at = from;
    while at + 4 <= to {
        let before = before_byte(text, at, byte);
        at += before;
        if before < 4 {
            return at;
        }
    }
    find_each(text, at, to, byte)
}

/// The first place from `from` on with the byte, or `to`.
#[inline(always)]
fn find_each(text: &[u8], from: usize, to: usize, byte: u8) -> usize
    requires order { from ≤ to }
    requires place { to ≤ length text.now }
    ensures after { from ≤ result }
    ensures within { result ≤ to }
    ensures other { (i : ℕ) → from ≤ i → i < result → (slice_index text.now i == byte) ≡ false }
{
    let mut at = from;
    while at < to && text[at] != byte {
        at += 1;
    }
    at
}

/// The first place from `from` on with the letter in either case, or the end of the text.
#[inline(always)]
fn find_folded(text: &[u8], from: usize, byte: u8) -> usize
    requires { from ≤ length text.now }
    ensures after { from ≤ result }
    ensures within { result ≤ length text.now }
    ensures other { (i : ℕ) → from ≤ i → i < result
        → (lower_of (slice_index text.now i) == byte) ≡ false }
{
    let mut at = from;
    while at < text.len() && lower(text[at]) != byte {
        at += 1;
    }
    at
}

/// The first place from `from` on with the byte, as it is compared, or the end of the text.
#[inline(always)]
pub(crate) fn find(text: &[u8], from: usize, byte: u8, fold: bool) -> usize
    requires { from ≤ length text.now }
    ensures after { from ≤ result }
    ensures within { result ≤ length text.now }
    ensures other { (i : ℕ) → from ≤ i → i < result
        → (lower_if fold (slice_index text.now i) == byte) ≡ false }
{
    if fold {
        find_folded(text, from, byte)
    } else {
        find_same(text, from, text.len(), byte)
    }
}

/// Where the last name of a text begins, if that is after `from`, or `from`.
#[inline(always)]
pub(crate) fn last_name(text: &[u8], from: usize) -> usize
    requires { from ≤ length text.now }
    ensures after { from ≤ result }
    ensures within { result ≤ length text.now }
    ensures name { (i : ℕ) → result ≤ i → i < length text.now
        → is_slash (slice_index text.now i) ≡ false }
    ensures slash { from < result → is_slash (slice_index text.now (result - 1)) ≡ true }
{
    let mut at = text.len();
    while at > from && text[at - 1] != b'/' {
        at -= 1;
    }
    at
}
