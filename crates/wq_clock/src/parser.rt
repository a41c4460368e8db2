//! Reading clock specs from texts. Reading takes no memory.
ghost use Rattle.std.specs.Prelude.{◌≡◌, ◌≤◌, Some, None, IfSome, IfNone, IfOk, OnErr, All};
ghost use Rattle.wq_clock.specs.ClockSpec.{IsWithinLimits, colon_parts, numbers_of, id_from_numbers, id_of, cursor_of, clock_spec_of};
ghost use Rattle.wq_clock.specs.Spec.{said_by, spec_data};

use crate::instance::Instance;
use arrayvec::ArrayVec;
use thiserror::Error;
use wq_base::{MAX_NUMBER, unsigned_number};

/// The most bytes of a cursor's name.
pub const MAX_CURSOR_NAME: usize = 255;

/// The number of numbers in a clock id.
const ID_NUMBERS: usize = 4;

/// A clock spec that was given as a text.
#[derive(Clone, Copy, Debug, PartialEq, Eq)]
pub enum Spec<'a> {
    /// A clock id, `c:<start>:<pid>:<root>:<tick>`: an instance and a tick of it, at most 2^62.
    Id(Instance, u64),
    /// A clock id of Watchman's older form, `c:<pid>:<tick>`. It names no moment of this server.
    OldId,
    /// A named cursor, `n:<name>`. Its name has 1 to 255 bytes.
    Cursor(&'a str),
}

/// The text is no clock spec.
#[derive(Clone, Copy, Debug, PartialEq, Eq, Error)]
#[error("bad clockspec")]
pub struct ClockFault;

/// Reads a clock spec, of the forms in Watchman's documentation of clockspecs.
///
/// Numbers are decimal, without sign and leading zeros, and at most 2^62. A cursor's name has 1 to
/// 255 bytes of any kind. So `c:7:9:1:42` is a clock id, `c:9:42` an old one and `n:build` a
/// cursor. `c:7:9:1:042` is refused.
pub fn parse(text: &str) -> Result<Spec<'_>, ClockFault>
    ensures read { IfOk result (λ spec. clock_spec_of text.now ≡ Some (spec_data spec)) }
    ensures refused { OnErr result (clock_spec_of text.now ≡ None) }
    ensures within_limits { IfOk result (λ spec. IsWithinLimits (spec_data spec)) }
{
    if let Some(numbers) = text.strip_prefix("c:") {
        id(numbers)
    } else if let Some(name) = text.strip_prefix("n:") {
        cursor(name)
    } else {
        Err(ClockFault)
    }
}

/// The clock id whose numbers are between the colons of `text`.
fn id(text: &str) -> Result<Spec<'_>, ClockFault>
    ensures { said_by result ≡ id_of text.now }
{
    let Some(numbers) = numbers(text) else {
        return Err(ClockFault);
    };
    id_from(numbers.as_slice())
}

/// The numbers between the colons of `text`, if there are at most four.
fn numbers(text: &str) -> Option<ArrayVec<u64, ID_NUMBERS>>
    ensures found { IfSome result (λ found. numbers_of (colon_parts text.now) ≡ Some found.items) }
    ensures in_range { IfSome result (λ found. All (λ n. n ≤ MAX_NUMBER) found.items) }
    ensures refused { IfNone result (id_of text.now ≡ None) }
{
    let mut numbers = ArrayVec::new();
    for part in text.split(':') {
        if numbers.is_full() {
            return None;
        }
        numbers.push(unsigned_number(part, MAX_NUMBER)?);
    }
    Some(numbers)
}

/// The clock id of these numbers.
fn id_from<'a>(numbers: &[u64]) -> Result<Spec<'a>, ClockFault>
    requires { All (λ n. n ≤ MAX_NUMBER) numbers.now }
    ensures { said_by result ≡ id_from_numbers numbers.now }
{
    match *numbers {
        [start, pid, root, tick] => Ok(Spec::Id(Instance::new(start, pid, root), tick)),
        [_, _] => Ok(Spec::OldId),
        _ => Err(ClockFault),
    }
}

/// The cursor of this name.
fn cursor(name: &str) -> Result<Spec<'_>, ClockFault>
    ensures { said_by result ≡ cursor_of name.now }
{
    if 1 <= name.len() && name.len() <= MAX_CURSOR_NAME {
        Ok(Spec::Cursor(name))
    } else {
        Err(ClockFault)
    }
}
