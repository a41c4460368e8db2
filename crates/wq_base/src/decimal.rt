//! Numbers in their one decimal text: no sign but `-`, no leading zeros, and `0` without a sign. So
//! each number has one text. A text that was changed by hand is refused and never guessed.
ghost use Rattle.std.specs.Prelude.{◌≡◌, ◌≤◌, IfSome};
ghost use Rattle.wq_base.specs.Decimal.{signed_of, unsigned_of};

use itoa::Buffer;
use std::str;

/// The number whose decimal text this is, if it is at most `most`.
///
/// `unsigned_number("42", 99)` is `Some(42)`. For `"042"`, `"+42"` or `"100"` it is `None`.
pub fn unsigned_number(text: &str, most: u64) -> Option<u64>
    ensures value { result ≡ unsigned_of most text.now }
    ensures in_range { IfSome result (λ n. n ≤ most) }
{
    let number: u64 = text.parse().ok()?;
    if number > most {
        return None;
    }
    if Buffer::new().format(number) == text {
        Some(number)
    } else {
        None
    }
}

/// The number from -2^63 to 2^63 - 1 whose decimal text these bytes are.
///
/// `signed_number(b"-42")` is `Some(-42)`. For `b"-0"` it is `None`.
pub fn signed_number(text: &[u8]) -> Option<i64>
    ensures { result ≡ signed_of text.now }
{
    let Ok(text) = str::from_utf8(text) else {
        return None;
    };
    let Ok(value) = text.parse::<i64>() else {
        return None;
    };
    if Buffer::new().format(value) == text {
        Some(value)
    } else {
        None
    }
}
