//! Printing clock ids into a value that holds their bytes. Printing takes no memory.
ghost use Rattle.std.specs.Prelude.{◌≡◌, ◌+◌, ◌≤◌, ◌++◌, length};
ghost use Rattle.std.specs.Fmt.{decimal};
ghost use Rattle.arrayvec.specs.ArrayString.{array_string_len};
ghost use Rattle.wq_clock.specs.ClockText.{clock_text};
ghost use Rattle.wq_clock.specs.Instance.{instance_data};

use crate::instance::Instance;
use arrayvec::ArrayString;
use itoa::Buffer;
use std::marker::Model;
use wq_base::MAX_NUMBER;

/// The most digits of a number in a clock id: 2^62 has 19.
const MAX_DIGITS: usize = 19;

/// The most bytes of a clock id, 81: `c`, and four times a colon and a number.
pub const MAX_CLOCK_TEXT: usize = 1 + 4 * (1 + MAX_DIGITS);

/// The text of a clock id, of at most [`MAX_CLOCK_TEXT`] bytes. The value itself holds the bytes.
#[derive(Debug, Drop)]
pub struct ClockText {
    text: ArrayString<MAX_CLOCK_TEXT>,
}

impl Model for ClockText {
    ghost use Rattle.std.specs.Prelude.{ℕ, List};

    ghost Value = { List ℕ };

    ghost view = { λ t. t.text.bytes };
}

impl ClockText {
    /// The text itself.
    pub fn as_str(&self) -> &str
        ensures value { result.now ≡ self.now }
        ensures short { length result.now ≤ MAX_CLOCK_TEXT }
    {
        self.text.as_str()
    }
}

/// The clock id of `tick`, which is at most [`MAX_NUMBER`], at `instance`.
///
/// For start 7, process 9, root 1 and tick 42 the id is `c:7:9:1:42`. Every clock id has this one
/// text.
pub fn print(instance: &Instance, tick: u64) -> ClockText
    requires { tick ≤ MAX_NUMBER }
    ensures { result ≡ clock_text (instance_data instance.now) tick }
{
    let mut text = ArrayString::new();
    push_number(&mut text, "c:", instance.start);
    push_number(&mut text, ":", instance.pid);
    push_number(&mut text, ":", instance.root);
    push_number(&mut text, ":", tick);
    ClockText { text }
}

/// Appends `mark` and then `number` in decimal.
#[tactic(auto, using(wq_base::proofs::Unsigned::decimal_is_short))]
fn push_number(text: &mut ArrayString<MAX_CLOCK_TEXT>, mark: &str, number: u64)
    requires small { number ≤ MAX_NUMBER }
    requires room { array_string_len text.old + length mark.now + MAX_DIGITS ≤ MAX_CLOCK_TEXT }
    ensures bytes { text.new.bytes ≡ text.old.bytes ++ (mark.now ++ decimal number) }
    ensures len { array_string_len text.new
        ≤ array_string_len text.old + length mark.now + MAX_DIGITS }
{
    text.push_str(mark);
    text.push_str(Buffer::new().format(number));
}
