//! The words for an error, in a value of their own and without memory.
ghost use Rattle.std.specs.Prelude.{◌≡◌};

use arrayvec::ArrayString;
use std::fmt::Write;
use std::io;
use std::marker::Model;

/// The most bytes of words. Those of the system's errors are shorter.
const MAX_WORDS: usize = 128;

/// The words for an error.
#[derive(Drop)]
pub(crate) struct Words {
    text: ArrayString<MAX_WORDS>,
}

impl Model for Words {
    ghost use Rattle.std.specs.Prelude.{ℕ, List};

    ghost Value = { List ℕ };

    ghost view = { λ w. w.text.bytes };
}

impl Words {
    /// The words for an error. If there is no room for them, the last ones are left out.
    pub(crate) fn of(error: &io::Error) -> Words {
        let mut text = ArrayString::new();
        let _ = write!(text, "{error}");
        Words { text }
    }

    /// The words themselves.
    pub(crate) fn as_str(&self) -> &str
        ensures { result.now ≡ self.now }
    {
        self.text.as_str()
    }
}
