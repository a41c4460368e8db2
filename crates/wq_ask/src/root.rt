//! The texts of roots.
ghost use Rattle.std.specs.Prelude.{◌≡◌, IfOk};
ghost use Rattle.wq_ask.specs.Root.{is_absolute, root_named};

use std::alloc::{AllocError, Global};
use std::marker::Model;
use wq_base::Text;
use wq_term::without_end_slashes;

/// The most bytes that the text of a root to watch may have, as it is given.
pub const MAX_ROOT: usize = 4096;

/// The text of a root: without the slashes at its end, but `/` if nothing else is left. Only the making of this text
/// drops them.
#[derive(Drop)]
pub struct RootText {
    text: Text,
}

impl Model for RootText {
    ghost use Rattle.std.specs.Prelude.{ℕ, List};

    ghost Value = { List ℕ };

    ghost view = { λ r. r.text };
}

impl RootText {
    /// The root that a text names. It takes no memory if the text has no slashes to drop.
    pub fn named(alloc: Global, text: Text) -> Result<RootText, AllocError>
        ensures { IfOk result (λ root. root ≡ root_named text) }
    {
        let is_named = root_named(text.as_str()) == text.as_str();
        if is_named {
            return Ok(RootText { text });
        }
        let root = String::from_str(alloc, root_named(text.as_str()))?;
        Ok(RootText {
            text: Text::from_string(root),
        })
    }

    /// The text as a string slice.
    pub fn as_str(&self) -> &str
        ensures { result.now ≡ self.now }
    {
        self.text.as_str()
    }
}

/// The root that a text names: without the slashes at its end, but `/` if nothing else is left.
fn root_named(text: &str) -> &str
    ensures { result.now ≡ root_named text.now }
{
    let short = without_end_slashes(text);
    if short.is_empty() && !text.is_empty() {
        "/"
    } else {
        short
    }
}

/// Whether a text may name a root to watch: an absolute path, of at most [`MAX_ROOT`] bytes as it is given, in which no
/// byte is 0.
pub(crate) fn is_absolute(text: &Text) -> bool
    ensures { result ≡ is_absolute text.now }
{
    let bytes = text.as_bytes();
    bytes.starts_with(b"/") && bytes.len() <= MAX_ROOT && !bytes.contains(&0)
}
