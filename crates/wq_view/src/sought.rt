//! What a search for suffixes looks for.
ghost use Rattle.std.specs.Prelude.{◌≡◌};
ghost use Rattle.wq_view.specs.Sought.{sought_texts};
ghost use Rattle.wq_view.specs.Suffix.{is_one_of};

use crate::suffixes::Suffixes;
use wq_base::is_suffix;

/// One suffix or many. A to Z count as a to z.
#[derive(Clone, Copy)]
pub(crate) enum Sought<'a> {
    /// This suffix alone.
    One(&'a [u8]),
    /// Any of these.
    Any(&'a Suffixes<'a>),
}

impl<'a> Sought<'a> {
    /// Whether a suffix is sought. An empty text is no suffix.
    pub(crate) fn has(self, suffix: &[u8]) -> bool
        ensures { result ≡ is_one_of (sought_texts self.entry) suffix.now }
    {
        match self {
            Sought::One(text) => is_suffix(text, suffix),
            Sought::Any(suffixes) => suffixes.has(suffix),
        }
    }
}
