//! How the numbers of a record compare to those of a term.
ghost use Rattle.std.specs.Prelude.{◌≡◌};
ghost use Rattle.wq_term.specs.Number.{is_after, is_since};

use crate::expr::Since;
use wq_clock::Bound;
use wq_record::Record;

impl Since {
    /// Whether the event that it asks for happened to the file after its point.
    pub(crate) fn holds(self, file: &Record) -> bool
        ensures { result ≡ is_since self file.now }
    {
        match self {
            Since::Observed(bound) => is_after(bound, file.exists, file.otick, file.osec),
            Since::Created(bound) => is_after(bound, file.exists, file.ctick, file.csec),
            Since::Modified(second) => second < file.mtime(),
        }
    }
}

/// Whether a moment lies strictly after the bound; of a client that knows nothing, whether the file
/// exists.
fn is_after(bound: Bound, exists: bool, tick: u64, second: i64) -> bool
    ensures { result ≡ is_after bound exists tick second }
{
    match bound {
        Bound::Fresh => exists,
        Bound::Tick(bound) => bound < tick,
        Bound::Second(bound) => bound < second,
    }
}
