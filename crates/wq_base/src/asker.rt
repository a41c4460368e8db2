//! Whoever asked for a search among files, and may go before it ends.

use std::alloc::AllocError;

/// How many files a search tries at most before it looks again whether its asker has gone. A look
/// may call the system, and so take longer than a file.
pub const FILES_BETWEEN_LOOKS: usize = 1024;

/// Whoever waits for the answer of a search.
pub trait Asker {
    /// Whether nobody waits for the answer any more. The search then ends without one.
    fn is_gone(&self) -> bool;
}

/// An asker that waits for each answer.
#[derive(Drop)]
pub struct Stays {}

impl Asker for Stays {
    fn is_gone(&self) -> bool {
        false
    }
}

/// Why a search has no answer.
#[derive(Clone, Copy, Debug, PartialEq, Eq)]
pub enum Unanswered {
    /// Its asker has gone.
    Gone,
    /// Memory ran out.
    NoMemory,
}

impl From<AllocError> for Unanswered {
    ghost use Rattle.std.specs.Prelude.{◌≡◌};
    ghost use Rattle.wq_base.specs.declared.asker.Unanswered.TheVariants.{NoMemory};

    ghost from_gives = { λ _ refused. refused ≡ NoMemory };

    fn from(_refused: AllocError) -> Unanswered {
        Unanswered::NoMemory
    }
}
