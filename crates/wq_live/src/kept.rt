//! The rule that threads keep about the value that they share: each seat knows a beginning of the list that is shown.

use crate::log::Log;
use crate::shown::Shown;
use atomic_table::{Join, Split};
use crossbeam_utils::rule::{Outcome, Protocol};

/// The part of the list that a seat knows: nothing yet, or a beginning.
pub type Known = Option<Log>;

/// Each seat knows a beginning of the list that is shown.
pub struct Kept;

impl Protocol<Shown, Option<Log>> for Kept {
    ghost use Rattle.std.specs.Prelude.{None};
    ghost use Rattle.wq_live.specs.Shared.{AllBegin};

    ghost holds = { AllBegin };

    ghost first = { None };
}

/// A step after which a seat knows the list that is shown.
pub struct Knowing;

impl Outcome<Shown, Option<Log>> for Knowing {
    ghost use Rattle.wq_live.specs.Shared.{Sees};

    ghost then = { λ before _ shown after. Sees before shown after };
}

/// A new seat learns the list that the publisher knows.
pub struct Note;

impl Split<Option<Log>> for Note {
    ghost left = { λ known. known };

    ghost right = { λ known. known };
}

impl Join<Option<Log>> for Note {
    ghost use Rattle.std.specs.Prelude.{None};

    ghost both = { λ _ told. told };

    ghost spent = { None };
}
