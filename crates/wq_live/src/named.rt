//! The name of a list of events. It exists in proofs alone. It keeps values of different lists apart.

use crate::refused::Refused;
use crate::shown::Published;
use std::marker::Brand;

/// What a list of events is known by. Only these calls say it, over values that this crate alone makes.
pub trait Witness {
    ghost use Rattle.std.specs.Prelude.{List};
    ghost use Rattle.logbook.specs.Pages.{Book};
    ghost use Rattle.wq_live.specs.declared.event.RootEvent.{RootEvent};

    // A list that was published, with its identity.
    ghost published: { Book → List RootEvent → Type 0 };

    // A list with which a look was to begin that was refused, with its identity.
    ghost refused: { Book → List RootEvent → Type 0 };

    /// Says that this list was published.
    fn publishes(list: &Published)
        ensures { published list.now.book list.now.log };

    /// Says that a look that was to begin with this list was refused.
    fn refuses(list: &Refused)
        ensures { refused list.now.book list.now.log };
}

impl Witness for Brand {
    ghost published = { λ _ _. Unit {0} };

    ghost refused = { λ _ _. Unit {0} };

    fn publishes(_list: &Published) {}

    fn refuses(_list: &Refused) {}
}

/// The list of events of one publisher. Each call that opens a publisher picks its own list.
pub trait Named: Witness {
    ghost use Rattle.logbook.specs.Pages.{Book};

    ghost book: { Book };
}

impl Named for Brand {
    ghost book = { record { number = 0; log_name = 0; cells_name = 0 } };
}
