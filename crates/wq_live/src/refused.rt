//! The step by which a seat takes the value that is shown, and what is left of a step that was refused.
ghost use Rattle.std.specs.Prelude.{◌≡◌, MatchResult};
ghost use Rattle.left_right.specs.Sides.{view};
ghost use Rattle.wq_live.specs.Shared.{Sees};

use crate::kept::{Kept, Knowing};
use crate::log::Log;
use crate::shown::Shown;
use left_right::reader::{Reader, Reading};
use std::marker::Model;

/// A reader of the shared value.
pub(crate) type SeatReader = Reader<Shown, Option<Log>, Kept>;

/// A reader that reads the shared value.
pub(crate) type SeatReading = Reading<Shown, Option<Log>, Kept>;

/// The list with which a look was to begin that was refused. Only [`enter`] makes one. Contracts see the list.
#[derive(Drop)]
pub struct Refused {
    known: Log,
}

impl Model for Refused {
    ghost use Rattle.wq_live.specs.Log.{LogData, log_code};

    ghost Value = { LogData };

    ghost coded = { log_code };

    ghost view = { λ r. r.known };

    ghost invariant = { λ _. Unit {0} };
}

/// Takes the value that is shown, for a look that begins with this list. If the publisher is gone, the reader comes
/// back.
pub(crate) fn enter(reader: SeatReader, known: Log) -> Result<SeatReading, (SeatReader, Refused)>
    ensures { MatchResult result
        (λ reading. Sees (view reader.place) reading.part.value (view reading.place))
        (λ it. (view it.0.place ≡ view reader.place) × (it.1 ≡ known)) }
{
    match reader.enter_as::<Knowing>() {
        Ok(reading) => Ok(reading),
        Err(reader) => Err((reader, Refused { known })),
    }
}
