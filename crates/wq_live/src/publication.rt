//! The step by which the writer of the shared value shows the next one.
ghost use Rattle.std.specs.Prelude.{◌≡◌, MatchResult, Some};
ghost use Rattle.left_right.specs.Sides.{view};
ghost use Rattle.wq_live.specs.Log.{BeginsLog};

use crate::kept::{Kept, Knowing};
use crate::log::Log;
use crate::shown::{Next, Shown};
use left_right::writer::Writer;
use std::alloc::AllocError;
use std::sync::Wait;

/// The writer of the shared value.
pub(crate) type ShownWriter = Writer<Shown, Next, Option<Log>, Kept>;

/// Shows the next value, whose list continues the one that is shown. The call waits for looks that still read the value
/// before the last one.
///
/// The call is refused if there is no memory to line the value up. The step that shows it takes no memory, since it
/// shares the table. It is refused only if a table has 2^63 - 1 owners, for which no machine has the room. The writer
/// then shows the same value as before. What was lined up is never shown, since the next value replaces it.
pub(crate) fn show<R: Wait>(
    rt: &R,
    mut writer: ShownWriter,
    next: Next,
) -> (ShownWriter, Result<(), AllocError>)
    requires { BeginsLog writer.desk.shown.value next }
    ensures { MatchResult result.1
        (λ _. (result.0.desk.shown.value ≡ next) × (view result.0.desk.place ≡ Some next))
        (λ _. (result.0.desk.shown.value ≡ writer.desk.shown.value)
        × (view result.0.desk.place ≡ view writer.desk.place)) }
{
    let Ok(()) = writer.append(next) else {
        return (writer, Err(AllocError));
    };
    writer.publish_as::<Knowing, R>(rt)
}
