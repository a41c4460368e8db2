//! The events of a root. `specs/Event.antt` defines the state that follows from a list of events.

use wq_base::Text;
use wq_view::Pass;

/// An event of a root. It has the number of the root.
#[derive(Drop)]
pub enum RootEvent {
    /// The root was started, under a number that no root had before.
    Started(u64, Text),
    /// A pass went over the root.
    Passed(u64, Pass),
    /// The root ended, and is no longer shown.
    Ended(u64),
}
