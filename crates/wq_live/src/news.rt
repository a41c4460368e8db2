//! Events that are to be added to the list of events. No memory holds the list, so they are lent.

use wq_view::Change;

/// An event of the root of this number. Contracts see it as a [`crate::RootEvent`].
#[derive(Drop)]
pub(crate) enum News<'a> {
    /// The root of this text starts.
    Start(u64, &'a str),
    /// A pass went over the root.
    Pass(u64, &'a Change<'a>),
    /// The root ends.
    End(u64),
}
