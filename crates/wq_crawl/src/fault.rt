//! The reasons for which a root could not be crawled, watched or unwatched.

use thiserror::Error;
use wq_patch::TreeFault;
use wq_view::PassFault;

/// The reason for which a root could not be crawled, watched or unwatched. The root is then shown exactly if it was
/// shown before.
#[derive(Clone, Copy, Debug, PartialEq, Eq, Drop, Error)]
pub enum CrawlFault {
    /// The tree did not list the root.
    #[error("{0}")]
    Tree(TreeFault),
    /// The rows of the listing make no pass at the second of the crawl.
    #[error("{0}")]
    Pass(PassFault),
    /// The most roots are shown, or the last number of a root was given.
    #[error("too many roots")]
    TooManyRoots,
    /// The root was crawled 2^62 times with changes.
    #[error("the ticks are spent")]
    TicksSpent,
    /// Memory ran out beside the listing.
    #[error("no memory")]
    NoMemory,
}
