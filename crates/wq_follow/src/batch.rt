//! The batch of a look: the changes that are told.

use wq_clock::Bound;

/// The changes below a root since a follower was last told.
#[derive(Drop)]
pub struct Batch {
    /// Whether nothing was known before.
    pub fresh: bool,
    /// The bound from which it tells changes.
    pub from: Bound,
    /// The tick at which it ends.
    pub now: u64,
    /// The places of its files in the view, ascending.
    pub files: Vec<u32>,
}
