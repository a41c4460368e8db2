//! Listings of the files below a root. A tree gives them: all rows, or what differs from the files of a view. For files
//! that are as the view's records say, no rows are made, and what differs becomes patches. The crate of walks lists files.
//!
//! ```text
//! let mut piece = Again::of(alloc, view.records(), view.len());
//! piece.keep(b"a.c", Kind::File, 5, 1000)?;    // true: the next record says so
//! piece.add(row)?;                             // a file that no record has
//! piece.finish()?;                             // no other file was found
//! let left = piece.put(0, &mut patches)?;      // the patches, and how many records are kept after the last one
//! ```
#![tactic(auto)]

mod again;
mod patch_maker;
mod patches;
mod recent;
mod rows;
mod tree;

pub use again::Again;
pub use patches::{patched_rows, simplified};
pub use recent::{Reach, Recent};
pub use rows::existing_rows;
pub use tree::{LeftOut, Listing, Tree, TreeFault};
