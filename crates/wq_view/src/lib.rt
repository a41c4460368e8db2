//! The view of a tree of files that is listed again and again. It has for each file the kind, size and time that were
//! last seen. It also has whether the file exists, and the passes at which it came and last changed. It keeps no
//! contents, walks no directory and knows no clock. Its callers pass listings and their seconds.
//!
//! ```text
//! let row = Seen { name: SharedBytes::from_slice(alloc, b"src/a.c")?, kind: Kind::File, size: 5, mtime_ms: 1000 };
//! let pass = Pass::new(vec![in alloc; row]?, 10)?;
//! let mut view = View::new(alloc);
//! view.absorb(&pass)?;    // true: the tick is 1 now
//! view.absorb(&pass)?;    // false: nothing changed
//! view.find("src/a.c");   // Some(0), whose `ctick` and `otick` are 1 and whose `csec` and `osec` are 10
//! ```
#![tactic(auto)]

mod below;
mod change;
mod chunk;
mod chunk_filler;
mod chunks;
mod existence;
mod law;
mod limit;
mod listing;
mod moves;
mod order;
mod pair;
mod pass_merge;
mod patch;
mod patch_merge;
mod reader;
mod records;
mod sought;
mod stretch;
mod suffix;
mod suffix_search;
mod suffixes;
mod view;

pub use change::Change;
pub use law::{
    history_has_one_view, kept_positions_filter, newest_is_sorted, newest_is_split,
    positions_are_there, positions_filter,
};
pub use limit::{MAX_LISTING_ROWS, MAX_RECORDS};
pub use listing::{Pass, PassFault};
pub use patch::Patch;
pub use reader::Reader;
pub use records::{RecordRun, Records};
pub use suffixes::Suffixes;
pub use view::{View, ViewFault};
pub use wq_record::{Kind, MAX_NAME, MAX_TICK, Name, Record, Seen, SharedBytes, is_valid_name};
