//! What differs between the files of a listing and the records of a view. The crate of walks finds it.

use wq_record::Seen;

/// A place at which a listing differs from the records of a view. The patches of a listing come in the order of the
/// records. After the last of them all records are kept.
#[derive(Drop)]
pub struct Patch {
    /// The number of records that are kept, after those of the patches before. Their files are as they say.
    pub kept: usize,
    /// The number of records after these in whose place the rows are.
    pub replaced: usize,
    /// The rows of the files that were found there. There are none if the files were deleted.
    pub rows: Vec<Seen>,
}
