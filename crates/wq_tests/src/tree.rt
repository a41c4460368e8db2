//! Small trees, for the tests of other modules.

use std::alloc::{AllocError, Global};
use std::test::Fail;
use wq_view::{Kind, Pass, Seen, SharedBytes};

/// A file of one byte.
pub(crate) fn file(alloc: Global, name: &[u8], mtime_ms: i64) -> Result<Seen, AllocError> {
    Ok(Seen {
        name: SharedBytes::from_slice(alloc, name)?,
        kind: Kind::File,
        size: 1,
        mtime_ms,
    })
}

/// A pass that sees files of these names.
pub(crate) fn pass(alloc: Global, names: &[&[u8]], second: i64) -> Result<Pass, Fail> {
    let mut rows = Vec::new(alloc);
    for name in names {
        rows.push(file(alloc, name, 1000)?)?;
    }
    Ok(Pass::new(rows, second)?)
}
