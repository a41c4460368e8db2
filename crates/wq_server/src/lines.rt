//! The lines to the operator about a root. The root is in each of them as JSON, so it stays one
//! line whatever the root's bytes are.

use serde_json::Value;
use std::alloc::{AllocError, Global};
use wq_patch::LeftOut;

/// A walk that took long.
pub(crate) fn slow_line(alloc: Global, root: &str, seconds: u64) -> Result<String, AllocError> {
    let root = quoted(alloc, root)?;
    Ok(format!(in alloc; "{root}: a walk took {seconds} seconds")?)
}

/// The line about files that walks of a root leave out.
pub(crate) fn left_out_line(
    alloc: Global,
    root: &str,
    left_out: LeftOut,
) -> Result<String, AllocError> {
    let root = quoted(alloc, root)?;
    let LeftOut { names, directories } = left_out;
    Ok(format!(in alloc;
        "{root}: names that are not UTF-8: {names}, directories that cannot be read: {directories}"
    )?)
}

fn quoted(alloc: Global, root: &str) -> Result<String, AllocError> {
    Value::try_from_str(alloc, root)?.to_string(alloc)
}
