//! The generators of a query, as data. Another crate finds the files that they give.

use wq_base::{Table, Text};
use wq_clock::Bound;
use wq_glob::Pattern;

/// A depth without a limit.
pub const ANY_DEPTH: i64 = -1;

/// The sources of a query's candidates. Several generators give their union. If there is none,
/// every file is a candidate.
#[derive(Drop)]
pub struct Generators {
    /// The files that changed after a tick, or at a second or later. A fresh bound is no generator.
    pub since: Option<Bound>,
    /// The files with one of these suffixes, if A to Z count as a to z. An empty text gives
    /// nothing.
    pub suffix: Option<Table<Text>>,
    /// The files at these paths.
    pub path: Option<Table<PathGen>>,
    /// The files that exist and whose whole names fit one of these patterns. No pattern gives
    /// nothing.
    pub glob: Option<Table<Pattern>>,
}

/// A path. It gives the files strictly below it, and the file of its name unless that is a
/// directory.
#[derive(Drop)]
pub struct PathGen {
    /// The path, without a slash at its end. All files are below the empty path.
    pub path: Text,
    /// The greatest number of slashes in a name after the path and its slash; for the empty path,
    /// in the whole name. -1 means no limit.
    pub depth: i64,
}
