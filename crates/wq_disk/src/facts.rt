//! The answer of the system to a look at one file.

use std::fs::Metadata;

/// The system's metadata of a file, and the time at which the file was modified. The library's metadata tells its times
/// in calls that have no contract, so the times are read beside the call of the system.
#[derive(Drop)]
pub struct FileFacts {
    pub metadata: Metadata,
    /// Whole seconds of the Unix epoch.
    pub seconds: i64,
    /// The nanoseconds after them.
    pub nanoseconds: i64,
}
