//! Limits that several crates know: the limit of the server's numbers, for each of their two kinds,
//! and the limits of roots and of the threads of a query.

/// The greatest number of the protocol, 2^62: it fits signed and unsigned words and JSON's integers
/// alike.
pub const MAX_NUMBER: u64 = 1 << 62;

/// The same as a signed number: the greatest distance from 0.
pub const MAX_SIGNED: i64 = 1 << 62;

/// How many roots may be watched at once.
pub const MAX_ROOTS: usize = 16;

/// How many threads may look for the files of a query.
pub const MAX_WORKERS: u32 = 16;
