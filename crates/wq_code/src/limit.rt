//! The limits of program files, each said once.

/// How many rows a table of a program may have: numbers, texts, lists, patterns, sets or
/// instructions.
pub const MAX_TABLE_ROWS: usize = 65536;

/// How many bytes a text may have, an entry of a list too.
pub const MAX_CONSTANT_TEXT: usize = 4096;

/// How many entries a list may have, and how many patterns a set.
pub const MAX_ENTRIES: usize = 65536;
