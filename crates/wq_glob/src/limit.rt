//! The limits of a pattern and of the text that it is tried on, each said once.

/// How many bytes a pattern may have.
pub const MAX_PATTERN: usize = 255;

/// How many bytes a text may have that a pattern is tried on: those of the longest name.
pub const MAX_MATCHED_TEXT: usize = 4096;
