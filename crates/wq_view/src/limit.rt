//! The limits of a view.

/// The greatest number of rows of a pass.
pub const MAX_LISTING_ROWS: usize = 1_000_000;

/// The greatest number of records of a view. So a position fits 32 bits.
pub const MAX_RECORDS: usize = 4_294_967_295;
