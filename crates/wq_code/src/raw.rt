//! A program that nobody has verified.
ghost use Rattle.std.specs.Prelude.{◌≡◌};
ghost use Rattle.wq_code.specs.Fits.{raw_fits};

use crate::field::all_fit;
use crate::limit::MAX_TABLE_ROWS;
use crate::operation::Op;
use wq_base::{Table, TextList};
use wq_glob::Pattern;

/// A program as it was read or put together: nothing is known of it.
#[derive(Debug, Drop)]
pub struct Raw {
    /// The constants of `num`.
    pub nums: Table<i64>,
    /// The constants of `text`, as bytes.
    pub texts: Table<Table<u8>>,
    /// The constants of `oneof`, each a list of texts.
    pub lists: Table<TextList>,
    /// The constants of `match`.
    pub patterns: Table<Pattern>,
    /// The constants of `anymatch`, each a list of patterns.
    pub sets: Table<Table<Pattern>>,
    /// The instructions.
    pub code: Table<Op>,
}

impl Raw {
    /// Whether the program keeps to the limits of a file. Those are [`MAX_TABLE_ROWS`] rows of each
    /// table, [`MAX_CONSTANT_TEXT`](crate::limit::MAX_CONSTANT_TEXT) bytes of a text and
    /// [`MAX_ENTRIES`](crate::limit::MAX_ENTRIES) texts of a list or patterns of a set. A pattern has
    /// at most 255 bytes anyway.
    #[tactic(auto, unfolding(crate::specs::Fits::raw_fits_in))]
    pub fn fits(&self) -> bool
        ensures { result ≡ raw_fits self.now }
    {
        self.nums.len() <= MAX_TABLE_ROWS
            && (self.texts.len() <= MAX_TABLE_ROWS && all_fit(self.texts.as_slice()))
            && (self.lists.len() <= MAX_TABLE_ROWS && all_fit(self.lists.as_slice()))
            && (self.patterns.len() <= MAX_TABLE_ROWS && all_fit(self.patterns.as_slice()))
            && (self.sets.len() <= MAX_TABLE_ROWS && all_fit(self.sets.as_slice()))
            && (self.code.len() <= MAX_TABLE_ROWS && all_fit(self.code.as_slice()))
    }
}
