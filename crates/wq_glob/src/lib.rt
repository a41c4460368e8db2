//! Wildmatch: patterns for paths, as of git's `.gitignore` and Watchman's expression term `match`,
//! with an exact meaning and a bounded cost.
//!
//! ```text
//! *.c                  any name that ends in .c, but for a hidden one
//! src/**/test_*.[ch]   with wholename: such files below src, however deep
//! [![:digit:]]?        two bytes, of which the first is no digit
//! ```
//!
//! A [`Pattern`] is read once from its text and its [`Flags`] and then tried on texts.
//! `specs/Fits.antt` defines the texts that it fits, by cuts. `specs/Reading.antt` and
//! `specs/Atom.antt` define how its own text is read, and `specs/Cost.antt` the cost of a trial.
//! This crate knows no files: a caller hands in a basename or a whole name.
#![tactic(auto)]

mod byte;
mod byte_set;
mod class;
mod flag;
mod law;
mod leftmost;
mod limit;
mod matcher;
mod parser;
mod pattern;
mod row;
mod rules;
mod search;
mod step;

pub use flag::Flags;
pub use law::fits_where_it_can_be_cut;
pub use limit::{MAX_MATCHED_TEXT, MAX_PATTERN};
pub use matcher::Hit;
pub use pattern::{Pattern, PatternFault};
