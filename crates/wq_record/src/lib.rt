//! What is known of one file below a root: its name, its kind, what a pass sees of it, and the record that a view keeps of
//! it over all passes. `wq_view` keeps the records of all names.
#![tactic(auto)]

mod file_record;
mod kind;
mod limit;
mod name;
mod seen;
mod shared;

pub use file_record::Record;
pub use kind::Kind;
pub use limit::MAX_TICK;
pub use name::{MAX_NAME, Name, is_valid_name};
pub use seen::{Seen, is_count};
pub use shared::SharedBytes;
