//! Walks the tree of files below a root on disk, and lists a row for each file. The rows are in the byte order of whole
//! names, if the tree does not change meanwhile. Another crate makes views of the rows.
#![tactic(auto)]

mod glance;
mod guess;
mod law;
mod listing;
mod piece;
mod progress;
mod rows;
mod spent;
mod sweep;
mod walk;
mod walker;
mod walkers;
mod walks;

pub use law::{
    glance_names_are_accounted_for, glance_rows_are_known, listings_list_once,
    names_are_accounted_for, rows_are_of_paths, walks_list_once,
};
pub use walker::Walker;
