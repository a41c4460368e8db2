//! Programs of the matching machine: their instructions, the meaning of a run, and the files
//! that hold them.
//!
//! A [`Raw`] is a program that nobody has verified: tables of constants and a list of
//! instructions. [`decode`] makes one of the bytes of a file or names their first fault, and
//! [`encode`] gives back the one file of a raw. `specs/Machine.antt` defines the steps of a
//! program; `wq_verify` decides whether it may run.
#![tactic(auto)]

mod fault;
mod field;
mod file;
mod flow;
mod law;
mod limit;
mod operation;
mod raw;
mod row;
mod signature;
mod version;
mod word;

pub use fault::FileFault;
pub use file::{decode, encode};
pub use flow::Flow;
pub use law::{
    cut_short_are_fronts, ends_are_spellings, faults_stay, faulty_begin_none, files_are_spellings,
    first_faults_stay, first_files_stay, first_files_were, first_runs_stay, fronts_are_cut_short,
    none_begins_another, one_spelling, spellings_are_read_back,
};
pub use limit::{MAX_CONSTANT_TEXT, MAX_ENTRIES, MAX_TABLE_ROWS};
pub use operation::{CellKind, Op};
pub use raw::Raw;
pub use signature::CellNeed;
pub use version::Version;
pub use word::Word;
pub use wq_base::{Case, Relation, Table, TextList};
