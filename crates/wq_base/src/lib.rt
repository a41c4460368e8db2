//! The parts that several crates of the server share: numbers in their one decimal text with their
//! limit, comparisons of numbers and texts, names below a directory. The crate also has lists and
//! texts that contracts see as plain lists, whoever asks for a search, and writes bytes whole.
//! `specs/` has the bytes and parts of paths, and the forms of definitions that more than one crate
//! uses.
#![tactic(auto)]

mod asker;
mod compare;
mod decimal;
mod directory;
mod limit;
mod table;
mod text;
mod text_list;
mod version;
mod workers;
mod writer;

pub use asker::{Asker, FILES_BETWEEN_LOOKS, Stays, Unanswered};
pub use compare::{Case, Relation, folded_order, is_suffix};
pub use decimal::{signed_number, unsigned_number};
pub use directory::{rest_below, slashes};
pub use limit::{MAX_NUMBER, MAX_ROOTS, MAX_SIGNED, MAX_WORKERS};
pub use table::Table;
pub use text::Text;
pub use text_list::TextList;
pub use version::VERSION;
pub use workers::Workers;
pub use writer::write_all;
