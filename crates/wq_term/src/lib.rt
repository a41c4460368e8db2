//! The expressions of queries: how a JSON value is read as one, and which records match it. Other
//! crates choose the records that are asked, and run the program that asks them.
#![tactic(auto)]

mod code_length;
mod expr;
mod fault;
mod generators;
mod head;
mod law;
mod limits;
mod meaning;
mod parser;

pub use code_length::code_len;
pub use expr::{Depth, Expr, Scope, Since};
pub use fault::TermFault;
pub use generators::{ANY_DEPTH, Generators, PathGen};
pub use head::Head;
pub use law::{
    bounds_say_what_they_write, numbers_say_what_they_write, read_expressions_are_shallow,
    read_expressions_fit, values_say_what_they_write,
};
pub use meaning::holds;
pub use parser::{
    MAX_DEPTH, MAX_TERM_TEXT, read_bound, read_expr, text, whole_number, without_end_slashes,
};
pub use wq_base::{Case, Relation};
