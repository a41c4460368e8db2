//! Generators: the files of a view from which a query starts. Each file that a query lists is a
//! candidate, and the query tests its expression on the candidates alone.
//!
//! `specs/Candidate.antt` defines whether a record is a candidate, for each record by itself. Other
//! crates read the client's texts.
#![tactic(auto)]

mod candidate;
mod counted;
mod depth;
mod generators;
mod glob;
mod outer;
mod path;
mod position;
mod since;
mod suffix;

pub use candidate::{candidates, candidates_counted, candidates_counted_for, candidates_for};
pub use counted::Counted;
pub use wq_term::{Generators, PathGen};
