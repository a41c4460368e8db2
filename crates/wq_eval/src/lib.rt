//! Runs a program over files of a view, by one thread or by several, and gives the files for which
//! it answers yes.
//!
//! The caller says which files are asked, and in which order: positions come in, and positions go
//! out.
#![tactic(auto)]

mod collector;
mod evaluation;
mod gate;
mod law;
mod piece;
mod workers;

pub use collector::collect;
pub use evaluation::{filter, filter_for};
pub use gate::{Gate, OpenGate};
pub use law::{answers_are_said, answers_are_within, runs_say, steps_are_said};
pub use piece::{Done, Pieces, piece_of};
pub use workers::{filter_workers, filter_workers_for};
