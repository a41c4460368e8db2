//! Decides which programs may run. It accepts a program if the kinds of the cells on its stack are
//! known at each place, whatever way led there. Such a program ends on every file, always finds the
//! cells and constants that it uses, and costs no more than a number known beforehand.
//!
//! A [`StoredProgram`] is one that is kept, a large one as the bytes of its file.
//!
//! `specs/Typing.antt` defines whether a program may run, by the existence of such kinds, and
//! `specs/Fault.antt` the faults of one that may not. `check` reports on the bytes of a program file.
//! This crate runs no programs.
#![tactic(auto)]

mod budget;
mod fault;
mod law;
mod pass;
mod program;
mod report;
mod rule;
mod same;
mod shape;
mod stack;
mod stored;
mod weight;

pub use fault::{ProgramFault, Refusal};
pub use law::{
    first_budgets_stay, first_programs_stay, fronts_are_unique, fronts_grow, operands_are_needed,
    runs_begin_well, steps_go_well, valid_are_accepted, valid_are_typed,
};
pub use program::{Program, verify};
pub use report::{FAULT, LONGEST_NAME, MAX_FILE, Report, check};
pub use shape::MAX_CELLS;
pub use stored::{MAX_OPEN, Opened, StoredProgram};
