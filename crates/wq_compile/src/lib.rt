//! The compiler: programs of expressions. On every record the program of an expression answers the
//! meaning of the expression. So a caller that runs programs needs no second evaluator.
//!
//! `specs/Code.antt` has the code of each term, and `specs/Meaning.antt` defines when a program
//! stands for an expression. `wq_machine` runs programs.
#![tactic(auto)]

mod code;
mod draft;
mod fault;
mod large;
mod law;
mod program;

pub use fault::CompileFault;
pub use large::is_too_large;
pub use law::expressions_compile;
pub use program::compile;
