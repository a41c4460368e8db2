//! The machine that runs programs on the records of files. Every program that may run gives a yes
//! or a no on every record, within its budget. It is never short of an operand, and never outside
//! its code or its constants. So the loop has no test for any of these, and no refusal.
//!
//! `wq_code`'s `specs/Machine.antt` defines the meaning of a run, and `specs/Item.antt` the facts
//! of a record that a program reads. This crate takes no memory.
#![tactic(auto)]

mod ahead;
mod execute;
mod load;
mod machine;
mod operand;
mod slot;
mod stack;
mod text;
mod text_test;

pub use machine::{Verdict, run, run_in};
pub use slot::Stack;
