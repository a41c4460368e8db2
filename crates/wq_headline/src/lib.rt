//! The headline: what is true of the programs that queries run, as the contract of one function.
//! Then laws: a session that is served alone is a run of the world. Nothing here runs.
#![tactic(auto)]

mod law;
mod served;

pub use law::headline;
pub use served::{
    alone_goes_on, ends_show_a_world, events_are_runs, going_on_is_a_run, looks_find_roots,
    numbers_find_roots, served_alone_is_a_run,
};
