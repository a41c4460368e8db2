//! The registry, which the rest of the project calls the shelf. A server keeps in it, beside the
//! views of its roots, the things of all its clients: programs under their names; the roots that
//! are watched, each with its cursors and triggers; and a cache of the programs of expressions.
//!
//! `specs/Shelf.antt` defines the effect of each call on a shelf, and `specs/History.antt` that of
//! a list of calls. Other crates answer clients, and give a trigger its meaning.
#![tactic(auto)]

mod cache;
mod fault;
mod key;
mod law;
mod named;
mod root;
mod roots;
mod shared_program;
mod shelf;

pub use cache::{
    Cache, Compiled, Forgotten, MAX_KEPT, MAX_KEPT_PROGRAM, MAX_KEPT_TEXT, compile_shared,
};
pub use fault::ShelfFault;
pub use key::CacheKey;
pub use law::{
    cursors_are_made, last_change_counts, names_stand_in_order, places_are_names,
    programs_are_made, programs_were_added, the_greatest_tick_counts, triggers_are_made,
};
pub use root::{MAX_CURSORS, MAX_TRIGGERS, Root};
pub use shared_program::kept_form;
pub use shelf::{MAX_PROGRAMS, Shelf};
