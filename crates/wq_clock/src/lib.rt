//! The texts by which clients name moments: Watchman's clock specs.
//!
//! A client names a moment by a clock id of the server, a named cursor or a second. This crate
//! prints and reads these texts, and gives the bound that each sets. It keeps no cursors and knows
//! no view.
#![tactic(auto)]

mod bound;
mod clock_text;
mod instance;
mod law;
mod parser;
mod run;

pub use bound::{Bound, resolve};
pub use clock_text::{ClockText, MAX_CLOCK_TEXT, print};
pub use instance::Instance;
pub use law::{printed_ids_read_back, same_text_same_id, texts_say_what_they_spell};
pub use parser::{ClockFault, MAX_CURSOR_NAME, Spec, parse};
pub use run::Run;
