//! The views of all roots: the roots that are shown, and the view of each, as they follow from one list of events. A
//! publisher changes the list. Seats look at its table from other threads. The crate of walks lists the trees of files.
#![tactic(auto)]

mod blank;
mod event;
mod kept;
mod log;
mod named;
mod news;
mod publication;
mod publisher;
mod refused;
mod seat;
mod shown;
mod shown_root;
mod table;

pub use blank::Blank;
pub use event::RootEvent;
pub use named::{Named, Witness};
pub use publisher::Publisher;
pub use refused::Refused;
pub use seat::{Blind, Look, Seat, Told};
pub use shown::Published;
pub use table::{RootTable, StartFault};
