//! The events that sessions of clients take: the bytes of a client become events, the events wait in a queue, and an
//! inbox hands them out.
//!
//! Other crates read and answer the lines, and have the sockets and threads.
#![tactic(auto)]

mod backlog;
mod event;
mod inbox;
mod law;
mod line;
mod piece;
mod splitter;

pub use backlog::{Backlog, MAX_WAITING};
pub use event::Event;
pub use inbox::{Inbox, MemoryInbox};
pub use law::{cuts_do_not_matter, pieces_tell_the_stream, told_events_stay};
pub use line::MAX_LINE;
pub use splitter::Splitter;
