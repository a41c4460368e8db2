//! A reader brings the events of a client's stream to its session: through a queue that threads share, and a turnstile
//! before long lines.
//!
//! A link to a client has its queue. Other crates run the threads, and write the replies.
#![tactic(auto)]

mod coming;
mod history;
mod link;
mod link_inbox;
mod queue;
mod stream_reader;
mod turnstile;
mod waiting;

pub use history::{History, Opened};
pub use link::{Link, is_closed};
pub use link_inbox::LinkInbox;
pub use queue::{Feed, Outlet, open_queue, takes_what_was_put};
pub use stream_reader::read_all;
pub use turnstile::{Ticket, Turnstile};
