//! The serving of clients, in one crate: a stream of bytes becomes events, a line becomes an ask, a session answers it, and
//! a world plays what happens without files, sockets and threads.
//!
//! It hands on what smaller crates have, so that these are proved side by side. Each has its own page.
#![tactic(auto)]

pub use wq_ask::{Ask, LoneAsk, Refusal, RootAsk, RootText, ShelfAsk};
pub use wq_crawl::{Asked, At, Crawl, CrawlFault, Crawler, FoundRoot, Need, Roots, SeatViews};
pub use wq_replay::{Happening, ReplayFault, Sent, SentLines, World, replay};
pub use wq_session::{
    Cursor, Desk, Ended, Line, LockDesk, Out, Prepared, ReplyLine, Session, SharedShelf, Unset,
    Work, need_of, round, round_ahead, serve,
};
pub use wq_stream::{Event, Inbox, MemoryInbox, Splitter};
