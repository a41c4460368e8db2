//! Sessions of clients: the answers to their asks, from a client's first event to its last. An answer is from a view of
//! the root that the ask names, and from the state that all clients share, which is held at a desk.
//!
//! A session is served through ends that the caller hands in. An inbox hands out the events, and a writer takes the
//! replies. A seat shows the views of roots, the roots are crawled, and a desk holds the shelf that all clients share.
//! Nothing here knows a socket or a file. The caller hands in the handle that starts the threads which look for the
//! files of a query. All waiting is in one of the ends.
#![tactic(auto)]

mod at;
mod command;
mod crawl;
mod cursor;
mod desk;
mod followed;
mod kept;
mod law;
mod line;
mod lock_desk;
mod lookup;
mod moment;
mod need;
mod outcome;
mod plain;
mod prepared;
mod read_object;
mod reply;
mod seat_moment;
mod service;
mod session;
mod shared_shelf;
mod steps;
mod trigger_round;
mod unset;
mod work;
mod writer;

pub use cursor::Cursor;
pub use desk::Desk;
pub use followed::MAX_SUBSCRIPTIONS;
pub use kept::Kept;
pub use law::{
    accepted_stays, added_are_asked, answers_are_calls, failed_starts_are_counted,
    rounds_are_calls, takes_all_handed, watching_again_changes_nothing,
};
pub use line::Line;
pub use lock_desk::LockDesk;
pub use need::need_of;
pub use outcome::{Out, ReplyLine};
pub use prepared::Prepared;
pub use service::{Ended, MAX_EVENTS, serve};
pub use session::Session;
pub use shared_shelf::{ReachedShelf, SharedShelf, reached_by_calls, reached_programs_are_valid};
pub use trigger_round::{round, round_ahead};
pub use unset::Unset;
pub use work::Work;
