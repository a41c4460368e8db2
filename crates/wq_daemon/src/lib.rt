//! The work of the threads of `wq_server`, over one shelf and one crawler: sessions, crawls and rounds of triggers.
#![tactic(auto)]

mod asking;
mod assembly;
mod failures;
mod lock_host;
mod lock_seats;
mod operator;
mod questions;
mod round_crawl;
mod rounds;

pub use assembly::{MORE_LANES, Parts, SEATS, serve_clients};
pub use lock_host::LockHost;
