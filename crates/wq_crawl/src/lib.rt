//! Crawling: the crawler lists roots, publishes their passes, and starts and ends roots. One caller has it, or threads
//! share it. Views do what an ask needs of a root, and look at it: those of a session that is served, and those of a
//! world of scripts. Other crates walk trees and answer asks.
#![tactic(auto)]

mod at;
mod begun;
mod caller;
mod callers;
mod clock;
mod crawl;
mod crawler;
mod fault;
mod found_root;
mod lane;
mod lanes;
mod lister;
mod lock_roots;
mod need;
mod occupants;
mod own_roots;
mod place;
mod refused;
mod relisted;
mod root_publisher;
mod roots;
mod seat_views;
mod seconds;
mod shared_crawler;
mod shared_publisher;
mod shared_seconds;
mod table_views;
mod turn;
mod views;

pub use at::At;
pub use begun::Asked;
pub use caller::Caller;
pub use clock::MachineClock;
pub use crawl::Crawl;
pub use crawler::Crawler;
pub use fault::CrawlFault;
pub use found_root::FoundRoot;
pub use lanes::LaneParts;
pub use lister::Lister;
pub use lock_roots::LockRoots;
pub use need::Need;
pub use place::{Place, place_for};
pub use refused::Refused;
pub use roots::Roots;
pub use seat_views::SeatViews;
pub use seconds::Seconds;
pub use shared_crawler::SharedCrawler;
pub use shared_seconds::SharedSeconds;
pub use table_views::TableViews;
pub use views::{RootAt, Views};
