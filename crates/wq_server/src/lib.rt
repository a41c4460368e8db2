//! The threads of a running server and what they share: the socket, the links to clients, the pace of crawls, and how
//! all of it ends. A [`Host`] does their work: it runs sessions, crawls roots and has rounds of triggers.
#![tactic(auto)]

mod attendance;
mod client;
mod clients;
mod crawls;
mod hand;
mod hands;
mod host;
mod latch;
mod law;
mod lines;
mod links;
mod moments;
mod pace;
mod patience;
mod placed_inbox;
mod pulse;
mod quiet;
mod recipient;
mod refusal;
mod runtime;
mod server;
mod service;
mod socket;
mod stop;
mod task;
mod times;
mod told_tree;
mod walks;

pub use clients::MAX_SESSIONS;
pub use host::{Host, Worked};
pub use law::parts_make_share;
pub use moments::RootNumbers;
pub use pace::{Pace, Share};
pub use quiet::{QuietAfter, Stir};
pub use refusal::refuse;
pub use runtime::Runtime;
pub use service::run;
pub use socket::{Listening, listen, remove};
pub use stop::Stop;
pub use times::time_since;
pub use told_tree::ToldTree;
