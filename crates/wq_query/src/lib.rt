//! Queries as clients write them: the query that a JSON object asks, or the first fault of that object. It needs no
//! view. Another crate says which files a query lists, and makes the reply.
#![tactic(auto)]

mod fault;
mod field;
mod generator;
mod glob;
mod key;
mod law;
mod options;
mod query;
mod subscription;

pub use fault::QueryFault;
pub use field::Field;
pub use key::{flag, some_fields};
pub use law::{subscriptions_are_plain, values_ask_what_they_write};
pub use options::Options;
pub use query::{Query, QueryParts, QuerySince};
