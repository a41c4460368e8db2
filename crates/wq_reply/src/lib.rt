//! Replies to queries over one view: the plan of an answer, the files that it lists, and the text that tells them.
//! Neither the reading of a query nor the choice of its root is described here.
#![tactic(auto)]

mod ahead;
mod crew;
mod form;
mod gated;
mod law;
mod list_text;
mod listing;
mod long;
mod plan;
mod printer;
mod reply;
mod room;
mod row_writer;
mod rows;
mod values;
mod whole;

pub use ahead::Ahead;
pub use crew::{Alone, Crew, Several};
pub use law::plans_keep_measures;
pub use list_text::{files_text, print_list};
pub use long::LongReply;
pub use plan::Plan;
pub use reply::{ReplyText, answer_text};
pub use rows::{Printed, Rows};
pub use whole::{answer, answer_bytes, answer_workers};
