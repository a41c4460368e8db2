//! The asks of clients, and the replies to them, as data: the ask of an event, its needs before the
//! answer, and the value of each command's reply. A line with wrong words is refused here. Other
//! crates say how an ask is answered, and how a stream becomes events.
#![tactic(auto)]

mod ask;
mod command;
mod fixed;
mod law;
mod refusal;
mod reply;
mod root;
mod words;

pub use ask::{Ask, LoneAsk, RootAsk, RootRead, ShelfAsk, ShelfRead};
pub use command::{
    add_reply, clock_reply, delete_reply, is_name, socket_reply, subscribe_reply,
    trigger_deleted_reply, trigger_reply, triggers_reply, unsubscribe_reply, unwatch_reply,
    watch_reply,
};
pub use fixed::{NO_MEMORY, SHUTS_DOWN, VERSION_ALONE};
pub use law::{asks_hand_in_valid, hands_in_valid};
pub use refusal::Refusal;
pub use reply::error_reply;
pub use root::{MAX_ROOT, RootText};
