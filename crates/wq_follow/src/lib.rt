//! Subscriptions and triggers: the changes below a root since each was last told.
//! Other crates bring them to a client or to a command.
#![tactic(auto)]

mod batch;
mod command_text;
mod definition;
mod fault;
mod follower;
mod launch;
mod law;
mod object_text;
mod order;
mod shape;
mod start;
mod subscription;
mod trigger;

pub use batch::Batch;
pub use command_text::CommandText;
pub use definition::Definition;
pub use fault::TriggerFault;
pub use follower::Follower;
pub use launch::{Launch, LaunchFault};
pub use law::{
    definitions_are_shallow, definitions_have_no_float, failed_starts_stay, intervals_adjoin,
    longest_front, nothing_is_missed, views_are_reached,
};
pub use object_text::ObjectText;
pub use order::{Input, Order};
pub use shape::MAX_TRIGGER_NAME;
pub use start::{Env, MAX_APPENDED, Start};
pub use subscription::Subscription;
pub use trigger::Trigger;
