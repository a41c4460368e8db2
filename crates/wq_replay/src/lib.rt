//! The world that sessions play in, without files, sockets and threads; and the replay of scripts in it. A script lists
//! a tree of files between the lines of clients. The program above this crate has files, the command line and exit
//! statuses.
#![tactic(auto)]

mod client;
mod clients;
mod fault;
mod happening;
mod happenings;
mod launcher;
mod law;
mod line_reader;
mod line_writer;
mod numbers;
mod player;
mod runs;
mod script;
mod sent;
mod stage;
mod start_line;
mod step;
mod world;

pub use fault::ReplayFault;
pub use happening::Happening;
pub use law::{
    programs_are_valid, runs_do_not_overlap, runs_go_on, scripts_are_runs, shelves_are_calls,
};
pub use line_reader::MAX_SCRIPT_LINE;
pub use player::{MAX_SCRIPT, replay};
pub use sent::{Sent, SentLines};
pub use world::World;
