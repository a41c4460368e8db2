//! The commands that a client may give, in tables: their names, and the ask of each. Each command has a file of its own
//! for its arguments and its reply.
ghost use Rattle.std.specs.Prelude.{◌≡◌, Some};
ghost use Rattle.serde_json.specs.View.{items_view};
ghost use Rattle.wq_ask.specs.Argument.{behind};
ghost use Rattle.wq_ask.specs.Command.{command_named};
ghost use Rattle.wq_ask.specs.Reading.{Requests, request_of};

mod clock;
mod program;
mod query;
mod server;
mod subscribe;
mod trigger;
mod watch;

use crate::ask::Ask;
use crate::refusal::Refusal;
use clock::ask_clock;
pub use clock::clock_reply;
pub use program::{add_reply, delete_reply, is_name};
use program::{ask_add, ask_delete, ask_names};
use query::ask_query;
use serde_json::Value;
pub use server::socket_reply;
use server::{ask_shutdown, ask_socket, ask_version};
use std::alloc::Global;
pub use subscribe::{subscribe_reply, unsubscribe_reply};
use subscribe::{ask_subscribe, ask_unsubscribe};
pub use trigger::{trigger_deleted_reply, trigger_reply, triggers_reply};
use trigger::{ask_delete_trigger, ask_list_triggers, ask_trigger};
pub use watch::{unwatch_reply, watch_reply};
use watch::{ask_list, ask_unwatch, ask_watch};

/// A command, by its name alone.
#[derive(Clone, Copy, PartialEq, Eq)]
pub(crate) enum Command {
    /// The server watches a root.
    Watch,
    /// The server watches a root, by the name that clients use for the root of a project.
    WatchProject,
    /// The watched roots.
    ListRoots,
    /// The server no longer watches a root.
    Unwatch,
    /// The files of a root, or those that changed.
    Query,
    /// The last pass over a root.
    Clock,
    /// The version.
    Version,
    /// The name of the server's socket.
    SocketName,
    /// The end of the server.
    ShutDown,
    /// The server keeps a program under a name.
    AddProgram,
    /// The names of the programs.
    ListPrograms,
    /// The server no longer keeps a program.
    DeleteProgram,
    /// The server tells a client of changes.
    Subscribe,
    /// The server no longer tells the client.
    Unsubscribe,
    /// The server starts a command if files changed.
    AddTrigger,
    /// The triggers of a root.
    ListTriggers,
    /// The server no longer starts a command.
    DeleteTrigger,
}

impl Command {
    /// The command of this name.
    pub(crate) fn named(name: &str) -> Option<Command>
        ensures { result ≡ command_named name.now }
    {
        match name {
            "watch" => Some(Command::Watch),
            "watch-project" => Some(Command::WatchProject),
            "watch-list" => Some(Command::ListRoots),
            "watch-del" => Some(Command::Unwatch),
            "query" => Some(Command::Query),
            "clock" => Some(Command::Clock),
            "version" => Some(Command::Version),
            "get-sockname" => Some(Command::SocketName),
            "shutdown-server" => Some(Command::ShutDown),
            "program-add" => Some(Command::AddProgram),
            "program-list" => Some(Command::ListPrograms),
            "program-del" => Some(Command::DeleteProgram),
            "subscribe" => Some(Command::Subscribe),
            "unsubscribe" => Some(Command::Unsubscribe),
            "trigger" => Some(Command::AddTrigger),
            "trigger-list" => Some(Command::ListTriggers),
            "trigger-del" => Some(Command::DeleteTrigger),
            _ => None,
        }
    }

    /// The ask of the command with these words, of which the first is its name.
    pub(crate) fn asked(self, alloc: Global, words: Vec<Value>) -> Result<Ask, Refusal>
        ensures { Requests (request_of self (behind (items_view words.items))) result }
    {
        match self {
            Command::Watch | Command::WatchProject => ask_watch(alloc, words),
            Command::ListRoots => ask_list(&words),
            Command::Unwatch => ask_unwatch(alloc, words),
            Command::Query => ask_query(alloc, words),
            Command::Clock => ask_clock(alloc, words),
            Command::Version => ask_version(&words),
            Command::SocketName => ask_socket(&words),
            Command::ShutDown => ask_shutdown(&words),
            Command::AddProgram => ask_add(alloc, words),
            Command::ListPrograms => ask_names(&words),
            Command::DeleteProgram => ask_delete(words),
            Command::Subscribe => ask_subscribe(alloc, words),
            Command::Unsubscribe => ask_unsubscribe(alloc, words),
            Command::AddTrigger => ask_trigger(alloc, words),
            Command::ListTriggers => ask_list_triggers(alloc, words),
            Command::DeleteTrigger => ask_delete_trigger(alloc, words),
        }
    }
}
