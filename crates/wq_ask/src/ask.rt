//! The asks of a session, by what their answers need, and how they are read of events.
ghost use Rattle.serde_json.specs.View.{view as data_of};
ghost use Rattle.wq_ask.specs.Reading.{Asks, GivesValue, Requests, request_of_value, requested, value_of};

use crate::command::Command;
use crate::refusal::Refusal;
use crate::root::RootText;
use serde_json::Value;
use std::alloc::Global;
use wq_base::Text;
use wq_stream::Event;
use wq_verify::Program;

/// The ask of an event, or the reason to refuse a line whatever the shelf holds.
#[derive(Drop)]
pub enum Ask {
    /// The server watches a root.
    Watch {
        root: RootText,
    },
    /// The server no longer watches a root.
    Unwatch {
        root: RootText,
    },
    /// An ask of a root that is watched, and whether the server crawls the root first.
    OfRoot {
        root: RootText,
        crawl: bool,
        what: RootAsk,
    },
    /// An ask of the state that all clients share, whatever the roots show.
    OfShelf(ShelfAsk),
    /// An ask whose answer is always the same.
    Alone(LoneAsk),
}

/// An ask of a root that is watched.
pub enum RootAsk {
    /// This is read, and nothing changes.
    Reads(RootRead),
    /// The files, or those that changed, as the object says. The cursor that it names moves.
    Query(Value),
    /// The server tells the client of the files that the object asks for, under a name.
    Subscribe { name: Text, query: Value },
    /// The server no longer tells the client of the files that it subscribed to under a name.
    Unsubscribe { name: Text },
    /// The server starts a command for the files, as the object says.
    AddTrigger(Value),
    /// The server drops the trigger of a name.
    DeleteTrigger { name: Text },
}

// An ask of a root is let go by one call, wherever a function gives up.
impl Drop for RootAsk {
    fn drop(self) {
        match self {
            RootAsk::Reads(_) => {}
            RootAsk::Query(_) => {}
            RootAsk::Subscribe { name: _, query: _ } => {}
            RootAsk::Unsubscribe { name: _ } => {}
            RootAsk::AddTrigger(_) => {}
            RootAsk::DeleteTrigger { name: _ } => {}
        }
    }
}

/// An ask that reads of a root.
#[derive(Clone, Copy)]
pub enum RootRead {
    /// The clock.
    Clock,
    /// The triggers.
    ListTriggers,
}

/// An ask of the state that all clients share.
#[derive(Drop)]
pub enum ShelfAsk {
    /// This is read, and nothing changes.
    Reads(ShelfRead),
    /// The server keeps the program under a name.
    AddProgram { name: Text, program: Program },
    /// The server no longer keeps the program under a name.
    DeleteProgram { name: Text },
}

/// An ask that reads the state that all clients share.
#[derive(Clone, Copy)]
pub enum ShelfRead {
    /// The roots that are watched.
    ListRoots,
    /// The name of the server's socket.
    SocketName,
    /// The names of the programs.
    ListPrograms,
}

/// An ask whose answer is always the same.
#[derive(Drop)]
pub enum LoneAsk {
    /// This is the first reason to refuse the line.
    Refused(Refusal),
    /// The version alone.
    Version,
    /// The server ends.
    ShutDown,
    /// Nothing: the client has gone.
    Leave,
    /// Nothing.
    Nothing,
}

impl Ask {
    /// The ask of an event. A line with a wrong text, words, root or program is refused here, whatever it asks. If it
    /// has several faults, the first one in [`Refusal`] counts.
    ///
    /// If memory runs out over a line, the line is refused for that.
    pub fn read(alloc: Global, event: Event) -> Ask
        ensures { Asks event result }
    {
        match event {
            Event::Line(line) => match asked(alloc, line.as_slice()) {
                Ok(ask) => ask,
                Err(refusal) => Ask::Alone(LoneAsk::Refused(refusal)),
            },
            Event::Long => Ask::Alone(LoneAsk::Refused(Refusal::LineTooLong)),
            Event::Binary => Ask::Alone(LoneAsk::Refused(Refusal::Bser)),
            Event::Idle(_) => Ask::Alone(LoneAsk::Nothing),
            Event::End | Event::Fault => Ask::Alone(LoneAsk::Leave),
        }
    }
}

/// The ask of a line.
fn asked(alloc: Global, line: &[u8]) -> Result<Ask, Refusal>
    ensures { Requests (requested line.now) result }
{
    let value = read_value(alloc, line)?;
    asked_by(alloc, value)
}

/// The one JSON value of a line.
fn read_value(alloc: Global, line: &[u8]) -> Result<Value, Refusal>
    ensures { GivesValue result (value_of line.now) }
{
    match Value::from_slice(alloc, line) {
        Ok(value) => Ok(value),
        Err(error) if error.is_memory() => Err(Refusal::NoMemory),
        Err(_) => Err(Refusal::NotJson),
    }
}

/// The ask of the value of a line.
fn asked_by(alloc: Global, value: Value) -> Result<Ask, Refusal>
    ensures { Requests (request_of_value (data_of value)) result }
{
    let Value::Array(words) = value else {
        return Err(Refusal::NotACommand);
    };
    let Some(Value::String(name)) = words.first() else {
        return Err(Refusal::NotACommand);
    };
    let Some(command) = Command::named(name.as_str()) else {
        return Err(Refusal::UnknownCommand);
    };
    command.asked(alloc, words)
}
