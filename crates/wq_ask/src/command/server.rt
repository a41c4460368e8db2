//! `version`, `get-sockname` and `shutdown-server`, the server itself: their asks, and the reply of the second. The
//! replies of the first and the last are fixed, and take no memory.
ghost use Rattle.std.specs.Prelude.{Ok, IfOk};
ghost use Rattle.serde_json.specs.View.{items_view};
ghost use Rattle.wq_ask.specs.Argument.{behind};
ghost use Rattle.wq_ask.specs.Reading.{Requests};
ghost use Rattle.wq_ask.specs.Reply.{IsReply};
ghost use Rattle.wq_ask.specs.Server.{shutdown_request, socket_request, version_request, socket_data};

use crate::ask::{Ask, LoneAsk, ShelfAsk, ShelfRead};
use crate::refusal::Refusal;
use crate::words::{are_none, are_options};
use serde_json::{Value, json};
use std::alloc::{AllocError, Global};
use wq_base::VERSION;

/// The ask of `version` with these words.
pub(super) fn ask_version(words: &[Value]) -> Result<Ask, Refusal>
    ensures { Requests (version_request (behind (items_view words.now))) result }
{
    if !are_options(words) {
        return Err(Refusal::WrongArguments);
    }
    Ok(Ask::Alone(LoneAsk::Version))
}

/// The ask of `get-sockname` with these words.
pub(super) fn ask_socket(words: &[Value]) -> Result<Ask, Refusal>
    ensures { Requests (socket_request (behind (items_view words.now))) result }
{
    if !are_none(words) {
        return Err(Refusal::WrongArguments);
    }
    Ok(Ask::OfShelf(ShelfAsk::Reads(ShelfRead::SocketName)))
}

/// The ask of `shutdown-server` with these words.
pub(super) fn ask_shutdown(words: &[Value]) -> Result<Ask, Refusal>
    ensures { Requests (shutdown_request (behind (items_view words.now))) result }
{
    if !are_none(words) {
        return Err(Refusal::WrongArguments);
    }
    Ok(Ask::Alone(LoneAsk::ShutDown))
}

/// The name of the server's socket.
pub fn socket_reply(alloc: Global, name: &str) -> Result<Value, AllocError>
    ensures { IfOk result (IsReply (socket_data name.now)) }
{
    json!(in alloc; { "sockname": name, "version": VERSION })
}
