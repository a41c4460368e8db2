//! `watch`, `watch-project`, `watch-list` and `watch-del`, by which the server watches roots: their asks and their
//! replies.
ghost use Rattle.std.specs.Prelude.{Ok, true, IfOk};
ghost use Rattle.serde_json.specs.View.{items_view};
ghost use Rattle.wq_ask.specs.Argument.{behind};
ghost use Rattle.wq_ask.specs.Reading.{Requests};
ghost use Rattle.wq_ask.specs.Reply.{IsReply};
ghost use Rattle.wq_ask.specs.Watch.{list_request, unwatch_request, watch_request};
ghost use Rattle.wq_ask.specs.Watch.{root_deleted_data, watch_data};

use crate::ask::{Ask, ShelfAsk, ShelfRead};
use crate::refusal::Refusal;
use crate::root::{RootText, is_absolute};
use crate::words::{are_none, one_text};
use serde_json::{Value, json};
use std::alloc::{AllocError, Global};
use wq_base::VERSION;

/// The ask of `watch` and `watch-project` with these words.
pub(super) fn ask_watch(alloc: Global, words: Vec<Value>) -> Result<Ask, Refusal>
    ensures { Requests (watch_request (behind (items_view words.items))) result }
{
    let Some(root) = one_text(words) else {
        return Err(Refusal::WrongArguments);
    };
    if !is_absolute(&root) {
        return Err(Refusal::RootNotAbsolute);
    }
    let root = RootText::named(alloc, root)?;
    Ok(Ask::Watch { root })
}

/// The ask of `watch-list` with these words.
pub(super) fn ask_list(words: &[Value]) -> Result<Ask, Refusal>
    ensures { Requests (list_request (behind (items_view words.now))) result }
{
    if !are_none(words) {
        return Err(Refusal::WrongArguments);
    }
    Ok(Ask::OfShelf(ShelfAsk::Reads(ShelfRead::ListRoots)))
}

/// The ask of `watch-del` with these words.
pub(super) fn ask_unwatch(alloc: Global, words: Vec<Value>) -> Result<Ask, Refusal>
    ensures { Requests (unwatch_request (behind (items_view words.items))) result }
{
    let Some(root) = one_text(words) else {
        return Err(Refusal::WrongArguments);
    };
    let root = RootText::named(alloc, root)?;
    Ok(Ask::Unwatch { root })
}

/// The reply that a root is watched.
pub fn watch_reply(alloc: Global, root: &str) -> Result<Value, AllocError>
    ensures { IfOk result (IsReply (watch_data root.now)) }
{
    json!(in alloc; { "version": VERSION, "watch": root, "watcher": "poll" })
}

/// The reply that a root is no longer watched.
pub fn unwatch_reply(alloc: Global, root: &str) -> Result<Value, AllocError>
    ensures { IfOk result (IsReply (root_deleted_data root.now)) }
{
    json!(in alloc; { "root": root, "version": VERSION, "watch-del": true })
}
