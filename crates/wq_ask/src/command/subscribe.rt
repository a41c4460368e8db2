//! `subscribe` and `unsubscribe`, by which the server tells a client of changes without being asked: their asks and
//! their replies.
ghost use Rattle.std.specs.Prelude.{◌≡◌, Some, option_map, IfOk};
ghost use Rattle.serde_json.specs.View.{view as data_of, items_view};
ghost use Rattle.wq_ask.specs.Argument.{behind};
ghost use Rattle.wq_ask.specs.Reading.{Requests};
ghost use Rattle.wq_ask.specs.Reply.{IsReply};
ghost use Rattle.wq_ask.specs.Subscribe.{subscribe_arguments, subscribe_data, subscribe_request};
ghost use Rattle.wq_ask.specs.Subscribe.{unsubscribe_data, unsubscribe_request};

use crate::ask::{Ask, RootAsk};
use crate::refusal::Refusal;
use crate::root::RootText;
use crate::words::{text, three_behind, two_texts};
use serde_json::{Value, json};
use std::alloc::{AllocError, Global};
use wq_base::{Text, VERSION};
use wq_clock::ClockText;

/// The ask of `subscribe` with these words.
pub(super) fn ask_subscribe(alloc: Global, words: Vec<Value>) -> Result<Ask, Refusal>
    ensures { Requests (subscribe_request (behind (items_view words.items))) result }
{
    let Some((root, name, query)) = subscribe_arguments(words) else {
        return Err(Refusal::WrongArguments);
    };
    let root = RootText::named(alloc, root)?;
    Ok(Ask::OfRoot {
        root,
        crawl: false,
        what: RootAsk::Subscribe { name, query },
    })
}

/// The root, the name and the object of `subscribe`.
fn subscribe_arguments(words: Vec<Value>) -> Option<(Text, Text, Value)>
    ensures { option_map (λ (root, name, query). (root, (name, data_of query))) result
        ≡ subscribe_arguments (behind (items_view words.items)) }
{
    let (root, name, query) = three_behind(words)?;
    if !query.is_object() {
        return None;
    }
    let root = text(root)?;
    let name = text(name)?;
    Some((root, name, query))
}

/// The ask of `unsubscribe` with these words.
pub(super) fn ask_unsubscribe(alloc: Global, words: Vec<Value>) -> Result<Ask, Refusal>
    ensures { Requests (unsubscribe_request (behind (items_view words.items))) result }
{
    let Some((root, name)) = two_texts(words) else {
        return Err(Refusal::WrongArguments);
    };
    let root = RootText::named(alloc, root)?;
    Ok(Ask::OfRoot {
        root,
        crawl: false,
        what: RootAsk::Unsubscribe { name },
    })
}

/// The reply that the subscription has begun, at this clock id.
pub fn subscribe_reply(alloc: Global, clock: &ClockText, name: &str) -> Result<Value, AllocError>
    ensures { IfOk result (IsReply (subscribe_data clock.now name.now)) }
{
    json!(in alloc; { "clock": clock.as_str(), "subscribe": name, "version": VERSION })
}

/// The reply that the subscription has ended, and whether there was one.
pub fn unsubscribe_reply(alloc: Global, name: &str, deleted: bool) -> Result<Value, AllocError>
    ensures { IfOk result (IsReply (unsubscribe_data name.now deleted)) }
{
    json!(in alloc; { "deleted": deleted, "unsubscribe": name, "version": VERSION })
}
