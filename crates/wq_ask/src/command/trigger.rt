//! `trigger`, `trigger-list` and `trigger-del`, by which the server starts commands if files of a root changed: their
//! asks and their replies.
ghost use Rattle.std.specs.Prelude.{◌≡◌, None, Ok, Some, false, map, option_map, IfOk};
ghost use Rattle.serde_json.specs.View.{items_view, view as data_of};
ghost use Rattle.wq_ask.specs.Argument.{behind};
ghost use Rattle.wq_ask.specs.Reading.{Requests};
ghost use Rattle.wq_ask.specs.Reply.{IsReply};
ghost use Rattle.wq_ask.specs.Trigger.{delete_trigger_request, list_triggers_request};
ghost use Rattle.wq_ask.specs.Trigger.{trigger_arguments, trigger_deleted_reply};
ghost use Rattle.wq_ask.specs.Trigger.{trigger_reply, trigger_request, triggers_reply};

use crate::ask::{Ask, RootAsk, RootRead};
use crate::refusal::Refusal;
use crate::root::RootText;
use crate::words::{one_text, text, two_behind, two_texts};
use serde_json::{Value, json};
use std::alloc::{AllocError, Global};
use wq_base::{Text, VERSION};

/// The ask of `trigger` with these words.
pub(super) fn ask_trigger(alloc: Global, words: Vec<Value>) -> Result<Ask, Refusal>
    ensures { Requests (trigger_request (behind (items_view words.items))) result }
{
    let Some((root, trigger)) = trigger_arguments(words) else {
        return Err(Refusal::WrongArguments);
    };
    let root = RootText::named(alloc, root)?;
    Ok(Ask::OfRoot {
        root,
        crawl: false,
        what: RootAsk::AddTrigger(trigger),
    })
}

/// The root and the object of `trigger`.
fn trigger_arguments(words: Vec<Value>) -> Option<(Text, Value)>
    ensures { option_map (λ (root, trigger). (root, data_of trigger)) result
        ≡ trigger_arguments (behind (items_view words.items)) }
{
    let (root, trigger) = two_behind(words)?;
    if !trigger.is_object() {
        return None;
    }
    Some((text(root)?, trigger))
}

/// The ask of `trigger-list` with these words.
pub(super) fn ask_list_triggers(alloc: Global, words: Vec<Value>) -> Result<Ask, Refusal>
    ensures { Requests (list_triggers_request (behind (items_view words.items))) result }
{
    let Some(root) = one_text(words) else {
        return Err(Refusal::WrongArguments);
    };
    let root = RootText::named(alloc, root)?;
    Ok(Ask::OfRoot {
        root,
        crawl: false,
        what: RootAsk::Reads(RootRead::ListTriggers),
    })
}

/// The ask of `trigger-del` with these words.
pub(super) fn ask_delete_trigger(alloc: Global, words: Vec<Value>) -> Result<Ask, Refusal>
    ensures { Requests (delete_trigger_request (behind (items_view words.items))) result }
{
    let Some((root, name)) = two_texts(words) else {
        return Err(Refusal::WrongArguments);
    };
    let root = RootText::named(alloc, root)?;
    Ok(Ask::OfRoot {
        root,
        crawl: false,
        what: RootAsk::DeleteTrigger { name },
    })
}

/// The reply that there is a trigger of this name, and whether it replaced one.
pub fn trigger_reply(alloc: Global, name: &str, replaced: bool) -> Result<Value, AllocError>
    ensures { IfOk result (IsReply (trigger_reply name.now replaced)) }
{
    let disposition = if replaced { "replaced" } else { "created" };
    json!(in alloc; { "disposition": disposition, "triggerid": name, "version": VERSION })
}

/// The triggers of a root, by their objects.
pub fn triggers_reply(alloc: Global, objects: Vec<Value>) -> Result<Value, AllocError>
    ensures { IfOk result (λ value. data_of value ≡ triggers_reply (map data_of objects.items)) }
{
    let objects = Value::Array(objects);
    json!(in alloc; { "triggers": objects, "version": VERSION })
}

/// The reply that there is no trigger of this name, and whether there was one.
pub fn trigger_deleted_reply(alloc: Global, name: &str, deleted: bool) -> Result<Value, AllocError>
    ensures { IfOk result (IsReply (trigger_deleted_reply name.now deleted)) }
{
    json!(in alloc; { "deleted": deleted, "trigger": name, "version": VERSION })
}
