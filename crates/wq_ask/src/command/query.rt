//! The ask of `query`, the files of a root, or those that changed. The object of the query is read later, at its root.
ghost use Rattle.std.specs.Prelude.{◌≡◌, Some, false, option_map};
ghost use Rattle.serde_json.specs.View.{view as data_of, items_view};
ghost use Rattle.wq_ask.specs.Argument.{behind};
ghost use Rattle.wq_ask.specs.Query.{crawls_first, query_arguments, query_request, synchronises};
ghost use Rattle.wq_ask.specs.Reading.{Requests};

use crate::ask::{Ask, RootAsk};
use crate::refusal::Refusal;
use crate::root::RootText;
use crate::words::{text, two_behind};
use serde_json::Value;
use std::alloc::Global;
use wq_base::Text;
use wq_term::whole_number;

/// The ask of `query` with these words.
pub(super) fn ask_query(alloc: Global, words: Vec<Value>) -> Result<Ask, Refusal>
    ensures { Requests (query_request (behind (items_view words.items))) result }
{
    let Some((root, query)) = query_arguments(words) else {
        return Err(Refusal::WrongArguments);
    };
    let root = RootText::named(alloc, root)?;
    let crawl = crawls_first(&query);
    Ok(Ask::OfRoot {
        root,
        crawl,
        what: RootAsk::Query(query),
    })
}

/// The root and the object of `query`.
fn query_arguments(words: Vec<Value>) -> Option<(Text, Value)>
    ensures { option_map (λ (root, query). (root, data_of query)) result
        ≡ query_arguments (behind (items_view words.items)) }
{
    let (root, query) = two_behind(words)?;
    if !query.is_object() {
        return None;
    }
    Some((text(root)?, query))
}

/// Whether the server crawls before it answers the query of an object.
fn crawls_first(query: &Value) -> bool
    ensures { result ≡ crawls_first (data_of query.now) }
{
    synchronises(query.get("sync_timeout"))
}

/// Whether the server crawls before it answers a query: unless its key is 0, or no whole number.
fn synchronises(value: Option<&Value>) -> bool
    ensures { result ≡ synchronises (option_map (λ v. data_of v.now) value.entry) }
{
    match value {
        None => true,
        Some(value) => match whole_number(value) {
            None => false,
            Some(number) => number != 0,
        },
    }
}
