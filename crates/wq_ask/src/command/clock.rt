//! `clock`, the last pass over a root: its ask and its reply.
ghost use Rattle.std.specs.Prelude.{◌≡◌, IfOk};
ghost use Rattle.serde_json.specs.View.{view as data_of, items_view};
ghost use Rattle.wq_ask.specs.Argument.{behind};
ghost use Rattle.wq_ask.specs.Clock.{asks_crawl, clock_arguments, clock_data, clock_request};
ghost use Rattle.wq_ask.specs.Reading.{Requests};
ghost use Rattle.wq_ask.specs.Reply.{IsReply};

use crate::ask::{Ask, RootAsk, RootRead};
use crate::refusal::Refusal;
use crate::root::RootText;
use crate::words::{one_behind, text, two_behind};
use serde_json::{Value, json};
use std::alloc::{AllocError, Global};
use wq_base::{Text, VERSION};
use wq_clock::ClockText;
use wq_term::whole_number;

/// The ask of `clock` with these words.
pub(super) fn ask_clock(alloc: Global, words: Vec<Value>) -> Result<Ask, Refusal>
    ensures { Requests (clock_request (behind (items_view words.items))) result }
{
    let Some((root, crawl)) = clock_arguments(words) else {
        return Err(Refusal::WrongArguments);
    };
    let root = RootText::named(alloc, root)?;
    Ok(Ask::OfRoot {
        root,
        crawl,
        what: RootAsk::Reads(RootRead::Clock),
    })
}

/// The root of `clock`, and whether the server crawls it first.
fn clock_arguments(words: Vec<Value>) -> Option<(Text, bool)>
    ensures { result ≡ clock_arguments (behind (items_view words.items)) }
{
    if words.len() < 3 {
        let root = one_behind(words)?;
        return Some((text(root)?, false));
    }
    let (root, options) = two_behind(words)?;
    if !options.is_object() {
        return None;
    }
    Some((text(root)?, asks_crawl(&options)))
}

/// Whether options ask the server to crawl the root first: by a whole number above 0.
fn asks_crawl(options: &Value) -> bool
    ensures { result ≡ asks_crawl (data_of options.now) }
{
    let Some(value) = options.get("sync_timeout") else {
        return false;
    };
    match whole_number(value) {
        None => false,
        Some(number) => number > 0,
    }
}

/// The reply with a clock id.
pub fn clock_reply(alloc: Global, clock: &ClockText) -> Result<Value, AllocError>
    ensures { IfOk result (IsReply (clock_data clock.now)) }
{
    json!(in alloc; { "clock": clock.as_str(), "version": VERSION })
}
