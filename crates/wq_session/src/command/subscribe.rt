//! `subscribe` and `unsubscribe`: the server tells a client of changes without being asked. The object of `subscribe`
//! is read, and its expression compiled, before the shelf is held. The shelf is held to look up a program by its name.
//! The session keeps the subscription after that, when its first list is made.
ghost use Rattle.std.specs.Prelude.{Some};
ghost use Rattle.serde_json.specs.Data.{Data};
ghost use Rattle.wq_query.specs.Query.{asked_of};
ghost use Rattle.wq_crawl.specs.At.{at_data};
ghost use Rattle.wq_session.specs.At.{ShelfNow};
ghost use Rattle.wq_session.specs.Prepared.{IsKnown, IsLookup, IsReadAt, asks_subscription};
ghost use Rattle.wq_session.specs.Shelved.{shelf_data};
ghost use Rattle.wq_session.specs.Subscribe.{begun_read_subscribe, begun_subscribe, begun_unsubscribe};
ghost use Rattle.wq_session.specs.Work.{Begins};

use crate::command::query::program_for;
use crate::lookup::Lookup;
use crate::read_object::ReadObject;
use crate::work::Rest;
use std::alloc::Global;
use wq_ask::{Refusal, RootText, is_name};
use wq_base::Text;
use wq_clock::Bound;
use wq_crawl::At;
use wq_follow::{Subscription, Trigger};
use wq_query::Query;
use wq_registry::Shelf;
use wq_reply::Plan;

/// `subscribe`, of the root that is looked at, as its object was read there.
pub(super) fn begin_subscribe(
    alloc: Global,
    root: &RootText,
    name: &Text,
    object: &mut ReadObject,
    lookup: &Lookup,
    at: At<'_>,
    shelf: &Shelf<Trigger>,
) -> Result<Rest, Refusal>
    requires { IsKnown object.old lookup.now }
    ensures { (d : Data) → IsReadAt (asks_subscription d) (Some (at_data at.entry)) object.old
        → Begins (begun_subscribe root.now name.now d (at_data at.entry) (shelf_data shelf.now))
        (shelf_data shelf.now) result (shelf_data shelf.now) }
{
    let Some(_) = at.view else {
        return Err(Refusal::NotWatched);
    };
    if !is_name(name) {
        return Err(Refusal::BadName);
    }
    let query = object.take_query()?;
    begin_read_subscribe(alloc, root, name, query, lookup, at.instance.root, shelf)
}

/// A subscription to the files that a query asks for, of a root of this number.
fn begin_read_subscribe(
    alloc: Global,
    root: &RootText,
    name: &Text,
    query: Query,
    lookup: &Lookup,
    number: u64,
    shelf: &Shelf<Trigger>,
) -> Result<Rest, Refusal>
    requires { IsLookup (asked_of query).expression lookup.now }
    ensures { Begins (begun_read_subscribe root.now name.now number (asked_of query)
        (shelf_data shelf.now))
        (shelf_data shelf.now) result (shelf_data shelf.now) }
{
    let program = program_for(&query, lookup, shelf)?;
    let root = Text::copied(alloc, root.as_str())?;
    let name = Text::copied(alloc, name.as_str())?;
    let bound = query.bound().unwrap_or(Bound::Fresh);
    let plan = Plan::of(query, bound, program);
    Ok(Rest::Begins(Subscription::new(name, root, number, plan)))
}

/// `unsubscribe`, of the root that is looked at.
pub(super) fn begin_unsubscribe(alloc: Global, name: &Text, at: At<'_>) -> Result<Rest, Refusal>
    ensures { (shelf : ShelfNow)
        → Begins (begun_unsubscribe name.now (at_data at.entry) shelf) shelf result shelf }
{
    if !is_name(name) {
        return Err(Refusal::BadName);
    }
    Ok(Rest::Drops(at.instance.root, Text::copied(alloc, name.as_str())?))
}
