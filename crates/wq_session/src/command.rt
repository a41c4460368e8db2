//! The beginnings of answers, in tables of the commands: of those that only read, and of those that do more. Each
//! command has a file of its own for its work while the shelf is held.
ghost use Rattle.std.specs.Prelude.{◌≡◌, Ok, Some, false, is_none, option_map, true, IfErr};
ghost use Rattle.wq_registry.specs.Root.{numbered};
ghost use Rattle.wq_ask.specs.Refusal.{ends_session};
ghost use Rattle.wq_crawl.specs.At.{at_data};
ghost use Rattle.wq_session.specs.At.{ShelfNow};
ghost use Rattle.wq_session.specs.Begun.{begun_alone, begun_ask, begun_of_root, begun_on_shelf, begun_there};
ghost use Rattle.wq_session.specs.Begun.{lone_takes_memory, reply_at, reply_on, takes_memory};
ghost use Rattle.wq_session.specs.Prepared.{IsKnown, IsReadAt, object_in, object_of};
ghost use Rattle.wq_session.specs.Shelved.{shelf_data};
ghost use Rattle.wq_session.specs.Work.{Begins, replying};

mod clock;
mod program;
mod query;
mod server;
mod subscribe;
mod trigger;
mod watch;

use crate::at::watched;
use crate::lookup::Lookup;
use crate::outcome::Out;
use crate::read_object::ReadObject;
use crate::work::Rest;
use clock::clock_at;
use program::{begin_add, begin_delete, programs_on};
use query::begin_query;
pub(crate) use query::listed;
use server::socket_on;
use std::alloc::Global;
use subscribe::{begin_subscribe, begin_unsubscribe};
pub(crate) use trigger::listed_triggers;
use trigger::{begin_delete_trigger, begin_trigger, triggers_at};
use watch::{begin_unwatch, begin_watch, roots_on};
use wq_ask::{Ask, LoneAsk, Refusal, RootAsk, RootRead, RootText, ShelfAsk, ShelfRead};
use wq_crawl::At;
use wq_follow::Trigger;
use wq_registry::Shelf;

/// The beginning of an ask while the shelf is held, or the reason to refuse the line; and the ask, if it is of a root.
/// Its object was read, and is only lent, so that it is freed when the shelf is no longer held.
pub(crate) fn begin_ask(
    alloc: Global,
    ask: Ask,
    at: Option<At<'_>>,
    object: &mut ReadObject,
    lookup: &Lookup,
    shelf: &mut Shelf<Trigger>,
) -> (Result<Rest, Refusal>, Option<RootAsk>)
    requires read { IsReadAt (object_in ask) (option_map at_data at) object.old }
    requires known { IsKnown object.old lookup.now }
    ensures begun { Begins (begun_ask ask (option_map at_data at.entry) (shelf_data shelf.old))
        (shelf_data shelf.old)
        result.0 (shelf_data shelf.new) }
    ensures memory { IfErr result.0 (λ refusal.
        ends_session refusal ≡ false → takes_memory ask ≡ true) }
{
    match ask {
        Ask::Watch { root } => (begin_watch(alloc, &root, at, shelf), None),
        Ask::Unwatch { root } => (begin_unwatch(alloc, &root, at, shelf), None),
        Ask::OfRoot { root, what, .. } => {
            let begun = begin_of_root(alloc, &root, &what, at, object, lookup, shelf);
            (begun, Some(what))
        }
        Ask::OfShelf(what) => (begin_on_shelf(alloc, what, shelf), None),
        Ask::Alone(what) => (begin_alone(what), None),
    }
}

/// The beginning of an ask of a root, which is refused unless the root that is looked at is this one.
fn begin_of_root(
    alloc: Global,
    root: &RootText,
    what: &RootAsk,
    at: Option<At<'_>>,
    object: &mut ReadObject,
    lookup: &Lookup,
    shelf: &mut Shelf<Trigger>,
) -> Result<Rest, Refusal>
    requires read { IsReadAt (object_of what.now) (option_map at_data at) object.old }
    requires known { IsKnown object.old lookup.now }
    ensures { Begins (begun_of_root what.now root.now (option_map at_data at.entry)
        (shelf_data shelf.old))
        (shelf_data shelf.old) result (shelf_data shelf.new) }
{
    let Some(at) = watched(root, at, shelf) else {
        return Err(Refusal::NotWatched);
    };
    begin_there(alloc, root, what, at, object, lookup, shelf)
}

/// The beginning of an ask of the root that is looked at.
fn begin_there(
    alloc: Global,
    root: &RootText,
    what: &RootAsk,
    at: At<'_>,
    object: &mut ReadObject,
    lookup: &Lookup,
    shelf: &mut Shelf<Trigger>,
) -> Result<Rest, Refusal>
    requires read { IsReadAt (object_of what.now) (Some (at_data at)) object.old }
    requires known { IsKnown object.old lookup.now }
    requires watched { is_none (numbered at.instance.root shelf.old.roots) ≡ false }
    ensures { Begins (begun_there what.now root.now (at_data at.entry) (shelf_data shelf.old))
        (shelf_data shelf.old) result (shelf_data shelf.new) }
{
    match what {
        RootAsk::Reads(what) => reply_at(alloc, *what, at, shelf),
        RootAsk::Query(_) => begin_query(alloc, object, lookup, at, shelf),
        RootAsk::Subscribe { name, .. } => begin_subscribe(
            alloc, root, name, object, lookup, at, shelf,
        ),
        RootAsk::Unsubscribe { name } => begin_unsubscribe(alloc, name, at),
        RootAsk::AddTrigger(_) => begin_trigger(alloc, root, object, lookup, at, shelf),
        RootAsk::DeleteTrigger { name } => begin_delete_trigger(alloc, name, at, shelf),
    }
}

/// The reply to an ask that reads of the root that is looked at. It is printed when the shelf is no longer held.
fn reply_at(
    alloc: Global,
    what: RootRead,
    at: At<'_>,
    shelf: &Shelf<Trigger>,
) -> Result<Rest, Refusal>
    ensures { Begins (replying (reply_at what (at_data at.entry) (shelf_data shelf.now))
        (shelf_data shelf.now))
        (shelf_data shelf.now) result (shelf_data shelf.now) }
{
    match what {
        RootRead::Clock => clock_at(alloc, at),
        RootRead::ListTriggers => triggers_at(alloc, at, shelf),
    }
}

/// The beginning of an ask of the shelf.
fn begin_on_shelf(
    alloc: Global,
    what: ShelfAsk,
    shelf: &mut Shelf<Trigger>,
) -> Result<Rest, Refusal>
    ensures { Begins (begun_on_shelf what (shelf_data shelf.old)) (shelf_data shelf.old) result
        (shelf_data shelf.new) }
{
    match what {
        ShelfAsk::Reads(what) => reply_on(alloc, what, shelf),
        ShelfAsk::AddProgram { name, program } => begin_add(alloc, &name, program, shelf),
        ShelfAsk::DeleteProgram { name } => begin_delete(alloc, &name, shelf),
    }
}

/// The reply to an ask that reads the shelf. It is printed when the shelf is no longer held.
fn reply_on(alloc: Global, what: ShelfRead, shelf: &Shelf<Trigger>) -> Result<Rest, Refusal>
    ensures { Begins (replying (Ok (reply_on what (shelf_data shelf.now))) (shelf_data shelf.now))
        (shelf_data shelf.now) result (shelf_data shelf.now) }
{
    match what {
        ShelfRead::ListRoots => roots_on(alloc, shelf),
        ShelfRead::SocketName => socket_on(alloc, shelf),
        ShelfRead::ListPrograms => programs_on(alloc, shelf),
    }
}

/// The beginning of an ask whose answer is always the same. It takes no memory.
fn begin_alone(what: LoneAsk) -> Result<Rest, Refusal>
    ensures begun { (shelf : ShelfNow) → Begins (begun_alone what shelf) shelf result shelf }
    ensures memory { IfErr result (λ refusal.
        ends_session refusal ≡ false → lone_takes_memory what ≡ true) }
{
    match what {
        LoneAsk::Refused(refusal) => Err(refusal),
        LoneAsk::Version => Ok(Rest::Says(Out::version())),
        LoneAsk::ShutDown => Ok(Rest::Says(Out::shutdown())),
        LoneAsk::Leave => Ok(Rest::Says(Out::silence(false))),
        LoneAsk::Nothing => Ok(Rest::Says(Out::silence(true))),
    }
}
