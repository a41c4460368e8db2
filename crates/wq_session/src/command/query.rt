//! `query`: the files of a root, or those that changed. The query is read, and its expression compiled, before the
//! shelf is held. The shelf is held to look up a program by its name and to move the cursor, and not to list the files.
ghost use Rattle.std.specs.Prelude.{◌≡◌, List, Some, false, is_none, IfOk, OnErr, OnOk};
ghost use Rattle.serde_json.specs.Data.{Data};
ghost use Rattle.wq_clock.specs.Instance.{instance_data};
ghost use Rattle.wq_follow.specs.Subscription.{SubscriptionData};
ghost use Rattle.wq_query.specs.Query.{asked_of};
ghost use Rattle.wq_reply.specs.Plan.{planned};
ghost use Rattle.wq_registry.specs.ByName.{has_no_place, under};
ghost use Rattle.wq_registry.specs.Limit.{max_cursors};
ghost use Rattle.wq_registry.specs.Refusal.{Refuses};
ghost use Rattle.wq_registry.specs.Root.{numbered};
ghost use Rattle.wq_registry.specs.Shelf.{cursor_used, cursors_of};
ghost use Rattle.wq_session.specs.Answer.{Finishes};
ghost use Rattle.wq_crawl.specs.At.{at_data};
ghost use Rattle.wq_session.specs.Query.{begun_query, begun_read_query, moved_cursor};
ghost use Rattle.wq_session.specs.Prepared.{IsKnown, IsLookup, IsReadAt, asks_query};
ghost use Rattle.wq_session.specs.Shelved.{shelf_data};
ghost use Rattle.wq_session.specs.Taking.{FindsCompiled, FindsNamed, FindsProgram, MovesCursor};
ghost use Rattle.wq_session.specs.Work.{Begins, evaluates};

use crate::cursor::Cursor;
use crate::lookup::Lookup;
use crate::outcome::Out;
use crate::read_object::ReadObject;
use crate::work::Rest;
use std::alloc::{AllocError, Global};
use std::sync::Arc;
use wq_ask::Refusal;
use wq_base::Text;
use wq_clock::{Bound, Instance};
use wq_crawl::At;
use wq_follow::Trigger;
use wq_query::Query;
use wq_registry::{Shelf, ShelfFault};
use wq_reply::{Crew, Plan, answer_text};
use wq_verify::StoredProgram;
use wq_view::View;

/// `query`, of the root that is looked at, as it was read there.
pub(super) fn begin_query(
    alloc: Global,
    object: &mut ReadObject,
    lookup: &Lookup,
    at: At<'_>,
    shelf: &mut Shelf<Trigger>,
) -> Result<Rest, Refusal>
    requires known { IsKnown object.old lookup.now }
    requires watched { is_none (numbered at.instance.root shelf.old.roots) ≡ false }
    ensures { (d : Data) → IsReadAt (asks_query d) (Some (at_data at.entry)) object.old
        → Begins (begun_query d (at_data at.entry) (shelf_data shelf.old)) (shelf_data shelf.old)
        result (shelf_data shelf.new) }
{
    let Some(view) = at.view else {
        return Err(Refusal::NotWatched);
    };
    let query = object.take_query()?;
    begin_read_query(alloc, query, lookup, at.instance.root, view.tick(), shelf)
}

/// A query that was read, at a tick of its root.
fn begin_read_query(
    alloc: Global,
    query: Query,
    lookup: &Lookup,
    root: u64,
    tick: u64,
    shelf: &mut Shelf<Trigger>,
) -> Result<Rest, Refusal>
    requires known { IsLookup (asked_of query).expression lookup.now }
    requires watched { is_none (numbered root shelf.old.roots) ≡ false }
    ensures { Begins (begun_read_query root tick (asked_of query) (shelf_data shelf.old))
        (shelf_data shelf.old) result
        (shelf_data shelf.new) }
{
    let program = program_for(&query, lookup, shelf)?;
    let cursor = cursor_of(alloc, &query, root)?;
    let bound = move_cursor(&query, root, tick, shelf)?;
    Ok(Rest::Evaluates(Plan::of(query, bound, program), cursor))
}

/// The program that selects the files of a query.
pub(super) fn program_for(
    query: &Query,
    lookup: &Lookup,
    shelf: &Shelf<Trigger>,
) -> Result<Arc<StoredProgram>, Refusal>
    requires { IsLookup (asked_of query.now).expression lookup.now }
    ensures { FindsProgram (asked_of query.now) (shelf_data shelf.now) result }
{
    match query.program() {
        Some(name) => named(name, shelf),
        None => compiled(query, lookup),
    }
}

/// The program of a name.
fn named(name: &str, shelf: &Shelf<Trigger>) -> Result<Arc<StoredProgram>, Refusal>
    ensures { FindsNamed name.now (shelf_data shelf.now) result }
{
    let Some(program) = shelf.get(name) else {
        return Err(Refusal::NoSuchProgram);
    };
    Ok(Arc::try_clone(program)?)
}

/// The program of the expression of a query, which was found or compiled before.
fn compiled(query: &Query, lookup: &Lookup) -> Result<Arc<StoredProgram>, Refusal>
    requires { IsLookup (asked_of query.now).expression lookup.now }
    ensures { FindsCompiled (asked_of query.now) result }
{
    if lookup.is_large {
        return Err(Refusal::ProgramTooLarge);
    }
    match &lookup.program {
        Some(program) => Ok(Arc::try_clone(program)?),
        None => Err(Refusal::NoMemory),
    }
}

/// The cursor of a query, by a name of its own.
fn cursor_of(alloc: Global, query: &Query, root: u64) -> Result<Option<Cursor>, AllocError>
    ensures { IfOk result (λ cursor. cursor ≡ moved_cursor root (asked_of query.now).since) }
{
    match query.cursor() {
        None => Ok(None),
        Some(name) => Ok(Some(Cursor {
            root,
            name: Text::copied(alloc, name)?,
        })),
    }
}

/// Moves the cursor of a query to this tick of its root, and gives the bound that it sets.
fn move_cursor(
    query: &Query,
    root: u64,
    tick: u64,
    shelf: &mut Shelf<Trigger>,
) -> Result<Bound, Refusal>
    requires { is_none (numbered root shelf.old.roots) ≡ false }
    ensures { MovesCursor (asked_of query.now).since root tick (shelf_data shelf.old) result
        (shelf_data shelf.new) }
{
    let Some(name) = query.cursor() else {
        return Ok(query.bound().unwrap_or(Bound::Fresh));
    };
    match swap_cursor(shelf, root, name, tick) {
        Ok(None) => Ok(Bound::Fresh),
        Ok(Some(tick)) => Ok(Bound::Tick(tick)),
        Err(ShelfFault::NoMemory) => Err(Refusal::NoMemory),
        Err(ShelfFault::Full) => Err(Refusal::ShelfFull),
        Err(ShelfFault::NoRoot) => unreachable!(),
    }
}

/// Uses a cursor of a root at a tick ([`Shelf::swap_cursor`]).
fn swap_cursor(
    shelf: &mut Shelf<Trigger>,
    root: u64,
    name: &str,
    tick: u64,
) -> Result<Option<u64>, ShelfFault>
    ensures old { IfOk result (λ old.
        old ≡ under name.now (cursors_of root (shelf_data shelf.old))) }
    ensures used { OnOk result
        (shelf_data shelf.new ≡ cursor_used root name.now tick (shelf_data shelf.old)) }
    ensures kept { OnErr result (shelf_data shelf.new ≡ shelf_data shelf.old) }
    ensures refused { Refuses (is_none (numbered root shelf.old.roots))
        (has_no_place max_cursors name.now (cursors_of root (shelf_data shelf.old))) result }
{
    shelf.swap_cursor(root, name, tick)
}

/// The listing of the files of a plan, of a root with this view, by a crew.
pub(crate) fn listed<C: Crew>(
    crew: &C,
    alloc: Global,
    plan: &Plan,
    cursor: Option<Cursor>,
    instance: &Instance,
    view: &View,
) -> Out
    ensures { (follows : List SubscriptionData)
        → Finishes C.may_go (evaluates (planned plan.now) cursor)
        (Some (record { instance = instance_data instance.now; view = Some view.now }))
        follows result follows }
{
    Out::of_answer(answer_text(crew, alloc, plan, instance, view), cursor)
}
