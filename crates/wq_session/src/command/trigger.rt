//! The beginnings of `trigger` and `trigger-del`, and the reply to `trigger-list`: the server starts commands if files
//! of a root changed. The object of `trigger` is read, and its expression compiled, before the shelf is held. The shelf
//! is held to look up a program by its name, and to put the trigger under its own.
ghost use Rattle.std.specs.Prelude.{◌≡◌, ◌⊎◌, List, None, Ok, Option, Some, false, is_none, is_some, option_map, true};
ghost use Rattle.std.specs.Prelude.{IfErr, IfOk, OnErr, OnOk};
ghost use Rattle.serde_json.specs.Data.{Data};
ghost use Rattle.serde_json.specs.View.{view as data_of};
ghost use Rattle.wq_follow.specs.Defined.{definition_data};
ghost use Rattle.wq_reply.specs.Meaning.{AnswersWithin};
ghost use Rattle.wq_registry.specs.Refusal.{Refuses};
ghost use Rattle.wq_registry.specs.Root.{numbered};
ghost use Rattle.wq_follow.specs.Followed.{trigger_data};
ghost use Rattle.wq_follow.specs.Subscription.{SubscriptionData};
ghost use Rattle.wq_registry.specs.Shelf.{trigger_added, trigger_removed, triggers_of};
ghost use Rattle.wq_session.specs.Out.{replies};
ghost use Rattle.wq_ask.specs.declared.refusal.Refusal.TheVariants.{NoMemory, TooManyTriggers};
ghost use Rattle.wq_ask.specs.Trigger.{trigger_deleted_reply, trigger_reply, triggers_reply};
ghost use Rattle.wq_crawl.specs.At.{AtData, at_data};
ghost use Rattle.wq_session.specs.Answer.{Finishes};
ghost use Rattle.wq_session.specs.Prepared.{IsKnown, IsLookup, IsReadAt, asks_trigger};
ghost use Rattle.wq_session.specs.Shelved.{each, shelf_data};
ghost use Rattle.wq_session.specs.Objects.{AreObjects};
ghost use Rattle.wq_session.specs.Trigger.{begun_delete_trigger, begun_read_trigger, begun_trigger};
ghost use Rattle.wq_session.specs.Trigger.{has_no_trigger_place, objects_of, put_trigger, run_in, trigger_called};
ghost use Rattle.wq_session.specs.Trigger.{triggers_at};
ghost use Rattle.wq_session.specs.Work.{Begins, objects_in, prints, replying};

use crate::command::query::program_for;
use crate::lookup::Lookup;
use crate::outcome::{Out, print};
use crate::read_object::ReadObject;
use crate::work::Rest;
use serde_json::Value;
use std::alloc::{AllocError, Global};
use std::sync::Arc;
use wq_ask::{Refusal, RootText, is_name, trigger_deleted_reply, trigger_reply, triggers_reply};
use wq_base::Text;
use wq_crawl::At;
use wq_follow::{Definition, ObjectText, Trigger};
use wq_registry::{Root, Shelf, ShelfFault};
use wq_verify::StoredProgram;

/// `trigger`, of the root that is looked at, as its object was read there.
pub(super) fn begin_trigger(
    alloc: Global,
    root: &RootText,
    object: &mut ReadObject,
    lookup: &Lookup,
    at: At<'_>,
    shelf: &mut Shelf<Trigger>,
) -> Result<Rest, Refusal>
    requires known { IsKnown object.old lookup.now }
    requires watched { is_none (numbered at.instance.root shelf.old.roots) ≡ false }
    ensures { (d : Data) → IsReadAt (asks_trigger d) (Some (at_data at.entry)) object.old
        → Begins (begun_trigger root.now d (at_data at.entry) (shelf_data shelf.old))
        (shelf_data shelf.old) result (shelf_data shelf.new) }
{
    let Some(_) = at.view else {
        return Err(Refusal::NotWatched);
    };
    let definition = object.take_trigger()?;
    begin_read_trigger(alloc, root, definition, lookup, at.instance.root, shelf)
}

/// The trigger that was read, of the root with this text and number.
fn begin_read_trigger(
    alloc: Global,
    root: &RootText,
    definition: Definition,
    lookup: &Lookup,
    number: u64,
    shelf: &mut Shelf<Trigger>,
) -> Result<Rest, Refusal>
    requires known { IsLookup ((definition_data definition).query).expression lookup.now }
    requires watched { is_none (numbered number shelf.old.roots) ≡ false }
    ensures { Begins
        (begun_read_trigger root.now number (definition_data definition) (shelf_data shelf.old))
        (shelf_data shelf.old) result (shelf_data shelf.new) }
{
    let program = program_for(definition.query(), lookup, shelf)?;
    let root = Text::copied(alloc, root.as_str())?;
    add(alloc, root, definition, program, number, shelf)
}

/// Puts the trigger of a definition under its name. The reply is made first, so that nothing changes if memory runs
/// out.
fn add(
    alloc: Global,
    root: Text,
    definition: Definition,
    program: Arc<StoredProgram>,
    number: u64,
    shelf: &mut Shelf<Trigger>,
) -> Result<Rest, Refusal>
    requires program { ((definition_data definition).query).program ≡ None
        → AnswersWithin program.value ((definition_data definition).query).expression }
    requires watched { is_none (numbered number shelf.old.roots) ≡ false }
    ensures { Begins (put_trigger root number (definition_data definition)
        (option_map (λ _. program.value) ((definition_data definition).query).program)
        (shelf_data shelf.old)) (shelf_data shelf.old) result (shelf_data shelf.new) }
{
    let name = Text::copied(alloc, definition.name())?;
    let name = name.as_str();
    let out = added(alloc, name, number, shelf)?;
    let running = run_of(shelf, number, name);
    let trigger = Trigger::new(definition, root, program, running);
    put(name, trigger, number, shelf)?;
    Ok(Rest::Says(out))
}

/// The reply to a trigger of a root that is put under this name.
fn added(alloc: Global, name: &str, number: u64, shelf: &Shelf<Trigger>) -> Result<Out, AllocError>
    ensures { IfOk result (λ out. out ≡ replies (trigger_reply name.now
        (is_some (trigger_called number name.now (shelf_data shelf.now))))) }
{
    let replaced = has_trigger(shelf, number, name);
    print(alloc, &trigger_reply(alloc, name, replaced)?)
}

/// Puts a trigger of a root under this name.
fn put(name: &str, trigger: Trigger, number: u64, shelf: &mut Shelf<Trigger>) -> Result<(), Refusal>
    requires { is_none (numbered number shelf.old.roots) ≡ false }
    ensures put { OnOk result ((has_no_trigger_place number name.now (shelf_data shelf.old) ≡ false)
        × (shelf_data shelf.new
        ≡ trigger_added number name.now (trigger_data trigger) (shelf_data shelf.old))) }
    ensures kept { OnErr result (shelf_data shelf.new ≡ shelf_data shelf.old) }
    ensures refused { IfErr result (λ refusal. (refusal ≡ NoMemory) ⊎ ((refusal ≡ TooManyTriggers)
        × (has_no_trigger_place number name.now (shelf_data shelf.old) ≡ true))) }
{
    match add_trigger(shelf, number, name, trigger) {
        Ok(_) => Ok(()),
        Err(ShelfFault::NoMemory) => Err(Refusal::NoMemory),
        Err(ShelfFault::Full) => Err(Refusal::TooManyTriggers),
        Err(ShelfFault::NoRoot) => unreachable!(),
    }
}

/// Puts a trigger of a root under a name ([`Shelf::add_trigger`]).
fn add_trigger(
    shelf: &mut Shelf<Trigger>,
    root: u64,
    name: &str,
    trigger: Trigger,
) -> Result<Option<Trigger>, ShelfFault>
    ensures added { OnOk result (shelf_data shelf.new
        ≡ trigger_added root name.now (trigger_data trigger) (shelf_data shelf.old)) }
    ensures kept { OnErr result (shelf_data shelf.new ≡ shelf_data shelf.old) }
    ensures refused { Refuses (is_none (numbered root shelf.old.roots))
        (has_no_trigger_place root name.now (shelf_data shelf.old)) result }
{
    shelf.add_trigger(root, name, trigger)
}

/// A trigger of a root.
fn trigger_called<'a>(shelf: &'a Shelf<Trigger>, root: u64, name: &str) -> Option<&'a Trigger>
    ensures { option_map (λ t. trigger_data t.now) result
        ≡ trigger_called root name.now (shelf_data shelf.now) }
{
    shelf.root(root)?.trigger(name)
}

/// Whether a root has a trigger of this name.
fn has_trigger(shelf: &Shelf<Trigger>, root: u64, name: &str) -> bool
    ensures { result ≡ is_some (trigger_called root name.now (shelf_data shelf.now)) }
{
    trigger_called(shelf, root, name).is_some()
}

/// The run of the command of a trigger, if there is that trigger and its command runs.
fn run_of(shelf: &Shelf<Trigger>, root: u64, name: &str) -> Option<u32>
    ensures { result ≡ run_in (trigger_called root name.now (shelf_data shelf.now)) }
{
    match trigger_called(shelf, root, name) {
        Some(trigger) => trigger.running(),
        None => None,
    }
}

/// `trigger-list`. The objects are read from their texts, and printed, when the shelf is no longer held.
pub(super) fn triggers_at(
    alloc: Global,
    at: At<'_>,
    shelf: &Shelf<Trigger>,
) -> Result<Rest, Refusal>
    ensures { Begins (replying (Ok (triggers_at (at_data at.entry) (shelf_data shelf.now)))
        (shelf_data shelf.now))
        (shelf_data shelf.now) result (shelf_data shelf.now) }
{
    let objects = objects_on(alloc, shelf, at.instance.root)?;
    Ok(Rest::ListsTriggers(objects))
}

/// The objects of the triggers of the root of this number.
fn objects_on(
    alloc: Global,
    shelf: &Shelf<Trigger>,
    number: u64,
) -> Result<Vec<Arc<ObjectText>>, AllocError>
    ensures { IfOk result (λ objects. objects_in objects.items
        ≡ objects_of (triggers_of number (shelf_data shelf.now))) }
{
    match shelf.root(number) {
        Some(root) => objects_of(alloc, root),
        None => Ok(Vec::new(alloc)),
    }
}

/// The objects of the triggers of a root.
fn objects_of(alloc: Global, root: &Root<Trigger>) -> Result<Vec<Arc<ObjectText>>, AllocError>
    ensures { IfOk result (λ objects. objects_in objects.items
        ≡ objects_of (each trigger_data root.now.triggers)) }
{
    let mut objects = Vec::new(alloc);
    for k in 0..root.trigger_count() {
        if let Some((_, trigger)) = root.trigger_at(k) {
            objects.push(trigger.object()?)?;
        }
    }
    Ok(objects)
}

/// The reply that lists the triggers with these objects.
pub(crate) fn listed_triggers(alloc: Global, objects: &[Arc<ObjectText>]) -> Out
    ensures { (at : Option AtData) (follows : List SubscriptionData)
        → Finishes false (prints (triggers_reply (objects_in objects.now))) at follows result
        follows }
{
    match list_of(alloc, objects) {
        Ok(out) => out,
        Err(_) => Out::runs_out(None),
    }
}

/// The list of the triggers with these objects, as text.
#[tactic(auto, using(crate::proofs::Triggers::plain_triggers))]
fn list_of(alloc: Global, objects: &[Arc<ObjectText>]) -> Result<Out, AllocError>
    ensures { IfOk result (λ out. out ≡ replies (triggers_reply (objects_in objects.now))) }
{
    let values = values_of(alloc, objects)?;
    print(alloc, &triggers_reply(alloc, values)?)
}

/// The objects, read from their texts.
fn values_of(alloc: Global, objects: &[Arc<ObjectText>]) -> Result<Vec<Value>, AllocError>
    ensures { IfOk result (λ values. AreObjects (objects_in objects.now) values.items) }
{
    let mut values = Vec::new(alloc);
    for object in objects {
        values.push(object.read(alloc)?)?;
    }
    Ok(values)
}

/// `trigger-del`. The reply is made first, so that the trigger stays if memory runs out.
pub(super) fn begin_delete_trigger(
    alloc: Global,
    name: &Text,
    at: At<'_>,
    shelf: &mut Shelf<Trigger>,
) -> Result<Rest, Refusal>
    ensures { Begins (begun_delete_trigger name.now (at_data at.entry) (shelf_data shelf.old))
        (shelf_data shelf.old) result (shelf_data shelf.new) }
{
    if !is_name(name) {
        return Err(Refusal::BadName);
    }
    let (number, name) = (at.instance.root, name.as_str());
    let deleted = has_trigger(shelf, number, name);
    let out = print(alloc, &trigger_deleted_reply(alloc, name, deleted)?)?;
    remove_trigger(shelf, number, name);
    Ok(Rest::Says(out))
}

/// Takes out a trigger of a root ([`Shelf::remove_trigger`]).
fn remove_trigger(shelf: &mut Shelf<Trigger>, root: u64, name: &str)
    ensures { shelf_data shelf.new ≡ trigger_removed root name.now (shelf_data shelf.old) }
{
    shelf.remove_trigger(root, name);
}
