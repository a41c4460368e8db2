//! The beginnings of `watch`, `watch-project` and `watch-del`, and the reply to `watch-list`: the server watches roots,
//! no longer watches them, and lists them.
ghost use Rattle.std.specs.Prelude.{◌≡◌, ◌⊎◌, Ok, false, map, option_map, true, IfErr, IfOk, OnErr, OnOk};
ghost use Rattle.serde_json.specs.Data.{string};
ghost use Rattle.serde_json.specs.View.{view as data_of};
ghost use Rattle.wq_registry.specs.Refusal.{Refuses};
ghost use Rattle.wq_registry.specs.Shelf.{root_added, root_has_no_place, root_removed};
ghost use Rattle.wq_ask.specs.Watch.{roots_data};
ghost use Rattle.wq_ask.specs.declared.refusal.Refusal.TheVariants.{NoMemory, TooManyRoots};
ghost use Rattle.wq_crawl.specs.At.{at_data};
ghost use Rattle.wq_session.specs.Shelved.{shelf_data};
ghost use Rattle.wq_session.specs.Watch.{begun_unwatch, begun_watch, root_texts, roots_on};
ghost use Rattle.wq_session.specs.Work.{Begins, replying};

use crate::at::watched;
use crate::outcome::print;
use crate::plain::Plain;
use crate::work::Rest;
use serde_json::{Value, json};
use std::alloc::{AllocError, Global};
use wq_ask::{Refusal, RootText, unwatch_reply, watch_reply};
use wq_base::VERSION;
use wq_crawl::At;
use wq_follow::Trigger;
use wq_registry::{Root, Shelf, ShelfFault};

/// `watch` and `watch-project`: the root that is looked at is on the shelf as this root. The reply is made first, so
/// that nothing changes if memory runs out.
pub(super) fn begin_watch(
    alloc: Global,
    root: &RootText,
    at: Option<At<'_>>,
    shelf: &mut Shelf<Trigger>,
) -> Result<Rest, Refusal>
    ensures { Begins (begun_watch root.now (option_map at_data at.entry) (shelf_data shelf.old))
        (shelf_data shelf.old)
        result (shelf_data shelf.new) }
{
    let Some(at) = at else {
        return Err(Refusal::NotWatched);
    };
    let root = root.as_str();
    let out = print(alloc, &watch_reply(alloc, root)?)?;
    put_root(root, at.instance.root, shelf)?;
    Ok(Rest::Says(out))
}

/// Puts a root on the shelf, under this number.
fn put_root(root: &str, number: u64, shelf: &mut Shelf<Trigger>) -> Result<(), Refusal>
    ensures put { OnOk result ((root_has_no_place root.now number (shelf_data shelf.old) ≡ false)
        × ((shelf_data shelf.new) ≡ root_added root.now number (shelf_data shelf.old))) }
    ensures kept { OnErr result ((shelf_data shelf.new) ≡ (shelf_data shelf.old)) }
    ensures refused { IfErr result (λ refusal. (refusal ≡ NoMemory)
        ⊎ ((refusal ≡ TooManyRoots) × (root_has_no_place root.now number
        (shelf_data shelf.old) ≡ true))) }
{
    match add_root(shelf, root, number) {
        Ok(()) => Ok(()),
        Err(ShelfFault::NoMemory) => Err(Refusal::NoMemory),
        Err(_) => Err(Refusal::TooManyRoots),
    }
}

/// Adds a root ([`Shelf::add_root`]).
fn add_root(shelf: &mut Shelf<Trigger>, text: &str, number: u64) -> Result<(), ShelfFault>
    ensures added { OnOk result
        (shelf_data shelf.new ≡ root_added text.now number (shelf_data shelf.old)) }
    ensures kept { OnErr result (shelf_data shelf.new ≡ shelf_data shelf.old) }
    ensures refused { Refuses false (root_has_no_place text.now number (shelf_data shelf.old))
        result }
{
    shelf.add_root(text, number)
}

/// `watch-list`. The reply is printed when the shelf is no longer held.
#[tactic(auto, using(crate::proofs::Strings::plain_rooted))]
pub(super) fn roots_on(alloc: Global, shelf: &Shelf<Trigger>) -> Result<Rest, Refusal>
    ensures { Begins (replying (Ok (roots_on (shelf_data shelf.now))) (shelf_data shelf.now))
        (shelf_data shelf.now) result (shelf_data shelf.now) }
{
    let value = list_reply(alloc, shelf)?;
    Ok(Rest::Prints(Plain { value }))
}

/// The reply with the watched roots, by their texts.
fn list_reply(alloc: Global, shelf: &Shelf<Trigger>) -> Result<Value, AllocError>
    ensures { IfOk result (λ value.
        data_of value ≡ roots_data (root_texts (shelf_data shelf.now).roots)) }
{
    let texts = Value::Array(texts_on(alloc, shelf)?);
    json!(in alloc; { "roots": texts, "version": VERSION })
}

/// The texts of the roots on a shelf, as values.
fn texts_on(alloc: Global, shelf: &Shelf<Trigger>) -> Result<Vec<Value>, AllocError>
    ensures { IfOk result (λ values.
        map data_of values.items ≡ map string (root_texts (shelf_data shelf.now).roots)) }
{
    texts(alloc, shelf.roots())
}

/// The texts as values.
fn texts(alloc: Global, roots: &[Root<Trigger>]) -> Result<Vec<Value>, AllocError>
    ensures { IfOk result (λ values. map data_of values.items ≡ map string (root_texts roots.now)) }
{
    let mut values = Vec::new(alloc);
    for root in roots {
        values.push(Value::try_from_str(alloc, root.text())?)?;
    }
    Ok(values)
}

/// `watch-del`. The reply is made first, so that the root stays if memory runs out.
pub(super) fn begin_unwatch(
    alloc: Global,
    root: &RootText,
    at: Option<At<'_>>,
    shelf: &mut Shelf<Trigger>,
) -> Result<Rest, Refusal>
    ensures { Begins (begun_unwatch root.now (option_map at_data at.entry) (shelf_data shelf.old))
        (shelf_data shelf.old)
        result (shelf_data shelf.new) }
{
    let Some(at) = watched(root, at, shelf) else {
        return Err(Refusal::NotWatched);
    };
    let out = print(alloc, &unwatch_reply(alloc, root.as_str())?)?;
    remove_root(shelf, at.instance.root);
    Ok(Rest::Says(out))
}

/// Takes out a root ([`Shelf::remove_root`]).
fn remove_root(shelf: &mut Shelf<Trigger>, number: u64)
    ensures { shelf_data shelf.new ≡ root_removed number (shelf_data shelf.old) }
{
    shelf.remove_root(number);
}
