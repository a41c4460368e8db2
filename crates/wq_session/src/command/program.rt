//! The beginnings of `program-add` and `program-del`, and the reply to `program-list`: the server keeps programs under
//! names.
ghost use Rattle.std.specs.Prelude.{◌≡◌, ◌⊎◌, Err, Ok, false, is_some, length, map, true};
ghost use Rattle.std.specs.Prelude.{IfErr, IfOk, OnErr, OnOk};
ghost use Rattle.serde_json.specs.Data.{string};
ghost use Rattle.serde_json.specs.View.{view as data_of};
ghost use Rattle.wq_registry.specs.ByName.{has_no_place, names, under};
ghost use Rattle.wq_registry.specs.Limit.{max_programs};
ghost use Rattle.wq_registry.specs.Shelf.{with_program};
ghost use Rattle.wq_session.specs.Out.{replies};
ghost use Rattle.wq_ask.specs.Program.{added_data, programs_data};
ghost use Rattle.wq_ask.specs.declared.refusal.Refusal.TheVariants.{NoMemory, ShelfFull};
ghost use Rattle.wq_session.specs.Program.{begun_add, begun_delete, programs_on};
ghost use Rattle.wq_session.specs.Shelved.{shelf_data};
ghost use Rattle.wq_session.specs.Work.{Begins, replying};

use crate::outcome::{Out, print};
use crate::plain::Plain;
use crate::work::Rest;
use serde_json::{Value, json};
use std::alloc::{AllocError, Global};
use wq_ask::{Refusal, add_reply, delete_reply};
use wq_base::{Text, VERSION};
use wq_follow::Trigger;
use wq_registry::{Shelf, ShelfFault};
use wq_verify::Program;

/// `program-add`. The reply is made first, so that nothing is kept if memory runs out.
pub(super) fn begin_add(
    alloc: Global,
    name: &Text,
    program: Program,
    shelf: &mut Shelf<Trigger>,
) -> Result<Rest, Refusal>
    ensures { Begins (begun_add name.now program (shelf_data shelf.old)) (shelf_data shelf.old)
        result (shelf_data shelf.new) }
{
    let name = name.as_str();
    let out = added(alloc, name, &program, shelf)?;
    put(name, program, shelf)?;
    Ok(Rest::Says(out))
}

/// The reply to a program that is put under this name.
fn added(
    alloc: Global,
    name: &str,
    program: &Program,
    shelf: &Shelf<Trigger>,
) -> Result<Out, AllocError>
    ensures { IfOk result (λ out. out ≡ replies (added_data name.now
        (length program.now.code) (is_some (under name.now (shelf_data shelf.now).programs)))) }
{
    let replaced = shelf.get(name).is_some();
    print(
        alloc,
        &add_reply(alloc, name, program.raw().code.len(), replaced)?,
    )
}

/// Puts a program under this name.
fn put(name: &str, program: Program, shelf: &mut Shelf<Trigger>) -> Result<(), Refusal>
    ensures put { OnOk result ((has_no_place max_programs name.now
        (shelf_data shelf.old).programs ≡ false)
        × (shelf_data shelf.new ≡ with_program name.now program (shelf_data shelf.old))) }
    ensures kept { OnErr result (shelf_data shelf.new ≡ shelf_data shelf.old) }
    ensures refused { IfErr result (λ refusal. (refusal ≡ NoMemory) ⊎ ((refusal ≡ ShelfFull)
        × (has_no_place max_programs name.now (shelf_data shelf.old).programs ≡ true))) }
{
    match shelf.add(name, program) {
        Ok(_) => Ok(()),
        Err(ShelfFault::NoMemory) => Err(Refusal::NoMemory),
        Err(ShelfFault::Full) => Err(Refusal::ShelfFull),
        Err(ShelfFault::NoRoot) => unreachable!(),
    }
}

/// `program-list`. The reply is printed when the shelf is no longer held.
#[tactic(auto, using(crate::proofs::Strings::plain_named))]
pub(super) fn programs_on(alloc: Global, shelf: &Shelf<Trigger>) -> Result<Rest, Refusal>
    ensures { Begins (replying (Ok (programs_on (shelf_data shelf.now))) (shelf_data shelf.now))
        (shelf_data shelf.now) result (shelf_data shelf.now) }
{
    let value = names_reply(alloc, shelf)?;
    Ok(Rest::Prints(Plain { value }))
}

/// The names of the programs on a shelf.
fn names_reply(alloc: Global, shelf: &Shelf<Trigger>) -> Result<Value, AllocError>
    ensures { IfOk result (λ value. data_of value ≡ programs_data (names shelf.now.programs)) }
{
    let names = Value::Array(names(alloc, shelf)?);
    json!(in alloc; { "programs": names, "version": VERSION })
}

/// The names as values.
fn names(alloc: Global, shelf: &Shelf<Trigger>) -> Result<Vec<Value>, AllocError>
    ensures { IfOk result (λ values. map data_of values.items
        ≡ map string (names shelf.now.programs)) }
{
    let mut values = Vec::new(alloc);
    for name in shelf.names() {
        values.push(Value::try_from_str(alloc, name.as_str())?)?;
    }
    Ok(values)
}

/// `program-del`. The reply is made first, so that the program stays if memory runs out.
pub(super) fn begin_delete(
    alloc: Global,
    name: &Text,
    shelf: &mut Shelf<Trigger>,
) -> Result<Rest, Refusal>
    ensures { Begins (begun_delete name.now (shelf_data shelf.old)) (shelf_data shelf.old) result
        (shelf_data shelf.new) }
{
    let name = name.as_str();
    let there = shelf.get(name).is_some();
    let out = print(alloc, &delete_reply(alloc, name, there)?)?;
    shelf.remove(name);
    Ok(Rest::Says(out))
}
