//! The reply to a query, whole: as a JSON value, and as a line.
ghost use Rattle.std.specs.Prelude.{◌≡◌, ◌∷◌, ◌++◌, [], IfOk};
ghost use Rattle.serde_json.specs.View.{view as data_of};
ghost use Rattle.serde_json.specs.Written.{compact_text};
ghost use Rattle.wq_base.specs.Byte.{newline};
ghost use Rattle.wq_base.specs.Limit.{AreFew};
ghost use Rattle.wq_clock.specs.Instance.{instance_data};
ghost use Rattle.wq_reply.specs.Listing.{AreWithin, files_of};
ghost use Rattle.wq_reply.specs.Plan.{planned};
ghost use Rattle.wq_reply.specs.Reply.{reply_of};
ghost use Rattle.wq_view.specs.Position.{records_at};

use crate::crew::{Alone, found};
use crate::gated::listed_by_workers;
use crate::listing::listed;
use crate::plan::Plan;
use crate::reply::text_of;
use crate::values::file_values;
use serde_json::{Value, json};
use std::alloc::{AllocError, Global};
use std::thread::Threads;
use wq_base::VERSION;
use wq_clock::{Instance, print};
use wq_eval::Gate;
use wq_view::View;

/// The reply to a query at a view: its clock, the listed files in the view's order, and whether the bound is fresh.
///
/// # Errors
/// Memory ran out.
pub fn answer(
    alloc: Global,
    plan: &Plan,
    instance: &Instance,
    view: &View,
) -> Result<Value, AllocError>
    ensures { IfOk result (λ v. data_of v
        ≡ reply_of (planned plan.now) (instance_data instance.now) view.now) }
{
    let places = found(listed(&Alone {}, alloc, plan, view, None))?;
    value_of(alloc, plan, instance, view, &places)
}

/// The line of the reply to a query: its compact text with the keys in byte order, and a newline.
///
/// # Errors
/// Memory ran out.
pub fn answer_bytes(
    alloc: Global,
    plan: &Plan,
    instance: &Instance,
    view: &View,
) -> Result<Vec<u8>, AllocError>
    ensures { IfOk result (λ line. line.items
        ≡ compact_text (reply_of (planned plan.now) (instance_data instance.now) view.now)
        ++ newline ∷ []) }
{
    let places = found(listed(&Alone {}, alloc, plan, view, None))?;
    let mut line = text_of(alloc, plan, instance, view, &places)?;
    line.push(b'\n')?;
    Ok(line)
}

/// The reply to a query, whose files so many threads find. Each calls the gate as it begins a piece of the candidates.
///
/// # Errors
/// Memory ran out.
pub fn answer_workers<R: Threads, G: Gate + Sync>(
    rt: &R,
    alloc: Global,
    gate: &G,
    workers: u32,
    plan: &Plan,
    instance: &Instance,
    view: &View,
) -> Result<Value, AllocError>
    requires { AreFew workers }
    ensures { IfOk result (λ v. data_of v
        ≡ reply_of (planned plan.now) (instance_data instance.now) view.now) }
{
    let places = listed_by_workers(rt, alloc, gate, workers, plan, view)?;
    value_of(alloc, plan, instance, view, &places)
}

/// The reply that lists the files at these places.
fn value_of(
    alloc: Global,
    plan: &Plan,
    instance: &Instance,
    view: &View,
    places: &[u32],
) -> Result<Value, AllocError>
    requires within { AreWithin view.now.records places.now }
    requires files { records_at view.now.records places.now
        ≡ files_of (planned plan.now) view.now.records }
    ensures { IfOk result (λ v. data_of v
        ≡ reply_of (planned plan.now) (instance_data instance.now) view.now) }
{
    let files = Value::Array(file_values(alloc, plan, instance, view, places)?);
    let clock = print(instance, view.tick());
    json!(in alloc; {
        "clock": clock.as_str(),
        "files": files,
        "is_fresh_instance": plan.bound.is_fresh(),
        "version": VERSION,
    })
}
