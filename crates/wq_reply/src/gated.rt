//! The files that a plan lists, found by several threads, however few files there are.
ghost use Rattle.std.specs.Prelude.{◌≡◌, ◌<◌, ◌≤◌, All, IfOk, filter, length};
ghost use Rattle.wq_base.specs.Limit.{AreFew};
ghost use Rattle.wq_eval.specs.Answer.{says_yes};
ghost use Rattle.wq_reply.specs.Listing.{AreWithin, files_of, is_match};
ghost use Rattle.wq_reply.specs.Plan.{planned};
ghost use Rattle.wq_view.specs.Limit.{max_records};
ghost use Rattle.wq_view.specs.Position.{passes_at, positions_of, records_at};

use crate::crew::{Alone, PIECE, found};
use crate::listing::{candidates_of, is_empty, listed_places};
use crate::plan::Plan;
use std::alloc::{AllocError, Global};
use std::thread::Threads;
use wq_eval::{Gate, filter_workers};
use wq_verify::StoredProgram;
use wq_view::{View, positions_are_there, positions_filter};

/// The places of the files that the plan lists, in the view's order. So many threads find them, and each calls the gate
/// as it begins a piece of the candidates.
pub(crate) fn listed_by_workers<R: Threads, G: Gate + Sync>(
    rt: &R,
    alloc: Global,
    gate: &G,
    workers: u32,
    plan: &Plan,
    view: &View,
) -> Result<Vec<u32>, AllocError>
    requires { AreFew workers }
    ensures within { IfOk result (λ places. AreWithin view.now.records places.items) }
    ensures files { IfOk result (λ places. records_at view.now.records places.items
        ≡ files_of (planned plan.now) view.now.records) }
{
    if is_empty(plan) {
        return Ok(Vec::new(alloc));
    }
    // Only the proof uses the contracts of these calls, which are about a view's positions.
    view.len();
    positions_filter();
    positions_are_there();
    let places = matching_by_workers(rt, alloc, gate, workers, plan, view)?;
    listed_places(alloc, plan, view, places)
}

/// The places of the candidates for which the program of the plan answers yes.
fn matching_by_workers<R: Threads, G: Gate + Sync>(
    rt: &R,
    alloc: Global,
    gate: &G,
    workers: u32,
    plan: &Plan,
    view: &View,
) -> Result<Vec<u32>, AllocError>
    requires { AreFew workers }
    ensures { IfOk result (λ places. places.items
        ≡ positions_of (is_match (planned plan.now)) view.now.records) }
{
    let places = found(candidates_of(&Alone {}, alloc, plan, view))?;
    kept_by_workers(rt, alloc, gate, workers, &plan.program, view, &places)
}

/// The positions of those files for which the program answers yes.
fn kept_by_workers<R: Threads, G: Gate + Sync>(
    rt: &R,
    alloc: Global,
    gate: &G,
    workers: u32,
    program: &StoredProgram,
    view: &View,
    positions: &[u32],
) -> Result<Vec<u32>, AllocError>
    requires workers { AreFew workers }
    requires within { All (λ i. i < length view.now.records) positions.now }
    requires count { length positions.now ≤ max_records }
    ensures { IfOk result (λ kept. kept.items
        ≡ filter (passes_at (says_yes program.now) view.now.records) positions.now) }
{
    let opened = program.open(alloc)?;
    filter_workers(
        rt,
        alloc,
        gate,
        workers,
        PIECE,
        opened.program(),
        view,
        positions,
    )
}
