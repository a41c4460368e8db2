//! The files that a plan lists: candidates for which its program answers yes.
ghost use Rattle.std.specs.Prelude.{◌≡◌, ◌≤◌, IfErr, IfOk, IfSome, filter, length};
ghost use Rattle.wq_gen.specs.Candidate.{is_candidate};
ghost use Rattle.wq_view.specs.Limit.{max_records};
ghost use Rattle.wq_view.specs.Position.{passes_at, positions_of, records_at};
ghost use Rattle.wq_reply.specs.Ahead.{IsAheadAt};
ghost use Rattle.wq_reply.specs.Listing.{AreWithin, files_of, generators_of};
ghost use Rattle.wq_reply.specs.Listing.{lists_nothing, is_listed, is_match, is_new};
ghost use Rattle.wq_reply.specs.Plan.{planned};
ghost use Rattle.wq_reply.specs.Search.{MayEnd};

use crate::ahead::{Ahead, kept};
use crate::crew::Crew;
use crate::plan::Plan;
use std::alloc::{AllocError, Global};
use wq_base::Unanswered;
use wq_clock::Bound;
use wq_term::Generators;
use wq_view::{Record, View, positions_are_there, positions_filter};

/// The places of the files that the plan lists, in the view's order, found ahead or by a crew.
pub(crate) fn listed<C: Crew>(
    crew: &C,
    alloc: Global,
    plan: &Plan,
    view: &View,
    ahead: Option<&Ahead>,
) -> Result<Vec<u32>, Unanswered>
    requires { IfSome ahead (λ ahead. IsAheadAt view.now.records ahead.now) }
    ensures within { IfOk result (λ places. AreWithin view.now.records places.items) }
    ensures count { IfOk result (λ places. length places.items ≤ max_records) }
    ensures files { IfOk result (λ places. records_at view.now.records places.items
        ≡ files_of (planned plan.now) view.now.records) }
    ensures ends { IfErr result (MayEnd C.may_go) }
{
    if is_empty(plan) {
        return Ok(Vec::new(alloc));
    }
    // Only the proof uses the contract of this call, which is about the length of a view.
    view.len();
    positions_filter();
    positions_are_there();
    let places = matching(crew, alloc, plan, view, ahead)?;
    Ok(listed_places(alloc, plan, view, places)?)
}

/// The places of the files that pass the plan's filter, even if the plan is to list nothing. `places`
/// are those of the files that match.
#[tactic(auto, using(crate::proofs::Places::places_existing, crate::proofs::Places::places_listed))]
pub(crate) fn listed_places(
    alloc: Global,
    plan: &Plan,
    view: &View,
    places: Vec<u32>,
) -> Result<Vec<u32>, AllocError>
    requires { places.items ≡ positions_of (is_match (planned plan.now)) view.now.records }
    ensures { IfOk result (λ places. places.items
        ≡ positions_of (is_listed (planned plan.now)) view.now.records) }
{
    positions_are_there();
    if plan.bound.is_fresh() {
        existing(alloc, view, &places)
    } else {
        Ok(places)
    }
}

/// The places of the candidates for which the program of the plan answers yes.
fn matching<C: Crew>(
    crew: &C,
    alloc: Global,
    plan: &Plan,
    view: &View,
    ahead: Option<&Ahead>,
) -> Result<Vec<u32>, Unanswered>
    requires { IfSome ahead (λ ahead. IsAheadAt view.now.records ahead.now) }
    ensures places { IfOk result (λ places. places.items
        ≡ positions_of (is_match (planned plan.now)) view.now.records) }
    ensures ends { IfErr result (MayEnd C.may_go) }
{
    let places = candidates_of(crew, alloc, plan, view)?;
    kept(crew, alloc, &plan.program, view, &places, ahead)
}

/// The places of the plan's candidates.
pub(crate) fn candidates_of<C: Crew>(
    crew: &C,
    alloc: Global,
    plan: &Plan,
    view: &View,
) -> Result<Vec<u32>, Unanswered>
    ensures places { IfOk result (λ places. places.items
        ≡ positions_of (is_candidate (generators_of (planned plan.now))) view.now.records) }
    ensures within { IfOk result (λ places. AreWithin view.now.records places.items) }
    ensures count { IfOk result (λ places. length places.items ≤ max_records) }
    ensures ends { IfErr result (MayEnd C.may_go) }
{
    // Only the proof uses the contract of this call, which is about the length of a view.
    view.len();
    positions_are_there();
    crew.candidates(alloc, view, generators(plan))
}

/// The generators of the plan's candidates.
#[tactic(auto, using(crate::proofs::Places::with_bound))]
fn generators(plan: &Plan) -> &Generators
    ensures { result.now ≡ generators_of (planned plan.now) }
{
    &plan.generators
}

/// Those of these places whose files exist.
fn existing(alloc: Global, view: &View, places: &[u32]) -> Result<Vec<u32>, AllocError>
    requires { AreWithin view.now.records places.now }
    ensures { IfOk result (λ kept. kept.items
        ≡ filter (passes_at (λ r. r.exists) view.now.records) places.now) }
{
    let mut reader = view.reader();
    let mut kept = Vec::new(alloc);
    for place in places {
        if reader.get(*place as usize).exists {
            kept.push(*place)?;
        }
    }
    Ok(kept)
}

/// Whether the file came after the bound.
pub(crate) fn is_new(bound: Bound, file: &Record) -> bool
    ensures { result ≡ is_new bound file.now }
{
    match bound {
        Bound::Fresh => true,
        Bound::Tick(tick) => tick < file.ctick,
        Bound::Second(second) => second < file.csec,
    }
}

/// Whether the plan lists nothing, whatever files there are.
pub(crate) fn is_empty(plan: &Plan) -> bool
    ensures { result ≡ lists_nothing (planned plan.now) }
{
    plan.bound.is_fresh() && plan.options.empty_on_fresh_instance
}
