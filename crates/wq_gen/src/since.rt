//! The files that changed after a bound. After a tick they come first in the order of last change.
ghost use Rattle.std.specs.Prelude.{◌≡◌, ◌≤◌, ◌<◌, ◌+◌, ◌*◌, ℕ, true, false, count_by, length, slice_get, IfNone, IfOk, IfSome, Some};
ghost use Rattle.std.specs.List.Sorted.{IsPermutation};
ghost use Rattle.wq_clock.specs.declared.bound.Bound.TheVariants.{Tick};
ghost use Rattle.wq_view.specs.Limit.{max_records};
ghost use Rattle.wq_view.specs.Order.{Known};
ghost use Rattle.wq_view.specs.Position.{passes_at, positions_of};
ghost use Rattle.wq_view.specs.View.{newest_of};
ghost use Rattle.wq_gen.specs.Candidate.{changed_since, gives};
ghost use Rattle.wq_gen.specs.Counted.{since_looks};

use crate::counted::Counted;
use crate::generators::is_since;
use crate::position::keep_if;
use std::alloc::{AllocError, Global};
use wq_clock::Bound;
use wq_view::newest_is_split;

/// The positions of the files that changed after a bound, if there is a bound.
pub(crate) fn changed_since(
    alloc: Global,
    counted: &mut Counted<'_>,
    since: Option<Bound>,
) -> Result<Vec<u32>, AllocError>
    ensures found { IfOk result (λ found. found.items
        ≡ positions_of (gives changed_since since) counted.old.view.records) }
    ensures few { counted.new.count
        ≤ counted.old.count + since_looks since counted.old.view.records }
    ensures same { counted.new.view ≡ counted.old.view }
{
    let Some(bound) = since else {
        return Ok(Vec::new(alloc));
    };
    match bound {
        Bound::Fresh => Ok(Vec::new(alloc)),
        Bound::Tick(tick) => after_tick(alloc, counted, tick),
        Bound::Second(_) => after_bound(alloc, counted, bound),
    }
}

/// The positions of the files that changed after a bound, by a look at each record.
fn after_bound(
    alloc: Global,
    counted: &mut Counted<'_>,
    bound: Bound,
) -> Result<Vec<u32>, AllocError>
    ensures found { IfOk result (λ found. found.items
        ≡ positions_of (changed_since bound) counted.old.view.records) }
    ensures few { counted.new.count
        ≤ counted.old.count + length counted.old.view.records }
    ensures same { counted.new.view ≡ counted.old.view }
{
    let mut found = Vec::new(alloc);
    for i in 0..counted.len() {
        keep_if(is_since(bound, counted.look(i)), &mut found, i)?;
    }
    Ok(found)
}

/// The positions of the files that changed after a tick.
fn after_tick(alloc: Global, counted: &mut Counted<'_>, tick: u64) -> Result<Vec<u32>, AllocError>
    ensures found { IfOk result (λ found. found.items
        ≡ positions_of (changed_since (Tick tick)) counted.old.view.records) }
    ensures few { counted.new.count
        ≤ counted.old.count + since_looks (Some (Tick tick)) counted.old.view.records }
    ensures same { counted.new.view ≡ counted.old.view }
{
    let mut found = newest_after(alloc, counted, tick)?;
    found.sort_unstable();
    Ok(found)
}

/// The positions of the files that changed after a tick, the newest first.
fn newest_after(alloc: Global, counted: &mut Counted<'_>, tick: u64) -> Result<Vec<u32>, AllocError>
    ensures found { IfOk result (λ found. IsPermutation found.items
        (positions_of (changed_since (Tick tick)) counted.old.view.records)) }
    ensures few { counted.new.count
        ≤ counted.old.count + since_looks (Some (Tick tick)) counted.old.view.records }
    ensures same { counted.new.view ≡ counted.old.view }
{
    newest_is_split();
    let mut found = Vec::new(alloc);
    while let Some(i) = changed_at(counted, tick, found.len()) {
        found.push(i as u32)?;
    }
    Ok(found)
}

/// The position at a place of the order of last change, if its record changed after a tick.
fn changed_at(counted: &mut Counted<'_>, tick: u64, k: usize) -> Option<usize>
    ensures there { IfSome result (λ i. slice_get (newest_of counted.old.view) k ≡ Some i) }
    ensures passes { IfSome result (λ i.
        passes_at (changed_since (Tick tick)) counted.old.view.records i ≡ true) }
    ensures few { IfSome result (λ i. i < max_records) }
    ensures fails { IfNone result ((i : ℕ)
        → slice_get (newest_of counted.old.view) k ≡ Some i
        → passes_at (changed_since (Tick tick)) counted.old.view.records i ≡ false) }
    ensures known { Known counted.old.view.tick counted.old.view.records }
    ensures count { counted.new.count ≤ counted.old.count + 2 }
    ensures same { counted.new.view ≡ counted.old.view }
{
    let Some(i) = counted.newest(k) else {
        return None;
    };
    if is_since(Bound::Tick(tick), counted.look(i)) {
        Some(i)
    } else {
        None
    }
}
