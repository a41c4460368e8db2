//! The paths of a list that are looked for: those that no other one holds.
ghost use Rattle.std.specs.Prelude.{◌≡◌, ◌≤◌, ℕ, map, sum_by, IfOk};
ghost use Rattle.std.specs.List.Sorted.{IsPermutation, IsSortedBy};
ghost use Rattle.std.specs.Ordering.{is_lt};
ghost use Rattle.wq_term.specs.declared.generators.PathGen.{PathGen};
ghost use Rattle.wq_gen.specs.Candidate.{is_on_path};
ghost use Rattle.wq_gen.specs.Outer.{depth_order, holds, outer, path_order, rank, reaches};
ghost use Rattle.wq_gen.specs.Outer.{text_order};
ghost use Rattle.wq_record.specs.RecordData.{RecordData};

use std::alloc::{AllocError, Global};
use std::cmp::Ordering;
use wq_base::{Case, rest_below};
use wq_term::{ANY_DEPTH, PathGen};

/// The paths that no other one holds, each once. They give the same files.
pub(crate) fn outer_paths<'a>(
    alloc: Global,
    paths: &'a [PathGen],
) -> Result<Vec<&'a PathGen>, AllocError>
    ensures found { IfOk result (λ kept. (r : RecordData)
        → is_on_path (map (λ p. p.now) kept.items) r ≡ is_on_path paths.now r) }
    ensures few { IfOk result (λ kept. (cost : PathGen → ℕ)
        → sum_by cost (map (λ p. p.now) kept.items) ≤ sum_by cost (outer paths.now)) }
{
    let sorted = in_order(alloc, paths)?;
    let mut kept = Vec::new(alloc);
    let Some((first, later)) = sorted.split_first() else {
        return Ok(kept);
    };
    let mut last: &PathGen = *first;
    kept.push(last)?;
    for path in later {
        if !holds(last, path) {
            last = *path;
            kept.push(last)?;
        }
    }
    Ok(kept)
}

/// The paths in an order in which those below a path come directly after it.
fn in_order<'a>(alloc: Global, paths: &'a [PathGen]) -> Result<Vec<&'a PathGen>, AllocError>
    ensures same { IfOk result (λ sorted. IsPermutation paths.now
        (map (λ p. p.now) sorted.items)) }
    ensures rise { IfOk result (λ sorted. IsSortedBy (λ p q. is_lt (path_order p q))
        (map (λ p. p.now) sorted.items)) }
{
    let mut sorted = Vec::with_capacity(alloc, paths.len())?;
    for path in paths {
        sorted.push(path)?;
    }
    sorted.sort_unstable_by(|a, b| order(a, b));
    Ok(sorted)
}

/// The order of two paths.
fn order(a: &PathGen, b: &PathGen) -> Ordering
    ensures { result ≡ path_order a.now b.now }
{
    order_of_texts(a.path.as_bytes(), b.path.as_bytes()).then(order_of_depths(a.depth, b.depth))
}

/// The order of texts in which a slash comes before all other bytes.
fn order_of_texts(first: &[u8], second: &[u8]) -> Ordering
    ensures { result ≡ text_order first.now second.now }
{
    let mut rest_first = first;
    let mut rest_second = second;
    while let (Some((x, later_first)), Some((y, later_second))) = (
        rest_first.split_first(),
        rest_second.split_first(),
    ) {
        let order = rank(*x).cmp(&rank(*y));
        if order.is_ne() {
            return order;
        }
        rest_first = later_first;
        rest_second = later_second;
    }
    rest_first.len().cmp(&rest_second.len())
}

/// The rank of a byte: a slash comes before all others.
fn rank(byte: u8) -> u16
    ensures { result ≡ rank byte }
{
    if byte == b'/' { 0 } else { byte as u16 + 1 }
}

/// The order of depths: that without limit comes first, and then the greater ones.
fn order_of_depths(first: i64, second: i64) -> Ordering
    ensures { result ≡ depth_order first second }
{
    (first != ANY_DEPTH)
        .cmp(&(second != ANY_DEPTH))
        .then(second.cmp(&first))
}

/// Whether a depth reaches as far as another one.
fn reaches(depth: i64, other: i64) -> bool
    ensures { result ≡ reaches depth other }
{
    depth == ANY_DEPTH || (other != ANY_DEPTH && other <= depth)
}

/// Whether a path gives every file that another one gives, as one can tell by the two alone.
fn holds(path: &PathGen, other: &PathGen) -> bool
    ensures { result ≡ holds path.now other.now }
{
    let outer = path.path.as_bytes();
    let inner = other.path.as_bytes();
    (outer == inner && reaches(path.depth, other.depth))
        || (path.depth == ANY_DEPTH && rest_below(Case::Exact, outer, inner).is_some())
}
