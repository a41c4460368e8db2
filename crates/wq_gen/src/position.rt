//! Lists of positions, ascending and each once.
ghost use Rattle.std.specs.Prelude.{◌≡◌, ◌<◌, ◌++◌, ◌∷◌, [], if◌then◌else◌, IfOk, OnOk};
ghost use Rattle.wq_gen.specs.Union.{union};
ghost use Rattle.wq_view.specs.Limit.{max_records};

use std::alloc::{AllocError, Global};
use std::cmp::Ordering;

/// Adds a position if it is kept.
pub(crate) fn keep_if(
    is_kept: bool,
    found: &mut Vec<u32>,
    position: usize,
) -> Result<(), AllocError>
    requires { position < max_records }
    ensures { OnOk result (found.new.items
        ≡ found.old.items ++ (if is_kept then position ∷ [] else [])) }
{
    if is_kept {
        found.push(position as u32)?;
    }
    Ok(())
}

/// The positions of both lists.
pub(crate) fn union(alloc: Global, left: Vec<u32>, right: Vec<u32>) -> Result<Vec<u32>, AllocError>
    ensures { IfOk result (λ both. both.items ≡ union left.items right.items) }
{
    if left.is_empty() {
        return Ok(right);
    }
    if right.is_empty() {
        return Ok(left);
    }
    merge(alloc, &left, &right)
}

/// The positions of both lists, in a new list.
fn merge(alloc: Global, left: &[u32], right: &[u32]) -> Result<Vec<u32>, AllocError>
    ensures { IfOk result (λ both. both.items ≡ union left.now right.now) }
{
    let mut both = Vec::new(alloc);
    let mut rest_left = left;
    let mut rest_right = right;
    while let (Some((x, later_left)), Some((y, later_right))) = (
        rest_left.split_first(),
        rest_right.split_first(),
    ) {
        match x.cmp(y) {
            Ordering::Less => {
                both.push(*x)?;
                rest_left = later_left;
            }
            Ordering::Equal => {
                both.push(*x)?;
                rest_left = later_left;
                rest_right = later_right;
            }
            Ordering::Greater => {
                both.push(*y)?;
                rest_right = later_right;
            }
        }
    }
    both.extend_from_slice(rest_left)?;
    both.extend_from_slice(rest_right)?;
    Ok(both)
}
