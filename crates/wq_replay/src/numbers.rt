//! The answers of the launcher in a script, whose starts all succeed in a round, or all fail. No number of a run comes
//! again.
ghost use Rattle.std.specs.Prelude.{◌≡◌, ◌+◌, ◌≤◌, IfOk, Some, map};
ghost use Rattle.std.specs.List.{range_with_len};
ghost use Rattle.wq_replay.specs.Numbers.{max_run, numbers_for};

use std::alloc::{AllocError, Global};
use wq_registry::MAX_TRIGGERS;

/// No run of a script has this number or a greater one.
const MAX_RUN: u32 = u32::MAX;

/// How many numbers a round gets, if this one is the next: one for each trigger that a root may have, if so many are
/// left. If each start is to fail, it gets none.
pub(crate) fn numbers_for(succeeds: bool, next: u32) -> u32
    ensures count { result ≡ numbers_for succeeds next }
    ensures left { next + result ≤ max_run }
{
    if !succeeds {
        return 0;
    }
    (MAX_RUN - next).min(MAX_TRIGGERS as u32)
}

/// So many answers: each lets a start succeed, under the numbers from this one on.
pub(crate) fn answers_from(
    alloc: Global,
    next: u32,
    count: u32,
) -> Result<Vec<Option<u32>>, AllocError>
    requires { next + count ≤ max_run }
    ensures { IfOk result (λ answers. answers.items ≡ map Some (range_with_len next count)) }
{
    let mut answers = Vec::with_capacity(alloc, count as usize)?;
    for place in 0..count {
        answers.push(Some(next + place))?;
    }
    Ok(answers)
}
