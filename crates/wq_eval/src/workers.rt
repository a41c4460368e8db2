//! The filter on several threads. Workers draw pieces, and the collector puts together what they
//! kept.
ghost use Rattle.std.specs.Prelude.{◌≡◌, ◌<◌, ◌≤◌, ◌∷◌, [], All, IfOk, filter, length};
ghost use Rattle.std.specs.Thread.{IsSync};
ghost use Rattle.wq_eval.specs.Answer.{says_yes};
ghost use Rattle.wq_base.specs.Limit.{AreFew};
ghost use Rattle.wq_eval.specs.Piece.{AreRight, AreSound};
ghost use Rattle.wq_view.specs.Limit.{max_records};
ghost use Rattle.wq_view.specs.Position.{passes_at};

use crate::collector::collect;
use crate::gate::Gate;
use crate::piece::{Done, Pieces};
use std::alloc::{AllocError, Global};
use std::sync::atomic::{AtomicU64, Ordering};
use std::thread::{Threads, join};
use wq_base::{Asker, Stays, Unanswered};
use wq_verify::Program;
use wq_view::View;

/// The positions that [`filter`](crate::filter) gives, found by up to so many threads. Each takes
/// pieces of so many positions until none is left, and calls the gate as it begins one.
///
/// # Errors
/// Memory ran out.
pub fn filter_workers<R: Threads, G: Gate + Sync>(
    rt: &R,
    alloc: Global,
    gate: &G,
    workers: u32,
    piece: u32,
    program: &Program,
    view: &View,
    positions: &[u32],
) -> Result<Vec<u32>, AllocError>
    requires workers { AreFew workers }
    requires piece { 1 ≤ piece }
    requires within { All (λ i. i < length view.now.records) positions.now }
    requires count { length positions.now ≤ max_records }
    ensures { IfOk result (λ kept. kept.items
        ≡ filter (passes_at (says_yes program.now) view.now.records) positions.now) }
{
    match filter_workers_for(
        rt,
        alloc,
        gate,
        &Stays {},
        workers,
        piece,
        program,
        view,
        positions,
    ) {
        Ok(kept) => Ok(kept),
        Err(_) => Err(AllocError),
    }
}

/// The same for an asker.
///
/// # Errors
/// Memory ran out, or the asker went.
pub fn filter_workers_for<R: Threads, G: Gate + Sync, A: Asker>(
    rt: &R,
    alloc: Global,
    gate: &G,
    asker: &A,
    workers: u32,
    piece: u32,
    program: &Program,
    view: &View,
    positions: &[u32],
) -> Result<Vec<u32>, Unanswered>
    requires workers { AreFew workers }
    requires piece { 1 ≤ piece }
    requires within { All (λ i. i < length view.now.records) positions.now }
    requires count { length positions.now ≤ max_records }
    ensures { IfOk result (λ kept. kept.items
        ≡ filter (passes_at (says_yes program.now) view.now.records) positions.now) }
{
    let pieces = Pieces {
        program,
        view,
        positions,
        size: piece,
    };
    let drawn = AtomicU64::new(0);
    let done = drawn_by(rt, alloc, gate, asker, &drawn, &pieces, workers)?;
    collect(alloc, asker, &pieces, done)
}

/// The pieces that so many threads draw and evaluate, this one among them: a list of each thread.
/// Only this one looks whether the asker has gone, so that an asker crosses to no thread.
#[cycle(threads)]
fn drawn_by<R: Threads, G: Gate + Sync, A: Asker>(
    rt: &R,
    alloc: Global,
    gate: &G,
    asker: &A,
    drawn: &AtomicU64,
    pieces: &Pieces<'_>,
    threads: u32,
) -> Result<Vec<Vec<Done>>, AllocError>
    requires { AreSound pieces.now }
    ensures { IfOk result (λ lists. All (λ list. AreRight pieces.now list.items) lists.items) }
{
    if threads <= 1 {
        return Ok(vec![in alloc; work(alloc, gate, asker, drawn, pieces)]?);
    }
    let left = threads - 1;
    let other = || -> Vec<Done>
        requires { AreSound pieces.now }
        ensures { AreRight pieces.entry.now result.items }
    { work(alloc, gate, &Stays {}, drawn, pieces) };
    let this = || -> Result<Vec<Vec<Done>>, AllocError>
        requires { IsSync G.row × AreSound pieces.now × 1 ≤ left }
        ensures { IfOk result (λ lists.
            All (λ list. AreRight pieces.entry.now list.items) lists.items) }
    { drawn_by(rt, alloc, gate, asker, drawn, pieces, left) };
    let (others, mine) = join(rt, other, this);
    let mut lists = mine?;
    lists.push(others)?;
    Ok(lists)
}

/// Draws pieces as long as there are some, and evaluates them. If memory runs out it stops, and
/// leaves its piece to the collector. If the asker goes, no thread draws another one. Nothing rests
/// on the numbers that are drawn.
fn work<G: Gate, A: Asker>(
    alloc: Global,
    gate: &G,
    asker: &A,
    drawn: &AtomicU64,
    pieces: &Pieces<'_>,
) -> Vec<Done>
    requires { AreSound pieces.now }
    ensures { AreRight pieces.now result.items }
{
    let mut all = Vec::new(alloc);
    let count = pieces.count();
    for _ in 0..count {
        let number = drawn.fetch_add(1, Ordering::SeqCst);
        if number >= u64::from(count) {
            break;
        }
        gate.enter(number as u32);
        let done = match pieces.evaluate(alloc, asker, number as u32) {
            Ok(done) => done,
            Err(Unanswered::NoMemory) => break,
            Err(Unanswered::Gone) => {
                drawn.store(u64::from(count), Ordering::SeqCst);
                break;
            }
        };
        if all.push(done).is_err() {
            break;
        }
    }
    all
}
