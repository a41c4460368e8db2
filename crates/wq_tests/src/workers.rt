//! Queries whose files several threads find. The threads run at the same time, and the files are those that one thread
//! finds. A piece that no thread or two threads evaluated changes nothing.
ghost use Rattle.std.specs.Prelude.{◌≤◌};
ghost use Rattle.wq_base.specs.Limit.{AreFew};
ghost use Rattle.wq_eval.specs.Piece.{AreSound};

use crate::tree::file;
use std::alloc::Global;
use std::sync::atomic::{AtomicU64, Ordering};
use std::thread::Threads;
use wq_base::{Asker, Stays};
use wq_compile::compile;
use wq_eval::{Gate, OpenGate, Pieces, collect, filter_workers_for};
use wq_gen::candidates;
use wq_term::{Expr, Generators};
use wq_verify::Program;
use wq_view::{Pass, View, positions_are_there};

/// How often the worker of the first piece looks whether the second piece was begun.
const TURNS: u64 = 1_000_000_000;

/// The names of the files of small trees.
const TWO: &[&[u8]] = &[b"a", b"b"];

const THREE: &[&[u8]] = &[b"a", b"b", b"c"];

const FIVE: &[&[u8]] = &[b"a", b"b", b"c", b"d", b"e"];

/// A gate that holds the worker of the first piece until the second piece is begun.
#[derive(Drop)]
struct FirstPieceGate {
    begun: AtomicU64,
    late: AtomicU64,
}

impl Gate for FirstPieceGate {
    fn enter(&self, piece: u32) {
        if piece > 0 {
            self.begun.store(1, Ordering::SeqCst);
        } else if !has_begun(&self.begun) {
            self.late.store(1, Ordering::SeqCst);
        }
    }
}

/// Whether the second piece was begun before all turns were made.
fn has_begun(begun: &AtomicU64) -> bool {
    for _ in 0..TURNS {
        if begun.load(Ordering::SeqCst) > 0 {
            return true;
        }
    }
    false
}

/// An asker that has gone.
#[derive(Drop)]
struct Gone {}

impl Asker for Gone {
    fn is_gone(&self) -> bool {
        true
    }
}

/// A view of some files, and the program that says yes to each.
#[derive(Drop)]
struct Search {
    view: View,
    program: Program,
}

/// A view of files of these names; none if memory ran out.
fn view_of(alloc: Global, names: &[&[u8]]) -> Option<View> {
    let mut rows = Vec::new(alloc);
    for name in names {
        rows.push(file(alloc, name, 1).ok()?).ok()?;
    }
    let mut view = View::new(alloc);
    view.absorb(&Pass::new(rows, 1).ok()?).ok()?;
    Some(view)
}

/// A view of files of these names, with that program; none if memory ran out.
fn made(alloc: Global, names: &[&[u8]]) -> Option<Search> {
    let view = view_of(alloc, names)?;
    let expr = Expr::True;
    if !expr.fits() {
        return None;
    }
    let program = compile(alloc, &expr).ok()?;
    Some(Search { view, program })
}

/// The generators of a query that has none.
fn no_generators() -> Generators {
    Generators {
        since: None,
        suffix: None,
        path: None,
        glob: None,
    }
}

/// The positions that so many workers keep of files of these names, in pieces of this size.
fn kept<R: Threads + Sync, G: Gate + Sync, A: Asker>(
    rt: &R,
    alloc: Global,
    gate: &G,
    asker: &A,
    workers: u32,
    piece: u32,
    names: &[&[u8]],
) -> Option<Vec<u32>>
    requires workers { AreFew workers }
    requires piece { 1 ≤ piece }
{
    let Search { view, program } = made(alloc, names)?;
    // Only the proof uses the contracts of these calls: each position is one of a record.
    view.len();
    positions_are_there();
    let positions = candidates(alloc, &view, &no_generators()).ok()?;
    filter_workers_for(
        rt, alloc, gate, asker, workers, piece, &program, &view, &positions,
    )
    .ok()
}

/// The positions of five files in three pieces, of which a worker evaluated only the second one.
fn collected(alloc: Global) -> Option<Vec<u32>> {
    let Search { view, program } = made(alloc, FIVE)?;
    view.len();
    positions_are_there();
    let positions = candidates(alloc, &view, &no_generators()).ok()?;
    let pieces = Pieces {
        program: &program,
        view: &view,
        positions: &positions,
        size: 2,
    };
    collected_of(alloc, &pieces)
}

/// The positions of these pieces, of which a worker evaluated the second one twice and no worker the others. The worker
/// also evaluated a piece that does not exist.
fn collected_of(alloc: Global, pieces: &Pieces<'_>) -> Option<Vec<u32>>
    requires { AreSound pieces.now }
{
    let strange = pieces.evaluate(alloc, &Stays {}, 9).ok()?;
    let first = pieces.evaluate(alloc, &Stays {}, 1).ok()?;
    let again = pieces.evaluate(alloc, &Stays {}, 1).ok()?;
    let list = vec![in alloc; strange, first, again].ok()?;
    collect(alloc, &Stays {}, pieces, vec![in alloc; list].ok()?).ok()
}

/// Whether these positions are kept.
fn are(kept: Option<Vec<u32>>, want: &[u32]) -> bool {
    match kept {
        Some(kept) => kept.as_slice() == want,
        None => false,
    }
}

/// Whether so many workers keep three files in pieces of two, and none of none.
fn are_kept<R: Threads + Sync>(rt: &R, alloc: Global, workers: u32) -> bool
    requires { AreFew workers }
{
    are(
        kept(rt, alloc, &OpenGate {}, &Stays {}, workers, 2, THREE),
        &[0, 1, 2],
    ) && are(
        kept(rt, alloc, &OpenGate {}, &Stays {}, workers, 2, &[]),
        &[],
    )
}

#[test]
fn workers_at_once(rt: HostRuntime) {
    let gate = FirstPieceGate {
        begun: AtomicU64::new(0),
        late: AtomicU64::new(0),
    };
    assert!(rt; are(kept(&rt, rt.alloc(), &gate, &Stays {}, 2, 1, TWO), &[0, 1]));
    assert_eq!(rt; gate.late.load(Ordering::SeqCst), 0);
}

#[test]
fn pieces_that_are_lost_or_done_twice_are_each_taken_once(rt: HostRuntime) {
    assert!(rt; are(collected(rt.alloc()), &[0, 1, 2, 3, 4]));
}

#[test]
fn any_number_of_workers_keeps_the_same_files(rt: HostRuntime) {
    assert!(rt; are_kept(&rt, rt.alloc(), 1));
    assert!(rt; are_kept(&rt, rt.alloc(), 2));
    assert!(rt; are_kept(&rt, rt.alloc(), 16));
}

#[test]
fn no_file_is_kept_for_an_asker_that_has_gone(rt: HostRuntime) {
    // Each of both has a piece, so that the one which asks is not too late.
    let gate = FirstPieceGate {
        begun: AtomicU64::new(0),
        late: AtomicU64::new(0),
    };
    let alone = kept(&rt, rt.alloc(), &OpenGate {}, &Gone {}, 1, 2, THREE);
    let both = kept(&rt, rt.alloc(), &gate, &Gone {}, 2, 1, THREE);
    assert!(rt; alone.is_none());
    assert!(rt; both.is_none());
}
