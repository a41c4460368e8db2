//! Puts together the positions that workers kept, whichever pieces they evaluated.
ghost use Rattle.std.specs.Prelude.{◌≡◌, ◌++◌, All, IfOk, OnOk, filter};
ghost use Rattle.wq_eval.specs.Piece.{AreRight, AreSound, is_kept, piece_of};

use crate::piece::{Done, Pieces};
use std::alloc::{AllocError, Global};
use wq_base::{Asker, Unanswered};

/// The positions that the program keeps of all pieces, in their order.
///
/// The workers may have evaluated any pieces. This function evaluates a piece that is missing, takes
/// one that is there twice only once, and drops one whose number no piece has.
///
/// # Errors
/// Memory ran out, or the asker went before a missing piece was evaluated.
#[tactic(auto, using(crate::proofs::Whole::next_piece, crate::proofs::Whole::all_pieces))]
pub fn collect<A: Asker>(
    alloc: Global,
    asker: &A,
    pieces: &Pieces<'_>,
    lists: Vec<Vec<Done>>,
) -> Result<Vec<u32>, Unanswered>
    requires sound { AreSound pieces.now }
    requires right { All (λ list. AreRight pieces.now list.items) lists.items }
    ensures { IfOk result (λ kept. kept.items
        ≡ filter (is_kept pieces.now) pieces.now.positions.now) }
{
    let all = in_order(pieces, joined(alloc, pieces, lists)?);
    let mut kept = Vec::new(alloc);
    let mut at = 0;
    for number in 0..pieces.count() {
        at = first_from(&all, at, number);
        append(&mut kept, alloc, asker, pieces, &all, at, number)?;
    }
    Ok(kept)
}

/// The lists as one.
fn joined(
    alloc: Global,
    pieces: &Pieces<'_>,
    lists: Vec<Vec<Done>>,
) -> Result<Vec<Done>, AllocError>
    requires { All (λ list. AreRight pieces.now list.items) lists.items }
    ensures { IfOk result (λ all. AreRight pieces.now all.items) }
{
    let mut all = Vec::new(alloc);
    for list in lists {
        let mut list = list;
        all.append(&mut list)?;
    }
    Ok(all)
}

/// The evaluated pieces, the lowest number first.
#[tactic(auto, using(crate::proofs::Whole::right_in_order))]
fn in_order(pieces: &Pieces<'_>, all: Vec<Done>) -> Vec<Done>
    requires { AreRight pieces.now all.items }
    ensures { AreRight pieces.now result.items }
{
    let mut sorted = all;
    sorted.sort_unstable_by(|a, b| a.number.cmp(&b.number));
    sorted
}

/// The first place from this one on whose piece has no lower number.
fn first_from(all: &[Done], from: usize, number: u32) -> usize {
    for at in from..all.len() {
        if all[at].number >= number {
            return at;
        }
    }
    all.len()
}

/// Appends the positions that the program keeps of the piece of a number. It evaluates that piece if
/// another one, or none, is at this place.
fn append<A: Asker>(
    kept: &mut Vec<u32>,
    alloc: Global,
    asker: &A,
    pieces: &Pieces<'_>,
    all: &[Done],
    at: usize,
    number: u32,
) -> Result<(), Unanswered>
    requires sound { AreSound pieces.now }
    requires right { AreRight pieces.now all.now }
    ensures { OnOk result (kept.new.items ≡ kept.old.items
        ++ filter (is_kept pieces.now) (piece_of pieces.now.size pieces.now.positions.now number)) }
{
    if let Some(done) = all.get(at)
        && done.number == number
    {
        return Ok(kept.extend_from_slice(done.kept.as_slice())?);
    }
    let done = pieces.evaluate(alloc, asker, number)?;
    Ok(kept.extend_from_slice(done.kept.as_slice())?)
}
