//! Pieces of positions, and the evaluation of one.
ghost use Rattle.std.specs.Prelude.{◌≡◌, ◌≤◌, ◌*◌, IfOk, length};
ghost use Rattle.wq_eval.specs.Piece.{AreSound, IsRight, piece_of};

use crate::evaluation::filter_for;
use std::alloc::Global;
use wq_base::{Asker, Unanswered};
use wq_verify::Program;
use wq_view::View;

/// Positions of a view over which a program is run piece by piece.
#[derive(Clone, Copy)]
pub struct Pieces<'a> {
    /// The program.
    pub program: &'a Program,
    /// The view.
    pub view: &'a View,
    /// The positions, each of a record of the view.
    pub positions: &'a [u32],
    /// How many positions a piece has: one or more. The last piece may have fewer.
    pub size: u32,
}

/// A piece that a worker evaluated: its number, and those of its positions that the program keeps.
#[derive(Drop)]
pub struct Done {
    pub(crate) number: u32,
    pub(crate) kept: Vec<u32>,
}

impl<'a> Pieces<'a> {
    /// How many pieces there are.
    pub(crate) fn count(&self) -> u32
        requires { AreSound self.now }
        ensures { length self.now.positions.now ≤ result * self.now.size }
    {
        self.positions.len().div_ceil(self.size as usize) as u32
    }

    /// The positions of the piece of this number: none if there is no such piece.
    pub(crate) fn positions_of(&self, number: u32) -> &'a [u32]
        ensures { result.now ≡ piece_of self.now.size self.now.positions.now number }
    {
        piece_of(self.positions, self.size, number)
    }

    /// Evaluates the piece of this number, unless the asker goes.
    pub fn evaluate<A: Asker>(
        &self,
        alloc: Global,
        asker: &A,
        number: u32,
    ) -> Result<Done, Unanswered>
        requires { AreSound self.now }
        ensures number { IfOk result (λ done. done.number ≡ number) }
        ensures kept { IfOk result (IsRight self.now) }
    {
        let positions = self.positions_of(number);
        let kept = filter_for(alloc, asker, self.program, self.view, positions)?;
        Ok(Done { number, kept })
    }
}

/// The positions of the piece of this number, if a piece has so many: none if there is no such
/// piece. The last one may have fewer.
pub fn piece_of(positions: &[u32], size: u32, number: u32) -> &[u32]
    ensures { result.now ≡ piece_of size positions.now number }
{
    let start = (number as usize) * (size as usize);
    let Some((_, rest)) = positions.split_at_checked(start) else {
        return &[];
    };
    match rest.split_at_checked(size as usize) {
        Some((piece, _)) => piece,
        None => rest,
    }
}
