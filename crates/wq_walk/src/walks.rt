//! The walks of the pieces of a tree, by several threads. Another module walks a piece.
ghost use Rattle.std.specs.Prelude.{◌≡◌, ◌<◌, ◌≤◌, IfErr, IfOk, IfSome, get_or, length};
ghost use Rattle.std.specs.Thread.{IsSync};
ghost use Rattle.wq_walk.specs.declared.walks.Walked.{Walked};
ghost use Rattle.wq_walk.specs.Listed.{AreOfPieces, AreWalks, IsDrawn, IsWalkOfPiece, walked_pieces};
ghost use Rattle.wq_disk.specs.Told.{IsRootFault};

use crate::piece::Piece;
use crate::progress::Progress;
use crate::rows::Rows;
use crate::spent::{Beginning, spent_since};
use crate::walk::rows_in;
use crate::walkers::Walkers;
use std::alloc::{AllocError, Global};
use std::thread::{Threads, join};
use std::time::{Clock, CpuClock};
use wq_disk::Disk;
use wq_patch::TreeFault;

/// Pieces of a tree that threads walk.
#[derive(Clone, Copy)]
pub(crate) struct Walks<'a, 'p, D: Disk> {
    pub(crate) disk: &'p D,
    pub(crate) alloc: Global,
    /// The path of the root, which ends in a slash.
    pub(crate) root: &'p str,
    pub(crate) pieces: &'p [Piece<'a>],
    pub(crate) progress: &'p Progress<'p>,
}

/// The rows of the piece at a place among the pieces.
#[derive(Drop)]
pub(crate) struct Walked<'a> {
    place: usize,
    rows: Rows<'a>,
}

impl<'a, D: Disk + Sync> Walks<'a, '_, D> {
    /// The rows of each piece, in the order of the pieces. Up to so many threads walk them: each
    /// draws the next piece as long as there is one. If the walk of a piece fails, the threads draw
    /// no more.
    #[tactic(auto, unfolding(crate::specs::Listed::IsDrawn))]
    pub(crate) fn all<T: Threads, C: Clock + CpuClock + Sync>(
        &self,
        threads: &T,
        clocks: &C,
        walkers: Walkers,
    ) -> Result<Vec<Rows<'a>>, TreeFault>
        ensures walks { IfOk result (λ walked.
            AreWalks (D.says self.now.disk.now) (D.has self.now.disk.now) self.now.root.now
            walked.items) }
        ensures pieces { IfOk result (λ walked. walked_pieces walked.items ≡ self.now.pieces.now) }
        ensures fault { IfErr result (IsRootFault (D.says self.now.disk.now)
            (D.has self.now.disk.now) (D.fails self.now.disk.now) self.now.root.now) }
    {
        let count = self.pieces.len().min(walkers.count);
        let walked = self.drawn_by(threads, clocks, count)?;
        self.in_order(walked)
    }

    /// The pieces that so many threads drew, this one among them, unless the walk of one failed.
    #[cycle(threads)]
    fn drawn_by<T: Threads, C: Clock + CpuClock + Sync>(
        &self,
        threads: &T,
        clocks: &C,
        count: usize,
    ) -> Result<Vec<Walked<'a>>, TreeFault>
        ensures { IsDrawn (D.says self.now.disk.now) (D.has self.now.disk.now)
            (D.fails self.now.disk.now) self.now.root.now self.now.pieces.now result }
    {
        if count <= 1 {
            return self.drawn_here(clocks);
        }
        let left = count - 1;
        let other = || -> Result<Vec<Walked<'_>>, TreeFault>
            ensures { IsDrawn (D.says self.entry.now.disk.now) (D.has self.entry.now.disk.now)
                (D.fails self.entry.now.disk.now) self.entry.now.root.now
                self.entry.now.pieces.now result }
        { self.drawn_beside(clocks) };
        let this = || -> Result<Vec<Walked<'_>>, TreeFault>
            requires { IsSync D.row × IsSync C.row × 1 ≤ left }
            ensures { IsDrawn (D.says self.entry.now.disk.now) (D.has self.entry.now.disk.now)
                (D.fails self.entry.now.disk.now) self.entry.now.root.now
                self.entry.now.pieces.now result }
        { self.drawn_by(threads, clocks, left) };
        let (others, mine) = join(threads, other, this);
        self.both(others, mine)
    }
}

impl<'a, D: Disk> Walks<'a, '_, D> {
    /// Draws pieces as the thread that asked, and counts what it spends on them.
    fn drawn_here<C: Clock + CpuClock>(&self, clocks: &C) -> Result<Vec<Walked<'a>>, TreeFault>
        ensures { IsDrawn (D.says self.now.disk.now) (D.has self.now.disk.now)
            (D.fails self.now.disk.now) self.now.root.now self.now.pieces.now result }
    {
        let began = Beginning::now(clocks);
        let drawn = self.drawn();
        self.progress.add_own(spent_since(began, clocks));
        drawn
    }

    /// Draws pieces as another thread, and counts what it spends on them.
    fn drawn_beside<C: Clock + CpuClock>(&self, clocks: &C) -> Result<Vec<Walked<'a>>, TreeFault>
        ensures { IsDrawn (D.says self.now.disk.now) (D.has self.now.disk.now)
            (D.fails self.now.disk.now) self.now.root.now self.now.pieces.now result }
    {
        let began = Beginning::now(clocks);
        let drawn = self.drawn();
        self.progress.add_help(spent_since(began, clocks));
        drawn
    }

    /// Draws pieces as long as there are some, and walks them. Nothing rests on the places that are
    /// drawn.
    #[tactic(auto, unfolding(crate::specs::Listed::IsDrawn), using(crate::proofs::Drawn::none, crate::proofs::Drawn::pushed))]
    fn drawn(&self) -> Result<Vec<Walked<'a>>, TreeFault>
        ensures { IsDrawn (D.says self.now.disk.now) (D.has self.now.disk.now)
            (D.fails self.now.disk.now) self.now.root.now self.now.pieces.now result }
    {
        let mut list = Vec::new(self.alloc);
        for _ in self.pieces {
            let place = self.progress.draw();
            if place >= self.pieces.len() {
                break;
            }
            let rows = self.walk(place)?;
            list.push(Walked { place, rows }).map_err(AllocError::from)?;
        }
        Ok(list)
    }

    /// Walks the piece at a place. If that fails, no more pieces are drawn.
    #[tactic(auto, unfolding(crate::specs::Listed::IsWalkOfPiece))]
    fn walk(&self, place: usize) -> Result<Rows<'a>, TreeFault>
        requires { place < length self.now.pieces.now }
        ensures walked { IfOk result (IsWalkOfPiece (D.says self.now.disk.now)
            (D.has self.now.disk.now) self.now.root.now self.now.pieces.now place) }
        ensures fault { IfErr result (IsRootFault (D.says self.now.disk.now)
            (D.has self.now.disk.now) (D.fails self.now.disk.now) self.now.root.now) }
    {
        let piece = self.pieces[place];
        let rows = rows_in(self.disk, self.alloc, self.root, piece, self.progress);
        if rows.is_err() {
            self.progress.stop();
        }
        rows
    }

    /// The pieces that two threads drew, unless the walk of a piece failed.
    #[tactic(auto, unfolding(crate::specs::Listed::IsDrawn), using(crate::proofs::Drawn::both))]
    fn both(
        &self,
        list: Result<Vec<Walked<'a>>, TreeFault>,
        other: Result<Vec<Walked<'a>>, TreeFault>,
    ) -> Result<Vec<Walked<'a>>, TreeFault>
        requires list { IsDrawn (D.says self.now.disk.now) (D.has self.now.disk.now)
            (D.fails self.now.disk.now) self.now.root.now self.now.pieces.now list }
        requires other { IsDrawn (D.says self.now.disk.now) (D.has self.now.disk.now)
            (D.fails self.now.disk.now) self.now.root.now self.now.pieces.now other }
        ensures { IsDrawn (D.says self.now.disk.now) (D.has self.now.disk.now)
            (D.fails self.now.disk.now) self.now.root.now self.now.pieces.now result }
    {
        let mut all = list?;
        let mut rest = other?;
        all.append(&mut rest)?;
        Ok(all)
    }

    /// The rows of each piece, in the order of the pieces.
    fn in_order(&self, walked: Vec<Walked<'a>>) -> Result<Vec<Rows<'a>>, TreeFault>
        requires { AreOfPieces (D.says self.now.disk.now)
            (D.has self.now.disk.now) self.now.root.now self.now.pieces.now walked.items }
        ensures walks { IfOk result (λ walked.
            AreWalks (D.says self.now.disk.now) (D.has self.now.disk.now) self.now.root.now
            walked.items) }
        ensures pieces { IfOk result (λ walked. walked_pieces walked.items ≡ self.now.pieces.now) }
        ensures fault { IfErr result (IsRootFault (D.says self.now.disk.now)
            (D.has self.now.disk.now) (D.fails self.now.disk.now) self.now.root.now) }
    {
        let mut left = walked;
        let mut all = Vec::with_capacity(self.alloc, self.pieces.len())?;
        for place in 0..self.pieces.len() {
            let rows = self.rows_at(&mut left, place)?;
            all.push(rows).map_err(AllocError::from)?;
        }
        Ok(all)
    }

    /// The rows of the piece at a place, taken out of those that were walked. If they are not among
    /// them, the piece is walked here.
    fn rows_at(&self, left: &mut Vec<Walked<'a>>, place: usize) -> Result<Rows<'a>, TreeFault>
        requires place { place < length self.now.pieces.now }
        requires left { AreOfPieces (D.says self.now.disk.now)
            (D.has self.now.disk.now) self.now.root.now self.now.pieces.now left.old.items }
        ensures left { AreOfPieces (D.says self.now.disk.now)
            (D.has self.now.disk.now) self.now.root.now self.now.pieces.now left.new.items }
        ensures walked { IfOk result (IsWalkOfPiece (D.says self.now.disk.now)
            (D.has self.now.disk.now) self.now.root.now self.now.pieces.now place) }
        ensures fault { IfErr result (IsRootFault (D.says self.now.disk.now)
            (D.has self.now.disk.now) (D.fails self.now.disk.now) self.now.root.now) }
    {
        match self.taken(left, place) {
            Some(rows) => Ok(rows),
            None => self.walk(place),
        }
    }

    /// Takes the rows of the piece at a place out of those that were walked, if they are there.
    #[tactic(auto, using(crate::proofs::Drawn::without, crate::proofs::Drawn::walked_at))]
    fn taken(&self, left: &mut Vec<Walked<'a>>, place: usize) -> Option<Rows<'a>>
        requires { AreOfPieces (D.says self.now.disk.now)
            (D.has self.now.disk.now) self.now.root.now self.now.pieces.now left.old.items }
        ensures left { AreOfPieces (D.says self.now.disk.now)
            (D.has self.now.disk.now) self.now.root.now self.now.pieces.now left.new.items }
        ensures rows { IfSome result (IsWalkOfPiece (D.says self.now.disk.now)
            (D.has self.now.disk.now) self.now.root.now self.now.pieces.now place) }
    {
        let at = place_among(left, place)?;
        Some(left.remove(at).rows)
    }
}

/// The index of the rows of the piece at a place, if there are any.
fn place_among(walked: &[Walked<'_>], place: usize) -> Option<usize>
    ensures { IfSome result (λ at. (at < length walked.now)
        × ((d : Walked) → (get_or walked.now at d).place ≡ place)) }
{
    walked.iter().position(|it| it.place == place)
}
