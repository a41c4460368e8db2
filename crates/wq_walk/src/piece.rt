//! The pieces in which a tree is walked: parts of it, each with the records of its last view. Another module walks
//! them.

ghost use Rattle.std.specs.Prelude.{◌≡◌, ◌≤◌, ◌-◌, drop, length, take, IfOk};
ghost use Rattle.wq_view.specs.Records.{records_left};
ghost use Rattle.wq_walk.specs.Part.{whole_part};
ghost use Rattle.wq_walk.specs.Pieces.{IsSharedOut, IsSharedOutBelow, is_behind};
ghost use Rattle.wq_walk.specs.Tiles.{AreTiles, cut_records, piece_records};

use crate::walkers::Walkers;
use std::alloc::{AllocError, Global};
use wq_disk::Part;
use wq_view::{Records, View};

/// The greatest number of pieces. With more pieces threads end closer together, and more directories are read twice.
pub(crate) const MOST_PIECES: usize = 128;

/// The greatest number of pieces for each of a few threads, if there are several.
const PIECES_EACH: usize = 8;

/// The greatest number of pieces for a few threads.
const PIECES_FOR_FEW: usize = 32;

/// The greatest number of pieces for each of many threads. They wait for the disk most of their time.
const PIECES_EACH_OF_MANY: usize = 4;

/// A few threads get a piece for so many records of the last view.
const USUAL: usize = 1000;

/// Many threads get one for so many.
const USUAL_FOR_MANY: usize = 100;

/// With more threads than these they are many.
const FEW_THREADS: usize = 8;

/// A part of a tree, and the records of its last view whose names are in the part.
#[derive(Clone, Copy)]
pub(crate) struct Piece<'a> {
    pub(crate) part: Part<'a>,
    /// The records of the last view, from the first one in the part on.
    pub(crate) records: Records<'a>,
    /// The number of these records that are in the part.
    pub(crate) count: usize,
}

/// Rising names. A tree is cut at some of them.
#[derive(Clone, Copy)]
enum CutNames<'a> {
    /// The names of the tree's last view.
    Last(&'a View),
    /// Some names at the top of a tree that had no view yet.
    First(&'a [Vec<u8>]),
}

impl<'a> CutNames<'a> {
    /// The number of names.
    fn len(self) -> usize
        ensures { length (cut_records self.entry) ≤ result }
    {
        match self {
            CutNames::Last(view) => view.len(),
            CutNames::First(names) => names.len(),
        }
    }

    /// The name at a place, if there is one.
    fn at(self, place: usize) -> Option<&'a [u8]> {
        match self {
            CutNames::Last(view) if place < view.len() => Some(view.get(place).name.as_bytes()),
            CutNames::Last(_) => None,
            CutNames::First(names) => Some(names.get(place)?.as_slice()),
        }
    }

    /// The records of the last view from a place on.
    fn records(self, place: usize) -> Records<'a>
        ensures { records_left result ≡ drop place (cut_records self.entry) }
    {
        match self {
            CutNames::Last(view) => view.records_from(place),
            CutNames::First(_) => Records::none(),
        }
    }

    /// The number of records that the last view has from one place up to another.
    #[tactic(auto, using(crate::proofs::Tiles::none_taken))]
    fn count(self, from: usize, to: usize) -> usize
        ensures { take result (drop from (cut_records self.entry))
            ≡ take (to - from) (drop from (cut_records self.entry)) }
    {
        match self {
            CutNames::Last(_) => to.saturating_sub(from),
            CutNames::First(_) => 0,
        }
    }
}

/// Pieces that were cut off a tree, in the order of names. Each name below the last cut is in exactly one of them, and
/// so is each record up to there.
#[derive(Drop)]
struct Cuts<'a> {
    names: CutNames<'a>,
    pieces: Vec<Piece<'a>>,
    /// The place of the name of the last cut.
    start: usize,
    last: Option<&'a [u8]>,
    ghost shared: { IsSharedOutBelow last pieces.items },
    ghost tiled: { AreTiles (take start (cut_records names)) pieces.items },
}

impl<'a> Cuts<'a> {
    /// A whole tree with these names, with room for so many pieces of it.
    fn new(alloc: Global, most: usize, names: CutNames<'a>) -> Result<Cuts<'a>, AllocError>
        ensures { IfOk result (λ cuts. cuts.names ≡ names.entry) }
    {
        Ok(Cuts {
            names,
            pieces: Vec::with_capacity(alloc, most)?,
            start: 0,
            last: None,
        })
    }

    /// Cuts off the piece below the name at a place, if both are after the last cut.
    fn cut(&mut self, name: &'a [u8], end: usize) -> Result<(), AllocError>
        ensures { self.new.names ≡ self.old.names }
    {
        if end < self.start || !is_behind(name, self.last) {
            return Ok(());
        }
        let piece = self.piece(Some(name), end);
        self.pieces.push(piece)?;
        self.start = end;
        self.last = Some(name);
        Ok(())
    }

    /// All pieces: the ones that were cut off, and the rest of the tree.
    fn with_rest(self) -> Result<Vec<Piece<'a>>, AllocError>
        ensures shared { IfOk result (λ pieces. IsSharedOut pieces.items) }
        ensures tiled { IfOk result
            (λ pieces. AreTiles (cut_records self.entry.names) pieces.items) }
    {
        let piece = self.piece(None, self.names.len());
        let mut pieces = self.pieces;
        pieces.push(piece)?;
        Ok(pieces)
    }

    /// The piece from the last cut on below a name, if there is one, with the records up to a place.
    fn piece(&self, below: Option<&'a [u8]>, end: usize) -> Piece<'a>
        ensures part { result.part ≡ record { from = self.now.last; below = below.entry } }
        ensures records { piece_records result
            ≡ take (end - self.now.start) (drop self.now.start (cut_records self.now.names)) }
    {
        Piece {
            part: Part {
                from: self.last,
                below,
            },
            records: self.names.records(self.start),
            count: self.names.count(self.start, end),
        }
    }
}

/// The whole of a tree with this last view.
pub(crate) fn whole_piece(last: &View) -> Piece<'_>
    ensures part { result.part ≡ whole_part }
    ensures records { piece_records result ≡ last.now.records }
{
    Piece {
        part: Part {
            from: None,
            below: None,
        },
        records: last.records(),
        count: last.len(),
    }
}

/// The greatest number of pieces for so many threads. One thread walks a tree whole, and reads no directory twice.
fn most_pieces(walkers: Walkers) -> usize
    ensures { 1 ≤ result }
{
    if walkers.count == 1 {
        return 1;
    }
    let few = walkers
        .count
        .saturating_mul(PIECES_EACH)
        .min(PIECES_FOR_FEW);
    let many = walkers
        .count
        .saturating_mul(PIECES_EACH_OF_MANY)
        .min(MOST_PIECES);
    few.max(many)
}

/// For how many records of the last view there is a piece, if so many threads walk.
fn usual(walkers: Walkers) -> usize
    ensures { 1 ≤ result }
{
    if walkers.count > FEW_THREADS {
        USUAL_FOR_MANY
    } else {
        USUAL
    }
}

/// The pieces of a tree with this last view, for so many threads, in the order of names. Each name is in exactly one
/// piece, and so is each record.
pub(crate) fn pieces_of(
    alloc: Global,
    walkers: Walkers,
    last: &View,
) -> Result<Vec<Piece<'_>>, AllocError>
    ensures shared { IfOk result (λ pieces. IsSharedOut pieces.items) }
    ensures tiled { IfOk result (λ pieces. AreTiles last.now.records pieces.items) }
{
    let most = (last.len() / usual(walkers)).clamp(1, most_pieces(walkers));
    pieces_cut(alloc, most, CutNames::Last(last))
}

/// The pieces of a tree that had no view yet, for so many threads, cut at some of these names, which rise. Each name is
/// in exactly one piece.
pub(crate) fn first_pieces(
    alloc: Global,
    walkers: Walkers,
    names: &[Vec<u8>],
) -> Result<Vec<Piece<'_>>, AllocError>
    ensures { IfOk result (λ pieces. IsSharedOut pieces.items) }
{
    pieces_cut(alloc, most_pieces(walkers), CutNames::First(names))
}

/// At most so many pieces, in the order of names. The cuts have equal numbers of these names between them.
///
/// No cut is made among the files of the directory in which its piece begins, because the directory would be read once
/// more for it. The cut in the middle is made even so.
fn pieces_cut(alloc: Global, most: usize, names: CutNames<'_>) -> Result<Vec<Piece<'_>>, AllocError>
    requires { 1 ≤ most }
    ensures shared { IfOk result (λ pieces. IsSharedOut pieces.items) }
    ensures tiled { IfOk result (λ pieces. AreTiles (cut_records names.entry) pieces.items) }
{
    let mut cuts = Cuts::new(alloc, most, names)?;
    for number in 1..most {
        let end = names.len().saturating_mul(number) / most;
        let is_middle = number == most / 2;
        if let Some(name) = cut_between(names, cuts.start, end, is_middle) {
            cuts.cut(name, end)?;
        }
    }
    cuts.with_rest()
}

/// The name at the second of two places, if a piece that begins with the name at the first place ends before it. It is
/// in another directory than the piece's first name, or than the name before it.
fn cut_between(names: CutNames<'_>, start: usize, end: usize, is_middle: bool) -> Option<&[u8]> {
    let (first, before) = (names.at(start)?, names.at(end.checked_sub(1)?)?);
    let name = names.at(end)?;
    let here = directory_of(name);
    let is_apart = is_middle || directory_of(first) != here || directory_of(before) != here;
    (end > start && is_apart).then_some(name)
}

/// Whether a name is after a cut. If there is no cut, it is.
fn is_behind(name: &[u8], cut: Option<&[u8]>) -> bool
    ensures { result ≡ is_behind name.now cut.entry }
{
    match cut {
        Some(cut) => cut.cmp(name).is_lt(),
        None => true,
    }
}

/// The name of the directory of a name, or nothing at the top.
fn directory_of(name: &[u8]) -> Option<&[u8]> {
    name.rsplitn(2, |byte| *byte == b'/').nth(1)
}
