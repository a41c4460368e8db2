//! A listing of a tree, from pieces of it. Another module has threads walk the pieces.
ghost use Rattle.std.specs.Prelude.{◌≡◌, false, ◌+◌, ◌≤◌, ◌<◌, ◌++◌, length, IfErr, IfOk, IsTrue};
ghost use Rattle.std.specs.List.{list_all};
ghost use Rattle.wq_patch.specs.declared.tree.TreeFault.TheVariants.{TooManyRows};
ghost use Rattle.wq_patch.specs.Tree.{ListingFits, is_of_device, rows_listed};
ghost use Rattle.wq_view.specs.Limit.{max_listing_rows};
ghost use Rattle.wq_view.specs.Patch.{patched};
ghost use Rattle.wq_record.specs.Seen.{is_lawful_row};
ghost use Rattle.wq_walk.specs.Listed.{AreWalks, IsListed, IsRooted, IsUnread, IsWalked, piece_parts};
ghost use Rattle.wq_walk.specs.Listed.{records_of_pieces, walked_pieces, walked_rows};
ghost use Rattle.wq_walk.specs.Tiles.{AreTiles};
ghost use Rattle.wq_disk.specs.Told.{HasStat, IsRootFault};

use crate::guess::names_at_top;
use crate::piece::{Piece, first_pieces, pieces_of};
use crate::progress::Progress;
use crate::rows::Rows;
use crate::walkers::Walkers;
use crate::walks::Walks;
use std::alloc::{AllocError, Global};
use std::thread::Threads;
use std::time::{Clock, CpuClock};
use wq_disk::{Disk, with_slash};
use wq_patch::{Listing, TreeFault, patched_rows, simplified};
use wq_view::{MAX_LISTING_ROWS, Patch, Seen, View};

/// The rows of the files below a root that was not listed before.
pub(crate) fn first_rows<T: Threads, C: Clock + CpuClock + Sync, D: Disk + Sync>(
    threads: &T,
    clocks: &C,
    walkers: Walkers,
    progress: &Progress<'_>,
    disk: &D,
    alloc: Global,
    root: &str,
) -> Result<Vec<Seen>, TreeFault>
    ensures lawful { IfOk result (λ rows. IsTrue (list_all is_lawful_row rows.items)) }
    ensures few { IfOk result (λ rows. length rows.items ≤ max_listing_rows) }
    ensures listed { IfOk result (λ rows.
        IsListed (D.says disk.now) (D.has disk.now) root.now rows.items) }
    ensures rooted { IfOk result (λ _. IsRooted (D.says disk.now) root.now) }
    ensures fault { IfErr result
        (IsUnread (D.says disk.now) (D.has disk.now) (D.fails disk.now) root.now) }
{
    let path = with_slash(alloc, root)?;
    let names = names_at_top(disk, progress, alloc, &path)?;
    let pieces = first_pieces(alloc, walkers, &names)?;
    rows_of(
        threads, clocks, walkers, progress, disk, alloc, &path, &pieces,
    )
}

/// The listing of the files below a root with this last view. Rows that are made share the names of its records.
pub(crate) fn rows_again<T: Threads, C: Clock + CpuClock + Sync, D: Disk + Sync>(
    threads: &T,
    clocks: &C,
    walkers: Walkers,
    progress: &Progress<'_>,
    disk: &D,
    alloc: Global,
    root: &str,
    last: &View,
) -> Result<Listing, TreeFault>
    ensures lawful { IfOk result (λ listing.
        IsTrue (list_all is_lawful_row (rows_listed last.now.records listing))) }
    ensures few { IfOk result (λ listing.
        length (rows_listed last.now.records listing) ≤ max_listing_rows) }
    ensures fit { IfOk result (ListingFits last.now.records) }
    ensures listed { IfOk result (λ listing. IsListed (D.says disk.now) (D.has disk.now) root.now
        (rows_listed last.now.records listing)) }
    ensures rooted { IfOk result (λ _. IsRooted (D.says disk.now) root.now) }
    ensures fault { IfErr result
        (IsUnread (D.says disk.now) (D.has disk.now) (D.fails disk.now) root.now) }
{
    let path = with_slash(alloc, root)?;
    let pieces = pieces_of(alloc, walkers, last)?;
    let walked = walked(
        threads, clocks, walkers, progress, disk, alloc, &path, &pieces,
    )?;
    listing_of(alloc, last, walked)
}

/// The rows of the files below a root, from these pieces of its tree. The root's path ends in a slash.
fn rows_of<T: Threads, C: Clock + CpuClock + Sync, D: Disk + Sync>(
    threads: &T,
    clocks: &C,
    walkers: Walkers,
    progress: &Progress<'_>,
    disk: &D,
    alloc: Global,
    root: &str,
    pieces: &[Piece<'_>],
) -> Result<Vec<Seen>, TreeFault>
    ensures lawful { IfOk result (λ rows. IsTrue (list_all is_lawful_row rows.items)) }
    ensures few { IfOk result (λ rows. length rows.items ≤ max_listing_rows) }
    ensures walked { IfOk result (λ rows.
        IsWalked (D.says disk.now) (D.has disk.now) root.now (piece_parts pieces.now) rows.items) }
    ensures rooted { IfOk result (λ _. HasStat (D.says disk.now) root.now) }
    ensures fault { IfErr result
        (IsRootFault (D.says disk.now) (D.has disk.now) (D.fails disk.now) root.now) }
{
    let walked = walked(
        threads, clocks, walkers, progress, disk, alloc, root, pieces,
    )?;
    joined(alloc, walked)
}

/// The rows of walks of these pieces of the tree below a root, piece by piece. The root's path ends in a slash.
///
/// If the root is deleted during the walk, the listing fails because the root cannot be read. Nothing is known then of
/// the files that the walk has not looked at.
fn walked<'a, T: Threads, C: Clock + CpuClock + Sync, D: Disk + Sync>(
    threads: &T,
    clocks: &C,
    walkers: Walkers,
    progress: &Progress<'_>,
    disk: &D,
    alloc: Global,
    root: &str,
    pieces: &[Piece<'a>],
) -> Result<Vec<Rows<'a>>, TreeFault>
    ensures walks { IfOk result (λ walked.
        AreWalks (D.says disk.now) (D.has disk.now) root.now walked.items) }
    ensures pieces { IfOk result (λ walked. walked_pieces walked.items ≡ pieces.now) }
    ensures rooted { IfOk result (λ _. HasStat (D.says disk.now) root.now) }
    ensures fault { IfErr result
        (IsRootFault (D.says disk.now) (D.has disk.now) (D.fails disk.now) root.now) }
{
    let walks = Walks {
        disk,
        alloc,
        root,
        pieces,
        progress,
    };
    let walked = walks.all(threads, clocks, walkers)?;
    match disk.stat(root)? {
        Some(_) => Ok(walked),
        None => Err(TreeFault::Unreadable),
    }
}

/// The listing of a root with this last view, from walks of its pieces.
fn listing_of(alloc: Global, last: &View, walked: Vec<Rows<'_>>) -> Result<Listing, TreeFault>
    requires { AreTiles last.now.records (walked_pieces walked.items) }
    ensures all { IfOk result (λ listing.
        rows_listed last.now.records listing ≡ walked_rows walked.entry.items) }
    ensures lawful { IfOk result (λ listing.
        IsTrue (list_all is_lawful_row (rows_listed last.now.records listing))) }
    ensures few { IfOk result (λ listing.
        length (rows_listed last.now.records listing) ≤ max_listing_rows) }
    ensures fit { IfOk result (ListingFits last.now.records) }
    ensures fault { IfErr result (λ fault. is_of_device fault ≡ false) }
{
    if !are_few(&walked) {
        return Err(TreeFault::TooManyRows);
    }
    let patches = patches_of(alloc, walked)?;
    Ok(patched_listing(alloc, last, patches)?)
}

/// The listing with these patches of a view's records. It has rows of all files if the patches do not fit the view. They
/// may not fit if the tree changed meanwhile.
pub(crate) fn patched_listing(
    alloc: Global,
    last: &View,
    patches: Vec<Patch>,
) -> Result<Listing, AllocError>
    ensures all { IfOk result (λ listing. rows_listed last.now.records listing
        ≡ patched last.now.records patches.items) }
    ensures fit { IfOk result (ListingFits last.now.records) }
{
    let patches = simplified(alloc, patches)?;
    if last.fits(&patches) {
        return Ok(Listing::Patches(patches));
    }
    let rows = patched_rows(alloc, last.records(), patches)?;
    Ok(Listing::Rows(rows))
}

/// Whether a pass takes so many files.
fn are_few(walked: &[Rows<'_>]) -> bool
    ensures { IsTrue result → length (walked_rows walked.now) ≤ max_listing_rows }
{
    let mut count = 0usize;
    for rows in walked {
        count += rows.len();
        if count > MAX_LISTING_ROWS {
            return false;
        }
    }
    true
}

/// The patches of all pieces, one piece after the other.
fn patches_of(alloc: Global, pieces: Vec<Rows<'_>>) -> Result<Vec<Patch>, AllocError>
    ensures { IfOk result (λ patches.
        patched (records_of_pieces pieces.entry.items) patches.items
        ≡ walked_rows pieces.entry.items) }
{
    let mut patches = Vec::new(alloc);
    let mut kept = 0;
    for rows in pieces {
        kept = rows.put(kept, &mut patches)?;
    }
    Ok(patches)
}

/// The rows of these pieces, one piece after the other. The memory of a piece is freed as soon as its rows are added.
fn joined(alloc: Global, pieces: Vec<Rows<'_>>) -> Result<Vec<Seen>, TreeFault>
    ensures all { IfOk result (λ rows. rows.items ≡ walked_rows pieces.entry.items) }
    ensures many { IfErr result (λ fault. fault ≡ TooManyRows
        → max_listing_rows < length (walked_rows pieces.entry.items)) }
    ensures fault { IfErr result (λ fault. is_of_device fault ≡ false) }
    ensures lawful { IfOk result (λ rows. IsTrue (list_all is_lawful_row rows.items)) }
    ensures few { IfOk result (λ rows. length rows.items ≤ max_listing_rows) }
{
    let mut rows = Vec::with_capacity(alloc, count_of(&pieces))?;
    for piece in pieces {
        let more = piece.into_rows(alloc)?;
        rows = with_rows(rows, more)?;
    }
    Ok(rows)
}

/// The number of rows in all pieces.
fn count_of(pieces: &[Rows<'_>]) -> usize {
    let mut count = 0usize;
    for rows in pieces {
        count = count.saturating_add(rows.len());
    }
    count
}

/// Rows, and other rows after them.
#[tactic(auto, using(crate::proofs::Joins::all_of_both))]
fn with_rows(mut first: Vec<Seen>, mut rest: Vec<Seen>) -> Result<Vec<Seen>, TreeFault>
    requires lawful { IsTrue (list_all is_lawful_row first.items)
        × IsTrue (list_all is_lawful_row rest.items) }
    requires few { (length first.items ≤ max_listing_rows)
        × (length rest.items ≤ max_listing_rows) }
    ensures all { IfOk result (λ rows. rows.items ≡ first.items ++ rest.items) }
    ensures many { IfErr result (λ fault. fault ≡ TooManyRows
        → max_listing_rows < length first.items + length rest.items) }
    ensures fault { IfErr result (λ fault. is_of_device fault ≡ false) }
    ensures lawful { IfOk result (λ rows. IsTrue (list_all is_lawful_row rows.items)) }
    ensures few { IfOk result (λ rows. length rows.items ≤ max_listing_rows) }
{
    if first.len() + rest.len() > MAX_LISTING_ROWS {
        return Err(TreeFault::TooManyRows);
    }
    first.append(&mut rest).map_err(AllocError::from)?;
    Ok(first)
}
