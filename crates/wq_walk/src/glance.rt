//! A glance at a tree that has a view: a walk that enters only some directories, and keeps what the view has below the
//! others. Another crate finds the directories in which something changed lately, and another module those whose own
//! rows changed.
ghost use Rattle.std.specs.Prelude.{◌≡◌, ◌-◌, ◌≤◌, ◌++◌, [], false, ℕ, drop, length, nat_le, nat_lt, take, ◌&&◌};
ghost use Rattle.std.specs.Prelude.{IfErr, IfOk, IfSome, IsTrue, OnOk};
ghost use Rattle.std.specs.List.{list_all};
ghost use Rattle.wq_patch.specs.Tree.{ListingFits, is_of_device, rows_listed};
ghost use Rattle.wq_view.specs.SeenRows.{seen_rows};
ghost use Rattle.wq_view.specs.Below.{is_below};
ghost use Rattle.wq_view.specs.Limit.{max_listing_rows};
ghost use Rattle.wq_view.specs.Position.{passes_at};
ghost use Rattle.wq_patch.specs.Recent.{is_one_of_names};
ghost use Rattle.wq_record.specs.Seen.{is_lawful_row};
ghost use Rattle.wq_record.specs.declared.kind.Kind.TheVariants.{Dir};
ghost use Rattle.wq_disk.specs.Directory.{IsDone, data_of};
ghost use Rattle.wq_walk.specs.State.{walk_of};
ghost use Rattle.wq_walk.specs.Found.{found_rows};
ghost use Rattle.wq_walk.specs.Accounts.{IsOneOf};
ghost use Rattle.wq_walk.specs.Glance.{GlanceEnds, IsGlance, IsGlanceStep, IsGlancedAt};
ghost use Rattle.wq_walk.specs.Glance.{IsUnchanged, ListAll, ListsAt};
ghost use Rattle.wq_walk.specs.Listed.{IsRooted, IsUnread};
ghost use Rattle.wq_walk.specs.Part.{whole_part};
ghost use Rattle.wq_walk.specs.Tiles.{piece_records};
ghost use Rattle.wq_disk.specs.Told.{HasStat, IsFailure, IsRootFault};
ghost use Rattle.wq_walk.specs.Walk.{name_of_path, row_with_stat};

use crate::listing::patched_listing;
use crate::piece::whole_piece;
use crate::progress::Progress;
use crate::rows::Rows;
use crate::spent::{Beginning, spent_since};
use crate::sweep::{changed_directories, is_as};
use crate::walk::Walk;
use crate::walkers::Walkers;
use std::alloc::{AllocError, Global};
use std::str;
use std::thread::Threads;
use std::time::{Clock, CpuClock};
use wq_disk::{Directory, Disk, Stat, Step, with_slash};
use wq_patch::{Listing, Reach, Recent, TreeFault, existing_rows};
use wq_view::{Kind, Record, View};

/// A glance that has not ended yet.
#[derive(Drop)]
struct Glance<'a, 'p> {
    walk: Walk<'a, 'p>,
    last: &'a View,
    recent: &'p Recent<'a>,
    /// The names of the directories that were not as the last view has them before the glance began, and of those above
    /// them, rising, if the glance looks so far.
    swept: Vec<&'a [u8]>,
    /// The places of the records of directories that the glance listed just as these records say. They rise if the tree
    /// does not change meanwhile.
    unchanged: Vec<usize>,
    ghost part: { walk.rows.piece.part ≡ whole_part },
    ghost whole: { piece_records walk.rows.piece ≡ last.now.records },
}

/// The listing of a glance at the files below a root with this last view. It enters a directory if it is recent, if the
/// view has no such directory that exists, or if its row is not as its record says. It looks at the row of each
/// directory in one that it enters, and, if it looks so far, at the rows of all directories, by up to so many threads.
pub(crate) fn glanced<'a, T: Threads, C: Clock + CpuClock + Sync, D: Disk + Sync>(
    threads: &T,
    clocks: &C,
    walkers: Walkers,
    progress: &Progress<'_>,
    disk: &D,
    alloc: Global,
    root: &str,
    last: &'a View,
    recent: &Recent<'a>,
) -> Result<Listing, TreeFault>
    ensures lawful { IfOk result (λ listing.
        IsTrue (list_all is_lawful_row (rows_listed last.now.records listing))) }
    ensures few { IfOk result (λ listing.
        length (rows_listed last.now.records listing) ≤ max_listing_rows) }
    ensures fit { IfOk result (ListingFits last.now.records) }
    ensures glance { IfOk result (λ listing. IsGlancedAt (D.says disk.now) (D.has disk.now)
        last.now.records recent.now root.now (rows_listed last.now.records listing)) }
    ensures rooted { IfOk result (λ _. IsRooted (D.says disk.now) root.now) }
    ensures fault { IfErr result
        (IsUnread (D.says disk.now) (D.has disk.now) (D.fails disk.now) root.now) }
{
    let path = with_slash(alloc, root)?;
    let swept = match recent.reach() {
        Reach::Recent => Vec::new(alloc),
        Reach::Changed => {
            changed_directories(threads, clocks, walkers, progress, disk, alloc, &path, last)?
        }
    };
    let began = Beginning::now(clocks);
    let rows = rows_seen(progress, disk, alloc, &path, last, recent, swept)?;
    progress.add_own(spent_since(began, clocks));
    listing_of(alloc, last, rows)
}

/// The rows of a glance at the files below a root with this last view. It enters the directories of these rising names
/// too. The root's path ends in a slash.
///
/// If the root is deleted meanwhile, the glance fails because the root cannot be read.
fn rows_seen<'a, D: Disk>(
    progress: &Progress<'_>,
    disk: &D,
    alloc: Global,
    root: &str,
    last: &'a View,
    recent: &Recent<'a>,
    swept: Vec<&'a [u8]>,
) -> Result<Rows<'a>, TreeFault>
    ensures whole { IfOk result (λ rows. piece_records rows.piece ≡ last.now.records) }
    ensures glance { IfOk result (λ rows.
        IsGlance (D.says disk.now) (D.has disk.now) last.now.records recent.now root.now
        (found_rows rows.found)) }
    ensures rooted { IfOk result (λ _. HasStat (D.says disk.now) root.now) }
    ensures fault { IfErr result
        (IsRootFault (D.says disk.now) (D.has disk.now) (D.fails disk.now) root.now) }
{
    let (walk, top) = Walk::begin(disk, alloc, root, whole_piece(last), progress)?;
    let mut glance = Glance {
        walk,
        last,
        recent,
        swept,
        unchanged: Vec::new(alloc),
    };
    glance.run(disk, top)?;
    let Glance { walk, .. } = glance;
    match disk.stat(root)? {
        Some(_) => {
            let mut rows = walk.rows;
            rows.finish()?;
            Ok(rows)
        }
        None => Err(TreeFault::Unreadable),
    }
}

/// The listing of what a glance at a root with this last view found.
fn listing_of(alloc: Global, last: &View, rows: Rows<'_>) -> Result<Listing, TreeFault>
    requires { piece_records rows.piece ≡ last.now.records }
    ensures all { IfOk result (λ listing.
        rows_listed last.now.records listing ≡ found_rows rows.entry.found) }
    ensures lawful { IfOk result (λ listing.
        IsTrue (list_all is_lawful_row (rows_listed last.now.records listing))) }
    ensures few { IfOk result (λ listing.
        length (rows_listed last.now.records listing) ≤ max_listing_rows) }
    ensures fit { IfOk result (ListingFits last.now.records) }
    ensures fault { IfErr result (λ fault. is_of_device fault ≡ false) }
{
    let mut patches = Vec::new(alloc);
    rows.put(0, &mut patches)?;
    Ok(patched_listing(alloc, last, patches)?)
}

impl<'a> Glance<'a, '_> {
    /// Continues from a directory to the end.
    fn run<D: Disk>(&mut self, disk: &D, mut here: Directory) -> Result<(), TreeFault>
        requires { ListAll self.old.last.now.records (found_rows self.old.walk.rows.found)
            self.old.unchanged.items }
        ensures last { self.new.last.now ≡ self.old.last.now }
        ensures recent { self.new.recent.now ≡ self.old.recent.now }
        ensures ends { OnOk result (GlanceEnds (D.says disk.now) (D.has disk.now)
            self.old.last.now.records self.old.recent.now self.old.walk.path.root_len
            (walk_of self.old.walk.above.items here self.old.walk.rows)
            (found_rows self.new.walk.rows.found)) }
        ensures fault { IfErr result (IsFailure (D.fails disk.now)) }
    {
        for _ in 0..u64::MAX {
            if !self.take(disk, &mut here)? {
                return Ok(());
            }
        }
        // No tree needs so many steps.
        Err(TreeFault::TooManyRows)
    }

    /// Does the next step in the directory in which the glance is, and returns whether there was one.
    fn take<D: Disk>(&mut self, disk: &D, here: &mut Directory) -> Result<bool, TreeFault>
        requires { ListAll self.old.last.now.records (found_rows self.old.walk.rows.found)
            self.old.unchanged.items }
        ensures unchanged { OnOk result (ListAll self.old.last.now.records
            (found_rows self.new.walk.rows.found) self.new.unchanged.items) }
        ensures last { self.new.last.now ≡ self.old.last.now }
        ensures recent { self.new.recent.now ≡ self.old.recent.now }
        ensures root { self.new.walk.path.root_len ≡ self.old.walk.path.root_len }
        ensures goes { IfOk result (λ goes. IsTrue goes → IsGlanceStep (D.says disk.now)
            (D.has disk.now) self.old.last.now.records self.old.recent.now
            self.old.walk.path.root_len
            (walk_of self.old.walk.above.items here.old self.old.walk.rows)
            (walk_of self.new.walk.above.items here.new self.new.walk.rows)) }
        ensures ends { IfOk result (λ goes. goes ≡ false → IsDone (data_of here.new)
            × (walk_of self.new.walk.above.items here.new self.new.walk.rows
            ≡ walk_of self.old.walk.above.items here.old self.old.walk.rows)
            × (self.new.walk.above.items ≡ [])) }
        ensures fault { IfErr result (IsFailure (D.fails disk.now)) }
    {
        self.walk.progress.keep_on()?;
        match here.step() {
            Step::Look(name) => {
                if let Some(stat) = self.walk.look(disk, here, name)? {
                    self.note_directory(&stat)?;
                }
            }
            Step::Enter(name) => {
                self.walk.path.set(here.path(), here.name(name))?;
                match self.range_kept() {
                    Some((start, end)) => self.keep(start, end)?,
                    None => self.walk.enter(disk, here, name)?,
                }
            }
            Step::Leave => match self.walk.above.pop() {
                Some(above) => *here = above,
                None => return Ok(false),
            },
        }
        Ok(true)
    }

    /// The range of the positions of the records below the directory at the path, if the glance does not enter it.
    fn range_kept(&self) -> Option<(usize, usize)>
        requires { ListAll self.now.last.now.records (found_rows self.now.walk.rows.found)
            self.now.unchanged.items }
        ensures unchanged { IfSome result (λ _. IsUnchanged self.now.last.now.records
            (found_rows self.now.walk.rows.found)
            (name_of_path self.now.walk.path.root_len self.now.walk.path.bytes)) }
        ensures unasked { IfSome result (λ _. is_one_of_names self.now.recent.now
            (name_of_path self.now.walk.path.root_len self.now.walk.path.bytes) ≡ false) }
        ensures range { IfSome result (λ range. (i : ℕ) → passes_at (is_below
            (name_of_path self.now.walk.path.root_len self.now.walk.path.bytes))
            self.now.last.now.records i ≡ (nat_le range.0 i && nat_lt i range.1)) }
    {
        let name = str::from_utf8(self.walk.path.name()).ok()?;
        if self.recent.has(name.as_bytes()) || self.swept.binary_search(&name.as_bytes()).is_ok() {
            return None;
        }
        let at = self.last.find(name)?;
        if !self.is_unchanged(at) || !is_directory(self.last.get(at)) {
            return None;
        }
        Some(self.last.below(name))
    }

    /// Keeps the files of the view's records from one place up to another, so that they are listed as the view has them.
    fn keep(&mut self, start: usize, end: usize) -> Result<(), TreeFault>
        ensures last { self.new.last.now ≡ self.old.last.now }
        ensures recent { self.new.recent.now ≡ self.old.recent.now }
        ensures root { self.new.walk.path.root_len ≡ self.old.walk.path.root_len }
        ensures above { self.new.walk.above ≡ self.old.walk.above }
        ensures unchanged { self.new.unchanged ≡ self.old.unchanged }
        ensures rows { OnOk result (found_rows self.new.walk.rows.found
            ≡ found_rows self.old.walk.rows.found
            ++ seen_rows (take (end - start) (drop start self.old.last.now.records))) }
        ensures fault { IfErr result (λ fault. is_of_device fault ≡ false) }
    {
        if self.walk.rows.pass(start, end)? {
            return Ok(());
        }
        let records = self.last.records_from(start);
        let more = existing_rows(self.walk.alloc, records, end.saturating_sub(start))?;
        self.walk.rows.add_all(more)
    }

    /// Notes that the directory at the path, which has this stat and was listed, is as its record says, if it is.
    fn note_directory(&mut self, stat: &Stat) -> Result<(), AllocError>
        requires listed { IsOneOf (row_with_stat
            (name_of_path self.old.walk.path.root_len self.old.walk.path.bytes) stat.now)
            (found_rows self.old.walk.rows.found) }
        requires unchanged { ListAll self.old.last.now.records
            (found_rows self.old.walk.rows.found) self.old.unchanged.items }
        ensures walk { self.new.walk ≡ self.old.walk }
        ensures last { self.new.last.now ≡ self.old.last.now }
        ensures recent { self.new.recent.now ≡ self.old.recent.now }
        ensures unchanged { OnOk result (ListAll self.old.last.now.records
            (found_rows self.old.walk.rows.found) self.new.unchanged.items) }
    {
        let Ok(name) = str::from_utf8(self.walk.path.name()) else {
            return Ok(());
        };
        let Some(at) = self.last.find(name) else {
            return Ok(());
        };
        if is_as(self.last.get(at), stat) {
            self.unchanged.push(at)?;
        }
        Ok(())
    }

    /// Whether the glance noted that it listed the directory whose record is at a place just as the record says.
    fn is_unchanged(&self, at: usize) -> bool
        requires { ListAll self.now.last.now.records (found_rows self.now.walk.rows.found)
            self.now.unchanged.items }
        ensures { IsTrue result → ListsAt self.now.last.now.records
            (found_rows self.now.walk.rows.found) at }
    {
        self.unchanged.binary_search(&at).is_ok()
    }
}

/// Whether a record is that of a directory that exists.
pub(crate) fn is_directory(known: &Record) -> bool
    ensures exists { IsTrue result → IsTrue known.now.exists }
    ensures kind { IsTrue result → known.now.kind ≡ Dir }
{
    known.exists && known.kind == Kind::Dir
}
