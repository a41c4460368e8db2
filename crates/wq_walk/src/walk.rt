//! The walk over a tree: from directory to directory, with a row for each file. The module of listings uses it.
ghost use Rattle.std.specs.Prelude.{◌≡◌, ◌⊎◌, ◌++◌, ◌∷◌, [], ℕ, Bool, false, length, List, MatchOption};
ghost use Rattle.std.specs.Prelude.{IfErr, IfOk, IfSome, IsTrue, None, OnOk, Some, is_some};
ghost use Rattle.std.specs.Str.{IsUtf8, byte};
ghost use Rattle.wq_patch.specs.Tree.{is_of_device};
ghost use Rattle.wq_record.specs.Name.{is_valid_name};
ghost use Rattle.wq_record.specs.Seen.{SeenData, is_lawful_row};
ghost use Rattle.wq_disk.specs.Directory.{IsDone, data_of, entry_at, fresh, text_of_entries};
ghost use Rattle.wq_disk.specs.HeldNames.{names_left};
ghost use Rattle.wq_walk.specs.State.{walk_of};
ghost use Rattle.wq_walk.specs.Found.{found_rows};
ghost use Rattle.wq_disk.specs.Part.{is_in};
ghost use Rattle.wq_disk.specs.Told.{GivesEntries, HasEntries, IsFailure, IsRootFault};
ghost use Rattle.wq_walk.specs.Walk.{IsLooked, IsStep, IsWalk, WalkEnds};
ghost use Rattle.wq_walk.specs.Walk.{after_look, name_of_path, row_with_stat, rows_of_file};

use crate::piece::Piece;
use crate::progress::Progress;
use crate::rows::Rows;
use std::alloc::{AllocError, Global};
use std::mem;
use wq_disk::{Block, Directory, Disk, Names, Place, Stat, Step, TreePath};
use wq_patch::TreeFault;
use wq_view::{Seen, SharedBytes, is_valid_name};

/// A walk that has not ended yet. A glance is a walk that need not enter each directory.
#[derive(Drop)]
pub(crate) struct Walk<'a, 'p> {
    pub(crate) alloc: Global,
    block: Block<'p>,
    pub(crate) path: TreePath,
    /// The directories above the one in which the walk is, from the root down.
    pub(crate) above: Vec<Directory>,
    pub(crate) rows: Rows<'a>,
    pub(crate) progress: &'p Progress<'p>,
}

/// The rows of the files below a root whose names are in a piece's part. A pass takes each row. Rows are made only for
/// the files that are not as the piece's records say, if the tree does not change meanwhile. They share the names of
/// these records. The root's path ends in a slash.
///
/// The walk reads each directory whole, and then looks at its entries. It follows no links, except one that is the
/// root. It leaves out an entry at which it cannot look, such as one that is deleted meanwhile, and an entry whose name
/// no pass takes. If a directory below the root cannot be read, the walk lists its own row alone. If no more files can
/// be opened, or a file system fails, the error says nothing of the directory, and the walk fails. The walk does not read directories below
/// which no name is in the part.
///
/// The walk also fails as soon as the whole tree has more rows, and names that were read and not looked at, than a pass
/// takes. It fails before the next name, or the next block of names, if it gives way.
pub(crate) fn rows_in<'a, D: Disk>(
    disk: &D,
    alloc: Global,
    root: &str,
    piece: Piece<'a>,
    progress: &Progress<'_>,
) -> Result<Rows<'a>, TreeFault>
    ensures piece { IfOk result (λ rows. rows.piece ≡ piece.entry) }
    ensures walk { IfOk result (λ rows.
        IsWalk (D.says disk.now) (D.has disk.now) root.now piece.entry.part
        (found_rows rows.found)) }
    ensures fault { IfErr result
        (IsRootFault (D.says disk.now) (D.has disk.now) (D.fails disk.now) root.now) }
{
    let (mut walk, top) = Walk::begin(disk, alloc, root, piece, progress)?;
    walk.run(disk, top)?;
    let mut rows = walk.rows;
    rows.finish()?;
    Ok(rows)
}

/// The directory of a root, before the walk looks at any of its names.
#[tactic(auto, using(wq_disk::proofs::Entries::gives_entries))]
fn top<D: Disk>(
    disk: &D,
    alloc: Global,
    block: &mut Block<'_>,
    root: &str,
) -> Result<Directory, TreeFault>
    ensures read { IfOk result (λ top. (names : List (List ℕ))
        × GivesEntries (D.has disk.now) root.now names × (data_of top ≡ fresh root.now names)) }
    ensures fault { IfErr result
        (IsRootFault (D.says disk.now) (D.has disk.now) (D.fails disk.now) root.now) }
{
    let Some(names) = disk.names_in(block, root)? else {
        return Err(TreeFault::Unreadable);
    };
    let path = Vec::from_slice(alloc, root.as_bytes())?;
    Ok(Directory::new(alloc, path, names))
}

impl<'a, 'p> Walk<'a, 'p> {
    /// A walk of a piece that has made no step, and the root's directory. The root's path ends in a slash.
    pub(crate) fn begin<D: Disk>(
        disk: &D,
        alloc: Global,
        root: &str,
        piece: Piece<'a>,
        progress: &'p Progress<'p>,
    ) -> Result<(Walk<'a, 'p>, Directory), TreeFault>
        ensures piece { IfOk result (λ begun. begun.0.rows.piece ≡ piece.entry) }
        ensures rows { IfOk result (λ begun. found_rows begun.0.rows.found ≡ []) }
        ensures root { IfOk result (λ begun. begun.0.path.root_len ≡ length root.now) }
        ensures above { IfOk result (λ begun. begun.0.above.items ≡ []) }
        ensures read { IfOk result (λ begun. (names : List (List ℕ))
            × GivesEntries (D.has disk.now) root.now names
            × (data_of begun.1 ≡ fresh root.now names)) }
        ensures fault { IfErr result
            (IsRootFault (D.says disk.now) (D.has disk.now) (D.fails disk.now) root.now) }
    {
        let mut block = Block::new(alloc, progress.way())?;
        let top = top(disk, alloc, &mut block, root)?;
        let walk = Walk {
            alloc,
            block,
            path: TreePath::new(alloc, root.len()),
            above: Vec::new(alloc),
            rows: Rows::of(alloc, piece),
            progress,
        };
        walk.count_names(&top)?;
        Ok((walk, top))
    }

    /// Continues from a directory to the end.
    fn run<D: Disk>(&mut self, disk: &D, mut here: Directory) -> Result<(), TreeFault>
        ensures piece { self.new.rows.piece ≡ self.old.rows.piece }
        ensures ends { OnOk result (WalkEnds (D.says disk.now) (D.has disk.now)
            self.old.path.root_len self.old.rows.piece.part
            (walk_of self.old.above.items here self.old.rows)
            (found_rows self.new.rows.found)) }
        ensures fault { IfErr result (IsFailure (D.fails disk.now)) }
    {
        for _ in 0..u64::MAX {
            if !self.take(disk, &mut here)? {
                return Ok(());
            }
        }
        // No tree needs so many steps.
        Err(TreeFault::TooManyRows)
    }

    /// Does the next step in the directory in which the walk is, and returns whether there was one.
    fn take<D: Disk>(&mut self, disk: &D, here: &mut Directory) -> Result<bool, TreeFault>
        ensures piece { self.new.rows.piece ≡ self.old.rows.piece }
        ensures root { self.new.path.root_len ≡ self.old.path.root_len }
        ensures goes { IfOk result (λ goes. IsTrue goes → IsStep (D.says disk.now) (D.has disk.now)
            self.old.path.root_len self.old.rows.piece.part
            (walk_of self.old.above.items here.old self.old.rows)
            (walk_of self.new.above.items here.new self.new.rows)) }
        ensures ends { IfOk result (λ goes. goes ≡ false → IsDone (data_of here.new)
            × (walk_of self.new.above.items here.new self.new.rows
            ≡ walk_of self.old.above.items here.old self.old.rows)
            × (self.new.above.items ≡ [])) }
        ensures fault { IfErr result (IsFailure (D.fails disk.now)) }
    {
        self.progress.keep_on()?;
        match here.step() {
            Step::Look(name) => {
                self.look(disk, here, name)?;
            }
            Step::Enter(name) => self.enter(disk, here, name)?,
            Step::Leave => match self.above.pop() {
                Some(above) => *here = above,
                None => return Ok(false),
            },
        }
        Ok(true)
    }

    /// Looks at the name at a place in the directory in which the walk is, and adds its row. Returns the stat of a
    /// directory that the walk enters later.
    pub(crate) fn look<D: Disk>(
        &mut self,
        disk: &D,
        here: &mut Directory,
        name: Place,
    ) -> Result<Option<Stat>, TreeFault>
        ensures piece { self.new.rows.piece ≡ self.old.rows.piece }
        ensures root { self.new.path.root_len ≡ self.old.path.root_len }
        ensures above { self.new.above ≡ self.old.above }
        ensures looked { OnOk result ((rows : List SeenData) × (enters : Bool)
            × IsLooked (D.says disk.now) self.old.path.root_len self.old.rows.piece.part
            ((data_of here.old).path ++ entry_at here.old name) rows enters
            × (found_rows self.new.rows.found ≡ found_rows self.old.rows.found ++ rows)
            × (data_of here.new ≡ after_look (data_of here.old) (data_of here.old).left
            (entry_at here.old name) enters)) }
        ensures entered { IfOk result (λ entered. IfSome entered (λ stat.
            found_rows self.new.rows.found ≡ found_rows self.old.rows.found
            ++ rows_of_file self.old.rows.piece.part
            (name_of_path self.new.path.root_len self.new.path.bytes) stat)) }
        ensures fault { IfErr result (IsFailure (D.fails disk.now)) }
    {
        self.path.set(here.path(), here.name(name))?;
        let Some(stat) = self.list(disk, here)? else {
            return Ok(None);
        };
        here.enter_later(name)?;
        Ok(Some(stat))
    }

    /// Looks at the file at the path, and adds its row if its name is in the part. Returns the file's stat if the walk
    /// enters it. It does if the file is a directory below which names may be in the part.
    fn list<D: Disk>(&mut self, disk: &D, here: &mut Directory) -> Result<Option<Stat>, TreeFault>
        ensures piece { self.new.rows.piece ≡ self.old.rows.piece }
        ensures path { self.new.path ≡ self.old.path }
        ensures above { self.new.above ≡ self.old.above }
        ensures directory { data_of here.new ≡ data_of here.old }
        ensures text { text_of_entries here.new ≡ text_of_entries here.old }
        ensures looked { IfOk result (λ entered. (rows : List SeenData)
            × IsLooked (D.says disk.now) self.old.path.root_len self.old.rows.piece.part
            self.old.path.bytes rows (is_some entered)
            × (found_rows self.new.rows.found ≡ found_rows self.old.rows.found ++ rows)) }
        ensures entered { IfOk result (λ entered. IfSome entered (λ stat.
            found_rows self.new.rows.found ≡ found_rows self.old.rows.found
            ++ rows_of_file self.old.rows.piece.part
            (name_of_path self.old.path.root_len self.old.path.bytes) stat)) }
        ensures fault { IfErr result (IsFailure (D.fails disk.now)) }
    {
        let reaches = self.rows.part().reaches(self.path.name());
        if !reaches && !self.rows.part().has(self.path.name()) {
            return Ok(None);
        }
        let Some(stat) = stat_at(disk, &self.path)? else {
            self.pass_over();
            return Ok(None);
        };
        if !self.add(here, &stat)? {
            return Ok(None);
        }
        Ok((reaches && stat.is_directory()).then_some(stat))
    }

    /// Counts the names in a directory that was read, of those that are in the part and that a pass takes.
    fn count_names(&self, read: &Directory) -> Result<(), TreeFault>
        ensures { IfErr result (λ fault. is_of_device fault ≡ false) }
    {
        let count = read.count_in(self.alloc, self.path.root_len(), self.rows.part())?;
        self.progress.count(count)
    }

    /// Passes over the name at the path, at which the disk cannot look. If the name is in the part and not UTF-8, it
    /// counts as left out. Another one that is in the part counts as a row no longer.
    fn pass_over(&self) {
        let name = self.path.name();
        if !self.rows.part().has(name) {
            return;
        }
        if self.path.text().is_none() {
            self.progress.leave_out_name();
        } else if is_valid_name(name) {
            self.progress.count_less();
        }
    }

    /// The progress, if a directory at the path counts as one of this part. Walks of other parts
    /// may read it too.
    fn counts_directories(&self) -> Option<&'p Progress<'p>> {
        if self.rows.part().has(self.path.name()) {
            Some(self.progress)
        } else {
            None
        }
    }

    /// Adds the row of the file at the path, which has this stat, if the name is in the part. Returns whether a pass
    /// takes the name.
    fn add(&mut self, here: &mut Directory, stat: &Stat) -> Result<bool, TreeFault>
        ensures piece { self.new.rows.piece ≡ self.old.rows.piece }
        ensures path { self.new.path ≡ self.old.path }
        ensures above { self.new.above ≡ self.old.above }
        ensures directory { data_of here.new ≡ data_of here.old }
        ensures text { text_of_entries here.new ≡ text_of_entries here.old }
        ensures row { IfOk result (λ taken. IsTrue taken → found_rows self.new.rows.found
            ≡ found_rows self.old.rows.found ++ rows_of_file self.old.rows.piece.part
            (name_of_path self.old.path.root_len self.old.path.bytes) stat.now) }
        ensures none { IfOk result (λ taken. taken ≡ false
            → (is_valid_name (name_of_path self.old.path.root_len self.old.path.bytes)
            ≡ false)
            × (found_rows self.new.rows.found ≡ found_rows self.old.rows.found)) }
        ensures fault { IfErr result (λ fault. is_of_device fault ≡ false) }
    {
        if !self.rows.part().has(self.path.name()) {
            return Ok(is_valid_name(self.path.name()));
        }
        if !self.rows.keep(self.path.name(), stat)? && !self.add_new(here, stat)? {
            return Ok(false);
        }
        Ok(true)
    }

    /// Adds the row of the file at the path, which has this stat, if a pass takes its name, and returns whether one
    /// does.
    fn add_new(&mut self, here: &mut Directory, stat: &Stat) -> Result<bool, TreeFault>
        requires { IsTrue (is_in self.old.rows.piece.part
            (name_of_path self.old.path.root_len self.old.path.bytes)) }
        ensures piece { self.new.rows.piece ≡ self.old.rows.piece }
        ensures path { self.new.path ≡ self.old.path }
        ensures above { self.new.above ≡ self.old.above }
        ensures directory { data_of here.new ≡ data_of here.old }
        ensures text { text_of_entries here.new ≡ text_of_entries here.old }
        ensures row { IfOk result (λ taken. IsTrue taken → found_rows self.new.rows.found
            ≡ found_rows self.old.rows.found ++ (row_with_stat
            (name_of_path self.old.path.root_len self.old.path.bytes) stat.now ∷ [])) }
        ensures none { IfOk result (λ taken. taken ≡ false
            → (is_valid_name (name_of_path self.old.path.root_len self.old.path.bytes)
            ≡ false)
            × (found_rows self.new.rows.found ≡ found_rows self.old.rows.found)) }
        ensures fault { IfErr result (λ fault. is_of_device fault ≡ false) }
    {
        let Some(name) = shared_name(self.alloc, &self.rows, &self.path, here)? else {
            return Ok(false);
        };
        self.rows.add(row_with_stat(name, stat))?;
        Ok(true)
    }

    /// Enters the directory of the name at a place in the directory in which the walk is.
    pub(crate) fn enter<D: Disk>(
        &mut self,
        disk: &D,
        here: &mut Directory,
        name: Place,
    ) -> Result<(), TreeFault>
        ensures piece { self.new.rows.piece ≡ self.old.rows.piece }
        ensures root { self.new.path.root_len ≡ self.old.path.root_len }
        ensures rows { self.new.rows ≡ self.old.rows }
        ensures above { OnOk result (self.new.above.items
            ≡ self.old.above.items ++ (here.old ∷ [])) }
        ensures read { OnOk result ((names : List (List ℕ))
            × HasEntries (D.has disk.now) ((data_of here.old).path ++ entry_at here.old name) names
            × (data_of here.new ≡ fresh
            ((data_of here.old).path ++ entry_at here.old name ++ (byte "/" ∷ [])) names)) }
        ensures fault { IfErr result (IsFailure (D.fails disk.now)) }
    {
        self.path.set(here.path(), here.name(name))?;
        let counted = self.counts_directories();
        let names = names_at(disk, self.alloc, &mut self.block, &self.path, counted)?;
        let below = Directory::new(self.alloc, self.path.directory(self.alloc)?, names);
        self.count_names(&below)?;
        let above = mem::replace(here, below);
        self.above.push(above).map_err(AllocError::from)?;
        Ok(())
    }
}

/// The bytes of the name of a path, if a pass takes it. They are shared with the record of that name, or with other new
/// names of the directory that is walked.
fn shared_name(
    alloc: Global,
    rows: &Rows<'_>,
    path: &TreePath,
    here: &mut Directory,
) -> Result<Option<SharedBytes>, AllocError>
    ensures directory { data_of here.new ≡ data_of here.old }
    ensures text { text_of_entries here.new ≡ text_of_entries here.old }
    ensures name { IfOk result (λ name. MatchOption name
        (is_valid_name (name_of_path path.now.root_len path.now.bytes) ≡ false)
        (λ bytes. (bytes ≡ name_of_path path.now.root_len path.now.bytes)
        × IsTrue (is_valid_name bytes))) }
{
    if let Some(known) = rows.shared(path.name())? {
        return Ok(Some(known));
    }
    let are_later_new = !rows.begins_with(here.below(path.root_len()));
    let bytes = here.new_name(alloc, path.root_len(), path.name(), are_later_new)?;
    // The block goes on after a name that no pass takes.
    Ok(is_valid_name(path.name()).then_some(bytes))
}

/// The stat of the file of a path, if the disk can look at it.
pub(crate) fn stat_at<D: Disk>(disk: &D, path: &TreePath) -> Result<Option<Stat>, TreeFault>
    ensures told { IfOk result (λ told. MatchOption told
        ((IsUtf8 path.now.bytes → ⊥) ⊎ D.says disk.now path.now.bytes None)
        (λ stat. D.says disk.now path.now.bytes (Some stat))) }
    ensures fault { IfErr result (IsFailure (D.fails disk.now)) }
{
    match path.text() {
        Some(text) => disk.stat(text),
        None => Ok(None),
    }
}

/// The names in the directory of a path, or none if it cannot be read. That is counted here, if the
/// directory counts.
#[tactic(auto, using(wq_disk::proofs::Entries::gives_entries))]
fn names_at<D: Disk>(
    disk: &D,
    alloc: Global,
    block: &mut Block<'_>,
    path: &TreePath,
    counted: Option<&Progress<'_>>,
) -> Result<Names, TreeFault>
    ensures read { IfOk result (λ names.
        HasEntries (D.has disk.now) path.now.bytes (names_left names)) }
    ensures fault { IfErr result (IsFailure (D.fails disk.now)) }
{
    let Some(text) = path.text() else {
        return Ok(Names::new(alloc));
    };
    match disk.names_in(block, text)? {
        Some(names) => Ok(names),
        None => {
            if let Some(progress) = counted {
                progress.leave_out_directory();
            }
            Ok(Names::new(alloc))
        }
    }
}

/// The row of a file.
fn row_with_stat(name: SharedBytes, stat: &Stat) -> Seen
    requires { IsTrue (is_valid_name name) }
    ensures lawful { IsTrue (is_lawful_row result) }
    ensures row { result ≡ row_with_stat name stat.now }
{
    Seen {
        name,
        kind: stat.kind,
        size: stat.size,
        mtime_ms: stat.mtime_ms,
    }
}
