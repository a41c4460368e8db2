//! The files of a piece that a listing found so far. Other modules find them.
ghost use Rattle.std.specs.Prelude.{◌≡◌, false, ◌+◌, ◌-◌, ◌≤◌, ◌<◌, ◌++◌, ◌∷◌, [], drop, length, take, IfErr, IfOk, IfSome, OnOk, IsTrue};
ghost use Rattle.std.specs.List.{list_all};
ghost use Rattle.wq_patch.specs.declared.tree.TreeFault.TheVariants.{TooManyRows};
ghost use Rattle.wq_patch.specs.Tree.{is_of_device};
ghost use Rattle.wq_record.specs.Name.{is_valid_name};
ghost use Rattle.wq_view.specs.SeenRows.{seen_rows};
ghost use Rattle.wq_view.specs.Limit.{max_listing_rows};
ghost use Rattle.wq_patch.specs.PatchMaker.{IsJoinedTo};
ghost use Rattle.wq_record.specs.Seen.{is_lawful_row};
ghost use Rattle.wq_walk.specs.Found.{IsFoundOf, found_rows};
ghost use Rattle.wq_disk.specs.Part.{is_in};
ghost use Rattle.wq_walk.specs.Part.{IsListing, is_row_in, whole_part};
ghost use Rattle.wq_walk.specs.Tiles.{piece_records};
ghost use Rattle.wq_walk.specs.Walk.{row_with_stat};

use crate::piece::Piece;
use std::alloc::{AllocError, Global};
use wq_disk::{Part, Stat};
use wq_patch::{Again, TreeFault};
use wq_view::{MAX_LISTING_ROWS, Patch, Seen, SharedBytes};

/// At most 1,000,000 files of a piece that were found so far. A pass takes each of them. Rows are made only for those
/// that are not as the piece's records say.
#[derive(Drop)]
pub(crate) struct Rows<'a> {
    piece: Piece<'a>,
    found: Again<'a>,
    ghost lawful: { IsTrue (list_all is_lawful_row (found_rows found)) },
    ghost few: { length (found_rows found) ≤ max_listing_rows },
    ghost within: { IsTrue (list_all (is_row_in piece.part) (found_rows found)) },
    ghost of_piece: { IsFoundOf piece found },
}

impl<'a> Rows<'a> {
    /// No file of a piece.
    pub(crate) fn of(alloc: Global, piece: Piece<'a>) -> Rows<'a>
        ensures piece { result.piece ≡ piece.entry }
        ensures none { found_rows result.found ≡ [] }
    {
        Rows {
            piece,
            found: Again::of(alloc, piece.records, piece.count),
        }
    }

    /// The part of the files.
    pub(crate) fn part(&self) -> Part<'a>
        ensures { result ≡ self.now.piece.part }
    {
        self.piece.part
    }

    /// The number of files.
    pub(crate) fn len(&self) -> usize
        ensures { result ≡ length (found_rows self.now.found) }
    {
        self.found.len()
    }

    /// Adds a file after the others, if the piece's record of its name says just this of it. Returns whether it was added.
    pub(crate) fn keep(&mut self, name: &[u8], stat: &Stat) -> Result<bool, AllocError>
        requires { IsTrue (is_in self.old.piece.part name.now) }
        ensures piece { self.new.piece ≡ self.old.piece }
        ensures row { IfOk result (λ kept. IsTrue kept → found_rows self.new.found
            ≡ found_rows self.old.found ++ (row_with_stat name.now stat.now ∷ [])) }
        ensures same { IfOk result (λ kept. kept ≡ false
            → found_rows self.new.found ≡ found_rows self.old.found) }
    {
        if self.len() >= MAX_LISTING_ROWS {
            return Ok(false);
        }
        self.found.keep(name, stat.kind, stat.size, stat.mtime_ms)
    }

    /// The bytes of a name that a pass takes, shared with the piece's next record, if that has it.
    pub(crate) fn shared(&self, name: &[u8]) -> Result<Option<SharedBytes>, AllocError>
        ensures { IfOk result (λ shared. IfSome shared (λ bytes.
            (bytes ≡ name.now) × IsTrue (is_valid_name name.now))) }
    {
        self.found.shared(name)
    }

    /// Whether the name of the piece's next record begins with these bytes.
    pub(crate) fn begins_with(&self, bytes: &[u8]) -> bool {
        self.found.begins_with(bytes)
    }

    /// Adds a row after the others.
    pub(crate) fn add(&mut self, row: Seen) -> Result<(), TreeFault>
        requires lawful { IsTrue (is_lawful_row row) }
        requires within { IsTrue (is_row_in self.old.piece.part row) }
        ensures piece { self.new.piece ≡ self.old.piece }
        ensures row { OnOk result (found_rows self.new.found
            ≡ found_rows self.old.found ++ (row ∷ [])) }
        ensures many { IfErr result (λ fault. fault ≡ TooManyRows
            → length (found_rows self.old.found) ≡ max_listing_rows) }
        ensures fault { IfErr result (λ fault. is_of_device fault ≡ false) }
    {
        if MAX_LISTING_ROWS <= self.len() {
            return Err(TreeFault::TooManyRows);
        }
        self.found.add(row)?;
        Ok(())
    }

    /// Keeps the files of the piece's records from one place up to another, if no record after the first place is passed.
    /// Returns whether it was done.
    pub(crate) fn pass(&mut self, start: usize, end: usize) -> Result<bool, AllocError>
        requires { self.old.piece.part ≡ whole_part }
        ensures piece { self.new.piece ≡ self.old.piece }
        ensures rows { IfOk result (λ kept. IsTrue kept → found_rows self.new.found
            ≡ found_rows self.old.found
            ++ seen_rows (take (end - start) (drop start (piece_records self.old.piece)))) }
        ensures same { IfOk result (λ kept. kept ≡ false
            → found_rows self.new.found ≡ found_rows self.old.found) }
    {
        self.found.drop_to(start)?;
        Ok(self.found.keep_to(start, end, MAX_LISTING_ROWS))
    }

    /// Adds rows after the others.
    pub(crate) fn add_all(&mut self, rest: Vec<Seen>) -> Result<(), TreeFault>
        requires part { self.old.piece.part ≡ whole_part }
        requires lawful { IsTrue (list_all is_lawful_row rest.items) }
        ensures piece { self.new.piece ≡ self.old.piece }
        ensures rows { OnOk result (found_rows self.new.found
            ≡ found_rows self.old.found ++ rest.items) }
        ensures many { IfErr result (λ fault. fault ≡ TooManyRows
            → max_listing_rows < length (found_rows self.old.found) + length rest.items) }
        ensures fault { IfErr result (λ fault. is_of_device fault ≡ false) }
    {
        if self.len().saturating_add(rest.len()) > MAX_LISTING_ROWS {
            return Err(TreeFault::TooManyRows);
        }
        self.found.add_all(rest)?;
        Ok(())
    }

    /// Ends the piece: the files of the records that are not passed were not found.
    pub(crate) fn finish(&mut self) -> Result<(), AllocError>
        ensures piece { self.new.piece ≡ self.old.piece }
        ensures same { found_rows self.new.found ≡ found_rows self.old.found }
    {
        self.found.finish()
    }

    /// The rows, in the order in which the files were found.
    pub(crate) fn into_rows(self, alloc: Global) -> Result<Vec<Seen>, AllocError>
        ensures all { IfOk result (λ rows. rows.items ≡ found_rows self.entry.found) }
        ensures listing { IfOk result (λ rows. IsListing self.entry.piece.part rows.items) }
    {
        let Rows { piece: _, found } = self;
        found.rows(alloc)
    }

    /// Puts the patches after those of the pieces before, after the last of which so many records are kept. Returns the
    /// number of records that are kept after the last patch.
    pub(crate) fn put(self, kept: usize, all: &mut Vec<Patch>) -> Result<usize, AllocError>
        ensures { IfOk result (IsJoinedTo (piece_records self.entry.piece)
            (found_rows self.entry.found) kept all.old.items all.new.items) }
    {
        let Rows { piece: _, found } = self;
        found.put(kept, all)
    }
}
