//! A piece of a view, whose files a listing finds. For files that are as their records say, no rows are made. The crate
//! of walks lists files.
ghost use Rattle.std.specs.Prelude.{◌≡◌, ◌≤◌, ◌<◌, ◌+◌, ◌-◌, ◌++◌, ◌∷◌, [], false, drop, length, take, IfNone, IfOk, IfSome, IsTrue, OnErr, OnOk};
ghost use Rattle.std.specs.List.{list_all};
ghost use Rattle.wq_record.specs.Name.{is_valid_name};
ghost use Rattle.wq_record.specs.Seen.{is_lawful_row};
ghost use Rattle.wq_view.specs.SeenRows.{seen_row, seen_rows};
ghost use Rattle.wq_view.specs.Limit.{max_listing_rows};
ghost use Rattle.wq_patch.specs.PatchMaker.{IsJoinedTo};
ghost use Rattle.wq_view.specs.Records.{records_left};

use crate::patch_maker::PatchMaker;
use crate::patches::rows_with;
use crate::rows::{row_of, with_seen};
use std::alloc::{AllocError, Global};
use std::cmp::Ordering;
use std::marker::Model;
use wq_record::{Kind, Record, Seen, SharedBytes};
use wq_view::{Patch, Records};

/// The records of a piece of a view, and what a listing found of their files so far. If files are found in the byte order
/// of their names, rows are made only for those that are not as their records say.
#[derive(Drop)]
pub struct Again<'a> {
    /// The records from the first one of the piece on.
    all: Records<'a>,
    /// The number of the piece's records.
    count: usize,
    /// The records after those that are passed.
    left: Records<'a>,
    /// The number of records that are passed.
    passed: usize,
    /// What was found of their files.
    made: PatchMaker,
    /// The number of files that were found.
    len: usize,
}

impl<'a> Model for Again<'a> {
    ghost use Rattle.std.specs.Prelude.{◌≡◌, ◌≤◌, drop, length, take};
    ghost use Rattle.wq_patch.specs.Again.{AgainData, again_code};
    ghost use Rattle.wq_patch.specs.PatchMaker.{IsWithin, records_to_come, rows_made};
    ghost use Rattle.wq_view.specs.Records.{records_left};

    ghost Value = { AgainData };

    ghost coded = { again_code };

    ghost view = { λ a. record {
      records = take a.count (records_left a.all);
      found = rows_made (take a.count (records_left a.all)) a.made;
      passed = a.passed;
    } };

    ghost invariant = { λ a. (a.passed ≤ a.count)
        × (records_left a.left ≡ drop a.passed (records_left a.all))
        × (records_to_come (take a.count (records_left a.all)) a.made
        ≡ drop a.passed (take a.count (records_left a.all)))
        × IsWithin (take a.count (records_left a.all)) a.made
        × (a.len ≡ length (rows_made (take a.count (records_left a.all)) a.made))
        × (a.made.tail ≤ a.passed) × (a.made.last.replaced ≤ a.passed) };
}

impl<'a> Again<'a> {
    /// The piece of the first `count` of these records, before any file was found.
    pub fn of(alloc: Global, records: Records<'a>, count: usize) -> Again<'a>
        ensures { result
            ≡ record { records = take count (records_left records.entry); found = []; passed = 0 } }
    {
        Again {
            all: records,
            count,
            left: records,
            passed: 0,
            made: PatchMaker::new(alloc),
            len: 0,
        }
    }

    /// Adds a file that is just as its record says, and returns whether it is. Records before that of the file are
    /// passed: their files were not found.
    pub fn keep(
        &mut self,
        name: &[u8],
        kind: Kind,
        size: i64,
        mtime_ms: i64,
    ) -> Result<bool, AllocError>
        requires { length self.old.found < max_listing_rows }
        ensures records { self.new.records ≡ self.old.records }
        ensures kept { IfOk result (λ kept. IsTrue kept → self.new.found ≡ self.old.found
            ++ (record { name = name.now; kind = kind; size = size; mtime_ms = mtime_ms } ∷ [])) }
        ensures lawful { IfOk result (λ kept. IsTrue kept → IsTrue (is_lawful_row
            (record { name = name.now; kind = kind; size = size; mtime_ms = mtime_ms }))) }
        ensures same { IfOk result (λ kept. kept ≡ false → self.new.found ≡ self.old.found) }
        ensures failed { OnErr result (self.new.found ≡ self.old.found) }
    {
        if self.keep_next(name, kind, size, mtime_ms)? {
            return Ok(true);
        }
        self.go_to(name)?;
        self.keep_next(name, kind, size, mtime_ms)
    }

    /// The bytes of a name, shared with the next record, if that has it.
    pub fn shared(&self, name: &[u8]) -> Result<Option<SharedBytes>, AllocError>
        ensures { IfOk result (λ shared. IfSome shared (λ bytes.
            (bytes ≡ name.now) × IsTrue (is_valid_name name.now))) }
    {
        match self.next() {
            Some((known, _)) if known.name.as_bytes() == name => Ok(Some(known.name.shared()?)),
            _ => Ok(None),
        }
    }

    /// Whether the name of the next record begins with these bytes.
    pub fn begins_with(&self, bytes: &[u8]) -> bool {
        match self.next() {
            Some((known, _)) => known.name.as_bytes().starts_with(bytes),
            None => false,
        }
    }

    /// Adds the row of a file that is not as its record says, or has none. If the next record has its name, the record is
    /// passed.
    pub fn add(&mut self, row: Seen) -> Result<(), AllocError>
        requires { length self.old.found < max_listing_rows }
        ensures records { self.new.records ≡ self.old.records }
        ensures row { OnOk result (self.new.found ≡ self.old.found ++ (row ∷ [])) }
        ensures failed { OnErr result (self.new.found ≡ self.old.found) }
    {
        let is_known = match self.next() {
            Some((known, _)) => known.name.as_bytes() == row.name.as_slice(),
            None => false,
        };
        if is_known {
            self.cover_next()?;
        }
        self.push(row)
    }

    /// Adds rows of files that were found apart from the records. The record that is next stays the next one.
    pub fn add_all(&mut self, more: Vec<Seen>) -> Result<(), AllocError>
        requires { length self.old.found + length more.items ≤ max_listing_rows }
        ensures records { self.new.records ≡ self.old.records }
        ensures rows { OnOk result (self.new.found ≡ self.old.found ++ more.items) }
        ensures failed { OnErr result (self.new.found ≡ self.old.found) }
    {
        let count = more.len();
        self.made.add_all(more)?;
        self.len += count;
        Ok(())
    }

    /// Adds a row before the records that are not passed.
    fn push(&mut self, row: Seen) -> Result<(), AllocError>
        requires { length self.old.found < max_listing_rows }
        ensures records { self.new.records ≡ self.old.records }
        ensures row { OnOk result (self.new.found ≡ self.old.found ++ (row ∷ [])) }
        ensures failed { OnErr result (self.new.found ≡ self.old.found) }
    {
        self.made.add(row)?;
        self.len += 1;
        Ok(())
    }

    /// The next record, and the records after it.
    fn next(&self) -> Option<(&'a Record, Records<'a>)>
        ensures none { IfNone result (drop self.now.passed self.now.records ≡ []) }
        ensures some { IfSome result (λ it. drop self.now.passed self.now.records
            ≡ it.0.now ∷ drop (self.now.passed + 1) self.now.records) }
    {
        next_of(self.left, self.count - self.passed)
    }

    /// Adds the file of the next record, if a file is just as it says, and returns whether it is.
    fn keep_next(
        &mut self,
        name: &[u8],
        kind: Kind,
        size: i64,
        mtime_ms: i64,
    ) -> Result<bool, AllocError>
        requires { length self.old.found < max_listing_rows }
        ensures records { self.new.records ≡ self.old.records }
        ensures kept { IfOk result (λ kept. IsTrue kept → self.new.found ≡ self.old.found
            ++ (record { name = name.now; kind = kind; size = size; mtime_ms = mtime_ms } ∷ [])) }
        ensures lawful { IfOk result (λ kept. IsTrue kept → IsTrue (is_lawful_row
            (record { name = name.now; kind = kind; size = size; mtime_ms = mtime_ms }))) }
        ensures same { IfOk result (λ kept. kept ≡ false → self.new.found ≡ self.old.found) }
        ensures failed { OnErr result (self.new.found ≡ self.old.found) }
    {
        match next_of(self.left, self.count - self.passed) {
            Some((known, left)) if is_as(known, name, kind, size, mtime_ms) => {
                if self.made.is_full() {
                    self.keep_row(known)?;
                    return Ok(true);
                }
                self.made.keep(1);
                self.left = left;
                self.passed += 1;
                self.len += 1;
                Ok(true)
            }
            _ => Ok(false),
        }
    }

    /// Adds the row of a file that is as its record says, and passes the next record.
    fn keep_row(&mut self, known: &Record) -> Result<(), AllocError>
        requires { length self.old.found < max_listing_rows }
        ensures records { self.new.records ≡ self.old.records }
        ensures row { OnOk result (self.new.found ≡ self.old.found ++ (seen_row known.now ∷ [])) }
        ensures failed { OnErr result (self.new.found ≡ self.old.found) }
    {
        let row = row_of(known)?;
        self.cover_next()?;
        self.push(row)
    }

    /// Passes the records below a name. Their files were not found.
    fn go_to(&mut self, name: &[u8]) -> Result<(), AllocError>
        ensures records { self.new.records ≡ self.old.records }
        ensures found { self.new.found ≡ self.old.found }
    {
        for _ in 0..u64::MAX {
            match self.next() {
                Some((known, _)) if known.name.as_bytes().cmp(name) == Ordering::Less => {}
                _ => return Ok(()),
            }
            self.drop_next()?;
        }
        Ok(())
    }

    /// Passes the next record, if there is one, and returns whether there is. Its file was not found.
    fn drop_next(&mut self) -> Result<bool, AllocError>
        ensures records { self.new.records ≡ self.old.records }
        ensures found { self.new.found ≡ self.old.found }
        ensures none { IfOk result (λ is. is ≡ false → drop self.new.passed self.new.records ≡ []) }
    {
        let Some((known, left)) = next_of(self.left, self.count - self.passed) else {
            return Ok(false);
        };
        self.made.miss(known)?;
        self.left = left;
        self.passed += 1;
        Ok(true)
    }

    /// Passes the next record, if there is one. Rows come in its place.
    fn cover_next(&mut self) -> Result<(), AllocError>
        ensures records { self.new.records ≡ self.old.records }
        ensures found { self.new.found ≡ self.old.found }
    {
        let Some((_, left)) = next_of(self.left, self.count - self.passed) else {
            return Ok(());
        };
        self.made.cover()?;
        self.left = left;
        self.passed += 1;
        Ok(())
    }

    /// Passes the records up to a place. Their files were not found.
    pub fn drop_to(&mut self, place: usize) -> Result<(), AllocError>
        ensures records { self.new.records ≡ self.old.records }
        ensures found { self.new.found ≡ self.old.found }
    {
        for _ in self.passed..place {
            if !self.drop_next()? {
                return Ok(());
            }
        }
        Ok(())
    }

    /// Keeps the records from one place up to another: their files count as found, and no disk was asked. It is not done
    /// if the first of them is not the next record, if there are fewer, or if more files than `most` would be found.
    pub fn keep_to(&mut self, start: usize, end: usize, most: usize) -> bool
        ensures records { self.new.records ≡ self.old.records }
        ensures rows { IsTrue result → self.new.found ≡ self.old.found
            ++ seen_rows (take (end - start) (drop start self.old.records)) }
        ensures few { IsTrue result → length self.new.found ≤ most }
        ensures lawful { IsTrue result → IsTrue (list_all is_lawful_row
            (seen_rows (take (end - start) (drop start self.old.records)))) }
        ensures same { result ≡ false → self.new.found ≡ self.old.found }
    {
        if self.passed != start || end < start || self.count < end {
            return false;
        }
        let run = self.left.run(end - start);
        if run.len < end - start || self.len > most || most - self.len < run.existing {
            return false;
        }
        self.made.keep(end - start);
        self.left = run.left;
        self.passed = end;
        self.len += run.existing;
        true
    }

    /// Passes all records that are left. Their files were not found.
    pub fn finish(&mut self) -> Result<(), AllocError>
        ensures records { self.new.records ≡ self.old.records }
        ensures found { self.new.found ≡ self.old.found }
        ensures all { OnOk result (drop self.new.passed self.new.records ≡ []) }
    {
        for _ in 0..u64::MAX {
            if !self.drop_next()? {
                return Ok(());
            }
        }
        // No piece has so many records.
        Err(AllocError)
    }

    /// The number of files that were found.
    pub fn len(&self) -> usize
        ensures { result ≡ length self.now.found }
    {
        self.len
    }

    /// The row that was added last, if no record was passed after it.
    pub fn last_row(&self) -> Option<&Seen> {
        self.made.last_row()
    }

    /// The rows of the files that were found.
    pub fn rows(self, alloc: Global) -> Result<Vec<Seen>, AllocError>
        ensures { IfOk result (λ rows. rows.items ≡ self.entry.found) }
    {
        let Again { all, made, .. } = self;
        let mut patches = Vec::new(alloc);
        let tail = made.put(0, &mut patches)?;
        let (rows, left) = rows_with(alloc, all, patches)?;
        let (rows, _) = with_seen(alloc, rows, left, tail)?;
        Ok(rows)
    }

    /// Puts the patches after those of the records before the piece, after the last of which so many records are kept.
    /// The files of the records that are not passed were not found. Returns the number of records that are kept after the
    /// last patch.
    pub fn put(mut self, kept: usize, all: &mut Vec<Patch>) -> Result<usize, AllocError>
        ensures { IfOk result (IsJoinedTo self.entry.records self.entry.found kept all.old.items
            all.new.items) }
    {
        self.finish()?;
        let Again { made, .. } = self;
        made.put(kept, all)
    }
}

/// The next of at most so many records, and the records after it.
fn next_of(mut records: Records<'_>, most: usize) -> Option<(&Record, Records<'_>)>
    ensures none { IfNone result (take most (records_left records.entry) ≡ []) }
    ensures some { IfSome result (λ it. (records_left records.entry ≡ it.0.now ∷ records_left it.1)
        × (1 ≤ most)) }
{
    if most == 0 {
        return None;
    }
    let record = records.next()?;
    Some((record, records))
}

/// Whether a file is as its record says.
fn is_as(known: &Record, name: &[u8], kind: Kind, size: i64, mtime_ms: i64) -> bool
    ensures exists { IsTrue result → IsTrue known.now.exists }
    ensures row { IsTrue result → seen_row known.now
        ≡ record { name = name.now; kind = kind; size = size; mtime_ms = mtime_ms } }
    ensures lawful { IsTrue result → IsTrue (is_lawful_row
        (record { name = name.now; kind = kind; size = size; mtime_ms = mtime_ms })) }
{
    known.exists
        && known.name.as_bytes() == name
        && known.kind == kind
        && known.size == size
        && known.mtime_ms == mtime_ms
}
