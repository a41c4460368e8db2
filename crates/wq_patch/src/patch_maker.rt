//! The patches of a piece of a view, which a listing makes as it finds files. The module of pieces knows the records.
ghost use Rattle.std.specs.Prelude.{◌≡◌, ◌≤◌, ◌+◌, ◌<◌, ◌∷◌, ◌++◌, [], drop, length, take, List, IfOk, OnErr, OnOk};
ghost use Rattle.wq_record.specs.RecordData.{RecordData};
ghost use Rattle.wq_view.specs.SeenRows.{seen_rows};
ghost use Rattle.wq_patch.specs.PatchMaker.{IsPut, IsSamePiece, IsWithin, max_word, patches_made, records_to_come, rows_made};

use std::alloc::{AllocError, Global};
use std::mem;
use wq_record::{Record, Seen};
use wq_view::Patch;

/// The number of patches of a piece after which the last one goes on to the piece's end, with rows of all files.
const MOST_PATCHES: usize = 1_024;

/// The patches of the records that a listing passed.
#[derive(Drop)]
pub(crate) struct PatchMaker {
    alloc: Global,
    /// The patches before the last one.
    pub(crate) done: Vec<Patch>,
    /// The last patch. It is open as long as no record after it is kept.
    pub(crate) last: Patch,
    /// The number of records that are kept after the last patch.
    pub(crate) tail: usize,
}

impl PatchMaker {
    /// No patch, before any record was passed.
    pub(crate) fn new(alloc: Global) -> PatchMaker
        ensures rows { (records : List RecordData) → rows_made records result ≡ [] }
        ensures left { (records : List RecordData) → records_to_come records result ≡ records }
        ensures within { (records : List RecordData) → IsWithin records result }
        ensures tail { result.tail ≡ 0 }
        ensures replaced { result.last.replaced ≡ 0 }
    {
        PatchMaker {
            alloc,
            done: Vec::new(alloc),
            last: Patch {
                kept: 0,
                replaced: 0,
                rows: Vec::new(alloc),
            },
            tail: 0,
        }
    }

    /// Passes so many records, which are kept.
    pub(crate) fn keep(&mut self, count: usize)
        requires { self.old.tail + count ≤ max_word }
        ensures tail { self.new.tail ≡ self.old.tail + count }
        ensures last { self.new.last ≡ self.old.last }
        ensures rows { (records : List RecordData) → rows_made records self.new
            ≡ rows_made records self.old ++ seen_rows (take count (records_to_come records self.old)) }
        ensures left { (records : List RecordData) → records_to_come records self.new
            ≡ drop count (records_to_come records self.old) }
        ensures within { (records : List RecordData) → IsWithin records self.old
            → count ≤ length (records_to_come records self.old) → IsWithin records self.new }
    {
        self.tail += count;
    }

    /// Passes a record, whose file was not found as it says.
    pub(crate) fn cover(&mut self) -> Result<(), AllocError>
        requires { self.old.last.replaced < max_word }
        ensures tail { OnOk result (self.new.tail ≡ 0) }
        ensures replaced { OnOk result (self.new.last.replaced ≤ self.old.last.replaced + 1) }
        ensures rows { OnOk result ((records : List RecordData)
            → rows_made records self.new ≡ rows_made records self.old) }
        ensures left { OnOk result ((records : List RecordData)
            → records_to_come records self.new ≡ drop 1 (records_to_come records self.old)) }
        ensures within { OnOk result ((records : List RecordData) → IsWithin records self.old
            → 1 ≤ length (records_to_come records self.old) → IsWithin records self.new) }
        ensures same { OnErr result (IsSamePiece self.old self.new) }
        ensures same_tail { OnErr result (self.new.tail ≡ self.old.tail) }
        ensures same_last { OnErr result (self.new.last.replaced ≡ self.old.last.replaced) }
    {
        self.open()?;
        self.last.replaced += 1;
        Ok(())
    }

    /// Passes a record. Its file was not found, if the record says that it exists.
    pub(crate) fn miss(&mut self, known: &Record) -> Result<(), AllocError>
        requires tail { self.old.tail < max_word }
        requires replaced { self.old.last.replaced < max_word }
        ensures tail { OnOk result (self.new.tail ≤ self.old.tail + 1) }
        ensures replaced { OnOk result (self.new.last.replaced ≤ self.old.last.replaced + 1) }
        ensures rows { OnOk result ((records rest : List RecordData)
            → records_to_come records self.old ≡ known.now ∷ rest
            → rows_made records self.new ≡ rows_made records self.old) }
        ensures left { OnOk result ((records : List RecordData)
            → records_to_come records self.new ≡ drop 1 (records_to_come records self.old)) }
        ensures within { OnOk result ((records : List RecordData) → IsWithin records self.old
            → 1 ≤ length (records_to_come records self.old) → IsWithin records self.new) }
        ensures same { OnErr result (IsSamePiece self.old self.new) }
        ensures same_tail { OnErr result (self.new.tail ≡ self.old.tail) }
        ensures same_last { OnErr result (self.new.last.replaced ≡ self.old.last.replaced) }
    {
        if known.exists {
            return self.cover();
        }
        self.keep(1);
        Ok(())
    }

    /// Adds a row before the records that are not passed.
    pub(crate) fn add(&mut self, row: Seen) -> Result<(), AllocError>
        ensures tail { self.new.tail ≤ self.old.tail }
        ensures replaced { self.new.last.replaced ≤ self.old.last.replaced }
        ensures rows { OnOk result ((records : List RecordData)
            → rows_made records self.new ≡ rows_made records self.old ++ (row ∷ [])) }
        ensures left { OnOk result ((records : List RecordData)
            → records_to_come records self.new ≡ records_to_come records self.old) }
        ensures within { OnOk result ((records : List RecordData)
            → IsWithin records self.old → IsWithin records self.new) }
        ensures same { OnErr result (IsSamePiece self.old self.new) }
    {
        self.open()?;
        self.last.rows.push(row)?;
        Ok(())
    }

    /// Adds rows before the records that are not passed.
    pub(crate) fn add_all(&mut self, mut more: Vec<Seen>) -> Result<(), AllocError>
        ensures tail { self.new.tail ≤ self.old.tail }
        ensures replaced { self.new.last.replaced ≤ self.old.last.replaced }
        ensures rows { OnOk result ((records : List RecordData)
            → rows_made records self.new ≡ rows_made records self.old ++ more.items) }
        ensures left { OnOk result ((records : List RecordData)
            → records_to_come records self.new ≡ records_to_come records self.old) }
        ensures within { OnOk result ((records : List RecordData)
            → IsWithin records self.old → IsWithin records self.new) }
        ensures same { OnErr result (IsSamePiece self.old self.new) }
    {
        self.open()?;
        self.last.rows.append(&mut more)?;
        Ok(())
    }

    /// Begins a patch if records are kept after the last one, so that the last patch ends where the records begin that
    /// are not passed.
    fn open(&mut self) -> Result<(), AllocError>
        ensures open { OnOk result (self.new.tail ≡ 0) }
        ensures replaced { OnOk result (self.new.last.replaced ≤ self.old.last.replaced) }
        ensures same { IsSamePiece self.old self.new }
        ensures same_tail { OnErr result (self.new.tail ≡ self.old.tail) }
        ensures same_last { OnErr result (self.new.last.replaced ≡ self.old.last.replaced) }
    {
        if self.tail == 0 {
            return Ok(());
        }
        let open = Patch {
            kept: self.tail,
            replaced: 0,
            rows: Vec::new(self.alloc),
        };
        let last = mem::replace(&mut self.last, open);
        if let Err(failed) = self.done.push(last) {
            self.last = failed.value;
            return Err(AllocError);
        }
        self.tail = 0;
        Ok(())
    }

    /// Whether there are so many patches that rows for files that are as their records say take less memory than more
    /// patches would.
    pub(crate) fn is_full(&self) -> bool {
        self.tail == 0 && self.done.len() >= MOST_PATCHES
    }

    /// Puts the patches after others, and before them one that keeps so many records. Returns the number of records that
    /// are kept after the last patch.
    pub(crate) fn put(self, kept: usize, all: &mut Vec<Patch>) -> Result<usize, AllocError>
        ensures tail { IfOk result (λ tail. tail ≡ self.tail) }
        ensures patches { IfOk result (λ _.
            IsPut kept (patches_made self) all.old.items all.new.items) }
    {
        let PatchMaker {
            alloc,
            mut done,
            last,
            tail,
        } = self;
        all.push(Patch {
            kept,
            replaced: 0,
            rows: Vec::new(alloc),
        })?;
        all.append(&mut done)?;
        all.push(last)?;
        Ok(tail)
    }

    /// The row that was added last, if no record was passed after it.
    pub(crate) fn last_row(&self) -> Option<&Seen> {
        if self.tail > 0 {
            return None;
        }
        self.last.rows.last()
    }
}
