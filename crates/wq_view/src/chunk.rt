//! A chunk of a view's records. Views share chunks.
ghost use Rattle.std.specs.Prelude.{◌≡◌, ◌≤◌, length, IfOk, IsTrue};
ghost use Rattle.std.specs.List.{list_all};
ghost use Rattle.wq_record.specs.Seen.{is_lawful_row};
ghost use Rattle.wq_view.specs.SeenRows.{seen_rows};
ghost use Rattle.wq_view.specs.Limit.{max_chunk};
ghost use Rattle.wq_view.specs.Sought.{sought_texts};
ghost use Rattle.wq_view.specs.Suffix.{AreFlagged, folded_suffixes};

use crate::existence::existing_in;
use crate::sought::Sought;
use crate::suffix::SuffixTable;
use crate::suffix_search::Flagged;
use std::alloc::{AllocError, Global};
use std::marker::Model;
use std::sync::Arc;
use wq_record::Record;

/// From 1 to 4,096 records, one after the other in the byte order of their names.
#[derive(Drop)]
pub(crate) struct Chunk {
    records: Vec<Record>,
    suffixes: SuffixTable,
    /// The number of records whose files exist.
    existing: usize,
}

impl Model for Chunk {
    ghost use Rattle.std.specs.Prelude.{◌≡◌, ◌≤◌, IsTrue, List, length, vec_len};
    ghost use Rattle.std.specs.Coded.{coded_list};
    ghost use Rattle.std.specs.List.{list_all};
    ghost use Rattle.wq_view.specs.SeenRows.{seen_rows};
    ghost use Rattle.wq_view.specs.Limit.{max_chunk};
    ghost use Rattle.wq_record.specs.RecordData.{RecordData, record_code};
    ghost use Rattle.wq_record.specs.Seen.{is_lawful_row};
    ghost use Rattle.wq_view.specs.Suffix.{IsNumbered, folded_suffixes, first_places};

    ghost Value = { List RecordData };

    ghost coded = { coded_list record_code };

    ghost view = { λ c. c.records.items };

    ghost invariant = { λ c. (1 ≤ vec_len c.records) × (vec_len c.records ≤ max_chunk)
        × IsNumbered (folded_suffixes c.records.items) (first_places c.suffixes.firsts.items)
        c.suffixes.numbers.items
        × (c.existing ≡ length (seen_rows c.records.items))
        × IsTrue (list_all is_lawful_row (seen_rows c.records.items)) };
}

impl Chunk {
    /// The chunk of these records.
    pub(crate) fn of(alloc: Global, records: Vec<Record>) -> Result<Chunk, AllocError>
        requires some { 1 ≤ length records.items }
        requires few { length records.items ≤ max_chunk }
        ensures { IfOk result (λ chunk. chunk ≡ records.items) }
    {
        let suffixes = SuffixTable::of(alloc, &records)?;
        let existing = existing_in(&records);
        Ok(Chunk {
            records,
            suffixes,
            existing,
        })
    }

    /// The chunk of these records, which have the names of this chunk.
    pub(crate) fn of_same_names(
        &self,
        alloc: Global,
        records: Vec<Record>,
    ) -> Result<Chunk, AllocError>
        requires { folded_suffixes records.items ≡ folded_suffixes self.now }
        ensures { IfOk result (λ chunk. chunk ≡ records.items) }
    {
        let suffixes = self.suffixes.copy(alloc)?;
        let existing = existing_in(&records);
        Ok(Chunk {
            records,
            suffixes,
            existing,
        })
    }

    /// The records.
    pub(crate) fn records(&self) -> &[Record]
        ensures value { result.now ≡ self.now }
        ensures some { 1 ≤ length self.now }
        ensures few { length self.now ≤ max_chunk }
    {
        &self.records
    }

    /// The number of records whose files exist.
    pub(crate) fn existing(&self) -> usize
        ensures count { result ≡ length (seen_rows self.now) }
        ensures lawful { IsTrue (list_all is_lawful_row (seen_rows self.now)) }
    {
        self.existing
    }

    /// The records, and which suffixes among theirs are sought.
    pub(crate) fn flagged(&self, sought: Sought<'_>) -> Flagged<'_>
        ensures flagged { AreFlagged (sought_texts sought.entry) result.flags result.numbers.now
            result.records.now }
        ensures records { result.records.now ≡ self.now }
    {
        Flagged {
            records: &self.records,
            numbers: &self.suffixes.numbers,
            flags: self.suffixes.flags(&self.records, sought),
        }
    }
}

/// A chunk, and the number of records up to its last one.
#[derive(Drop)]
pub(crate) struct Slot {
    pub(crate) end: usize,
    pub(crate) chunk: Arc<Chunk>,
}
