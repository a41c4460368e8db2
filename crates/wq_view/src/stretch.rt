//! Records that are one after the other in one chunk.
ghost use Rattle.std.specs.Prelude.{◌≡◌, ◌≤◌, ◌++◌, [], drop, length, take, IfNone, IfSome, IsTrue};
ghost use Rattle.std.specs.List.{list_all};
ghost use Rattle.wq_record.specs.Seen.{is_lawful_row};
ghost use Rattle.wq_view.specs.SeenRows.{seen_rows};
ghost use Rattle.wq_view.specs.Records.{records_left};
ghost use Rattle.wq_view.specs.Stretch.{stretch_records};

use crate::chunk::Slot;
use crate::existence::existing_in;
use crate::records::Records;
use wq_record::Record;

/// The next records of a view, all in one chunk.
#[derive(Clone, Copy)]
pub(crate) enum Stretch<'a> {
    /// All records of a chunk.
    Chunk(&'a Slot),
    /// The first records of this chunk, and not all.
    Start(&'a Slot, &'a [Record]),
    /// Records of a chunk whose first ones were taken.
    Rest(&'a [Record]),
}

impl<'a> Stretch<'a> {
    /// Takes the next records, at most so many. There are none if none is left, or none is to be taken.
    pub(crate) fn take(records: &mut Records<'a>, most: usize) -> Option<Stretch<'a>>
        ensures none { IfNone result (take most (records_left records.old) ≡ []) }
        ensures rest { IfNone result
            (drop most (records_left records.old) ≡ records_left records.new) }
        ensures taken { IfSome result (λ stretch. records_left records.old
            ≡ stretch_records stretch ++ records_left records.new) }
        ensures some { IfSome result (λ stretch. 1 ≤ length (stretch_records stretch)) }
        ensures few { IfSome result (λ stretch. length (stretch_records stretch) ≤ most) }
    {
        if most == 0 {
            return None;
        }
        if !records.records.is_empty() {
            let (first, later) = records.records.split_at(records.records.len().min(most));
            records.records = later;
            return Some(Stretch::Rest(first));
        }
        let (slot, slots) = records.slots.split_first()?;
        records.slots = slots;
        let all = slot.chunk.records();
        if all.len() <= most {
            return Some(Stretch::Chunk(slot));
        }
        let (first, later) = all.split_at(most);
        records.records = later;
        Some(Stretch::Start(slot, first))
    }

    /// The records.
    pub(crate) fn records(self) -> &'a [Record]
        ensures { result.now ≡ stretch_records self.entry }
    {
        match self {
            Stretch::Chunk(slot) => slot.chunk.records(),
            Stretch::Start(_, records) => records,
            Stretch::Rest(records) => records,
        }
    }

    /// The number of records.
    pub(crate) fn len(self) -> usize
        ensures { result ≡ length (stretch_records self.entry) }
    {
        self.records().len()
    }

    /// The number of records whose files exist. Nothing looks at the records of a whole chunk.
    pub(crate) fn existing(self) -> usize
        ensures count { result ≡ length (seen_rows (stretch_records self.entry)) }
        ensures lawful { IsTrue (list_all is_lawful_row (seen_rows (stretch_records self.entry))) }
    {
        match self {
            Stretch::Chunk(slot) => slot.chunk.existing(),
            Stretch::Start(_, records) => existing_in(records),
            Stretch::Rest(records) => existing_in(records),
        }
    }
}
