//! The records of a view, or of a run of its positions, one after the other.
ghost use Rattle.std.specs.Prelude.{◌≡◌, [], drop, length, take, IsTrue};
ghost use Rattle.std.specs.List.{list_all};
ghost use Rattle.wq_record.specs.Seen.{is_lawful_row};
ghost use Rattle.wq_view.specs.Chunk.{records_in};
ghost use Rattle.wq_view.specs.Records.{records_left};
ghost use Rattle.wq_view.specs.SeenRows.{seen_rows};

use crate::chunk::Slot;
use crate::stretch::Stretch;
use wq_record::Record;

/// Records in the byte order of their names, as an iterator.
#[derive(Clone, Copy)]
pub struct Records<'a> {
    /// The rest of the current chunk.
    pub(crate) records: &'a [Record],
    /// The chunks after it.
    pub(crate) slots: &'a [Slot],
}

impl<'a> Records<'a> {
    /// No records.
    pub fn none() -> Records<'a>
        ensures { records_left result ≡ [] }
    {
        Records::of(&[])
    }

    /// The records in these slots.
    pub(crate) fn of(slots: &'a [Slot]) -> Records<'a>
        ensures { records_left result ≡ records_in slots.now }
    {
        Records {
            records: &[],
            slots,
        }
    }

    /// Whether there is none.
    pub(crate) fn is_empty(self) -> bool {
        self.records.is_empty() && self.slots.is_empty()
    }

    /// The records after the first `count` of these.
    pub fn after(self, count: usize) -> Records<'a>
        ensures { records_left result ≡ drop count (records_left self.entry) }
    {
        let mut left = self;
        let mut more = count;
        while let Some(stretch) = Stretch::take(&mut left, more) {
            more -= stretch.len();
        }
        left
    }

    /// The first `most` of these records, or all if there are fewer. Nothing looks at the records of a whole chunk.
    pub fn run(self, most: usize) -> RecordRun<'a>
        ensures len { result.len ≡ length (take most (records_left self.entry)) }
        ensures existing { result.existing
            ≡ length (seen_rows (take most (records_left self.entry))) }
        ensures left { records_left result.left ≡ drop most (records_left self.entry) }
        ensures lawful { IsTrue (list_all is_lawful_row
            (seen_rows (take most (records_left self.entry)))) }
    {
        let mut len = 0usize;
        let mut existing = 0usize;
        let mut left = self;
        let mut more = most;
        while let Some(stretch) = Stretch::take(&mut left, more) {
            len += stretch.len();
            existing += stretch.existing();
            more -= stretch.len();
        }
        RecordRun {
            len,
            existing,
            left,
        }
    }
}

/// Some records that come one after the other, and those after them.
#[derive(Clone, Copy)]
pub struct RecordRun<'a> {
    /// The number of records.
    pub len: usize,
    /// The number of those whose files exist.
    pub existing: usize,
    /// The records after them.
    pub left: Records<'a>,
}

impl<'a> Iterator for Records<'a> {
    ghost use Rattle.std.specs.Iterator.{YieldsFirstBy, item_count};
    ghost use Rattle.wq_view.specs.Records.{record_value, records_left};

    type Item = &'a Record;

    ghost next_gives = { YieldsFirstBy record_value records_left };

    ghost remaining = { item_count records_left };

    fn next(&mut self) -> Option<&'a Record> {
        while self.records.is_empty() {
            let (slot, later) = self.slots.split_first()?;
            self.records = slot.chunk.records();
            self.slots = later;
        }
        let (record, later) = self.records.split_first()?;
        self.records = later;
        Some(record)
    }
}
