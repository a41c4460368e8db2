//! Records and rows side by side: for each name the record, the row or both, in the byte order of names. The change
//! that a pass makes in a record is for others.
ghost use Rattle.std.specs.Prelude.{◌≡◌, ◌≤◌, ◌∷◌, [], IfOk, IsTrue, MatchOption};
ghost use Rattle.wq_record.specs.Seen.{is_count};
ghost use Rattle.wq_view.specs.Merge.{has_record, is_unchanged, pair_after};
ghost use Rattle.wq_view.specs.Pair.{has_lawful_row, pair_data, pairs_left, rows_left};
ghost use Rattle.wq_view.specs.Run.{run_pairs, rows_behind};

use std::alloc::AllocError;
use wq_record::{MAX_TICK, Record, Seen};

/// When a pass was made: its tick, and its second of the Unix epoch.
#[derive(Clone, Copy)]
pub(crate) struct Moment {
    pub(crate) tick: u64,
    pub(crate) second: i64,
}

/// The record, the row or both of a name.
#[derive(Clone, Copy)]
pub(crate) enum Pair<'a> {
    /// A record whose name no row has.
    Old(&'a Record),
    /// A record, and the row of its name.
    Both(&'a Record, &'a Seen),
    /// A row whose name no record has.
    New(&'a Seen),
}

impl Pair<'_> {
    /// Whether the row says of the file just the same as the record. Without a row, whether the file does not exist.
    pub(crate) fn is_unchanged(self) -> bool
        ensures { result ≡ is_unchanged (pair_data self.entry) }
    {
        match self {
            Pair::Old(record) => !record.exists,
            Pair::Both(record, row) => record.exists && record.has_stat_of(row),
            Pair::New(_) => false,
        }
    }

    /// Whether a record has the name.
    pub(crate) fn has_record(self) -> bool
        ensures { result ≡ has_record (pair_data self.entry) }
    {
        !matches!(self, Pair::New(_))
    }

    /// The record of the name after a pass, if it is known whether the pass leaves it as it is.
    #[tactic(auto, using(crate::proofs::Runs::absent_stays, crate::proofs::Runs::same_stays))]
    pub(crate) fn after_if(self, stays: bool, at: &Moment) -> Result<Record, AllocError>
        requires lawful { IsTrue (has_lawful_row (pair_data self)) }
        requires tick { at.now.tick ≤ MAX_TICK }
        requires second { IsTrue (is_count at.now.second) }
        requires stays { stays ≡ is_unchanged (pair_data self) }
        ensures { IfOk result (λ r.
            r ≡ pair_after at.now.tick at.now.second (pair_data self.entry)) }
    {
        match self {
            Pair::Old(record) if stays => record.copy(),
            Pair::Both(record, _) if stays => record.copy(),
            _ => self.after(at),
        }
    }

    /// The record of the name after a pass that saw the row, or saw no file of this name.
    fn after(self, at: &Moment) -> Result<Record, AllocError>
        requires lawful { IsTrue (has_lawful_row (pair_data self)) }
        requires tick { at.now.tick ≤ MAX_TICK }
        requires second { IsTrue (is_count at.now.second) }
        ensures { IfOk result (λ r.
            r ≡ pair_after at.now.tick at.now.second (pair_data self.entry)) }
    {
        match self {
            Pair::Old(record) => {
                let mut after = record.copy()?;
                after.observe_absence(at.tick, at.second);
                Ok(after)
            }
            Pair::Both(record, row) => {
                let mut after = record.copy()?;
                after.observe(row, at.tick, at.second);
                Ok(after)
            }
            Pair::New(row) => {
                let mut after = Record::blank(row)?;
                after.observe(row, at.tick, at.second);
                Ok(after)
            }
        }
    }
}

/// The pairs of a run of records and the rows that belong to it. These are the rows up to the name of its last record.
/// Records and rows have rising names.
#[derive(Drop)]
pub(crate) struct Pairs<'a> {
    records: &'a [Record],
    rows: &'a [Seen],
}

impl<'a> Pairs<'a> {
    /// The pairs of these records and rows.
    pub(crate) fn of(records: &'a [Record], rows: &'a [Seen]) -> Pairs<'a>
        ensures pairs { pairs_left result ≡ run_pairs records.now rows.now }
        ensures rows { rows_left result ≡ rows_behind records.now rows.now }
    {
        Pairs { records, rows }
    }

    /// Takes the first pair.
    #[inline(always)]
    #[tactic(auto, using(crate::proofs::NameOrder::order_of_same, wq_base::proofs::Facts::less_from_lt, crate::proofs::NameOrder::order_of_others))]
    pub(crate) fn take(&mut self) -> Option<Pair<'a>>
        ensures pairs { MatchOption result
            ((pairs_left self.old ≡ []) × (self.new.rows.now ≡ rows_left self.old))
            (λ pair. pairs_left self.old ≡ pair_data pair ∷ pairs_left self.new) }
        ensures rows { rows_left self.new ≡ rows_left self.old }
    {
        match (self.records.split_first(), self.rows.split_first()) {
            // Mostly the names are the same, and this test finds it soonest.
            (Some((record, records)), Some((row, rows))) if record.has_name_of(row) => {
                self.records = records;
                self.rows = rows;
                Some(Pair::Both(record, row))
            }
            (Some((record, records)), Some((row, _)))
                if record.name_order(row.name.as_slice()).is_lt() => {
                self.records = records;
                Some(Pair::Old(record))
            }
            (Some(_), Some((row, rows))) => {
                self.rows = rows;
                Some(Pair::New(row))
            }
            (Some((record, records)), None) => {
                self.records = records;
                Some(Pair::Old(record))
            }
            (None, _) => None,
        }
    }

    /// The rows that were not taken yet.
    pub(crate) fn rows(&self) -> &'a [Seen]
        ensures { result.now ≡ self.now.rows.now }
    {
        self.rows
    }
}
