//! The record that a view keeps of one file, and the changes that a pass makes in it. `wq_view` has the list of all records.
ghost use Rattle.std.specs.Prelude.{◌≡◌, ◌≤◌, Some, None, IfOk, IsTrue, bytes_eq};
ghost use Rattle.wq_base.specs.Name.{basename_of, suffix_of};
ghost use Rattle.wq_record.specs.Name.{is_valid_name};
ghost use Rattle.wq_record.specs.Seen.{stat_of, same_stat, is_lawful_row, is_count};
ghost use Rattle.wq_record.specs.Name.{name_cmp};
ghost use Rattle.wq_base.specs.Name.{seconds_of};
ghost use Rattle.wq_record.specs.RecordData.{last_stat, blank_record, after_change, after_creation, record_after};

use crate::kind::Kind;
use crate::limit::MAX_TICK;
use crate::name::{Name, after_last, suffix_of};
use crate::seen::Seen;
use std::alloc::AllocError;
use std::cmp::Ordering;
use std::marker::Model;

/// The number of milliseconds in a second.
const MILLISECONDS: i64 = 1000;

/// The record that a view keeps of one file, deleted or not. A tick is the number of a pass over
/// the root.
#[derive(Drop)]
pub struct Record {
    pub name: Name,
    /// In bytes, from 0 to 2^62.
    pub size: i64,
    /// The modification time, in milliseconds of the Unix epoch, from -2^62 to 2^62.
    pub mtime_ms: i64,
    /// The tick of the pass that saw the file come.
    pub ctick: u64,
    /// The tick of the last pass that saw a change of the file, its deletion too.
    pub otick: u64,
    /// The second of the Unix epoch of the pass `ctick`.
    pub csec: i64,
    /// The second of the Unix epoch of the pass `otick`.
    pub osec: i64,
    pub kind: Kind,
    /// Whether the last pass saw the file. If it did not, kind, size and time are those of the last pass that did.
    pub exists: bool,
}

impl Model for Record {
    ghost use Rattle.wq_record.specs.RecordData.{RecordData, record_code, IsLawful};

    ghost Value = { RecordData };

    ghost coded = { record_code };

    ghost use Rattle.wq_record.specs.Record.{record_data};

    ghost view = { record_data };

    ghost invariant = { λ r. IsLawful (record_data r) };
}

impl Record {
    /// The part after the last slash of the name.
    pub fn basename(&self) -> &[u8]
        ensures { result.now ≡ basename_of self.now.name }
    {
        let name = self.name.as_bytes();
        after_last(b'/', name).unwrap_or(name)
    }

    /// The part after the last dot of the basename, or nothing if it has no dot. The suffix of `.php` is `php`.
    pub fn suffix(&self) -> &[u8]
        ensures { result.now ≡ suffix_of self.now.name }
    {
        suffix_of(self.name.as_bytes())
    }

    /// The modification time in whole seconds of the Unix epoch, rounded down: -1 ms is in second -1.
    pub fn mtime(&self) -> i64
        ensures { result ≡ seconds_of self.now.mtime_ms }
    {
        self.mtime_ms.div_euclid(MILLISECONDS)
    }

    /// The record of a name that no pass has seen yet.
    pub fn blank(row: &Seen) -> Result<Record, AllocError>
        requires { IsTrue (is_lawful_row row.now) }
        ensures { IfOk result (λ r. r ≡ blank_record row.now.name) }
    {
        Ok(Record {
            name: Name::share(&row.name)?,
            size: 0,
            mtime_ms: 0,
            ctick: 0,
            otick: 0,
            csec: 0,
            osec: 0,
            kind: Kind::Unknown,
            exists: false,
        })
    }

    /// An equal record, which shares the name.
    pub fn copy(&self) -> Result<Record, AllocError>
        ensures { IfOk result (λ r. r ≡ self.now) }
    {
        Ok(Record {
            name: self.name.copy()?,
            size: self.size,
            mtime_ms: self.mtime_ms,
            ctick: self.ctick,
            otick: self.otick,
            csec: self.csec,
            osec: self.osec,
            kind: self.kind,
            exists: self.exists,
        })
    }

    /// How the record's name compares to another in byte order.
    pub fn name_order(&self, name: &[u8]) -> Ordering
        ensures { result ≡ name_cmp self.now.name name.now }
    {
        self.name.as_bytes().cmp(name)
    }

    /// Whether the row has the record's name.
    pub fn has_name_of(&self, row: &Seen) -> bool
        ensures { result ≡ bytes_eq self.now.name row.now.name }
    {
        self.name.as_bytes() == row.name.as_slice()
    }

    /// Whether the row has the kind, size and time that were last seen of the file.
    pub fn has_stat_of(&self, row: &Seen) -> bool
        ensures { result ≡ same_stat (last_stat self.now) (stat_of row.now) }
    {
        self.kind == row.kind && self.size == row.size && self.mtime_ms == row.mtime_ms
    }

    /// Changes the record by a row that a pass saw of the file.
    pub fn observe(&mut self, row: &Seen, tick: u64, second: i64)
        requires row { IsTrue (is_lawful_row row.now) }
        requires tick { tick ≤ MAX_TICK }
        requires second { IsTrue (is_count second) }
        ensures { self.new ≡ record_after self.old (Some (stat_of row.now)) tick second }
    {
        if !self.exists {
            self.come(row, tick, second);
        } else if !self.has_stat_of(row) {
            self.change(row, tick, second);
        }
    }

    /// Notes that the file exists, and did not exist before.
    fn come(&mut self, row: &Seen, tick: u64, second: i64)
        requires row { IsTrue (is_lawful_row row.now) }
        requires tick { tick ≤ MAX_TICK }
        requires second { IsTrue (is_count second) }
        ensures { self.new ≡ after_creation self.old (stat_of row.now) tick second }
    {
        self.exists = true;
        self.ctick = tick;
        self.csec = second;
        self.change(row, tick, second);
    }

    /// Notes that the file changed.
    fn change(&mut self, row: &Seen, tick: u64, second: i64)
        requires row { IsTrue (is_lawful_row row.now) }
        requires tick { tick ≤ MAX_TICK }
        requires second { IsTrue (is_count second) }
        ensures { self.new ≡ after_change self.old (stat_of row.now) tick second }
    {
        self.kind = row.kind;
        self.size = row.size;
        self.mtime_ms = row.mtime_ms;
        self.otick = tick;
        self.osec = second;
    }

    /// Changes the record by a pass that did not see the file.
    pub fn observe_absence(&mut self, tick: u64, second: i64)
        requires tick { tick ≤ MAX_TICK }
        requires second { IsTrue (is_count second) }
        ensures { self.new ≡ record_after self.old None tick second }
    {
        if self.exists {
            self.exists = false;
            self.otick = tick;
            self.osec = second;
        }
    }
}
