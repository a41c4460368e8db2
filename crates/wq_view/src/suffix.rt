//! The search for records by suffix. Each chunk numbers the suffixes of its records and keeps one byte for each record,
//! the number of its suffix. So the search compares each suffix of a chunk once, and reads no other name.
ghost use Rattle.std.specs.Prelude.{◌≡◌, ◌≤◌, ◌<◌, [], length, IfOk, IfSome, get_or};
ghost use Rattle.std.specs.Str.{str_to_ascii_lowercase};
ghost use Rattle.wq_view.specs.Limit.{max_chunk};
ghost use Rattle.wq_view.specs.Sought.{sought_texts};
ghost use Rattle.wq_view.specs.Suffix.{AreFlagged, AreNumberFlags, ArePlaces, IsNumberFor, IsNumbered, first_places, folded_suffixes};

use crate::sought::Sought;
use std::alloc::{AllocError, Global};
use wq_base::Case;
use wq_record::Record;

/// The greatest number of suffixes in a chunk that have a number of their own. It is itself the number of all others.
pub(crate) const OTHER: usize = 255;

/// The first record with a suffix.
#[derive(Clone, Copy)]
pub(crate) struct First {
    /// Its place in the chunk.
    pub(crate) at: u16,
    /// A byte that follows from its suffix. Suffixes that differ in letter case alone have one mark.
    pub(crate) mark: u8,
}

/// The suffixes of the records of a chunk. Suffixes that differ in letter case alone are one.
#[derive(Drop)]
pub(crate) struct SuffixTable {
    /// For each suffix the first record with it. The place in this list is the number of the suffix.
    pub(crate) firsts: Vec<First>,
    /// For each record the number of its suffix, or 255 if 255 others were there before it.
    pub(crate) numbers: Vec<u8>,
}

impl SuffixTable {
    /// The table of these records.
    pub(crate) fn of(alloc: Global, records: &[Record]) -> Result<SuffixTable, AllocError>
        requires { length records.now ≤ max_chunk }
        ensures { IfOk result (λ table. IsNumbered (folded_suffixes records.now)
            (first_places table.firsts.items) table.numbers.items) }
    {
        let mut firsts = Vec::new(alloc);
        let mut numbers = Vec::with_capacity(alloc, records.len())?;
        for at in 0..records.len() {
            numbers.push(number_for(&mut firsts, records, at)?)?;
        }
        Ok(SuffixTable { firsts, numbers })
    }

    /// The same table, for other records with the same suffixes.
    pub(crate) fn copy(&self, alloc: Global) -> Result<SuffixTable, AllocError>
        ensures firsts { IfOk result (λ table. table.firsts.items ≡ self.now.firsts.items) }
        ensures numbers { IfOk result (λ table. table.numbers.items ≡ self.now.numbers.items) }
    {
        Ok(SuffixTable {
            firsts: Vec::from_slice(alloc, &self.firsts)?,
            numbers: Vec::from_slice(alloc, &self.numbers)?,
        })
    }

    /// Says for each number whether suffixes with it are sought. This is the table of the records. The number of all
    /// other suffixes is flagged, since such a suffix has to be looked at.
    pub(crate) fn flags(&self, records: &[Record], sought: Sought<'_>) -> [bool; 256]
        requires { IsNumbered (folded_suffixes records.now) (first_places self.now.firsts.items)
            self.now.numbers.items }
        ensures { AreFlagged (sought_texts sought.entry) result self.now.numbers.items records.now }
    {
        flags_of(&self.firsts, records, sought)
    }
}

/// The number of the suffix of the record at this place. A suffix that is new gets the next number.
fn number_for(firsts: &mut Vec<First>, records: &[Record], at: usize) -> Result<u8, AllocError>
    requires at { at < length records.now }
    requires few { length records.now ≤ max_chunk }
    requires places { ArePlaces (length records.now) (first_places firsts.old.items) }
    ensures { IfOk result (λ number. IsNumberFor (folded_suffixes records.now) at
        (first_places firsts.old.items) (first_places firsts.new.items) number) }
{
    let suffix = records[at].suffix();
    let mark = mark_of(suffix);
    if let Some(number) = number_of(firsts, records, suffix, mark) {
        return Ok(number);
    }
    let number = firsts.len();
    if number >= OTHER {
        return Ok(OTHER as u8);
    }
    let at = at as u16;
    firsts.push(First { at, mark })?;
    Ok(number as u8)
}

/// The number of a suffix with this mark, if one is found.
fn number_of(firsts: &[First], records: &[Record], suffix: &[u8], mark: u8) -> Option<u8>
    requires { ArePlaces (length records.now) (first_places firsts.now) }
    ensures { IfSome result (λ number. (number < length firsts.now)
        × (get_or (folded_suffixes records.now) (get_or (first_places firsts.now) number 0) []
        ≡ str_to_ascii_lowercase suffix.now)) }
{
    for (number, first) in firsts.iter().enumerate() {
        let known = records[first.at as usize].suffix();
        if first.mark == mark && Case::Folded.is_same(known, suffix) {
            return Some(number as u8);
        }
    }
    None
}

/// The mark of a suffix.
fn mark_of(suffix: &[u8]) -> u8 {
    let mut mark = 0u8;
    for byte in suffix {
        mark = mark
            .wrapping_mul(31)
            .wrapping_add(byte.to_ascii_lowercase());
    }
    mark
}

/// Says for each suffix with a number whether it is sought.
fn flags_of(firsts: &[First], records: &[Record], sought: Sought<'_>) -> [bool; 256]
    requires { ArePlaces (length records.now) (first_places firsts.now) }
    ensures { AreNumberFlags (sought_texts sought.entry) (folded_suffixes records.now) (first_places firsts.now)
        result }
{
    let mut flags = [false; 256];
    flags[OTHER] = true;
    for (number, first) in firsts.iter().enumerate() {
        flags[number] = sought.has(records[first.at as usize].suffix());
    }
    flags
}
