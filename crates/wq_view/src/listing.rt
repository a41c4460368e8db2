//! Listings of a tree: rows as a walker saw them, and the pass that rows without a fault make. The crate of walks reads
//! the directories.
ghost use Rattle.std.specs.Prelude.{◌≡◌, ◌==◌, ◌<◌, ◌↔◌, false, Some, None, MatchResult, IfSome, IfNone, IfErr, List, [], length, ◌≤◌, IfOk, map, take, bytes_eq, slice_get, IsTrue, IsPermutation};
ghost use Rattle.std.specs.FinMap.{is_sorted, len};
ghost use Rattle.std.specs.List.{list_all, IsDistinct};
ghost use Rattle.wq_view.specs.Limit.{max_listing_rows};
ghost use Rattle.wq_record.specs.Seen.{entry_of, is_lawful_row, is_count};
ghost use Rattle.wq_record.specs.RecordData.{RecordData};
ghost use Rattle.wq_view.specs.Patch.{patched};
ghost use Rattle.wq_view.specs.Patching.{ArePatches};
ghost use Rattle.wq_view.specs.View.{NamesRise};
ghost use Rattle.wq_view.specs.declared.patch.Patch.{Patch};
ghost use Rattle.wq_record.specs.Name.{name_cmp};
ghost use Rattle.wq_view.specs.Listing.{names_of, listing_of, listing_fault, is_of_whole, row_fault};

use crate::change::Change;
use crate::limit::{MAX_LISTING_ROWS, MAX_RECORDS};
use crate::patch::Patch;
use crate::view::View;
use std::marker::Model;
use std::slice;
use thiserror::Error;
use wq_record::{Seen, is_count, is_valid_name};

/// The reason for which rows make no pass.
#[derive(Clone, Copy, Debug, PartialEq, Eq, Drop, Error)]
pub enum PassFault {
    /// A row has a name that is not valid.
    #[error("a name is not valid")]
    BadName,
    /// A row has the name of an earlier row.
    #[error("a name stands twice")]
    NameTwice,
    /// There are more than 1,000,000 rows.
    #[error("too many rows")]
    TooManyRows,
    /// A size or a second is not from 0 to 2^62, or a time is not from -2^62 to 2^62.
    #[error("a number is out of range")]
    OutOfRange,
    /// Memory ran out, for callers that make rows and a pass in one step. A pass of given rows takes no memory.
    #[error("no memory")]
    NoMemory,
}

/// The result of one pass over a tree: one row for each name, and the second at which the pass was made.
#[derive(Drop)]
pub struct Pass {
    /// The rows, in the place of all records that a view can have.
    whole: Patch,
    second: i64,
}

impl Model for Pass {
    ghost use Rattle.std.specs.Prelude.{map};
    ghost use Rattle.std.specs.FinMap.{from_sorted};
    ghost use Rattle.wq_record.specs.Seen.{entry_of};
    ghost use Rattle.wq_record.specs.Name.{name_cmp};
    ghost use Rattle.wq_view.specs.Listing.{PassData, pass_code, IsPass};
    ghost use Rattle.wq_view.specs.Patch.{ReplacesAll};

    ghost Value = { PassData };

    ghost coded = { pass_code };

    ghost view = { λ p.
        record { stats = from_sorted (map entry_of p.whole.rows.items); second = p.second } };

    ghost invariant = { λ p. IsPass p.whole.rows.items p.second
        × ReplacesAll p.whole.kept p.whole.replaced };
}

impl Pass {
    /// The pass that these rows make. The rows may be in any order. They were seen at this second of the Unix epoch.
    ///
    /// The first fault refuses the rows: too many rows, and then the second. After that the faults of rows come, row by
    /// row: a name that is not valid, a number out of range, a name that an earlier row has. The call takes no memory.
    pub fn new(mut rows: Vec<Seen>, second: i64) -> Result<Pass, PassFault>
        ensures fault { MatchResult result
            (λ _. listing_fault rows.items second ≡ None)
            (λ fault. listing_fault rows.items second ≡ Some fault) }
        ensures pass { IfOk result (λ pass. pass ≡ listing_of rows.items second) }
    {
        let count = rows.len();
        if count > MAX_LISTING_ROWS {
            return Err(PassFault::TooManyRows);
        }
        match first_unlawful(&rows) {
            Some(at) if is_count(second) => Err(first_fault(&mut rows, at)),
            Some(_) => Err(PassFault::OutOfRange),
            None => Pass::of_few(rows, second),
        }
    }

    /// The pass that these rows make, as [`Pass::new`] makes it, if no row has a fault of its own. No row is tested.
    /// The remaining faults are too many rows, the second, and then a name that an earlier row has.
    pub fn of_lawful(rows: Vec<Seen>, second: i64) -> Result<Pass, PassFault>
        requires { IsTrue (list_all is_lawful_row rows.items) }
        ensures fault { MatchResult result
            (λ _. listing_fault rows.items second ≡ None)
            (λ fault. listing_fault rows.items second ≡ Some fault) }
        ensures whole { IfErr result (λ fault. IsTrue (is_of_whole fault)) }
        ensures pass { IfOk result (λ pass. pass ≡ listing_of rows.items second) }
    {
        if rows.len() > MAX_LISTING_ROWS {
            return Err(PassFault::TooManyRows);
        }
        Pass::of_few(rows, second)
    }

    /// The pass that these rows make. The rows are not too many, and no row has a fault of its own.
    fn of_few(mut rows: Vec<Seen>, second: i64) -> Result<Pass, PassFault>
        requires few { length rows.items ≤ MAX_LISTING_ROWS }
        requires lawful { IsTrue (list_all is_lawful_row rows.items) }
        ensures fault { MatchResult result
            (λ _. listing_fault rows.items second ≡ None)
            (λ fault. listing_fault rows.items second ≡ Some fault) }
        ensures whole { IfErr result (λ fault. IsTrue (is_of_whole fault)) }
        ensures pass { IfOk result (λ pass. pass ≡ listing_of rows.items second) }
    {
        if !is_count(second) {
            return Err(PassFault::OutOfRange);
        }
        if !sort_by_name(&mut rows) {
            return Err(PassFault::NameTwice);
        }
        let whole = Patch {
            kept: 0,
            replaced: MAX_RECORDS,
            rows,
        };
        Ok(Pass { whole, second })
    }

    /// The fault of a pass at this second whose rows differ by patches that fit from the records of a view, if it has one.
    pub fn fault_of_patches(second: i64) -> Option<PassFault>
        ensures fault { (records : List RecordData) (patches : List Patch) → NamesRise records
            → ArePatches records patches → IsTrue (list_all is_lawful_row (patched records patches))
            → length (patched records patches) ≤ max_listing_rows
            → result ≡ listing_fault (patched records patches) second }
        ensures second { result ≡ None → IsTrue (is_count second) }
        ensures whole { IfSome result (λ fault. IsTrue (is_of_whole fault)) }
    {
        if is_count(second) {
            None
        } else {
            Some(PassFault::OutOfRange)
        }
    }

    /// The pass as it differs from a view of its root. The call takes no memory.
    pub fn over<'a>(&'a self, view: &View) -> Change<'a>
        ensures { result ≡ record { base = view.now; pass = self.now } }
    {
        let second = self.second();
        // The patch replaces as many records.
        view.len();
        Change::of(view, slice::from_ref(&self.whole), second)
    }

    /// Whether the pass saw no file.
    pub fn is_empty(&self) -> bool
        ensures { result ≡ (len (self.now).stats == 0) }
    {
        self.whole.rows.is_empty()
    }

    /// The second of the Unix epoch at which the pass was made.
    pub fn second(&self) -> i64
        ensures value { result ≡ self.now.second }
        ensures range { IsTrue (is_count result) }
    {
        self.second
    }
}

/// The place of the first row that has a fault of its own.
fn first_unlawful(rows: &[Seen]) -> Option<usize>
    ensures none { IfNone result (IsTrue (list_all is_lawful_row rows.now)) }
    ensures bound { IfSome result (λ at. at < length rows.now) }
    ensures before { IfSome result (λ at. IsTrue (list_all is_lawful_row (take at rows.now))) }
    ensures here { IfSome result (λ at.
        IfSome (slice_get rows.now at) (λ row. is_lawful_row row ≡ false)) }
{
    for (at, row) in rows.iter().enumerate() {
        if !row.is_lawful() {
            return Some(at);
        }
    }
    None
}

/// The first fault of rows whose first row with a fault of its own is at this place.
fn first_fault(rows: &mut [Seen], at: usize) -> PassFault
    requires before { IsTrue (list_all is_lawful_row (take at rows.old)) }
    requires bound { at < length rows.old }
    requires here { IfSome (slice_get rows.old at) (λ row. is_lawful_row row ≡ false) }
    ensures { row_fault [] rows.old ≡ Some result }
{
    let row = &rows[at];
    let has_bad_name = !is_valid_name(row.name.as_slice());
    if !sort_by_name(&mut rows[..at]) {
        PassFault::NameTwice
    } else if has_bad_name {
        PassFault::BadName
    } else {
        PassFault::OutOfRange
    }
}

/// Sorts rows in the byte order of their names, and returns whether no name comes twice.
fn sort_by_name(rows: &mut [Seen]) -> bool
    ensures same { IsPermutation rows.old rows.new }
    ensures distinct { IsTrue result ↔ IsDistinct bytes_eq (names_of rows.old) }
    ensures rise { IsTrue result → IsTrue (is_sorted name_cmp (map entry_of rows.new)) }
{
    if names_rise(rows) {
        return true;
    }
    rows.sort_unstable_by(|a, b| a.name.as_slice().cmp(b.name.as_slice()));
    names_rise(rows)
}

/// Whether each name is below the next.
pub(crate) fn names_rise(rows: &[Seen]) -> bool
    ensures { result ≡ is_sorted name_cmp (map entry_of rows.now) }
{
    rows.is_sorted_by(|a, b| a.name.as_slice().cmp(b.name.as_slice()).is_lt())
}
