//! A view whose looks are counted. So the cost of a search for candidates can be stated.
ghost use Rattle.std.specs.Prelude.{◌≡◌, ◌≤◌, ◌<◌, ◌+◌, ◌++◌, ◌==◌, ◌&&◌, ℕ, false, nat_le, nat_lt, length, slice_get, IfOk, IfSome, MatchOption, Some};
ghost use Rattle.wq_view.specs.Below.{is_below};
ghost use Rattle.wq_view.specs.Limit.{max_records};
ghost use Rattle.wq_view.specs.Looks.{count_after};
ghost use Rattle.wq_view.specs.Order.{Known};
ghost use Rattle.wq_view.specs.Position.{has_name, passes_at, positions_of};
ghost use Rattle.wq_view.specs.Suffix.{has_suffix};
ghost use Rattle.wq_view.specs.View.{newest_of};
ghost use Rattle.wq_gen.specs.Candidate.{suffix_is_among};
ghost use Rattle.wq_gen.specs.Counted.{one_more};

use std::alloc::AllocError;
use std::marker::Model;
use wq_view::{Reader, Record, Suffixes, View};

/// A view, through which each look is counted.
#[derive(Drop)]
pub struct Counted<'a> {
    view: &'a View,
    reader: Reader<'a>,
    count: u64,
}

impl<'a> Model for Counted<'a> {
    ghost use Rattle.std.specs.Prelude.{◌≡◌};
    ghost use Rattle.wq_gen.specs.Counted.{CountedData};

    ghost Value = { CountedData };

    ghost view = { λ c. record { view = c.view.now; count = c.count } };

    ghost invariant = { λ c. c.reader ≡ c.view.now.records };
}

impl<'a> Counted<'a> {
    /// A view without a look so far.
    pub fn of(view: &'a View) -> Counted<'a>
        ensures { result ≡ record { view = view.now; count = 0 } }
    {
        Counted {
            view,
            reader: view.reader(),
            count: 0,
        }
    }

    /// The number of looks so far. It stops at the greatest number.
    pub fn count(&self) -> u64
        ensures { result ≡ self.now.count }
    {
        self.count
    }

    /// The number of records. The call is no look.
    pub fn len(&self) -> usize
        ensures value { result ≡ length self.now.view.records }
        ensures few { result ≤ max_records }
    {
        self.view.len()
    }

    /// The record at this place in the byte order of names.
    pub fn look(&mut self, i: usize) -> &'a Record
        requires { i < length self.old.view.records }
        ensures value { slice_get self.old.view.records i ≡ Some result.now }
        ensures same { self.new.view ≡ self.old.view }
        ensures count { self.new.count ≡ one_more self.old.count }
    {
        self.count = one_more(self.count);
        self.reader.get(i)
    }

    /// The position at a place of the order of last change.
    pub fn newest(&mut self, k: usize) -> Option<usize>
        ensures value { result ≡ slice_get (newest_of self.old.view) k }
        ensures known { Known self.old.view.tick self.old.view.records }
        ensures bound { IfSome result (λ i. i < length self.old.view.records) }
        ensures few { IfSome result (λ i. i < max_records) }
        ensures same { self.new.view ≡ self.old.view }
        ensures count { self.new.count ≡ one_more self.old.count }
    {
        self.count = one_more(self.count);
        // That a position is below the limit of records follows from the number of records.
        let _count = self.view.len();
        self.view.newest(k)
    }

    /// The position of a record with this suffix: the one with so many such records before it. A to Z count as a to z, and
    /// no record has an empty suffix.
    pub fn suffix_at(&mut self, text: &[u8], k: usize) -> Option<usize>
        ensures value { result
            ≡ slice_get (positions_of (has_suffix text.now) self.old.view.records) k }
        ensures bound { IfSome result (λ i. i < length self.old.view.records) }
        ensures few { IfSome result (λ i. i < max_records) }
        ensures same { self.new.view ≡ self.old.view }
        ensures count { self.new.count ≡ one_more self.old.count }
    {
        self.count = one_more(self.count);
        // That a position is below the limit of records follows from the number of records.
        let _count = self.view.len();
        self.view.suffix_at(text, k)
    }

    /// Adds the positions of the records whose suffix is one of these, ascending. Each of them is a look, and that there is
    /// no other is one more.
    pub fn push_with_suffix(
        &mut self,
        sought: &Suffixes<'_>,
        found: &mut Vec<u32>,
    ) -> Result<(), AllocError>
        ensures found { IfOk result (λ _. found.new.items ≡ found.old.items
            ++ positions_of (suffix_is_among sought.now) self.old.view.records) }
        ensures counted { IfOk result (λ _. self.new.count ≡ count_after
            (length (positions_of (suffix_is_among sought.now) self.old.view.records) + 1)
            self.old.count) }
        ensures few { self.new.count ≤ self.old.count
            + (length (positions_of (suffix_is_among sought.now) self.old.view.records) + 1) }
        ensures same { self.new.view ≡ self.old.view }
    {
        self.view.push_with_suffix(sought, &mut self.count, found)
    }

    /// The range of the positions of the records strictly below a directory. All records are below the empty one.
    pub fn below(&mut self, dir: &str) -> (usize, usize)
        ensures exact { (i : ℕ) → passes_at (is_below dir.now) self.old.view.records i
            ≡ (nat_le result.0 i && nat_lt i result.1) }
        ensures rise { result.0 ≤ result.1 }
        ensures bound { result.1 ≤ length self.old.view.records }
        ensures few { result.1 ≤ max_records }
        ensures same { self.new.view ≡ self.old.view }
        ensures count { self.new.count ≡ one_more self.old.count }
    {
        self.count = one_more(self.count);
        self.view.below(dir)
    }

    /// The place of the record of this name. The name need not be valid.
    pub fn find(&mut self, name: &str) -> Option<usize>
        ensures found { IfSome result (λ i. i < length self.old.view.records) }
        ensures only { MatchOption result
            ((j : ℕ) → passes_at (has_name name.now) self.old.view.records j ≡ false)
            (λ i. (j : ℕ) → passes_at (has_name name.now) self.old.view.records j ≡ (j == i)) }
        ensures bound { IfSome result (λ i. i < max_records) }
        ensures same { self.new.view ≡ self.old.view }
        ensures count { self.new.count ≡ one_more self.old.count }
    {
        self.count = one_more(self.count);
        self.view.find(name)
    }
}

/// The count with one look more.
fn one_more(count: u64) -> u64
    ensures { result ≡ one_more count }
{
    count.saturating_add(1)
}
