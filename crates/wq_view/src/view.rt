//! The view of a root: the records of all files that its passes saw, in the byte order of their names.
//! A view keeps its records in chunks. Two views share each chunk that no pass between them changed.
//! A view also keeps the order of last change. What a later pass than the first saw change is a list in it, and a pass
//! that moves the view writes that list anew.
//! Lookups take no memory. Only a pass that moves the view, and a copy of the view, take memory.
ghost use Rattle.std.specs.Prelude.{MatchBool, MatchOption, ℕ, nat_le, nat_lt, ◌==◌, ◌&&◌, ◌≡◌, ◌≢◌, ◌+◌, ◌≤◌, ◌<◌, ◌↔◌, List, [], ◌∷◌, ◌++◌, Ok, Err, Some, None, true, false, drop, length, IfOk, IfErr, IfNone, IfSome, IsTrue, slice_get};
ghost use Rattle.wq_record.specs.RecordData.{record_named};
ghost use Rattle.wq_view.specs.History.{History, last_stats};
ghost use Rattle.wq_view.specs.Below.{is_below};
ghost use Rattle.wq_record.specs.Limit.{max_tick};
ghost use Rattle.wq_view.specs.Limit.{max_records};
ghost use Rattle.wq_view.specs.Looks.{count_after};
ghost use Rattle.wq_view.specs.Order.{Known};
ghost use Rattle.wq_view.specs.Patching.{ArePatches};
ghost use Rattle.wq_view.specs.Position.{has_name, passes_at, positions_of};
ghost use Rattle.wq_view.specs.Records.{records_left};
ghost use Rattle.wq_view.specs.Suffix.{has_suffix, has_suffix_of};
ghost use Rattle.wq_view.specs.View.{IsViewOf, NamesRise, newest_of};

use crate::below::order_below;
use crate::change::Change;
use crate::chunks::Chunks;
use crate::listing::Pass;
use crate::order::Order;
use crate::pair::Moment;
use crate::patch::Patch;
use crate::patch_merge::{all_shown, are_fit, chunks_patched};
use crate::reader::Reader;
use crate::records::Records;
use crate::sought::Sought;
use crate::suffix_search::{nth_found, push_found};
use crate::suffixes::Suffixes;
use std::alloc::{AllocError, Global};
use std::marker::Model;
use thiserror::Error;
use wq_record::{MAX_TICK, Record};

/// The reason for which a view takes in no pass, or has no copy. The fault leaves the view as it was.
#[derive(Clone, Copy, Debug, PartialEq, Eq, Drop, Error)]
pub enum ViewFault {
    /// The tick is 2^62, and the pass differs from the last one.
    #[error("the ticks are spent")]
    TicksSpent,
    /// Memory ran out, or there would be over 4,294,967,295 records.
    #[error("no memory")]
    NoMemory,
}

impl From<AllocError> for ViewFault {
    ghost use Rattle.std.specs.Prelude.{◌≡◌};
    ghost use Rattle.wq_view.specs.declared.view.ViewFault.TheVariants.{NoMemory};

    ghost from_gives = { λ _ fault. fault ≡ NoMemory };

    fn from(_error: AllocError) -> ViewFault {
        ViewFault::NoMemory
    }
}

/// The files of one root, as the passes over the root saw them.
pub struct View {
    tick: u64,
    chunks: Chunks,
    order: Order,
}

// A view is let go by one call, wherever a function gives up.
impl Drop for View {
    fn drop(self) {
        let View {
            tick: _,
            chunks: _,
            order: _,
        } = self;
    }
}

impl Model for View {
    ghost use Rattle.std.specs.Prelude.{◌≤◌};
    ghost use Rattle.wq_record.specs.Limit.{max_tick};
    ghost use Rattle.wq_view.specs.Order.{IsOrderOf};
    ghost use Rattle.wq_view.specs.View.{ViewData, view_code, NamesRise};

    ghost Value = { ViewData };

    ghost coded = { view_code };

    ghost view = { λ v. record { tick = v.tick; records = v.chunks } };

    ghost invariant = { λ v. (v.tick ≤ max_tick) × NamesRise v.chunks
        × IsOrderOf v.tick v.chunks v.order };
}

impl View {
    /// The view of a root before its first pass: tick 0, and no records.
    pub fn new(alloc: Global) -> View
        ensures empty { result ≡ record { tick = 0; records = [] } }
        ensures history { IsViewOf [] result }
    {
        View {
            tick: 0,
            chunks: Chunks::new(alloc),
            order: Order::first(0),
        }
    }

    /// Takes in a pass, and returns whether the tick moved. A pass that saw just the same as the pass before it moves
    /// nothing.
    ///
    /// The call runs in O(n + m) for n records and m rows. Only a pass that moves the view takes memory.
    pub fn absorb(&mut self, pass: &Pass) -> Result<bool, ViewFault>
        // For every history of which this is the view:
        ensures moved { (history : History) → IsViewOf history self.old
            → result ≡ Ok true → IsViewOf (history ++ pass.now ∷ []) self.new }
        ensures still { (history : History) → IsViewOf history self.old
            → ((result ≡ Ok false) ↔ (last_stats history ≡ pass.now.stats)) }
        ensures spent { (history : History) → IsViewOf history self.old
            → ((result ≡ Err ViewFault.TicksSpent)
            ↔ ((self.old.tick ≡ max_tick) × (last_stats history ≢ pass.now.stats))) }
        // And for any view:
        ensures room { result ≡ Ok true → self.old.tick < max_tick }
        ensures kept { result ≢ Ok true → self.new ≡ self.old }
    {
        match self.after(&pass.over(self)) {
            Ok(Some(next)) => {
                *self = next;
                Ok(true)
            }
            Ok(None) => Ok(false),
            Err(fault) => Err(fault),
        }
    }

    /// The view after a pass over its root, or none if the pass saw just the same as the pass before it. The two views
    /// share the chunks that the pass leaves as they are, and the names of the other records.
    ///
    /// The call looks at no record of a chunk that no patch touches. It runs in O(c + n + m) for c chunks, n records in
    /// chunks that patches touch, and m rows of patches. Only a pass that saw something else takes memory.
    pub fn after(&self, change: &Change<'_>) -> Result<Option<View>, ViewFault>
        requires { (change.now).base ≡ self.now }
        // For every history of which this is the view:
        ensures moved { (history : History) → IsViewOf history self.now → IfOk result (λ next.
            IfSome next (IsViewOf (history ++ (change.now).pass ∷ []))) }
        ensures still { (history : History) → IsViewOf history self.now
            → ((result ≡ Ok None) ↔ (last_stats history ≡ ((change.now).pass).stats)) }
        ensures spent { (history : History) → IsViewOf history self.now
            → ((result ≡ Err ViewFault.TicksSpent)
            ↔ ((self.now.tick ≡ max_tick) × (last_stats history ≢ ((change.now).pass).stats))) }
        // And for any view:
        ensures room { IfOk result (λ next. IfSome next (λ _. self.now.tick < max_tick)) }
    {
        if self.shows(change) {
            return Ok(None);
        }
        if self.tick == MAX_TICK {
            return Err(ViewFault::TicksSpent);
        }
        Ok(Some(self.moved_by(change)?))
    }

    /// Whether a pass saw just the same as the last one. The call takes no memory.
    fn shows(&self, change: &Change<'_>) -> bool
        requires { (change.now).base ≡ self.now }
        ensures { (history : History) → IsViewOf history self.now → MatchBool result
            (last_stats history ≡ ((change.now).pass).stats)
            (last_stats history ≢ ((change.now).pass).stats) }
    {
        all_shown(self.chunks.slots(), change.patches())
    }

    /// The view after a pass that saw something else than the one before it.
    fn moved_by(&self, change: &Change<'_>) -> Result<View, AllocError>
        requires tick { self.now.tick < max_tick }
        requires base { (change.now).base ≡ self.now }
        ensures { (history : History) → IsViewOf history self.now
            → IfOk result (IsViewOf (history ++ (change.now).pass ∷ [])) }
    {
        let at = Moment {
            tick: self.tick + 1,
            second: change.second(),
        };
        let alloc = self.chunks.allocator();
        let (chunks, moves) = chunks_patched(alloc, self.chunks.slots(), change.patches(), &at)?;
        let order = self.order.after(alloc, &moves, self.tick == 0)?;
        Ok(View {
            tick: at.tick,
            chunks,
            order,
        })
    }

    /// Whether patches fit this view: the rows of each rise in their place. Only the rows, and a record before and after
    /// each patch, are looked at.
    pub fn fits(&self, patches: &[Patch]) -> bool
        ensures { IsTrue result → ArePatches self.now.records patches.now }
    {
        are_fit(&self.chunks, patches)
    }

    /// The allocator of the view's records.
    pub fn allocator(&self) -> Global {
        self.chunks.allocator()
    }

    /// The number of the last pass that moved the view, at most 2^62. It is 0 before any such pass.
    pub fn tick(&self) -> u64
        ensures value { result ≡ self.now.tick }
        ensures bound { result ≤ max_tick }
    {
        self.tick
    }

    /// The number of records, including those of deleted files.
    pub fn len(&self) -> usize
        ensures value { result ≡ length self.now.records }
        ensures bound { result ≤ max_records }
    {
        self.chunks.len()
    }

    /// Whether there are no records, because no pass saw a file.
    pub fn is_empty(&self) -> bool
        ensures { IsTrue result ↔ (self.now.records ≡ []) }
    {
        self.len() == 0
    }

    /// The record at this place in the byte order of names.
    pub fn get(&self, i: usize) -> &Record
        requires { i < length self.now.records }
        ensures { slice_get self.now.records i ≡ Some result.now }
    {
        self.chunks.get(i)
    }

    /// A reader of the records, which finds a place soon if it is close to the one before it.
    pub fn reader(&self) -> Reader<'_>
        ensures { result ≡ self.now.records }
    {
        Reader::of(&self.chunks)
    }

    /// The records in the byte order of their names.
    pub fn records(&self) -> Records<'_>
        ensures value { records_left result ≡ self.now.records }
        ensures rise { NamesRise (records_left result) }
        ensures bound { length (records_left result) ≤ max_records }
    {
        Records::of(self.chunks.slots())
    }

    /// The records from a place on. There are none from the end on.
    pub fn records_from(&self, i: usize) -> Records<'_>
        ensures { records_left result ≡ drop i self.now.records }
    {
        self.chunks.records_from(i)
    }

    /// The place of the record of this name. The name need not be valid.
    pub fn find(&self, name: &str) -> Option<usize>
        ensures absent { IfNone result (record_named name.now self.now.records ≡ None) }
        ensures found { IfSome result (λ i. (i < length self.now.records)
            × (slice_get self.now.records i ≡ record_named name.now self.now.records)) }
        ensures only { MatchOption result
            ((j : ℕ) → passes_at (has_name name.now) self.now.records j ≡ false)
            (λ i. (j : ℕ) → passes_at (has_name name.now) self.now.records j ≡ (j == i)) }
        ensures bound { IfSome result (λ i. i < max_records) }
    {
        let name = name.as_bytes();
        let at = self
            .chunks
            .partition_point(|record| record.name_order(name).is_lt());
        self.has_name_at(at, name).then_some(at)
    }

    /// Whether the record at a place, if there is one, has this name.
    fn has_name_at(&self, i: usize, name: &[u8]) -> bool
        ensures value { result ≡ passes_at (has_name name.now) self.now.records i }
        ensures bound { IsTrue result → i < max_records }
    {
        i < self.len() && self.get(i).name.as_bytes() == name
    }

    /// The range of the positions of the records strictly below a directory: from the first number up to the
    /// second, which is not in it. All records are below the empty directory.
    ///
    /// The call takes two binary searches.
    pub fn below(&self, dir: &str) -> (usize, usize)
        ensures exact { (i : ℕ) → passes_at (is_below dir.now) self.now.records i
            ≡ (nat_le result.0 i && nat_lt i result.1) }
        ensures rise { result.0 ≤ result.1 }
        ensures bound { result.1 ≤ length self.now.records }
        ensures few { result.1 ≤ max_records }
    {
        let dir = dir.as_bytes();
        if dir.is_empty() {
            return (0, self.len());
        }
        let start = self
            .chunks
            .partition_point(|record| order_below(dir, record.name.as_bytes()).is_lt());
        let end = self
            .chunks
            .partition_point(|record| order_below(dir, record.name.as_bytes()).is_le());
        (start, end)
    }

    /// The position at a place of the order of last change. The records that the latest passes saw change come first,
    /// and those of one pass in the byte order of their names.
    pub fn newest(&self, k: usize) -> Option<usize>
        ensures value { result ≡ slice_get (newest_of self.now) k }
        ensures known { Known self.now.tick self.now.records }
        ensures bound { IfSome result (λ i. i < length self.now.records) }
    {
        self.order.get(k)
    }

    /// The position of a record with this suffix: the one with so many such records before it. A to Z count as a to z, and
    /// no record has an empty suffix.
    ///
    /// The call compares each suffix of a chunk once, and then reads a byte for each record up to that one.
    pub fn suffix_at(&self, text: &[u8], k: usize) -> Option<usize>
        ensures value { result
            ≡ slice_get (positions_of (has_suffix text.now) self.now.records) k }
        ensures bound { IfSome result (λ i. i < length self.now.records) }
    {
        nth_found(self.chunks.slots(), Sought::One(text), k)
    }

    /// Adds the positions of the records whose suffix is one of these, ascending. A to Z count as a to z, and no record has
    /// an empty suffix. Each position is a look, and that there is no other is one more.
    ///
    /// The call compares each suffix of a chunk once, and then reads a byte for each record.
    pub fn push_with_suffix(
        &self,
        sought: &Suffixes<'_>,
        looks: &mut u64,
        found: &mut Vec<u32>,
    ) -> Result<(), AllocError>
        ensures found { IfOk result (λ _. found.new.items ≡ found.old.items
            ++ positions_of (has_suffix_of sought.now) self.now.records) }
        ensures counted { IfOk result (λ _. looks.new ≡ count_after
            (length (positions_of (has_suffix_of sought.now) self.now.records) + 1) looks.old) }
        ensures few { looks.new ≤ looks.old
            + (length (positions_of (has_suffix_of sought.now) self.now.records) + 1) }
    {
        push_found(self.chunks.slots(), Sought::Any(sought), looks, found)
    }

    /// An equal view. It shares its records with this view.
    pub fn copy(&self) -> Result<View, ViewFault>
        ensures ok { IfOk result (λ view. view ≡ self.now) }
        ensures err { IfErr result (λ fault. fault ≡ ViewFault.NoMemory) }
    {
        Ok(View {
            tick: self.tick,
            chunks: self.chunks.copy()?,
            order: self.order.copy()?,
        })
    }
}
