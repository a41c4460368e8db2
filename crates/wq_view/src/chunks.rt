//! The records of a view in chunks. Views share chunks. The change that a pass makes in them is for others.
ghost use Rattle.std.specs.Prelude.{◌≡◌, ◌≤◌, ◌<◌, ◌+◌, ◌++◌, Bool, true, false, [], drop, length, slice_get, IfOk, MatchOption, OnOk, Some};
ghost use Rattle.std.specs.Arc.{arc_value};
ghost use Rattle.std.specs.Fn.{ComputesKey};
ghost use Rattle.std.specs.List.Sorted.{IsPartitionedBy, IsPartitionPoint};
ghost use Rattle.wq_view.specs.Chunk.{AreChunks, IsChunkAt, IsPiece, count_before, is_chunk_before, records_in};
ghost use Rattle.wq_view.specs.Limit.{max_records};
ghost use Rattle.wq_record.specs.RecordData.{RecordData};
ghost use Rattle.wq_view.specs.Records.{records_left};

use crate::chunk::{Chunk, Slot};
use crate::limit::MAX_RECORDS;
use crate::records::Records;
use std::alloc::{AllocError, Global};
use std::marker::Model;
use std::sync::Arc;
use wq_record::Record;

/// Records in chunks.
#[derive(Drop)]
pub(crate) struct Chunks {
    slots: Vec<Slot>,
}

impl Model for Chunks {
    ghost use Rattle.std.specs.Prelude.{◌≤◌, List, length};
    ghost use Rattle.std.specs.Coded.{coded_list};
    ghost use Rattle.wq_view.specs.Chunk.{AreChunks, records_in};
    ghost use Rattle.wq_view.specs.Limit.{max_records};
    ghost use Rattle.wq_record.specs.RecordData.{RecordData, record_code};

    ghost Value = { List RecordData };

    ghost coded = { coded_list record_code };

    ghost view = { λ c. records_in c.slots.items };

    ghost invariant = { λ c. AreChunks 0 c.slots.items
        × (length (records_in c.slots.items) ≤ max_records) };
}

impl Chunks {
    /// No records. The call takes no memory.
    pub(crate) fn new(alloc: Global) -> Chunks
        ensures { result ≡ [] }
    {
        Chunks {
            slots: Vec::new(alloc),
        }
    }

    /// No records, with room for so many chunks.
    pub(crate) fn with_room(alloc: Global, count: usize) -> Result<Chunks, AllocError>
        ensures { IfOk result (λ chunks. chunks ≡ []) }
    {
        Ok(Chunks {
            slots: Vec::with_capacity(alloc, count)?,
        })
    }

    /// The allocator of the list of chunks.
    pub(crate) fn allocator(&self) -> Global {
        *self.slots.allocator()
    }

    /// The chunks.
    pub(crate) fn slots(&self) -> &[Slot]
        ensures records { records_in result.now ≡ self.now }
        ensures chunks { AreChunks 0 result.now }
        ensures few { length (records_in result.now) ≤ max_records }
    {
        &self.slots
    }

    /// The number of records.
    pub(crate) fn len(&self) -> usize
        ensures value { result ≡ length self.now }
        ensures few { result ≤ max_records }
    {
        match self.slots.last() {
            Some(slot) => slot.end,
            None => 0,
        }
    }

    /// The same records in the same chunks.
    pub(crate) fn copy(&self) -> Result<Chunks, AllocError>
        ensures { IfOk result (λ chunks. chunks ≡ self.now) }
    {
        let mut copy = Chunks::with_room(self.allocator(), self.slots.len())?;
        for slot in self.slots() {
            copy.push(slot.chunk.clone()?)?;
        }
        Ok(copy)
    }

    /// Adds a chunk after the others.
    pub(crate) fn push(&mut self, chunk: Arc<Chunk>) -> Result<(), AllocError>
        ensures { OnOk result (self.new ≡ self.old ++ arc_value chunk) }
    {
        let before = self.len();
        let end = before + chunk.records().len();
        if end > MAX_RECORDS {
            return Err(AllocError);
        }
        self.slots.push(Slot { end, chunk })?;
        Ok(())
    }

    /// Takes the last chunk off if it has fewer records than so many.
    pub(crate) fn pop_below(&mut self, count: usize) -> Option<Arc<Chunk>>
        ensures { MatchOption result (self.new ≡ self.old)
            (λ chunk. self.old ≡ self.new ++ arc_value chunk) }
    {
        let last = self.slots.last()?;
        if last.chunk.records().len() >= count {
            return None;
        }
        let slot = self.slots.pop()?;
        Some(slot.chunk)
    }

    /// The record at a position.
    pub(crate) fn get(&self, i: usize) -> &Record
        requires { i < length self.now }
        ensures { slice_get self.now i ≡ Some result.now }
    {
        let (start, records) = self.chunk_with(i);
        &records[i - start]
    }

    /// The chunk that has the record at this position: the position of its first record, and its records.
    pub(crate) fn chunk_with(&self, i: usize) -> (usize, &[Record])
        requires { i < length self.now }
        ensures piece { IsPiece self.now result.0 result.1.now }
        ensures from { result.0 ≤ i }
        ensures to { i < result.0 + length result.1.now }
    {
        chunk_at(&self.slots, slot_with(&self.slots, i))
    }

    /// The records from a position on.
    pub(crate) fn records_from(&self, i: usize) -> Records<'_>
        ensures { records_left result ≡ drop i self.now }
    {
        if i >= self.len() {
            return Records::of(&[]);
        }
        let at = slot_with(&self.slots, i);
        let (start, records) = chunk_at(&self.slots, at);
        let (_, records) = records.split_at(i - start);
        let (_, slots) = self.slots.split_at(at + 1);
        Records { records, slots }
    }

    /// The number of records that pass a test. Each of them must come before all records that do not pass it.
    pub(crate) fn partition_point<P: Fn(&Record) -> bool>(&self, is_before: P) -> usize
        requires { P.IsAlwaysCallable is_before }
        ensures bound { result ≤ length self.now }
        ensures few { result ≤ max_records }
        ensures partitioned { (p : RecordData → Bool) → ComputesKey P.FnMut p is_before
            → IsPartitionedBy p self.now
            → IsPartitionPoint (λ r. p r ≡ true) (λ r. p r ≡ false) self.now result }
    {
        let at = self.slots.partition_point(
            |slot: &Slot| -> bool
                requires { P.IsAlwaysCallable is_before }
                ensures { (p : RecordData → Bool) → ComputesKey P.FnMut p is_before
                    → result ≡ is_chunk_before p slot.now }
            {
                match slot.chunk.records().last() {
                    Some(record) => is_before(record),
                    None => false,
                }
            },
        );
        if at == self.slots.len() {
            return self.len();
        }
        let (start, records) = chunk_at(&self.slots, at);
        start + records.partition_point(is_before)
    }
}

/// The place of the slot with the record at this position.
fn slot_with(slots: &[Slot], i: usize) -> usize
    requires chunks { AreChunks 0 slots.now }
    requires bound { i < length (records_in slots.now) }
    ensures bound { result < length slots.now }
    ensures from { count_before slots.now result ≤ i }
    ensures to { i < count_before slots.now (result + 1) }
{
    slots.partition_point(|slot| slot.end <= i)
}

/// The chunk of the slot at this place: the number of records before it, and its records.
fn chunk_at(slots: &[Slot], at: usize) -> (usize, &[Record])
    requires chunks { AreChunks 0 slots.now }
    requires bound { at < length slots.now }
    ensures { IsChunkAt slots.now at result.0 result.1.now }
{
    let slot = &slots[at];
    let records = slot.chunk.records();
    (slot.end - records.len(), records)
}
