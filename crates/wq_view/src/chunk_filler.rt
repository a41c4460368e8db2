//! A view's records on their way into chunks. The choice of the records is for others.
ghost use Rattle.std.specs.Prelude.{◌≡◌, ◌≤◌, ◌++◌, ◌∷◌, [], length, IfOk, OnOk};
ghost use Rattle.std.specs.Arc.{arc_value};
ghost use Rattle.wq_view.specs.Limit.{max_chunk};

use crate::chunk::Chunk;
use crate::chunks::Chunks;
use std::alloc::{AllocError, Global};
use std::mem;
use std::sync::Arc;
use wq_record::Record;

/// The number of records in a chunk, if many new records come together.
const USUAL: usize = 512;

/// The greatest number of records in a chunk that is made.
const FULL: usize = 768;

/// Chunks that are made, and the records of the next one.
#[derive(Drop)]
pub(crate) struct ChunkFiller {
    chunks: Chunks,
    records: Vec<Record>,
    /// The number of records that the next chunk is to have.
    size: usize,
    ghost room: { length records.items ≤ size },
    ghost some: { 1 ≤ size },
    ghost few: { size ≤ max_chunk },
}

impl ChunkFiller {
    ghost use Rattle.wq_view.specs.ChunkFiller.{filled};

    /// No records, with room for so many chunks.
    pub(crate) fn new(alloc: Global, count: usize) -> Result<ChunkFiller, AllocError>
        ensures { IfOk result (λ filling. filled filling ≡ []) }
    {
        Ok(ChunkFiller {
            chunks: Chunks::with_room(alloc, count)?,
            records: Vec::new(alloc),
            size: FULL,
        })
    }

    /// The allocator of the list of chunks.
    pub(crate) fn allocator(&self) -> Global {
        self.chunks.allocator()
    }

    /// Adds a chunk as it is.
    pub(crate) fn share(&mut self, chunk: &Arc<Chunk>) -> Result<(), AllocError>
        ensures { OnOk result (filled self.new ≡ filled self.old ++ arc_value chunk.now) }
    {
        self.close(0)?;
        self.chunks.push(chunk.clone()?)
    }

    /// Adds a chunk of its own.
    pub(crate) fn put(&mut self, chunk: Chunk) -> Result<(), AllocError>
        ensures { OnOk result (filled self.new ≡ filled self.old ++ chunk) }
    {
        self.close(0)?;
        self.chunks.push(Arc::new(self.chunks.allocator(), chunk)?)
    }

    /// Begins a chunk of its own for so many records. If they are too many for one chunk, they come into chunks of equal
    /// size.
    pub(crate) fn begin(&mut self, count: usize) -> Result<(), AllocError>
        ensures { OnOk result (filled self.new ≡ filled self.old) }
    {
        let size = size_for(count);
        self.close(size)?;
        self.size = size;
        Ok(())
    }

    /// Adds a record.
    pub(crate) fn push(&mut self, next: Record) -> Result<(), AllocError>
        ensures { OnOk result (filled self.new ≡ filled self.old ++ (next ∷ [])) }
    {
        if self.records.len() >= self.size {
            self.close(self.size)?;
        }
        self.records.push(next)?;
        Ok(())
    }

    /// Goes on in the last chunk if it is not full. So many more records are to come.
    pub(crate) fn reopen(&mut self, count: usize) -> Result<(), AllocError>
        ensures { OnOk result (filled self.new ≡ filled self.old) }
    {
        self.close(0)?;
        let Some(chunk) = self.chunks.pop_below(FULL) else {
            return self.begin(count);
        };
        let records = chunk.records();
        self.begin(count.saturating_add(records.len()))?;
        self.push_copies(records)
    }

    /// Adds a copy of each record.
    pub(crate) fn push_copies(&mut self, records: &[Record]) -> Result<(), AllocError>
        ensures { OnOk result (filled self.new ≡ filled self.old ++ records.now) }
    {
        for known in records {
            self.push(known.copy()?)?;
        }
        Ok(())
    }

    /// The chunks of all records.
    pub(crate) fn finish(mut self) -> Result<Chunks, AllocError>
        ensures { IfOk result (λ chunks. chunks ≡ filled self) }
    {
        self.close(0)?;
        Ok(self.chunks)
    }

    /// Ends the chunk that is begun, if it has records. The next chunk has room for so many.
    fn close(&mut self, room: usize) -> Result<(), AllocError>
        ensures same { OnOk result (self.new.chunks ≡ filled self.old) }
        ensures closed { OnOk result (self.new.records.items ≡ []) }
        ensures size { OnOk result (self.new.size ≡ self.old.size) }
    {
        let alloc = self.chunks.allocator();
        let records = mem::replace(&mut self.records, Vec::with_capacity(alloc, room)?);
        if !records.is_empty() {
            self.chunks
                .push(Arc::new(alloc, Chunk::of(alloc, records)?)?)?;
        }
        Ok(())
    }
}

/// The number of records that each chunk is to have if so many come together.
fn size_for(count: usize) -> usize
    ensures { (1 ≤ result) × (result ≤ max_chunk) }
{
    if count <= FULL {
        return count.max(1);
    }
    count.div_ceil(count.div_ceil(USUAL)).clamp(1, FULL)
}
