//! A reader of a view's records, for a walk over positions that are close to each other.
ghost use Rattle.std.specs.Prelude.{◌≡◌, ◌<◌, length, slice_get, IfSome, Some};

use crate::chunks::Chunks;
use std::marker::Model;
use wq_record::Record;

/// A view's records. A reader keeps the chunk of its last look, and finds the records of that chunk soonest.
#[derive(Drop)]
pub struct Reader<'a> {
    chunks: &'a Chunks,
    /// The position of the first record of the chunk of the last look.
    start: usize,
    /// The records of that chunk. There are none before a first look.
    records: &'a [Record],
}

impl<'a> Model for Reader<'a> {
    ghost use Rattle.std.specs.Prelude.{List};
    ghost use Rattle.std.specs.Coded.{coded_list};
    ghost use Rattle.wq_view.specs.Chunk.{IsPiece};
    ghost use Rattle.wq_record.specs.RecordData.{RecordData, record_code};

    ghost Value = { List RecordData };

    ghost coded = { coded_list record_code };

    ghost view = { λ r. r.chunks.now };

    ghost invariant = { λ r. IsPiece r.chunks.now r.start r.records.now };
}

impl<'a> Reader<'a> {
    /// A reader before its first look.
    pub(crate) fn of(chunks: &'a Chunks) -> Reader<'a>
        ensures { result ≡ chunks.now }
    {
        Reader {
            chunks,
            start: 0,
            records: &[],
        }
    }

    /// The record at this place in the byte order of names.
    pub fn get(&mut self, i: usize) -> &'a Record
        requires { i < length self.old }
        ensures value { slice_get self.old i ≡ Some result.now }
        ensures same { self.new ≡ self.old }
    {
        match self.near(i) {
            Some(record) => record,
            None => self.far(i),
        }
    }

    /// The record at a place if it is in the chunk of the last look.
    fn near(&self, i: usize) -> Option<&'a Record>
        ensures { IfSome result (λ found. slice_get self.now i ≡ Some found.now) }
    {
        self.records.get(i.checked_sub(self.start)?)
    }

    /// The record at a place. The reader keeps its chunk from now on.
    fn far(&mut self, i: usize) -> &'a Record
        requires { i < length self.old }
        ensures value { slice_get self.old i ≡ Some result.now }
        ensures same { self.new ≡ self.old }
    {
        let (start, records) = self.chunks.chunk_with(i);
        self.start = start;
        self.records = records;
        &records[i - start]
    }
}
