//! The shared view, before its list of events has a name.
ghost use Rattle.std.specs.Prelude.{◌≡◌, ◌<◌, ◌^◌, [], IfOk};

use crate::log::{Head, Log};
use crate::named::Named;
use crate::publication::{ShownWriter, show};
use crate::publisher::Publisher;
use crate::shown::Shown;
use crate::table::RootTable;
use left_right::writer::Writer;
use logbook::{Seen, Start, Word};
use std::alloc::{AllocError, Global};
use std::marker::Model;
use std::sync::{Arc, Wait};

/// A shared view before its first event. Contracts see its list, and the identity of that list.
///
/// The type is not `Drop`: a caller has to open it.
pub struct Blank {
    writer: ShownWriter,
    head: Head,
    alloc: Global,
}

impl Model for Blank {
    ghost use Rattle.std.specs.Prelude.{◌≡◌, Some};
    ghost use Rattle.left_right.specs.Sides.{view as known};
    ghost use Rattle.wq_live.specs.Log.{LogData, log_code, head_of};

    ghost Value = { LogData };

    ghost coded = { log_code };

    ghost view = { λ b. b.writer.desk.shown.value };

    ghost invariant = { λ b. (known b.writer.desk.place ≡ Some b.writer.desk.shown.value)
        × (b.head ≡ head_of b.writer.desk.shown.value.book) };
}

impl Blank {
    /// A shared view with room for so many seats at once. It shows its first value once more, so that the writer has
    /// the memory that later values need.
    pub fn new<R: Wait>(rt: &R, alloc: Global, seats: usize) -> Result<Blank, AllocError>
        requires { (0 < seats) × (seats < 2 ^ 32) }
        ensures { IfOk result (λ blank. blank.log ≡ []) }
    {
        let (seen, mut pen, _second) = Seen::open(Start::alone(), 0, 0);
        let head = Word::tracked(0, &mut pen);
        let table = Arc::new(alloc, RootTable::new(alloc))?;
        let first = Shown::first(table, Log::new(seen));
        let second = first.again()?;
        let next = first.next()?;
        let writer = Writer::new(alloc, first, second, seats)?;
        let (writer, shown) = show(rt, writer, next);
        if let Err(error) = shown {
            writer.take(rt);
            return Err(error);
        }
        Ok(Blank {
            writer,
            head,
            alloc,
        })
    }

    /// The publisher, which makes the seats. It waits by this handle.
    pub fn open<N: Named, R: Wait + Drop>(self, rt: R) -> Publisher<N, R>
        requires { self.book ≡ N.book }
        ensures list { result ≡ self.log }
        ensures published { N.published N.book result }
    {
        let Blank {
            writer,
            head,
            alloc,
        } = self;
        Publisher::over(writer, head, alloc, rt)
    }
}
