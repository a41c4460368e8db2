//! The desk: a session finds the shelf there.
ghost use Rattle.std.specs.Prelude.{◌≡◌, IfSome};
ghost use Rattle.wq_registry.specs.Kept.{StandsFor};
ghost use Rattle.wq_session.specs.Desk.{HoldsShelf, Unsets};
ghost use Rattle.wq_session.specs.Prepared.{IsPrepared, asked, asked_at};
ghost use Rattle.wq_session.specs.Work.{work_data};

use crate::cursor::Cursor;
use crate::prepared::Prepared;
use crate::unset::Unset;
use crate::work::Work;
use std::sync::Arc;
use wq_follow::Trigger;
use wq_registry::{CacheKey, Compiled, Forgotten, Shelf};
use wq_verify::StoredProgram;

/// A session's way to the shelf. It is held for an ask, to unset a cursor, and to find a program in the cache or keep
/// one there. Each is a hold of its own, so that nothing is read or compiled while the shelf is held.
///
/// It may show its shelf. No call gives it an allocator, so it can make no shelf of its own.
pub trait Desk {
    ghost use Rattle.std.specs.Prelude.{Option};
    ghost use Rattle.wq_session.specs.At.{ShelfNow};

    // The shelf, if it is shown.
    ghost shelf: { Self → Option ShelfNow };

    /// The program that the shelf's cache keeps for an expression ([`Cache::get`](wq_registry::Cache::get)).
    fn find(&mut self, key: &CacheKey) -> Option<Arc<StoredProgram>>
        ensures found { IfSome result (λ program.
            StandsFor key.now.instance key.now.text program.value) }
        ensures same { shelf self.new ≡ shelf self.old };

    /// Keeps a program in the shelf's cache ([`Cache::keep`](wq_registry::Cache::keep)). The caller frees what the
    /// cache does not keep then, when the shelf is no longer held.
    fn keep(&mut self, compiled: Compiled) -> Option<Forgotten>
        ensures { shelf self.new ≡ shelf self.old };

    /// Takes an ask ([`Prepared::take`]) at the shelf as it is.
    fn hold(&mut self, prepared: Prepared<'_>) -> Work
        requires { IsPrepared prepared }
        ensures { HoldsShelf (shelf self.old) (asked prepared.entry) (asked_at prepared.entry)
            (work_data result) (shelf self.new) };

    /// Unsets a cursor ([`Shelf::unset_cursor`]) on the shelf as it is, and gives the receipt that only this makes.
    fn unset(&mut self, cursor: Cursor) -> Unset
        ensures unset { Unsets (shelf self.old) cursor (shelf self.new) }
        ensures named { result ≡ cursor };
}

/// A shelf that this session has alone is a desk, which shows the shelf.
impl Desk for Shelf<Trigger> {
    ghost use Rattle.std.specs.Prelude.{Some};
    ghost use Rattle.wq_session.specs.Shelved.{shelf_data};

    ghost shelf = { λ s. Some (shelf_data s) };

    fn find(&mut self, key: &CacheKey) -> Option<Arc<StoredProgram>> {
        self.cache().get(key)
    }

    fn keep(&mut self, compiled: Compiled) -> Option<Forgotten> {
        self.cache().keep(compiled)
    }

    fn hold(&mut self, prepared: Prepared<'_>) -> Work {
        prepared.take(self)
    }

    fn unset(&mut self, cursor: Cursor) -> Unset {
        Unset::on(self, cursor)
    }
}
