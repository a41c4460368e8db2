//! A shelf that many sessions share.
ghost use Rattle.std.specs.Prelude.{◌≡◌};

use crate::cursor::Cursor;
use crate::desk::Desk;
use crate::prepared::Prepared;
use crate::shared_shelf::SharedShelf;
use crate::unset::Unset;
use crate::work::Work;
use std::sync::{Arc, Mutex, Wait};
use wq_registry::{CacheKey, Compiled, Forgotten};
use wq_verify::StoredProgram;

/// A desk over a shelf that threads share. It shows no shelf, and keeps none.
#[derive(Drop)]
pub struct LockDesk<R: Wait + Drop> {
    shelf: Arc<Mutex<SharedShelf>>,
    rt: R,
}

impl<R: Wait + Drop> LockDesk<R> {
    /// A desk over this shelf. It waits for the shelf by this handle.
    pub fn new(shelf: Arc<Mutex<SharedShelf>>, rt: R) -> LockDesk<R>
        ensures { (result.shelf ≡ shelf) × (result.rt ≡ rt) }
    {
        LockDesk { shelf, rt }
    }
}

impl<R: Wait + Drop> Desk for LockDesk<R> {
    ghost use Rattle.std.specs.Prelude.{None};

    ghost shelf = { λ _. None };

    fn find(&mut self, key: &CacheKey) -> Option<Arc<StoredProgram>> {
        self.shelf.lock(&self.rt).find(key)
    }

    fn keep(&mut self, compiled: Compiled) -> Option<Forgotten> {
        self.shelf.lock(&self.rt).keep(compiled)
    }

    fn hold(&mut self, prepared: Prepared<'_>) -> Work {
        self.shelf.lock(&self.rt).take(prepared)
    }

    fn unset(&mut self, cursor: Cursor) -> Unset {
        self.shelf.lock(&self.rt).unset(cursor)
    }
}
