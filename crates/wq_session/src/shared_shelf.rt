//! A shelf that many sessions share, one at a time.
ghost use Rattle.std.specs.Prelude.{◌≡◌, IfSome, string_bytes};
ghost use Rattle.wq_clock.specs.Instance.{instance_data};
ghost use Rattle.wq_reply.specs.Ahead.{AreAheadAt};
ghost use Rattle.wq_registry.specs.Kept.{StandsFor};
ghost use Rattle.wq_registry.specs.Shelf.{blank, cursor_unset};
ghost use Rattle.wq_session.specs.Reached.{IsReached, ReachedByCalls, ReachedProgramsAreValid};
ghost use Rattle.wq_session.specs.Answer.{TakesAsk};
ghost use Rattle.wq_session.specs.Prepared.{IsPrepared, asked, asked_at};
ghost use Rattle.wq_session.specs.Round.{IsCountedRound};
ghost use Rattle.wq_session.specs.Shelved.{shelf_data};
ghost use Rattle.wq_session.specs.Work.{work_data};

use crate::cursor::Cursor;
use crate::kept::Kept;
use crate::law::{added_are_asked, answers_are_calls, rounds_are_calls};
use crate::prepared::Prepared;
use crate::trigger_round::round_ahead;
use crate::unset::Unset;
use crate::work::Work;
use std::alloc::{AllocError, Global};
use std::marker::Model;
use std::sync::Arc;
use wq_clock::{Bound, Instance};
use wq_follow::{Launch, Trigger};
use wq_registry::{Cache, CacheKey, Compiled, Forgotten, Root, Shelf};
use wq_reply::Ahead;
use wq_verify::StoredProgram;
use wq_view::View;

/// A shelf that sessions change, by the asks that they take and the cursors that they unset there, and rounds of
/// triggers. Nothing else changes it. So these lead to it from an empty shelf.
#[derive(Drop)]
pub struct ReachedShelf<K: Kept + Drop> {
    shelf: Shelf<K>,
}

/// The shelf that many sessions share.
pub type SharedShelf = ReachedShelf<Trigger>;

impl<K: Kept + Drop> Model for ReachedShelf<K> {
    ghost use Rattle.wq_registry.specs.Shelf.{ShelfData};
    ghost use Rattle.wq_session.specs.Reached.{IsReached};
    ghost use Rattle.wq_session.specs.Shelved.{shelf_with};

    ghost Value = { ShelfData K };

    ghost view = { λ s. s.shelf };

    ghost invariant = { λ s. IsReached (shelf_with K.data s.shelf) };
}

impl ReachedShelf<Trigger> {
    /// An empty shelf with this cache, of a server whose socket has this name.
    pub fn new(alloc: Global, cache: Cache, sockname: String) -> SharedShelf
        ensures { result ≡ blank (string_bytes sockname) }
    {
        SharedShelf {
            shelf: Shelf::new(alloc, cache, sockname),
        }
    }

    /// The name of the server's socket.
    pub fn sockname(&self) -> &str
        ensures { result.now ≡ self.now.sockname }
    {
        self.shelf.sockname()
    }

    /// The roots, in the order in which they were added.
    pub fn roots(&self) -> &[Root<Trigger>]
        ensures { result.now ≡ self.now.roots }
    {
        self.shelf.roots()
    }

    /// Takes a session's ask ([`Prepared::take`]).
    pub(crate) fn take(&mut self, prepared: Prepared<'_>) -> Work
        requires { IsPrepared prepared }
        ensures reached { IsReached (shelf_data self.old) }
        ensures taken { TakesAsk (asked prepared.entry) (asked_at prepared.entry)
            (shelf_data self.old) (work_data result) (shelf_data self.new) }
    {
        prepared.take(&mut self.shelf)
    }

    /// The program that the cache keeps for an expression.
    pub(crate) fn find(&mut self, key: &CacheKey) -> Option<Arc<StoredProgram>>
        ensures found { IfSome result (λ program.
            StandsFor key.now.instance key.now.text program.value) }
        ensures same { self.new ≡ self.old }
    {
        self.shelf.cache().get(key)
    }

    /// Keeps a program in the cache, and gives what the cache does not keep then.
    pub(crate) fn keep(&mut self, compiled: Compiled) -> Option<Forgotten>
        ensures { self.new ≡ self.old }
    {
        self.shelf.cache().keep(compiled)
    }

    /// Unsets a cursor ([`Shelf::unset_cursor`]).
    pub(crate) fn unset(&mut self, cursor: Cursor) -> Unset
        ensures unset { shelf_data self.new
            ≡ cursor_unset cursor.root cursor.name (shelf_data self.old) }
        ensures named { result ≡ cursor }
    {
        Unset::on(&mut self.shelf, cursor)
    }

    /// What a round at a view of this tick asks for each trigger of a root, in their order ([`Trigger::asks`]). The
    /// call starts nothing.
    pub fn asks<L: Launch>(
        &self,
        alloc: Global,
        number: u64,
        tick: u64,
        launcher: &mut L,
    ) -> Result<Vec<Option<(Arc<StoredProgram>, Bound)>>, AllocError>
        ensures shown { L.shown launcher.new ≡ L.shown launcher.old }
        ensures counted { L.failures_of launcher.new ≡ L.failures_of launcher.old }
    {
        let mut asks = Vec::new(alloc);
        if let Some(root) = self.shelf.root(number) {
            for k in 0..root.trigger_count() {
                if let Some((_, trigger)) = root.trigger_at(k) {
                    asks.push(trigger.asks(tick, launcher))?;
                }
            }
        }
        Ok(asks)
    }

    /// A round of the triggers of a root, at a view of it ([`round_ahead`]).
    pub fn round<L: Launch>(
        &mut self,
        instance: &Instance,
        view: &View,
        ahead: &[Option<Ahead>],
        launcher: &mut L,
    )
        requires { AreAheadAt view.now.records ahead.now }
        ensures reached { IsReached (shelf_data self.old) }
        ensures round { IsCountedRound (instance_data instance.now) view.now (shelf_data self.old)
            (L.shown launcher.old) (L.failures_of launcher.old) (shelf_data self.new)
            (L.shown launcher.new) (L.failures_of launcher.new) }
    {
        round_ahead(instance, view, &mut self.shelf, ahead, launcher);
    }
}

/// Accepted calls lead to each shelf that sessions and rounds lead to. So the laws of lists of accepted calls hold
/// there.
pub fn reached_by_calls()
    ensures { ReachedByCalls }
{
    answers_are_calls();
    rounds_are_calls();
    added_are_asked();
}

/// Each program under a name on such a shelf may run.
pub fn reached_programs_are_valid()
    ensures { ReachedProgramsAreValid }
{
    answers_are_calls();
    rounds_are_calls();
    added_are_asked();
}
