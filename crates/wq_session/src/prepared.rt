//! Prepared asks: each has all that can be read of it before the shelf is held. So the shelf is held for looking up
//! names alone.
ghost use Rattle.std.specs.Prelude.{◌≡◌, option_map};
ghost use Rattle.wq_session.specs.Answer.{TakesAsk};
ghost use Rattle.wq_crawl.specs.At.{at_data};
ghost use Rattle.wq_session.specs.Prepared.{IsFoundFor, IsPrepared, asked, asked_at, key_in};
ghost use Rattle.wq_session.specs.Shelved.{shelf_data};
ghost use Rattle.wq_session.specs.Work.{work_data};

use crate::command::begin_ask;
use crate::lookup::Lookup;
use crate::outcome::Out;
use crate::read_object::ReadObject;
use crate::work::{Rest, Work};
use std::alloc::Global;
use std::sync::Arc;
use wq_ask::{Ask, hands_in_valid};
use wq_crawl::At;
use wq_follow::Trigger;
use wq_registry::{CacheKey, Compiled, Shelf};
use wq_verify::StoredProgram;

/// An ask, at the root that is looked at, with its object, if it has one, read there.
///
/// Whoever holds a shelf makes work of it there, and can reach nothing that is in it. So a desk has no allocator with
/// which it could make a shelf of its own.
#[derive(Drop)]
pub struct Prepared<'a> {
    alloc: Global,
    ask: Ask,
    at: Option<At<'a>>,
    object: ReadObject,
    lookup: Lookup,
}

impl<'a> Prepared<'a> {
    /// Reads all of the ask that it can read without the shelf: its query or its trigger, at the instance that is
    /// looked at. If that has a fault, or memory runs out, [`take`](Prepared::take) says so.
    pub fn of(alloc: Global, ask: Ask, at: Option<At<'a>>) -> Prepared<'a>
        ensures prepared { IsPrepared result }
        ensures ask { asked result ≡ ask }
        ensures at { asked_at result ≡ option_map at_data at.entry }
    {
        hands_in_valid(&ask);
        let (object, lookup) = ReadObject::read(alloc, &ask, at);
        Prepared {
            alloc,
            ask,
            at,
            object,
            lookup,
        }
    }

    /// The expression that needs a program. There is none if the ask has no expression, or its key could not be made.
    pub fn key(&self) -> Option<&CacheKey>
        ensures { option_map (λ key. key.now) result ≡ key_in self.now }
    {
        self.lookup.key.as_ref()
    }

    /// The ask with the program of its expression: the one that was found for its [`key`](Prepared::key), or one that
    /// is compiled now, which is then also given for the cache. If memory runs out it has no program, and
    /// [`take`](Prepared::take) says so.
    pub fn compiled(self, found: Option<Arc<StoredProgram>>) -> (Prepared<'a>, Option<Compiled>)
        requires prepared { IsPrepared self }
        requires found { IsFoundFor (key_in self) found }
        ensures prepared { IsPrepared result.0 }
        ensures ask { asked result.0 ≡ asked self.entry }
        ensures at { asked_at result.0 ≡ asked_at self.entry }
    {
        let Prepared {
            alloc,
            ask,
            at,
            object,
            lookup,
        } = self;
        let (lookup, compiled) = match object.query() {
            Some(query) => lookup.compiled(alloc, query, found),
            None => (lookup, None),
        };
        let prepared = Prepared {
            alloc,
            ask,
            at,
            object,
            lookup,
        };
        (prepared, compiled)
    }
}

impl Prepared<'_> {
    /// The part of an answer that holds the shelf: it looks up names, moves a cursor, or does a command. It looks at no
    /// file, and reads or compiles no query. A command that names a root is refused if no root is looked at. All but
    /// `watch` are also refused if the root is not on the shelf under the number of the one that is looked at. `watch`
    /// puts it there under that number.
    ///
    /// If memory runs out, the answer says so, and the shelf is as before.
    pub fn take(self, shelf: &mut Shelf<Trigger>) -> Work
        requires { IsPrepared self }
        ensures { TakesAsk (asked self.entry) (asked_at self.entry) (shelf_data shelf.old)
            (work_data result) (shelf_data shelf.new) }
    {
        let Prepared {
            alloc,
            ask,
            at,
            mut object,
            lookup,
        } = self;
        let (begun, ask) = begin_ask(alloc, ask, at, &mut object, &lookup, shelf);
        let rest = match begun {
            Ok(rest) => rest,
            Err(refusal) => Rest::Says(Out::refused(alloc, refusal)),
        };
        Work {
            rest,
            ask,
            object,
            lookup,
        }
    }
}
