//! The shelf itself.
ghost use Rattle.std.specs.Prelude.{◌≡◌, ◌<◌, [], false, is_none, is_some, length, map, nat_eq};
ghost use Rattle.std.specs.Prelude.{option_copied, option_map, position, slice_get, string_bytes};
ghost use Rattle.std.specs.Prelude.{IfOk, IsOk, IsSome, OnErr, OnOk};
ghost use Rattle.std.specs.Option.{option_copied_mut};
ghost use Rattle.std.specs.Borrow.{sem};
ghost use Rattle.std.specs.List.{list_any};
ghost use Rattle.wq_registry.specs.Limit.{max_cursors, max_programs, max_triggers};
ghost use Rattle.wq_registry.specs.ByName.{has_no_place, names, under, values};
ghost use Rattle.wq_registry.specs.Refusal.{Refuses};
ghost use Rattle.wq_registry.specs.Root.{called, is_newer, numbered};
ghost use Rattle.wq_registry.specs.Loan.{LendsCache, LendsRootAt, LendsRootOf, LendsTriggerOf};
ghost use Rattle.wq_registry.specs.Shelf.{blank, cursor_unset, cursor_used, cursors_of};
ghost use Rattle.wq_registry.specs.Shelf.{root_added, root_has_no_place, root_removed};
ghost use Rattle.wq_registry.specs.Shelf.{trigger_added, trigger_removed, triggers_of};
ghost use Rattle.wq_registry.specs.Shelf.{with_program, without_program};

use crate::cache::Cache;
use crate::fault::ShelfFault;
use crate::named::ByName;
use crate::root::Root;
use crate::roots;
use crate::shared_program::share;
use indexmap::map::Keys;
use std::alloc::{AllocError, Global};
use std::marker::Model;
use std::sync::Arc;
use wq_base::MAX_ROOTS;
use wq_verify::{Program, StoredProgram};

/// How many programs a shelf may have.
pub const MAX_PROGRAMS: usize = 256;

/// The things that a server keeps for all its clients beside the views of its roots. `T` is the
/// type of a trigger.
#[derive(Drop)]
pub struct Shelf<T> {
    programs: ByName<Arc<StoredProgram>>,
    roots: Vec<Root<T>>,
    sockname: String,
    cache: Cache,
    alloc: Global,
}

impl<T> Model for Shelf<T> {
    ghost use Rattle.std.specs.String.{string_bytes};
    ghost use Rattle.wq_registry.specs.Entry.{unshared};
    ghost use Rattle.wq_registry.specs.Shelf.{ShelfData};

    ghost Value = { ShelfData T };

    ghost view = { λ s. record {
      programs = unshared s.programs;
      roots = s.roots.items;
      sockname = string_bytes s.sockname;
    } };
}

impl<T> Shelf<T> {
    /// A shelf with nothing on it but this cache, of a server whose socket has this name.
    pub fn new(alloc: Global, cache: Cache, sockname: String) -> Shelf<T>
        ensures { result ≡ blank (string_bytes sockname) }
    {
        Shelf {
            programs: ByName::new(alloc),
            roots: Vec::new(alloc),
            sockname,
            cache,
            alloc,
        }
    }

    /// The programs of expressions that were compiled before. Nothing that is asked of the shelf
    /// depends on them.
    pub fn cache(&mut self) -> &mut Cache
        ensures* { sem 𝓛 (LendsCache T.row self.entry result) }
    {
        &mut self.cache
    }

    /// The name of the server's socket.
    pub fn sockname(&self) -> &str
        ensures { result.now ≡ self.now.sockname }
    {
        self.sockname.as_str()
    }

    /// The program under a name.
    pub fn get(&self, name: &str) -> Option<&Arc<StoredProgram>>
        ensures { option_map (λ program. program.now.value) result
            ≡ under name.now self.now.programs }
    {
        self.programs.get(name)
    }

    /// The names of the programs, in their order.
    pub fn names(&self) -> Keys<'_, String, Arc<StoredProgram>>
        ensures { map string_bytes result ≡ names self.now.programs }
    {
        self.programs.names()
    }

    /// Puts a program under a name; tells whether it replaced one, whose place it then takes. A new
    /// name comes last. A large program is kept as its file ([`StoredProgram::kept`]).
    ///
    /// # Errors
    /// [`ShelfFault::Full`] if the name is new and there are [`MAX_PROGRAMS`];
    /// [`ShelfFault::NoMemory`].
    pub fn add(&mut self, name: &str, program: Program) -> Result<bool, ShelfFault>
        ensures replaced { IfOk result (λ replaced.
            replaced ≡ is_some (under name.now self.old.programs)) }
        ensures added { OnOk result (self.new ≡ with_program name.now program self.old) }
        ensures kept { OnErr result (self.new ≡ self.old) }
        ensures refused { Refuses false
            (has_no_place max_programs name.now self.old.programs) result }
    {
        if self.has_no_place(name) {
            return Err(ShelfFault::Full);
        }
        let program = share(self.alloc, StoredProgram::kept(self.alloc, program)?)?;
        Ok(self.put(name, program)?)
    }

    /// Whether the name is new and there are as many programs as may be.
    fn has_no_place(&self, name: &str) -> bool
        ensures { result ≡ has_no_place max_programs name.now self.now.programs }
    {
        self.programs.has_no_place(MAX_PROGRAMS, name)
    }

    /// Puts a program under a name, if there is a place for it.
    fn put(&mut self, name: &str, program: Arc<StoredProgram>) -> Result<bool, AllocError>
        ensures replaced { IfOk result (λ replaced.
            replaced ≡ is_some (under name.now self.old.programs)) }
        ensures added { OnOk result (self.new ≡ with_program name.now program.value self.old) }
        ensures kept { OnErr result (self.new ≡ self.old) }
    {
        let old = self.programs.put(self.alloc, name, program)?;
        Ok(old.is_some())
    }

    /// Takes out a program; tells whether it was there.
    pub fn remove(&mut self, name: &str) -> bool
        ensures there { result ≡ is_some (under name.now self.old.programs) }
        ensures removed { self.new ≡ without_program name.now self.old }
    {
        self.programs.remove(name).is_some()
    }

    /// The root of a number.
    pub fn root(&self, number: u64) -> Option<&Root<T>>
        ensures { option_copied result ≡ numbered number self.now.roots }
    {
        roots::numbered(&self.roots, number)
    }

    /// The root of a text.
    pub fn root_called(&self, text: &str) -> Option<&Root<T>>
        ensures { option_copied result ≡ called text.now self.now.roots }
    {
        roots::called(&self.roots, text)
    }

    /// The roots, in the order in which they were added.
    pub fn roots(&self) -> &[Root<T>]
        ensures { result.now ≡ self.now.roots }
    {
        &self.roots
    }

    /// The root of a number, which can be changed.
    fn root_mut(&mut self, number: u64) -> Option<&mut Root<T>>
        ensures* writes_back { sem 𝓛 (LendsRootOf T.row self.entry number result) }
        ensures value { option_copied_mut result ≡ numbered number self.old.roots }
    {
        match self.place_of(number) {
            Some(place) => Some(self.root_at_mut(place)),
            None => None,
        }
    }

    /// The place of the root of a number.
    fn place_of(&self, number: u64) -> Option<usize>
        ensures { result ≡ position (λ r. nat_eq number r.number) self.now.roots }
    {
        roots::place_of(&self.roots, number)
    }

    /// The root at a place, which can be changed.
    fn root_at_mut(&mut self, place: usize) -> &mut Root<T>
        requires { place < length self.old.roots }
        ensures* writes_back { sem 𝓛 (LendsRootAt T.row self.entry place result) }
        ensures value { slice_get self.old.roots place ≡ Some result.now }
    {
        &mut self.roots[place]
    }

    /// Uses a cursor of a root at a tick: gives the old tick, none at the first use, and keeps the
    /// larger of the two. A cursor that is there is moved without memory.
    ///
    /// # Errors
    /// [`ShelfFault::NoRoot`] if the root is not on the shelf; [`ShelfFault::Full`] if the
    /// name is new and the root has [`MAX_CURSORS`](crate::MAX_CURSORS);
    /// [`ShelfFault::NoMemory`].
    pub fn swap_cursor(
        &mut self,
        root: u64,
        name: &str,
        tick: u64,
    ) -> Result<Option<u64>, ShelfFault>
        ensures old { IfOk result (λ old. old ≡ under name.now (cursors_of root self.old)) }
        ensures used { OnOk result (self.new ≡ cursor_used root name.now tick self.old) }
        ensures kept { OnErr result (self.new ≡ self.old) }
        ensures refused { Refuses (is_none (numbered root self.old.roots))
            (has_no_place max_cursors name.now (cursors_of root self.old)) result }
        ensures known { IsSome (under name.now (cursors_of root self.old)) → IsOk result }
    {
        let alloc = self.alloc;
        let Some(root) = self.root_mut(root) else {
            return Err(ShelfFault::NoRoot);
        };
        root.use_cursor(alloc, name, tick)
    }

    /// Takes out a cursor of a root, so that its next use is its first again.
    pub fn unset_cursor(&mut self, root: u64, name: &str)
        ensures { self.new ≡ cursor_unset root name.now self.old }
    {
        if let Some(root) = self.root_mut(root) {
            root.unset_cursor(name);
        }
    }

    /// A trigger of a root by its place, which can be changed.
    pub fn trigger_mut(&mut self, root: u64, k: usize) -> Option<&mut T>
        ensures* writes_back { sem 𝓛 (LendsTriggerOf T.row self.entry root k result) }
        ensures value { option_copied_mut result
            ≡ slice_get (values (triggers_of root self.old)) k }
    {
        let root = self.root_mut(root)?;
        root.trigger_mut(k)
    }
}

impl<T: Drop> Shelf<T> {
    /// Adds a root, which comes last. An older number of its text goes, with its triggers and
    /// cursors. A number that is not above the one that its text has, or that another root has,
    /// changes nothing.
    ///
    /// # Errors
    /// [`ShelfFault::Full`] if the text is new and there are [`MAX_ROOTS`];
    /// [`ShelfFault::NoMemory`].
    pub fn add_root(&mut self, text: &str, number: u64) -> Result<(), ShelfFault>
        ensures added { OnOk result (self.new ≡ root_added text.now number self.old) }
        ensures kept { OnErr result (self.new ≡ self.old) }
        ensures refused { Refuses false (root_has_no_place text.now number self.old) result }
    {
        if self.has_newer(text, number) {
            return Ok(());
        }
        if self.root_called(text).is_none() && self.roots().len() >= MAX_ROOTS {
            return Err(ShelfFault::Full);
        }
        let root = Root::new(self.alloc, text, number)?;
        roots::put_last(&mut self.roots, root)?;
        Ok(())
    }

    /// Takes out a root, with its triggers and cursors; tells whether it was there.
    pub fn remove_root(&mut self, number: u64) -> bool
        ensures there { result ≡ is_some (numbered number self.old.roots) }
        ensures removed { self.new ≡ root_removed number self.old }
    {
        let there = self.root(number).is_some();
        roots::drop_numbered(&mut self.roots, number);
        there
    }

    /// Whether a root says that one of this text and number is not new.
    fn has_newer(&self, text: &str, number: u64) -> bool
        ensures { result ≡ list_any (is_newer text.now number) self.now.roots }
    {
        roots::has_newer(&self.roots, text, number)
    }

    /// Puts a trigger of a root under a name, and gives back the one that was there, whose place it
    /// takes without memory. A new name comes last.
    ///
    /// # Errors
    /// [`ShelfFault::NoRoot`] if the root is not on the shelf; [`ShelfFault::Full`] if the
    /// name is new and the root has [`MAX_TRIGGERS`](crate::MAX_TRIGGERS);
    /// [`ShelfFault::NoMemory`].
    pub fn add_trigger(
        &mut self,
        root: u64,
        name: &str,
        trigger: T,
    ) -> Result<Option<T>, ShelfFault>
        ensures old { IfOk result (λ old. old ≡ under name.now (triggers_of root self.old)) }
        ensures added { OnOk result (self.new ≡ trigger_added root name.now trigger self.old) }
        ensures kept { OnErr result (self.new ≡ self.old) }
        ensures refused { Refuses (is_none (numbered root self.old.roots))
            (has_no_place max_triggers name.now (triggers_of root self.old)) result }
        ensures known { IsSome (under name.now (triggers_of root self.old)) → IsOk result }
    {
        let alloc = self.alloc;
        let Some(root) = self.root_mut(root) else {
            return Err(ShelfFault::NoRoot);
        };
        root.add_trigger(alloc, name, trigger)
    }

    /// Takes out a trigger of a root.
    pub fn remove_trigger(&mut self, root: u64, name: &str) -> Option<T>
        ensures value { result ≡ under name.now (triggers_of root self.old) }
        ensures removed { self.new ≡ trigger_removed root name.now self.old }
    {
        let root = self.root_mut(root)?;
        root.remove_trigger(name)
    }
}
