//! Roots: the part of a shelf for each directory that is watched.
ghost use Rattle.std.specs.Prelude.{◌≡◌, false, length, option_copied, option_map, slice_get, IfOk};
ghost use Rattle.std.specs.Prelude.{IsOk, IsSome, OnErr, OnOk};
ghost use Rattle.std.specs.Option.{option_copied_mut};
ghost use Rattle.std.specs.Borrow.{sem};
ghost use Rattle.wq_registry.specs.Limit.{max_cursors, max_triggers};
ghost use Rattle.wq_registry.specs.ByName.{has_no_place, under, values};
ghost use Rattle.wq_registry.specs.Refusal.{Refuses};
ghost use Rattle.wq_registry.specs.Root.{is_newer, larger, new_root, with_cursor, without_cursor};
ghost use Rattle.wq_registry.specs.Root.{with_trigger, without_trigger};
ghost use Rattle.wq_registry.specs.Lending.{LendsTrigger};

use crate::fault::ShelfFault;
use crate::named::ByName;
use std::alloc::{AllocError, Global};
use std::marker::Model;

/// How many cursors a root may have.
pub const MAX_CURSORS: usize = 256;

/// How many triggers a root may have.
pub const MAX_TRIGGERS: usize = 64;

/// A directory that is watched, with its cursors and triggers.
#[derive(Drop)]
pub struct Root<T> {
    text: String,
    number: u64,
    cursors: ByName<u64>,
    triggers: ByName<T>,
}

impl<T> Model for Root<T> {
    ghost use Rattle.std.specs.String.{string_bytes};
    ghost use Rattle.wq_registry.specs.Root.{RootData};

    ghost Value = { RootData T };

    ghost view = { λ r. record {
      text = string_bytes r.text;
      number = r.number;
      cursors = r.cursors;
      triggers = r.triggers;
    } };
}

impl<T> Root<T> {
    /// A root that is new.
    pub(crate) fn new(alloc: Global, text: &str, number: u64) -> Result<Root<T>, AllocError>
        ensures { IfOk result (λ root. root ≡ new_root text.now number) }
    {
        let text = String::from_str(alloc, text)?;
        Ok(Root {
            text,
            number,
            cursors: ByName::new(alloc),
            triggers: ByName::new(alloc),
        })
    }

    /// The directory's path.
    pub fn text(&self) -> &str
        ensures { result.now ≡ self.now.text }
    {
        self.text.as_str()
    }

    /// The number of this watch of it.
    pub fn number(&self) -> u64
        ensures { result ≡ self.now.number }
    {
        self.number
    }

    /// The tick of a cursor.
    pub fn cursor(&self, name: &str) -> Option<u64>
        ensures { result ≡ under name.now self.now.cursors }
    {
        self.cursors.get(name).copied()
    }

    /// A trigger.
    pub fn trigger(&self, name: &str) -> Option<&T>
        ensures { option_copied result ≡ under name.now self.now.triggers }
    {
        self.triggers.get(name)
    }

    /// How many triggers there are.
    pub fn trigger_count(&self) -> usize
        ensures { result ≡ length self.now.triggers }
    {
        self.triggers.len()
    }

    /// The name of the trigger at a place in their order, and the trigger.
    pub fn trigger_at(&self, k: usize) -> Option<(&str, &T)>
        ensures { option_map (λ p. (p.0.now, p.1.now)) result ≡ slice_get self.now.triggers k }
    {
        self.triggers.at(k)
    }

    /// Whether another root of this text and number is not new: it has this one's number, or its
    /// text and no greater number.
    pub(crate) fn is_newer(&self, text: &str, number: u64) -> bool
        ensures { result ≡ is_newer text.now number self.now }
    {
        number == self.number || (text == self.text() && number <= self.number)
    }

    /// Takes out a cursor.
    pub(crate) fn unset_cursor(&mut self, name: &str)
        ensures { self.new ≡ without_cursor name.now self.old }
    {
        self.cursors.remove(name);
    }

    /// Uses a cursor at a tick: gives the old tick, and keeps the larger of the two.
    pub(crate) fn use_cursor(
        &mut self,
        alloc: Global,
        name: &str,
        tick: u64,
    ) -> Result<Option<u64>, ShelfFault>
        ensures old { IfOk result (λ old. old ≡ under name.now self.old.cursors) }
        ensures used { OnOk result (self.new ≡ with_cursor name.now tick self.old) }
        ensures kept { OnErr result (self.new ≡ self.old) }
        ensures refused { Refuses false
            (has_no_place max_cursors name.now self.old.cursors) result }
        ensures known { IsSome (under name.now self.old.cursors) → IsOk result }
    {
        if self.cursors.has_no_place(MAX_CURSORS, name) {
            return Err(ShelfFault::Full);
        }
        let old = self.cursor(name);
        self.cursors.put(alloc, name, larger(old, tick))?;
        Ok(old)
    }

    /// A trigger by its place, which can be changed.
    pub(crate) fn trigger_mut(&mut self, k: usize) -> Option<&mut T>
        ensures* writes_back { sem 𝓛 (LendsTrigger T.row self.entry k result) }
        ensures value { option_copied_mut result ≡ slice_get (values self.old.triggers) k }
    {
        self.triggers.value_mut(k)
    }
}

impl<T: Drop> Root<T> {
    /// Puts a trigger under a name, and gives back the one that was there.
    pub(crate) fn add_trigger(
        &mut self,
        alloc: Global,
        name: &str,
        trigger: T,
    ) -> Result<Option<T>, ShelfFault>
        ensures old { IfOk result (λ old. old ≡ under name.now self.old.triggers) }
        ensures added { OnOk result (self.new ≡ with_trigger name.now trigger self.old) }
        ensures kept { OnErr result (self.new ≡ self.old) }
        ensures refused { Refuses false
            (has_no_place max_triggers name.now self.old.triggers) result }
        ensures known { IsSome (under name.now self.old.triggers) → IsOk result }
    {
        if self.triggers.has_no_place(MAX_TRIGGERS, name) {
            return Err(ShelfFault::Full);
        }
        Ok(self.triggers.put(alloc, name, trigger)?)
    }

    /// Takes out a trigger.
    pub(crate) fn remove_trigger(&mut self, name: &str) -> Option<T>
        ensures value { result ≡ under name.now self.old.triggers }
        ensures removed { self.new ≡ without_trigger name.now self.old }
    {
        self.triggers.remove(name)
    }
}

/// The tick of a cursor that is used at a tick: the larger of the old one and this.
fn larger(old: Option<u64>, tick: u64) -> u64
    ensures { result ≡ larger old tick }
{
    match old {
        Some(old) if tick < old => old,
        _ => tick,
    }
}
