//! Things under names, in the order in which the names came. The caller says how many there may be.
ghost use Rattle.std.specs.Prelude.{◌≡◌, [], length, map, option_copied, option_map, slice_get};
ghost use Rattle.std.specs.Prelude.{None, string_bytes, IfNone, IfSome, IsOk, IsSome, IfOk, OnOk, OnErr};
ghost use Rattle.std.specs.Option.{option_copied_mut};
ghost use Rattle.std.specs.Borrow.{sem};
ghost use Rattle.wq_registry.specs.ByName.{has_no_place, names, put, put_at, under, values, without};
ghost use Rattle.wq_registry.specs.Lending.{LendsAt};

use indexmap::IndexMap;
use indexmap::map::Keys;
use std::alloc::{AllocError, Global};
use std::marker::Model;
use std::mem;

/// Things under names. A name that is put again keeps its place.
#[derive(Drop)]
pub(crate) struct ByName<V> {
    entries: IndexMap<String, V>,
}

impl<V> Model for ByName<V> {
    ghost use Rattle.wq_registry.specs.ByName.{ByName as NamedData};
    ghost use Rattle.wq_registry.specs.Entry.{by_bytes};

    ghost Value = { NamedData V };

    ghost view = { λ n. by_bytes n.entries.entries };
}

impl<V> ByName<V> {
    /// No names.
    pub(crate) fn new(alloc: Global) -> ByName<V>
        ensures { result ≡ [] }
    {
        ByName {
            entries: IndexMap::new(alloc),
        }
    }

    /// How many names there are.
    pub(crate) fn len(&self) -> usize
        ensures { result ≡ length self.now }
    {
        self.entries.len()
    }

    /// The thing under a name.
    #[tactic(auto, using(crate::proofs::Entries::found))]
    pub(crate) fn get(&self, name: &str) -> Option<&V>
        ensures { option_copied result ≡ under name.now self.now }
    {
        self.entries.get(name)
    }

    /// The names, in their order.
    pub(crate) fn names(&self) -> Keys<'_, String, V>
        ensures { map string_bytes result ≡ names self.now }
    {
        self.entries.keys()
    }

    /// The name at a place, and the thing under it.
    pub(crate) fn at(&self, k: usize) -> Option<(&str, &V)>
        ensures { option_map (λ p. (p.0.now, p.1.now)) result ≡ slice_get self.now k }
    {
        let (name, value) = self.entries.get_index(k)?;
        Some((name.as_str(), value))
    }

    /// Whether the name is new and there are this many names.
    pub(crate) fn has_no_place(&self, limit: usize, name: &str) -> bool
        ensures { result ≡ has_no_place limit name.now self.now }
    {
        self.get(name).is_none() && self.len() >= limit
    }

    /// The thing under the name at a place, which can be changed.
    pub(crate) fn value_mut(&mut self, k: usize) -> Option<&mut V>
        ensures* writes_back { sem 𝓛 (LendsAt V.row self.entry k result) }
        ensures value { option_copied_mut result ≡ slice_get (values self.old) k }
    {
        self.entries.get_index_mut(k)
    }
}

impl<V: Drop> ByName<V> {
    /// Puts a thing under a name, and gives back the one that was there. If there was one, this
    /// takes no memory.
    pub(crate) fn put(
        &mut self,
        alloc: Global,
        name: &str,
        value: V,
    ) -> Result<Option<V>, AllocError>
        ensures old { IfOk result (λ old. old ≡ under name.now self.old) }
        ensures put { OnOk result (self.new ≡ put name.now value self.old) }
        ensures kept { OnErr result (self.new ≡ self.old) }
        ensures known { IsSome (under name.now self.old) → IsOk result }
    {
        match self.place_of(name) {
            Some(k) => Ok(self.replace(k, value)),
            None => self.push(alloc, name, value),
        }
    }

    /// The place of a name.
    fn place_of(&self, name: &str) -> Option<usize>
        ensures place { IfSome result (λ k. (v : V) → put_at k v self.now
            ≡ put name.now v self.now) }
        ensures value { IfSome result (λ k. slice_get (values self.now) k
            ≡ under name.now self.now) }
        ensures none { IfNone result (under name.now self.now ≡ None) }
    {
        self.entries.get_index_of(name)
    }

    /// Puts a thing under the name at a place, and gives back the one that was there.
    fn replace(&mut self, k: usize, value: V) -> Option<V>
        ensures old { result ≡ slice_get (values self.old) k }
        ensures put { self.new ≡ put_at k value self.old }
    {
        match self.value_mut(k) {
            Some(place) => Some(mem::replace(place, value)),
            None => None,
        }
    }

    /// Puts a thing under a name that may be new.
    #[tactic(auto, using(crate::proofs::Entries::inserted))]
    fn push(&mut self, alloc: Global, name: &str, value: V) -> Result<Option<V>, AllocError>
        ensures old { IfOk result (λ old. old ≡ under name.now self.old) }
        ensures put { OnOk result (self.new ≡ put name.now value self.old) }
        ensures kept { OnErr result (self.new ≡ self.old) }
    {
        let key = String::from_str(alloc, name)?;
        match self.entries.insert(key, value) {
            Ok(old) => Ok(old),
            Err(_) => Err(AllocError),
        }
    }

    /// Takes out the thing under a name.
    #[tactic(auto, using(crate::proofs::Entries::removed))]
    pub(crate) fn remove(&mut self, name: &str) -> Option<V>
        ensures value { result ≡ under name.now self.old }
        ensures removed { self.new ≡ without name.now self.old }
    {
        self.entries.shift_remove(name)
    }
}
