//! A directory that is being walked, and the next step in it. The steps go over whole names as they rise. Whole names
//! rise as `a`, `a-b`, `a/x`, `a0`: between a directory and the names below it there may be names beside it. Another
//! module reads the disk.
ghost use Rattle.std.specs.Prelude.{◌≡◌, ◌++◌, ◌∷◌, [], IfNone, IfOk, IfSome, IsTrue, OnOk, drop};
ghost use Rattle.wq_disk.specs.Directory.{IsNextStep, data_of, entry_at, fresh, text_of_entries};
ghost use Rattle.wq_disk.specs.HeldNames.{names_left};

use crate::names::{Names, Place};
use crate::new_names::NewNames;
use crate::part::Part;
use crate::path::TreePath;
use std::alloc::{AllocError, Global};
use wq_view::{MAX_NAME, SharedBytes, is_valid_name};

/// The greatest number of bytes of an entry's name on Linux.
const MOST_OF_ENTRY: usize = 255;

/// A directory with its names.
#[derive(Drop)]
pub struct Directory {
    /// Its path, with a slash at its end.
    path: Vec<u8>,
    /// The names that the walk has not looked at yet.
    names: Names,
    /// The directories that the walk looked at and did not enter yet. The last one is entered first.
    waiting: Vec<Place>,
    /// The block of the names from here on, if no view has one of them.
    new_names: NewNames,
}

/// The next step in a directory.
#[derive(Clone, Copy)]
pub enum Step {
    /// The walk looks at the name at this place.
    Look(Place),
    /// The walk enters the directory of the name at this place.
    Enter(Place),
    /// Nothing is left, and the walk leaves the directory.
    Leave,
}

impl Directory {
    /// A directory with this path, which ends in a slash. The walk has not looked at any of these names yet.
    pub fn new(alloc: Global, path: Vec<u8>, names: Names) -> Directory
        ensures { data_of result ≡ fresh path.items (names_left names) }
    {
        Directory {
            path,
            names,
            waiting: Vec::new(alloc),
            new_names: NewNames::none(),
        }
    }

    /// Its path, with a slash at its end.
    pub fn path(&self) -> &[u8]
        ensures { result.now ≡ (data_of self.now).path }
    {
        &self.path
    }

    /// Its path after a root whose path has so many bytes: its name with a slash, or nothing at the top.
    pub fn below(&self, root_len: usize) -> &[u8]
        ensures { result.now ≡ drop root_len (data_of self.now).path }
    {
        self.path.get(root_len..).unwrap_or(b"")
    }

    /// The bytes of a name that no view has yet: the name of the entry that was taken last, below a root whose path has
    /// so many bytes. If no view has a later name in this directory, this name and those after it share a block, up to
    /// 64 KiB.
    pub fn new_name(
        &mut self,
        alloc: Global,
        root_len: usize,
        name: &[u8],
        are_later_new: bool,
    ) -> Result<SharedBytes, AllocError>
        ensures directory { data_of self.new ≡ data_of self.old }
        ensures text { text_of_entries self.new ≡ text_of_entries self.old }
        ensures name { IfOk result (λ bytes. bytes ≡ name.now) }
    {
        let mut taken = self.new_names.take(name)?;
        if taken.is_none() && are_later_new && self.names.len() > 0 {
            let block = self.names.block_from(alloc, self.below(root_len), name)?;
            self.new_names = NewNames::of(block);
            taken = self.new_names.take(name)?;
        }
        match taken {
            Some(bytes) => Ok(bytes),
            None => SharedBytes::from_slice(alloc, name),
        }
    }

    /// How many of the names that the walk has not looked at yet are in a part, and are such that a pass takes them. The
    /// root's path has so many bytes.
    pub fn count_in(
        &self,
        alloc: Global,
        root_len: usize,
        part: Part<'_>,
    ) -> Result<usize, AllocError> {
        let mut path = TreePath::new(alloc, root_len);
        if self.are_valid(root_len) && self.are_in(&mut path, part)? {
            return Ok(self.names.len());
        }
        let mut count = 0usize;
        for place in self.names.places() {
            path.set(&self.path, self.names.at(*place))?;
            if part.has(path.name()) && is_valid_name(path.name()) {
                count = count.saturating_add(1);
            }
        }
        Ok(count)
    }

    /// Whether a pass surely takes each of its names: they are in UTF-8 and short enough.
    fn are_valid(&self, root_len: usize) -> bool {
        let most = self.below(root_len).len().saturating_add(MOST_OF_ENTRY);
        most <= MAX_NAME && self.names.are_text()
    }

    /// Whether all names that the walk has not looked at yet are in a part. They are if the first one and the last one
    /// are. The path is used for both.
    fn are_in(&self, path: &mut TreePath, part: Part<'_>) -> Result<bool, AllocError> {
        let places = self.names.places();
        Ok(self.is_in(path, part, places.first())? && self.is_in(path, part, places.last())?)
    }

    /// Whether the name at a place, if there is one, is in a part.
    fn is_in(
        &self,
        path: &mut TreePath,
        part: Part<'_>,
        place: Option<&Place>,
    ) -> Result<bool, AllocError> {
        let Some(place) = place else {
            return Ok(true);
        };
        path.set(&self.path, self.names.at(*place))?;
        Ok(part.has(path.name()))
    }

    /// The name at a place.
    pub fn name(&self, place: Place) -> &[u8]
        ensures { result.now ≡ entry_at self.now place }
    {
        self.names.at(place)
    }

    /// Takes the next step.
    #[tactic(auto, using(crate::proofs::Entries::taken))]
    pub fn step(&mut self) -> Step
        ensures { IsNextStep self.old result self.new }
    {
        if let Some(directory) = self.take_entered() {
            return Step::Enter(directory);
        }
        match self.names.take() {
            Some(name) => Step::Look(name),
            None => Step::Leave,
        }
    }

    /// Takes the last directory that waits, if the walk enters it now.
    fn take_entered(&mut self) -> Option<Place>
        ensures path { self.new.path ≡ self.old.path }
        ensures names { self.new.names ≡ self.old.names }
        ensures taken { IfSome result (λ place.
            self.old.waiting.items ≡ self.new.waiting.items ++ (place ∷ [])) }
        ensures kept { IfNone result (self.new.waiting.items ≡ self.old.waiting.items) }
        ensures none { IfNone result (names_left self.old.names ≡ []
            → self.old.waiting.items ≡ []) }
    {
        if self.enters() {
            self.waiting.pop()
        } else {
            None
        }
    }

    /// Lets the directory of the name at this place wait, until the walk has looked at all names that come before the
    /// names below it.
    pub fn enter_later(&mut self, name: Place) -> Result<(), AllocError>
        ensures { OnOk result (data_of self.new ≡ record (data_of self.old) {
          waiting = (data_of self.old).waiting ++ (entry_at self.old name ∷ []);
        }) }
    {
        self.waiting.push(name)?;
        Ok(())
    }

    /// Whether the walk enters the last directory that waits now. It does if no name is left.
    fn enters(&self) -> bool
        ensures { names_left self.now.names ≡ [] → IsTrue result }
    {
        match (self.waiting.last(), self.names.first()) {
            (Some(directory), Some(name)) => !comes_before_entries(name, self.name(*directory)),
            _ => true,
        }
    }
}

/// Whether a name that is above a directory's name is below the names of the directory's entries.
fn comes_before_entries(name: &[u8], directory: &[u8]) -> bool {
    match name.strip_prefix(directory) {
        Some([next, ..]) => *next < b'/',
        _ => false,
    }
}
