//! The questions of a walk to a disk: the names in a directory, and the kind, size and time of a file. Several threads
//! may ask at once.
ghost use Rattle.std.specs.Prelude.{◌≡◌, IfErr, IfOk, IfSome};
ghost use Rattle.std.specs.Option.{option_map};
ghost use Rattle.wq_disk.specs.HeldNames.{AllAreLeft, names_given};
ghost use Rattle.wq_disk.specs.Told.{IsFailureAt};

use crate::asked::{AskedPath, Entered};
use crate::file_system::FileSystem;
use crate::names::{Block, Names, names_in};
use crate::path::with_slash;
use crate::stat::{Stat, stat_from};
use crate::unseen::walk_fault;
use std::alloc::Global;
use std::sync::Arc;
use std::sync::atomic::AtomicBool;
use wq_patch::TreeFault;

/// A source of directories and files. It fails if no answer can be had, because no file handle is left, memory ran out,
/// or the file system failed.
pub trait Disk {
    ghost use Rattle.std.specs.Prelude.{ℕ, List, Option};
    ghost use Rattle.wq_patch.specs.declared.tree.TreeFault.{TreeFault};
    ghost use Rattle.wq_record.specs.Seen.{Stat};

    // The stats that it may give for the file of a path: none if it cannot look at the file.
    ghost says: { Self → List ℕ → Option Stat → Type 0 };

    // The names that it may give for the directory of a path, as the system gives them: none if it cannot read the
    // directory.
    ghost has: { Self → List ℕ → Option (List (List ℕ)) → Type 0 };

    // A call of the system failed at a path with an error that means this fault of a whole walk: no file handle was left,
    // or the file system failed. So the path has no answer.
    ghost fails: { Self → TreeFault → List ℕ → Type 0 };

    /// The names of all entries in the directory of this path, each once, or nothing if it cannot be read. If a path
    /// ends in a slash, the disk may follow a link there. A path without that slash is not read if it ends in a link.
    fn names_in(&self, block: &mut Block<'_>, path: &str) -> Result<Option<Names>, TreeFault>
        ensures told { IfOk result (λ names. has self.now path.now (option_map names_given names)) }
        ensures entries { IfOk result (λ names. IfSome names AllAreLeft) }
        ensures fault { IfErr result (IsFailureAt (fails self.now) path.now) };

    /// The stat of the file of this path, or nothing if the disk cannot look at it. A link is not followed.
    fn stat(&self, path: &str) -> Result<Option<Stat>, TreeFault>
        ensures told { IfOk result (says self.now path.now) }
        ensures fault { IfErr result (IsFailureAt (fails self.now) path.now) };
}

/// The disk of this machine, or of another file system.
#[derive(Drop)]
pub struct FileDisk<S: FileSystem + Drop = HostRuntime> {
    system: S,
    alloc: Global,
    /// Whether a disk has the process in a root. All disks of the process share it.
    is_taken: Arc<AtomicBool>,
    /// The root in which this disk has the process.
    entered: Option<Entered>,
}

impl FileDisk<HostRuntime> {
    /// The disk that these files are on. All disks of a process share this word, which says whether one of them has the
    /// working directory. The call takes no memory.
    pub fn new(files: &HostRuntime, is_taken: Arc<AtomicBool>) -> FileDisk<HostRuntime> {
        FileDisk {
            system: *files,
            alloc: files.alloc(),
            is_taken,
            entered: None,
        }
    }
}

impl<S: FileSystem + Drop> FileDisk<S> {
    /// Makes a root the working directory of the process, so that the system begins each look below it there. If another
    /// disk has the working directory, or if that fails, it begins at `/`.
    pub fn enter(&mut self, root: &str) {
        if self.entered.is_some() {
            return;
        }
        if let Ok(path) = with_slash(self.alloc, root) {
            self.entered = Entered::enter(&self.system, &self.is_taken, path);
        }
    }

    /// Makes `/` the working directory of the process, so that no file system stays in use. It does nothing if another
    /// disk has the working directory.
    pub fn leave(&mut self) {
        if let Some(entered) = self.entered.take() {
            entered.leave(&self.system, &self.is_taken);
        }
    }

    /// Whether a root is on another device than the directory above it, as the root of a mounted file system is. There is
    /// no answer if one of them cannot be looked at.
    pub fn has_own_device(&self, root: &str) -> Option<bool> {
        let mut path = with_slash(self.alloc, root).ok()?;
        let here = self.system.device(path.as_str()).ok()?;
        path.push_str("..").ok()?;
        let above = self.system.device(path.as_str()).ok()?;
        Some(here != above)
    }

    /// A path from where the process is.
    fn ask<'a>(&'a self, path: &'a str) -> AskedPath<'a>
        ensures { result.path ≡ path.now }
    {
        match &self.entered {
            Some(entered) => entered.ask(path),
            None => AskedPath::whole(path),
        }
    }
}

impl<S: FileSystem + Drop> Disk for FileDisk<S> {
    ghost use Rattle.wq_disk.specs.FileSystem.{FailsBy, HasBy, SaysBy};

    ghost says = { λ d. SaysBy (S.gave d.system) (S.missed d.system) };

    ghost has = { λ d. HasBy (S.holds d.system) (S.missed d.system) };

    ghost fails = { λ d. FailsBy (S.missed d.system) };

    fn names_in(&self, block: &mut Block<'_>, path: &str) -> Result<Option<Names>, TreeFault> {
        names_in(&self.system, block, &self.ask(path))
    }

    fn stat(&self, path: &str) -> Result<Option<Stat>, TreeFault> {
        match self.system.look(&self.ask(path)) {
            Ok(facts) => Ok(Some(stat_from(&facts))),
            Err(error) => match walk_fault(&error) {
                Some(fault) => Err(fault),
                None => Ok(None),
            },
        }
    }
}
