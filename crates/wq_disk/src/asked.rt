//! The path for which a disk asks the system, and the root that is the working directory meanwhile.
ghost use Rattle.std.specs.Prelude.{◌≡◌, [], string_bytes};
ghost use Rattle.wq_disk.specs.AskedPath.{IsFrom, IsRest};

use crate::file_system::FileSystem;
use std::marker::Model;
use std::sync::atomic::{AtomicBool, Ordering};

/// A whole path, and how much of it leads to the working directory of the process. The system gets the rest.
///
/// Only [`AskedPath::whole`] and [`Entered::ask`] make one, so no call begins at another working directory than the root
/// that was entered.
#[derive(Drop)]
pub struct AskedPath<'a> {
    path: &'a str,
    /// The number of bytes that lead to the working directory. It is 0 if the system begins at `/`.
    start: usize,
}

impl<'a> Model for AskedPath<'a> {
    ghost use Rattle.wq_disk.specs.AskedData.{AskedData, asked_code};

    ghost Value = { AskedData };

    ghost coded = { asked_code };

    ghost view = { λ a. record { path = a.path.now; start = a.start } };
}

impl<'a> AskedPath<'a> {
    /// The whole of a path.
    pub(crate) fn whole(path: &'a str) -> AskedPath<'a>
        ensures { result ≡ record { path = path.now; start = 0 } }
    {
        AskedPath { path, start: 0 }
    }

    /// The path from the working directory, or the whole path.
    pub fn from_here(&self) -> &'a str
        ensures { IsRest self.now result.now }
    {
        self.path.get(self.start..).unwrap_or(self.path)
    }
}

/// A root that is the working directory of the process, or is about to be it.
///
/// Only [`Entered::enter`] makes one, and it needs the flag that all disks of the process share. The system changes the
/// working directory only for one that has it. So no two disks have it at once.
#[derive(Drop)]
pub struct Entered {
    /// The path of the root, with a slash at its end.
    root: String,
}

impl Entered {
    /// Makes a root the working directory, unless another disk has the flag, or that fails. The root's path ends in a
    /// slash.
    pub(crate) fn enter<S: FileSystem>(
        system: &S,
        is_taken: &AtomicBool,
        root: String,
    ) -> Option<Entered> {
        if is_taken.swap(true, Ordering::SeqCst) {
            return None;
        }
        let entered = Entered { root };
        if system.enter(&entered).is_err() {
            is_taken.store(false, Ordering::SeqCst);
            return None;
        }
        Some(entered)
    }

    /// Makes `/` the working directory, so that no file system stays in use, and gives the flag back.
    pub(crate) fn leave<S: FileSystem>(self, system: &S, is_taken: &AtomicBool) {
        let _ = system.leave(&self);
        is_taken.store(false, Ordering::SeqCst);
    }

    /// The path of the root, with a slash at its end.
    pub fn root(&self) -> &str
        ensures { result.now ≡ string_bytes self.now.root }
    {
        self.root.as_str()
    }

    /// A path from this root, if it is one of a file below the root. That of the root stays whole: a root that was deleted
    /// is still the working directory, and only its whole path says that it went.
    pub(crate) fn ask<'a>(&'a self, path: &'a str) -> AskedPath<'a>
        ensures path { result.path ≡ path.now }
        ensures from { IsFrom (string_bytes self.now.root) result }
    {
        match path.strip_prefix(self.root.as_str()) {
            Some("") | None => AskedPath::whole(path),
            Some(_) => AskedPath {
                path,
                start: self.root.len(),
            },
        }
    }
}
