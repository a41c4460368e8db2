//! The meaning of an error of the system for a walk: whether the error is about its path alone. Another module makes
//! the calls.
ghost use Rattle.std.specs.Prelude.{◌≡◌};
ghost use Rattle.wq_disk.specs.Unseen.{error_fault, is_of_handles, is_of_memory, is_of_path};

use std::io::{Error, ErrorKind};
use wq_patch::TreeFault;

/// This process may not do so (Linux `errno(3)`, as all numbers here).
const EPERM: i32 = 1;

/// There is no such file.
const ENOENT: i32 = 2;

/// This process may not read or search it.
const EACCES: i32 = 13;

/// A file stands in the place of a directory.
const ENOTDIR: i32 = 20;

/// The machine can open no more files.
const ENFILE: i32 = 23;

/// The process can open no more files.
const EMFILE: i32 = 24;

/// A name, or the whole path, is too long.
const ENAMETOOLONG: i32 = 36;

/// Links lead round in a circle.
const ELOOP: i32 = 40;

/// The fault of a whole walk that an error at one path means. There is none if the error is about the path alone: its
/// file is deleted, of another kind or closed to this process.
///
/// If no more files can be opened, memory ran out, or a file system failed, an error says nothing of its path.
pub(crate) fn walk_fault(error: &Error) -> Option<TreeFault>
    ensures { result ≡ error_fault error.now }
{
    let number = error.raw_os_error();
    if is_of_handles(number) {
        return Some(TreeFault::NoHandle);
    }
    if is_of_memory(error.kind()) {
        return Some(TreeFault::NoMemory);
    }
    if is_of_path(number) {
        return None;
    }
    Some(TreeFault::Unreadable)
}

/// Whether an error with this number says that no more files can be opened.
fn is_of_handles(number: Option<i32>) -> bool
    ensures { result ≡ is_of_handles number }
{
    matches!(number, Some(ENFILE | EMFILE))
}

/// Whether an error of this kind says that memory ran out.
fn is_of_memory(kind: ErrorKind) -> bool
    ensures { result ≡ is_of_memory kind }
{
    matches!(kind, ErrorKind::OutOfMemory)
}

/// Whether an error with this number is about its path alone. One without a number is, since the system was not asked.
fn is_of_path(number: Option<i32>) -> bool
    ensures { result ≡ is_of_path number }
{
    matches!(
        number,
        None | Some(EPERM | ENOENT | EACCES | ENOTDIR | ENAMETOOLONG | ELOOP)
    )
}
