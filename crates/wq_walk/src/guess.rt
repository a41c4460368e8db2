//! The names at which a tree that was not listed yet may be cut: names at its top.
ghost use Rattle.std.specs.Prelude.{IfErr};
ghost use Rattle.wq_disk.specs.Told.{IsRootFault};

use crate::piece::MOST_PIECES;
use crate::progress::Progress;
use std::alloc::{AllocError, Global};
use wq_disk::{Block, Disk, Names, TreePath};
use wq_patch::TreeFault;

/// If the root has fewer names than this, some of the names below them are taken too.
const FEW: usize = 256;

/// The module takes one of so many names of a directory below the root's. A walk needs few of them in the end, and
/// whole names take memory.
const ONE_IN: usize = 16;

/// Some names at even distances among the names in the root's directory. If these are few, also some of the names in
/// its directories. The names rise. The root's path ends in a slash.
pub(crate) fn names_at_top<D: Disk>(
    disk: &D,
    progress: &Progress<'_>,
    alloc: Global,
    root: &str,
) -> Result<Vec<Vec<u8>>, TreeFault>
    ensures { IfErr result
        (IsRootFault (D.says disk.now) (D.has disk.now) (D.fails disk.now) root.now) }
{
    let mut block = Block::new(alloc, progress.way())?;
    let Some(top) = disk.names_in(&mut block, root)? else {
        return Err(TreeFault::Unreadable);
    };
    Ok(names_around(disk, &mut block, root, top)?)
}

/// Some of these names of the root's directory. If they are few, also some of the names in its directories. The names
/// rise.
fn names_around<D: Disk>(
    disk: &D,
    block: &mut Block<'_>,
    root: &str,
    top: Names,
) -> Result<Vec<Vec<u8>>, AllocError> {
    let alloc = block.allocator();
    let is_few = top.len() < FEW;
    let mut names = Vec::new(alloc);
    // All of them, because the directories below are found by these names.
    add_names(&mut names, b"", top, 1)?;
    if is_few {
        add_names_below(disk, block, root, &mut names)?;
        names.sort_unstable();
    }
    some_of(alloc, names)
}

/// As many of these names as a tree has pieces, at even distances, or all of them if they are fewer.
fn some_of(alloc: Global, names: Vec<Vec<u8>>) -> Result<Vec<Vec<u8>>, AllocError> {
    if names.len() <= MOST_PIECES {
        return Ok(names);
    }
    let mut some = Vec::with_capacity(alloc, MOST_PIECES)?;
    for number in 0..MOST_PIECES {
        let place = names.len().saturating_mul(number) / MOST_PIECES;
        if let Some(name) = names.get(place) {
            some.push(name.clone()?)?;
        }
    }
    Ok(some)
}

/// Adds whole names of entries of the directories of these names.
fn add_names_below<D: Disk>(
    disk: &D,
    block: &mut Block<'_>,
    root: &str,
    names: &mut Vec<Vec<u8>>,
) -> Result<(), AllocError> {
    let alloc = block.allocator();
    let mut path = TreePath::new(alloc, root.len());
    for at in 0..names.len() {
        let Some(name) = names.get(at) else {
            break;
        };
        path.set(root.as_bytes(), name)?;
        let entries = path.text().map(|text| disk.names_in(block, text));
        if let Some(Ok(Some(entries))) = entries {
            let directory = path.directory(alloc)?;
            let name = directory.get(root.len()..).unwrap_or(b"");
            add_names(names, name, entries, ONE_IN)?;
        }
    }
    Ok(())
}

/// Adds the whole names of some entries of a directory, whose name has a slash at its end. It takes the first entry,
/// and then one in so many.
fn add_names(
    names: &mut Vec<Vec<u8>>,
    directory: &[u8],
    mut entries: Names,
    one_in: usize,
) -> Result<(), AllocError> {
    let alloc = *names.allocator();
    for number in 0..entries.len() {
        let Some(entry) = entries.take() else {
            break;
        };
        if number.is_multiple_of(one_in) {
            let mut name = Vec::from_slice(alloc, directory)?;
            name.extend_from_slice(entries.at(entry))?;
            names.push(name)?;
        }
    }
    Ok(())
}
