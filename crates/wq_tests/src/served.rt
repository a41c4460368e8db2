//! The ends of sessions that are served in memory: a tree, a clock that never moves, and a shelf.
ghost use Rattle.std.specs.Prelude.{◌≡◌, IfOk, IsTrue};
ghost use Rattle.std.specs.List.{list_all};
ghost use Rattle.wq_record.specs.Name.{is_valid_name};
ghost use Rattle.wq_record.specs.Seen.{is_lawful_row};

use std::alloc::{AllocError, Global};
use std::sync::{Arc, Mutex};
use wq_crawl::Seconds;
use wq_follow::Trigger;
use wq_patch::{Tree, TreeFault};
use wq_registry::{Cache, Shelf};
use wq_session::SharedShelf;
use wq_view::{Kind, Seen, SharedBytes, is_valid_name};

/// The names of the files of a tree.
pub(crate) type ServedNames = &'static [&'static [u8]];

/// A tree in which each root has these files at one listing, and the others at the next.
#[derive(Drop)]
pub(crate) struct Turning {
    pub(crate) alloc: Global,
    pub(crate) names: ServedNames,
    pub(crate) others: ServedNames,
}

impl Tree for Turning {
    ghost failed = { λ _. 0 };

    fn list(&mut self, _root: &str) -> Result<Vec<Seen>, TreeFault> {
        let names = self.names;
        self.names = self.others;
        self.others = names;
        Ok(rows_of(self.alloc, names)?)
    }

    fn failures(&self) -> u64 {
        0
    }
}

/// TreeRows that a tree may give.
#[derive(Drop)]
struct TreeRows {
    rows: Vec<Seen>,
    ghost lawful: { IsTrue (list_all is_lawful_row rows.items) },
}

impl TreeRows {
    /// No rows yet, with room for so many.
    fn with_room(alloc: Global, room: usize) -> Result<TreeRows, AllocError> {
        Ok(TreeRows {
            rows: Vec::with_capacity(alloc, room)?,
        })
    }

    /// Adds a row after the others.
    fn add(&mut self, row: Seen) -> Result<(), AllocError>
        requires { IsTrue (is_lawful_row row) }
    {
        self.rows.push(row)?;
        Ok(())
    }

    /// The rows, in the order in which they were added.
    fn into_rows(self) -> Vec<Seen>
        ensures { IsTrue (list_all is_lawful_row result.items) }
    {
        self.rows
    }
}

/// The row of a file of this name.
fn row(alloc: Global, name: &[u8]) -> Result<Seen, AllocError>
    ensures { IfOk result (λ row. is_lawful_row row ≡ is_valid_name name.now) }
{
    Ok(Seen {
        name: SharedBytes::from_slice(alloc, name)?,
        kind: Kind::File,
        size: 1,
        mtime_ms: 1,
    })
}

/// The rows of files with these names, without the names that are not valid.
fn rows_of(alloc: Global, names: &[&[u8]]) -> Result<Vec<Seen>, AllocError>
    ensures { IfOk result (λ rows. IsTrue (list_all is_lawful_row rows.items)) }
{
    let mut rows = TreeRows::with_room(alloc, names.len())?;
    for name in names {
        if is_valid_name(name) {
            rows.add(row(alloc, name)?)?;
        }
    }
    Ok(rows.into_rows())
}

/// A clock that never moves.
#[derive(Drop)]
pub(crate) struct Still(pub(crate) i64);

impl Seconds for Still {
    fn second(&mut self) -> i64 {
        self.0
    }
}

/// The shelf of a server at its start, which is a desk; none if memory ran out.
pub(crate) fn new_desk(alloc: Global) -> Option<Shelf<Trigger>> {
    let sockname = String::from_str(alloc, "s").ok()?;
    let cache = Cache::new(alloc, 7, 9).ok()?;
    Some(Shelf::new(alloc, cache, sockname))
}

/// The shelf of a server at its start, for threads to share; none if memory ran out.
pub(crate) fn shared_shelf(alloc: Global) -> Option<Arc<Mutex<SharedShelf>>> {
    let sockname = String::from_str(alloc, "s").ok()?;
    let shelf = SharedShelf::new(alloc, Cache::new(alloc, 7, 9).ok()?, sockname);
    Arc::new(alloc, Mutex::new(shelf)).ok()
}
