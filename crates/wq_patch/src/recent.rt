//! The directories of a view into which a glance at its root looks. It keeps what the view has of the others. Another
//! crate reads directories. No contract speaks of which directories these are, since nothing that is proved of a glance
//! rests on the choice: a glance only looks into all of them.
ghost use Rattle.std.specs.Prelude.{◌≡◌};
ghost use Rattle.wq_patch.specs.Recent.{is_one_of_names};

use std::alloc::AllocError;
use std::marker::Model;
use wq_record::{MAX_NAME, Record};
use wq_view::View;

/// How far a glance looks.
#[derive(Clone, Copy, PartialEq, Eq, Drop)]
pub enum Reach {
    /// Into the directories in which something changed last.
    Recent,
    /// Into these, and into each directory whose own kind, size or time is not as the view has it.
    Changed,
}

/// The number of changes that are recent at most. The latest ones count.
const MOST_CHANGES: usize = 1_000;

/// The number of names in recent directories, with which there are no more of them.
const MOST_NAMES: usize = 2_000;

/// The directories below a root in which something changed last, and those above them. The root itself is always one.
#[derive(Drop)]
pub struct Recent<'a> {
    /// The names, rising.
    names: Vec<&'a [u8]>,
    reach: Reach,
}

impl<'a> Model for Recent<'a> {
    ghost use Rattle.std.specs.Prelude.{ℕ, List, map};
    ghost use Rattle.std.specs.List.Sorted.{IsSortedBy};
    ghost use Rattle.std.specs.Ordering.{is_lt};
    ghost use Rattle.wq_record.specs.Name.{name_cmp};

    ghost Value = { List (List ℕ) };

    ghost view = { λ r. map (λ name. name.now) r.names.items };

    ghost invariant = { λ r. IsSortedBy (λ a b. is_lt (name_cmp a.now b.now)) r.names.items };
}

impl<'a> Recent<'a> {
    /// The directories into which a glance looks that reaches so far. Those in which something changed are of the latest
    /// changes that have, with what is above them, about 2,000 names in them. Changes that the first pass saw do not count.
    /// There is nothing if no other file changed, and the glance looks at no directory's own row.
    pub fn of(view: &'a View, reach: Reach) -> Result<Option<Recent<'a>>, AllocError> {
        if reach == Reach::Recent && changed_at(view, 0).is_none() {
            return Ok(None);
        }
        let mut names: Vec<&'a [u8]> = Vec::new(view.allocator());
        let mut last = None;
        let mut looked = 0usize;
        for place in 0..MOST_CHANGES {
            let Some(record) = changed_at(view, place) else {
                break;
            };
            // Files that one pass saw change are in the order of their names, so most have the directory of the last.
            let directory = directory_of(record.name.as_str());
            if directory == last || is_above_others(&names, directory) {
                continue;
            }
            looked = looked.saturating_add(names_in(view, directory));
            if looked > MOST_NAMES && place > 0 {
                break;
            }
            add_with_those_above(&mut names, directory)?;
            last = directory;
        }
        names.sort_unstable_by(|a, b| a.cmp(b));
        Ok(Some(Recent { names, reach }))
    }

    /// Whether a directory is one of these.
    pub fn has(&self, name: &[u8]) -> bool
        ensures { result ≡ is_one_of_names self.now name.now }
    {
        let at = self.names.binary_search_by(|other| other.cmp(&name));
        at.is_ok()
    }

    /// How far the glance looks.
    pub fn reach(&self) -> Reach {
        self.reach
    }
}

/// The record at a place of the order of change, if the file changed, and not at the first pass alone.
fn changed_at(view: &View, place: usize) -> Option<&Record> {
    let record = view.get(view.newest(place)?);
    (record.otick > 1).then_some(record)
}

/// Whether a directory is the root, or one of these.
fn is_above_others(names: &[&[u8]], directory: Option<&str>) -> bool {
    match directory {
        Some(name) => names.contains(&name.as_bytes()),
        None => true,
    }
}

/// The number of names in a directory by a view, of names and directories 2,000 at most. Directories count once more if
/// the view has files below them.
fn names_in(view: &View, directory: Option<&str>) -> usize {
    let Some(directory) = directory else {
        return 0;
    };
    let (mut at, end) = view.below(directory);
    let mut count = 0usize;
    for _ in 0..MOST_NAMES {
        if at >= end {
            break;
        }
        count = count.saturating_add(1);
        at = match directory_within(view.get(at), directory) {
            Some(below) => view.below(below).1.max(at + 1),
            None => at + 1,
        };
    }
    count
}

/// The directory within another one that has a file, if the file is not in that other one itself.
fn directory_within<'a>(record: &'a Record, directory: &str) -> Option<&'a str> {
    let name = record.name.as_str();
    let start = directory.len().saturating_add(1);
    let slash = name
        .as_bytes()
        .get(start..)?
        .iter()
        .position(|byte| *byte == b'/')?;
    name.get(..start.saturating_add(slash))
}

/// Adds a directory and those above it, without the root.
fn add_with_those_above<'a>(
    names: &mut Vec<&'a [u8]>,
    directory: Option<&'a str>,
) -> Result<(), AllocError> {
    let mut next = directory;
    for _ in 0..MAX_NAME {
        let Some(name) = next else {
            break;
        };
        names.push(name.as_bytes())?;
        next = directory_of(name);
    }
    Ok(())
}

/// The name of the directory of a name, or nothing at the top.
fn directory_of(name: &str) -> Option<&str> {
    Some(name.rsplit_once('/')?.0)
}
