//! Laws of walks. Each law is the contract of a function that does nothing, for the answers of any disk.
ghost use Rattle.wq_walk.specs.Accounts.{NamesAreAccountedFor, RowsAreOfPaths};
ghost use Rattle.wq_walk.specs.Glance.{GlanceNamesAreAccountedFor, GlanceRowsAreKnown};
ghost use Rattle.wq_walk.specs.Once.{ListingsListOnce, WalksListOnce};

use wq_disk::Disk;

/// Each row of a walk is of the path of its name: the disk gave that stat for the root's path and the name after it,
/// and the name is in the part that was walked.
pub fn rows_are_of_paths<D: Disk>(disk: &D)
    ensures { RowsAreOfPaths (D.says disk.now) (D.has disk.now) }
{
    let _ = disk;
}

/// A walk accounts for each name in each directory that it read: it passes over the file, or lists its row if the name
/// is in the part, and reads the file if it is a directory below which a name may be in the part.
pub fn names_are_accounted_for<D: Disk>(disk: &D)
    ensures { NamesAreAccountedFor (D.says disk.now) (D.has disk.now) }
{
    let _ = disk;
}

/// No two rows of a walk have one name.
pub fn walks_list_once<D: Disk>(disk: &D)
    ensures { WalksListOnce (D.says disk.now) (D.has disk.now) }
{
    let _ = disk;
}

/// No two rows of a listing have one name, though several threads walked its parts.
pub fn listings_list_once<D: Disk>(disk: &D)
    ensures { ListingsListOnce (D.says disk.now) (D.has disk.now) }
{
    let _ = disk;
}

/// Each row of a glance is one that the last view has below a directory that the glance kept, or the disk gave that stat
/// for the root's path and the name after it. The glance keeps a directory only if it was not asked to enter it, and lists
/// the directory's own row just as the view has it.
pub fn glance_rows_are_known<D: Disk>(disk: &D)
    ensures { GlanceRowsAreKnown (D.says disk.now) (D.has disk.now) }
{
    let _ = disk;
}

/// A glance accounts for each name in each directory that it read: it passes over the file, or lists its row. It reads
/// the file too if it is a directory, or keeps it: then it lists the rows of all files below it by the last view.
pub fn glance_names_are_accounted_for<D: Disk>(disk: &D)
    ensures { GlanceNamesAreAccountedFor (D.says disk.now) (D.has disk.now) }
{
    let _ = disk;
}
