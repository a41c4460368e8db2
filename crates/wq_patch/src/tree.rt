//! The tree, which lists the files below a root. Another crate walks it.
ghost use Rattle.std.specs.Prelude.{◌≡◌, IfErr, IfOk, IsTrue, OnOk};
ghost use Rattle.std.specs.List.{list_all};
ghost use Rattle.wq_record.specs.Seen.{is_lawful_row};
ghost use Rattle.wq_patch.specs.Tree.{IsCounted, IsFew, ListingFits, Lists, rows_given, rows_given_again, rows_listed};

use crate::recent::Recent;
use std::alloc::AllocError;
use thiserror::Error;
use wq_view::{Patch, Seen, View};

/// The reason for which a tree gives no listing.
#[derive(Clone, Copy, Debug, PartialEq, Eq, Drop, Error)]
pub enum TreeFault {
    /// The root cannot be read, because a device failed.
    #[error("the root cannot be read")]
    Unreadable,
    /// No file handle is left in this process or in the machine, so nothing is known of the root.
    #[error("no file handle is left")]
    NoHandle,
    /// The listing has over 1,000,000 rows.
    #[error("too many files")]
    TooManyRows,
    /// Somebody waits for the tree, and nobody waited for this listing. So nothing is known of the
    /// root.
    #[error("the listing gave way")]
    GaveWay,
    /// Memory ran out.
    #[error("no memory")]
    NoMemory,
}

impl From<AllocError> for TreeFault {
    ghost use Rattle.std.specs.Prelude.{◌≡◌};
    ghost use Rattle.wq_patch.specs.declared.tree.TreeFault.TheVariants.{NoMemory};

    ghost from_gives = { λ _ fault. fault ≡ NoMemory };

    fn from(_error: AllocError) -> TreeFault {
        TreeFault::NoMemory
    }
}

/// The number of files that a listing left out, though they are there.
#[derive(Clone, Copy, Debug, PartialEq, Eq, Drop)]
pub struct LeftOut {
    /// The names that are not UTF-8. What is below them is not counted.
    pub names: u64,
    /// The directories that could not be read. Their own rows are listed.
    pub directories: u64,
}

impl LeftOut {
    /// Nothing is left out.
    pub fn nothing() -> LeftOut {
        LeftOut {
            names: 0,
            directories: 0,
        }
    }
}

/// The listing of a root that has a view.
#[derive(Drop)]
pub enum Listing {
    /// These rows.
    Rows(Vec<Seen>),
    /// The files are those that exist by the last view, and are as its records say, except for these patches, which fit
    /// the view. They are no more than a pass takes.
    Patches(Vec<Patch>),
}

/// A source of listings of roots.
///
/// The source may show its last listing, and the number of its listings.
pub trait Tree {
    ghost use Rattle.std.specs.Prelude.{ℕ, Bool, Option, None, true};
    ghost use Rattle.wq_patch.specs.Tree.{ListedData};

    // The number of failures of its device so far.
    ghost failed: { Self → ℕ };

    // The number of listings so far, and the last of them, if the source shows these.
    ghost listed: { Self → Option (ℕ × ListedData) } = { λ _. None };

    // Whether the last listing was of the whole root. That of a glance may be of a part.
    ghost whole: { Self → Bool } = { λ _. true };

    /// The rows of the files below a root, in any order. Each row has a valid name, and its numbers are in range.
    ///
    /// A root is unreadable, or no file handle is left, only if the count of failures rose in this call, or is at its
    /// greatest value.
    fn list(&mut self, root: &str) -> Result<Vec<Seen>, TreeFault>
        ensures counted { IfErr result (IsCounted (failed self.old) (failed self.new)) }
        ensures lawful { IfOk result (λ rows. IsTrue (list_all is_lawful_row rows.items)) }
        ensures listed { Lists (listed self.old) root.now (rows_given result) (listed self.new) }
        ensures whole { OnOk result (IsTrue (whole self.new)) };

    /// The listing of the files below a root with this last view. Its rows are as [`Tree::list`] gives them. They may
    /// share the names of the view.
    fn list_again(&mut self, root: &str, last: &View) -> Result<Listing, TreeFault>
        ensures counted { IfErr result (IsCounted (failed self.old) (failed self.new)) }
        ensures lawful { IfOk result (λ listing.
            IsTrue (list_all is_lawful_row (rows_listed last.now.records listing))) }
        ensures few { IfOk result (IsFew last.now.records) }
        ensures fit { IfOk result (ListingFits last.now.records) }
        ensures listed { Lists (listed self.old) root.now
            (rows_given_again last.now.records result) (listed self.new) }
        ensures whole { OnOk result (IsTrue (whole self.new)) }
    {
        let _ = last;
        Ok(Listing::Rows(self.list(root)?))
    }

    /// A glance at the files below a root with this last view: a listing that may keep what the view has below
    /// directories that it does not look into. It looks into the recent ones. Its rows are as [`Tree::list`] gives them. A
    /// source that knows no glances lists the whole root.
    fn glance(&mut self, root: &str, last: &View, recent: &Recent<'_>) -> Result<Listing, TreeFault>
        ensures counted { IfErr result (IsCounted (failed self.old) (failed self.new)) }
        ensures lawful { IfOk result (λ listing.
            IsTrue (list_all is_lawful_row (rows_listed last.now.records listing))) }
        ensures few { IfOk result (IsFew last.now.records) }
        ensures fit { IfOk result (ListingFits last.now.records) }
        ensures listed { Lists (listed self.old) root.now
            (rows_given_again last.now.records result) (listed self.new) }
    {
        let _ = recent;
        self.list_again(root, last)
    }

    /// The number of failures of a device so far.
    fn failures(&self) -> u64
        ensures { result ≡ failed self.now };

    /// The number of files that the last listing left out, if the source counts that. No contract speaks of it.
    fn left_out(&self) -> LeftOut {
        LeftOut::nothing()
    }
}
