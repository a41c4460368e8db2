//! The count of crawls that have begun.
ghost use Rattle.std.specs.Prelude.{◌≡◌, ◌≤◌};

use std::sync::atomic::{AtomicU64, Ordering};
use wq_patch::Tree;

/// The moment at which somebody asked for a crawl: the number of crawls that had begun then. Only [`Begun::read`] makes
/// one, and it cannot be copied. So whoever has none yet can only read it now.
#[derive(Drop)]
pub struct Asked {
    count: u64,
}

impl Asked {
    /// The number of crawls that had begun.
    pub(crate) fn count(&self) -> u64
        ensures { result ≡ self.now.count }
    {
        self.count
    }
}

/// The moment at which a crawl begins: the number of crawls that began before. Only [`Begun::raise`] makes one, for one
/// listing.
#[derive(Drop)]
pub(crate) struct Raised {
    count: u64,
}

impl Raised {
    /// The number of crawls that began before.
    pub(crate) fn count(&self) -> u64
        ensures { result ≡ self.now.count }
    {
        self.count
    }
}

/// The count of crawls that have begun. Threads share it.
#[derive(Drop)]
pub(crate) struct Begun {
    count: AtomicU64,
}

impl Begun {
    /// The count before the first crawl.
    pub(crate) fn new() -> Begun {
        Begun {
            count: AtomicU64::new(0),
        }
    }

    /// This moment.
    pub(crate) fn read(&self) -> Asked {
        Asked {
            count: self.count.load(Ordering::SeqCst),
        }
    }

    /// Counts a crawl that begins for somebody who asked at an earlier moment.
    pub(crate) fn raise(&self, asked: &Asked) -> Raised
        ensures { asked.now.count ≤ result.count }
    {
        // The count never falls. No contract of the kit says so.
        let count = self.count.fetch_add(1, Ordering::SeqCst);
        Raised {
            count: count.max(asked.count),
        }
    }
}
