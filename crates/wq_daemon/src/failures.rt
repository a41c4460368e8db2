//! The roots that could not be crawled by a round when it last tried, and why. So the operator hears of each fault once.

use serde_json::Value;
use std::alloc::{AllocError, Global};
use wq_crawl::CrawlFault;

/// A root that could not be crawled.
#[derive(Drop)]
struct Failed {
    number: u64,
    fault: CrawlFault,
}

/// Roots that could not be crawled.
#[derive(Drop)]
pub(crate) struct FailingRoots {
    failed: Vec<Failed>,
}

impl FailingRoots {
    /// No roots. This takes no memory.
    pub(crate) fn new(alloc: Global) -> FailingRoots {
        FailingRoots {
            failed: Vec::new(alloc),
        }
    }

    /// Forgets the roots that are not shown any more.
    pub(crate) fn forget_others(&mut self, shown: &[u64]) {
        self.failed.retain(|it| shown.contains(&it.number));
    }

    /// Keeps that the root of this number could not be crawled, and says whether that is new. If memory runs out for
    /// that, the operator hears of the root again after the next crawl.
    pub(crate) fn add(&mut self, number: u64, fault: CrawlFault) -> bool {
        let is_new = !self
            .failed
            .iter()
            .any(|it| it.number == number && it.fault == fault);
        self.failed.retain(|it| it.number != number);
        let _ = self.failed.push(Failed { number, fault });
        is_new
    }

    /// Keeps that the root of this number was crawled, and says whether it could not be before.
    pub(crate) fn remove(&mut self, number: u64) -> bool {
        let count = self.failed.len();
        self.failed.retain(|it| it.number != number);
        self.failed.len() < count
    }
}

/// The line to the operator about a root that cannot be crawled.
pub(crate) fn fault_line(
    alloc: Global,
    root: &str,
    fault: CrawlFault,
) -> Result<String, AllocError> {
    let root = quoted(alloc, root)?;
    Ok(format!(in alloc; "{root}: {fault}")?)
}

/// The line to the operator about a root that is crawled again after it could not be.
pub(crate) fn back_line(alloc: Global, root: &str) -> Result<String, AllocError> {
    let root = quoted(alloc, root)?;
    Ok(format!(in alloc; "{root}: the root is crawled again")?)
}

/// A root as JSON, which is one line whatever the root's bytes are.
fn quoted(alloc: Global, root: &str) -> Result<String, AllocError> {
    Value::try_from_str(alloc, root)?.to_string(alloc)
}
