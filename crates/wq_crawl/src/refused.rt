//! A crawl or a watching that was refused.

use crate::fault::CrawlFault;
use wq_base::Text;

/// A root that could not be crawled or opened, and why.
#[derive(Drop)]
pub struct Refused {
    /// The text of the root.
    pub root: Text,
    /// The reason.
    pub fault: CrawlFault,
}
