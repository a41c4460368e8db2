//! The refusal of a line if its root could not be crawled, watched or unwatched.
ghost use Rattle.std.specs.Prelude.{◌≡◌};
ghost use Rattle.wq_session.specs.Crawl.{crawl_refusal, pass_refusal, tree_refusal};

use wq_ask::Refusal;
use wq_crawl::CrawlFault;
use wq_patch::TreeFault;
use wq_view::PassFault;

/// The refusal of a line for the fault of the crawl of its root.
pub(crate) fn crawl_refusal(fault: CrawlFault) -> Refusal
    ensures { result ≡ crawl_refusal fault }
{
    match fault {
        CrawlFault::Tree(fault) => tree_refusal(fault),
        CrawlFault::Pass(fault) => pass_refusal(fault),
        CrawlFault::TooManyRoots => Refusal::TooManyRoots,
        CrawlFault::TicksSpent => Refusal::TicksSpent,
        CrawlFault::NoMemory => Refusal::NoMemory,
    }
}

/// The refusal of a line whose root the tree did not list.
fn tree_refusal(fault: TreeFault) -> Refusal
    ensures { result ≡ tree_refusal fault }
{
    match fault {
        TreeFault::Unreadable | TreeFault::NoHandle => Refusal::UnreadableRoot,
        TreeFault::TooManyRows => Refusal::TooManyFiles,
        // No crawl for a session gives way.
        TreeFault::GaveWay | TreeFault::NoMemory => Refusal::NoMemory,
    }
}

/// The refusal of a line whose root has rows that make no pass.
fn pass_refusal(fault: PassFault) -> Refusal
    ensures { result ≡ pass_refusal fault }
{
    match fault {
        PassFault::BadName | PassFault::NameTwice | PassFault::OutOfRange => {
            Refusal::UnreadableRoot
        }
        PassFault::TooManyRows => Refusal::TooManyFiles,
        PassFault::NoMemory => Refusal::NoMemory,
    }
}
