//! The happenings that may come in a world.

use wq_ask::Ask;
use wq_base::Text;
use wq_crawl::CrawlFault;
use wq_view::Pass;

/// Something that may happen. The name of a root has no slashes at its end, except for `/`.
#[derive(Drop)]
pub enum Happening<'a> {
    /// A crawl of a root: its listing, or why it could not be crawled. Nothing comes of it if the root is not shown.
    Crawl {
        root: Text,
        seen: Result<&'a Pass, CrawlFault>,
    },
    /// A watch of a root that is not shown: its listing, or why it could not be read. A root that is shown stays as it
    /// is.
    Watch {
        root: Text,
        seen: Result<&'a Pass, CrawlFault>,
    },
    /// A client asks. If it leaves, its ask is [`LoneAsk::Leave`](wq_ask::LoneAsk::Leave).
    Asked {
        client: i64,
        ask: Ask,
    },
    /// Nothing else happens for a while: a client hears of the changes of the root of this number.
    Idle {
        client: i64,
        root: u64,
    },
    /// The triggers of a root have a round, in which the launcher gives these answers to the starts in turn. An answer
    /// is the number of the run, or none if the start fails. A start without an answer fails. It does nothing if the
    /// root is not shown.
    ///
    /// A number may come again. Runs that have the same number at the same time end together.
    Round {
        root: Text,
        answers: Vec<Option<u32>>,
    },
    /// The run of this number has ended. It does nothing if no such run goes on.
    Ended {
        run: u32,
    },
}
