//! The crawl of a root in a round, which gives way to clients.

use std::sync::Wait;
use std::time::{Clock, Duration, Instant};
use wq_crawl::{Asked, CrawlFault, Seconds, SharedCrawler};
use wq_live::Named;
use wq_patch::{Tree, TreeFault};
use wq_server::{Stop, time_since};

/// How many walks of a root a round gives up, before it waits for the crawler as a client does.
const MOST_GIVEN_UP: usize = 4;

/// How many seconds a round waits at most for clients before a walk.
const PATIENCE: u64 = 1;

/// Crawls a root in a round, and returns for how long it worked, and the fault if it was not
/// crawled.
///
/// It begins when no client waits for a crawl of the root, and gives way to one that comes, whose crawl serves the round
/// too. After four walks that it gave up, or if clients wait all the time, the round waits as a client does.
pub(crate) fn crawl_in_round<N, R, T, S>(
    rt: &R,
    crawler: &SharedCrawler<N, R, T, S>,
    root: &str,
    stop: &Stop,
) -> (Duration, Result<(), CrawlFault>)
where
    N: Named,
    R: Wait + Clock + Drop,
    T: Tree + Drop,
    S: Seconds + Drop,
{
    let asked = crawler.ask();
    let mut worked = Duration::ZERO;
    for _ in 0..MOST_GIVEN_UP {
        if stop.is_asked(rt) {
            return (worked, Err(CrawlFault::Tree(TreeFault::GaveWay)));
        }
        if !crawler.wait_for_none(rt, root, Duration::from_secs(PATIENCE)) {
            break;
        }
        let (took, crawled) = crawl_since(rt, crawler, &asked, root);
        worked = worked.saturating_add(took);
        if crawled != Err(CrawlFault::Tree(TreeFault::GaveWay)) {
            return (worked, crawled);
        }
    }
    if stop.is_asked(rt) {
        return (worked, Err(CrawlFault::Tree(TreeFault::GaveWay)));
    }
    let began = Instant::now(rt);
    let crawled = crawler.crawl_soon(rt, &asked, root);
    let took = time_since(rt, began);
    (worked.saturating_add(took), crawled.map(|_| ()))
}

/// Crawls a root for a round that asked at this moment, and returns how long that took.
fn crawl_since<N, R, T, S>(
    rt: &R,
    crawler: &SharedCrawler<N, R, T, S>,
    asked: &Asked,
    root: &str,
) -> (Duration, Result<(), CrawlFault>)
where
    N: Named,
    R: Wait + Clock + Drop,
    T: Tree + Drop,
    S: Seconds + Drop,
{
    let began = Instant::now(rt);
    let crawled = crawler.crawl_since(rt, asked, root);
    (time_since(rt, began), crawled.map(|_| ()))
}
