//! The need of an ask: the step that comes before its answer.
ghost use Rattle.std.specs.Prelude.{◌≡◌};
ghost use Rattle.wq_crawl.specs.Need.{need_data};
ghost use Rattle.wq_session.specs.Need.{need_of, seen};

use wq_ask::{Ask, RootText};
use wq_crawl::Need;

/// The step before an ask is answered. A line that needs a crawl is answered after that crawl, at the view that it left. A
/// line that watches a root is answered at the view of that root; one that unwatches it, at its number.
pub fn need_of(ask: &Ask) -> Need<'_>
    ensures { need_data result ≡ need_of ask.now }
{
    match ask {
        Ask::Watch { root } => Need::Open(root.as_str()),
        Ask::Unwatch { root } => Need::Retire(root.as_str()),
        Ask::OfRoot { root, crawl, .. } => seen(*crawl, root),
        _ => Need::Nothing,
    }
}

/// The view of a root, crawled first or not.
fn seen(crawl: bool, root: &RootText) -> Need<'_>
    ensures { need_data result ≡ seen crawl root.now }
{
    if crawl {
        Need::Crawl(root.as_str())
    } else {
        Need::Look(root.as_str())
    }
}
