//! The reply to `clock`, the last pass over a root.
ghost use Rattle.wq_crawl.specs.At.{at_data};
ghost use Rattle.wq_session.specs.At.{ShelfNow};
ghost use Rattle.wq_session.specs.Clock.{clock_at};
ghost use Rattle.wq_session.specs.Work.{Begins, replying};

use crate::plain::Plain;
use crate::work::Rest;
use std::alloc::Global;
use wq_ask::{Refusal, clock_reply};
use wq_clock::print;
use wq_crawl::At;

/// `clock`, of the root that is looked at.
pub(super) fn clock_at(alloc: Global, at: At<'_>) -> Result<Rest, Refusal>
    ensures { (shelf : ShelfNow) → Begins (replying (clock_at (at_data at.entry)) shelf)
        shelf result shelf }
{
    let Some(view) = at.view else {
        return Err(Refusal::NotWatched);
    };
    let clock = print(&at.instance, view.tick());
    let value = clock_reply(alloc, &clock)?;
    Ok(Rest::Prints(Plain { value }))
}
