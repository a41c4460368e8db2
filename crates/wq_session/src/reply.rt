//! The printing of a reply as the work of an answer. It is apart from [`Plain`], whose file may name no definition that
//! leads back to it.
ghost use Rattle.std.specs.Prelude.{List, Option, false};
ghost use Rattle.serde_json.specs.View.{view as data_of};
ghost use Rattle.wq_follow.specs.Subscription.{SubscriptionData};
ghost use Rattle.wq_session.specs.Answer.{Finishes};
ghost use Rattle.wq_crawl.specs.At.{AtData};
ghost use Rattle.wq_session.specs.Work.{prints};

use crate::outcome::{Out, print};
use crate::plain::Plain;
use std::alloc::Global;

/// The output of a reply that is printed when the shelf is no longer held.
pub(crate) fn printed(alloc: Global, reply: &Plain) -> Out
    ensures { (at : Option AtData) (follows : List SubscriptionData)
        → Finishes false (prints (data_of reply.now.value)) at follows result follows }
{
    match print(alloc, &reply.value) {
        Ok(out) => out,
        Err(_) => Out::runs_out(None),
    }
}
