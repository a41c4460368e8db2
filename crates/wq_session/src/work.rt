//! The rest of the work of an answer, when the shelf is no longer held.
ghost use Rattle.std.specs.Prelude.{◌≡◌};

use crate::cursor::Cursor;
use crate::lookup::Lookup;
use crate::outcome::Out;
use crate::plain::Plain;
use crate::read_object::ReadObject;
use std::sync::Arc;
use wq_ask::RootAsk;
use wq_base::Text;
use wq_follow::{ObjectText, Subscription};
use wq_reply::Plan;

/// The rest of the work of an answer, and its ask if that is of a root, with what was read of it. These are freed when
/// the work is finished, and not while the shelf is held.
#[derive(Drop)]
pub struct Work {
    pub(crate) rest: Rest,
    pub(crate) ask: Option<RootAsk>,
    pub(crate) object: ReadObject,
    pub(crate) lookup: Lookup,
}

impl Work {
    /// The rest of the work. What was read of the ask is freed here, since what frees it is long.
    pub(crate) fn into_rest(self) -> Rest
        ensures { result ≡ self.rest }
    {
        let Work { rest, .. } = self;
        rest
    }
}

/// The rest of the work of an answer.
#[derive(Drop)]
pub(crate) enum Rest {
    /// Nothing: this is the output.
    Says(Out),
    /// Printing this reply, which may be long.
    Prints(Plain),
    /// Reading these objects of triggers, which may be long, and printing the list of them.
    ListsTriggers(Vec<Arc<ObjectText>>),
    /// Listing the files of a plan; this cursor was moved for it.
    Evaluates(Plan, Option<Cursor>),
    /// Beginning a subscription, and making its first list.
    Begins(Subscription),
    /// Ending the subscription of this name, of the root of this number.
    Drops(u64, Text),
}
