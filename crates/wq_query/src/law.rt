//! Laws about queries, each a function whose contract is the law. A proof of another crate gets a
//! law by a call, which costs nothing.
ghost use Rattle.wq_query.specs.Law.{ValuesAskWhatTheyWrite};
ghost use Rattle.wq_query.specs.Subscribed.{SubscriptionsArePlain};

use wq_clock::texts_say_what_they_spell;
use wq_term::{
    bounds_say_what_they_write, numbers_say_what_they_write, values_say_what_they_write,
};

/// [`Query::read`](crate::Query::read) reads exactly the values of the grammar of queries.
pub fn values_ask_what_they_write()
    ensures { ValuesAskWhatTheyWrite }
{
    values_say_what_they_write();
    bounds_say_what_they_write();
    texts_say_what_they_spell();
    numbers_say_what_they_write();
}

/// A query that [`Query::read_subscription`](crate::Query::read_subscription) reads has no
/// suffixes, paths or patterns, and no cursor.
pub fn subscriptions_are_plain()
    ensures { SubscriptionsArePlain }
{
    texts_say_what_they_spell();
    values_ask_what_they_write();
}
