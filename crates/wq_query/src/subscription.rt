//! The query of a subscription: it has no generators and no cursor.
ghost use Rattle.std.specs.Prelude.{◌≡◌, Err, Ok};
ghost use Rattle.serde_json.specs.View.{view as data_of};
ghost use Rattle.wq_query.specs.Outcome.{GivesQuery};
ghost use Rattle.wq_query.specs.Query.{asked_of};
ghost use Rattle.wq_query.specs.Subscribed.{comes_first, has_cursor, has_generator};
ghost use Rattle.wq_query.specs.Subscribed.{without_generators};

use crate::fault::QueryFault;
use crate::key::cursor;
use crate::query::Query;
use serde_json::Value;

/// The query of an object, unless that has a generator or a cursor.
pub(crate) fn without_generators(value: &Value, query: Query) -> Result<Query, QueryFault>
    ensures { GivesQuery result (without_generators (Ok (asked_of query))
        (has_generator (data_of value.now)) (has_cursor (data_of value.now))) }
{
    if has_generator(value) {
        return Err(QueryFault::BadGenerator);
    }
    if has_cursor(value) {
        return Err(QueryFault::BadClockSpec);
    }
    Ok(query)
}

/// The fault of an object as a subscription, which has this one as a query.
pub(crate) fn first_fault(value: &Value, fault: QueryFault) -> QueryFault
    ensures { without_generators (Err fault) (has_generator (data_of value.now))
        (has_cursor (data_of value.now)) ≡ Err result }
{
    if comes_first(fault) {
        return fault;
    }
    if has_generator(value) {
        return QueryFault::BadGenerator;
    }
    if has_cursor(value) {
        return QueryFault::BadClockSpec;
    }
    fault
}

/// Whether a fault of a query is told before a generator is.
fn comes_first(fault: QueryFault) -> bool
    ensures { result ≡ comes_first fault }
{
    match fault {
        QueryFault::LeftOutKey
        | QueryFault::ExpressionAndProgram
        | QueryFault::Expression(_)
        | QueryFault::UnknownField
        | QueryFault::NoMemory => true,
        QueryFault::BadGenerator
        | QueryFault::PatternTooLong
        | QueryFault::BadClockSpec
        | QueryFault::WrongValue => false,
    }
}

/// Whether an object has a key of a generator, whatever its value is.
fn has_generator(value: &Value) -> bool
    ensures { result ≡ has_generator (data_of value.now) }
{
    value.get("suffix").is_some() || value.get("path").is_some() || value.get("glob").is_some()
}

/// Whether `since` says a cursor.
fn has_cursor(value: &Value) -> bool
    ensures { result ≡ has_cursor (data_of value.now) }
{
    match value.get("since") {
        Some(since) => cursor(since).is_some(),
        None => false,
    }
}
