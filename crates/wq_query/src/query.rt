//! A query, read of a JSON object or of that of a subscription.
ghost use Rattle.std.specs.Prelude.{IsTrue};
ghost use Rattle.wq_term.specs.Expr.{term_of};
ghost use Rattle.wq_term.specs.Fits.{expr_fits};

use crate::fault::QueryFault;
use crate::field::Field;
use crate::options::Options;
use crate::{generator, glob, key, subscription};
use serde_json::Value;
use std::alloc::Global;
use wq_base::Text;
use wq_clock::{Bound, Instance};
use wq_term::{Expr, Generators};

/// The point from which a query asks for changes.
#[derive(Drop)]
pub enum QuerySince {
    /// From a bound.
    Bound(Bound),
    /// From the tick of a cursor: its name, of 1 to 255 bytes.
    Cursor(Text),
}

/// A client's question to a view: which files it wants, which fields of each, and what it wants of
/// the list.
pub struct Query {
    pub(crate) expr: Expr,
    /// The name of the program that says which files match, in place of the expression.
    pub(crate) program: Option<Text>,
    pub(crate) fields: Vec<Field>,
    pub(crate) since: QuerySince,
    /// Its suffixes, paths and patterns, without a bound.
    pub(crate) generators: Generators,
    pub(crate) options: Options,
    ghost limits: { IsTrue (expr_fits (term_of expr)) },
}

/// The parts of a query.
#[derive(Drop)]
pub struct QueryParts {
    /// The expression that the files match.
    pub expr: Expr,
    /// The name of the program that says which files match, in place of the expression.
    pub program: Option<Text>,
    /// The fields that are told of each file.
    pub fields: Vec<Field>,
    /// The point from which the query asks for changes.
    pub since: QuerySince,
    /// Its suffixes, paths and patterns, without a bound.
    pub generators: Generators,
    /// Its options, by the keys that are tested last.
    pub options: Options,
}

// A query is freed by one call, wherever a function gives up.
impl Drop for Query {
    fn drop(self) {
        let Query {
            expr: _,
            program: _,
            fields: _,
            since: _,
            generators: _,
            options: _,
        } = self;
    }
}

impl Query {
    ghost use Rattle.std.specs.Prelude.{◌≡◌, option_map};
    ghost use Rattle.serde_json.specs.View.{view as data_of};
    ghost use Rattle.wq_clock.specs.Instance.{instance_data};
    ghost use Rattle.wq_query.specs.Outcome.{GivesQuery};
    ghost use Rattle.wq_query.specs.Query.{asked_of, data_of_parts, since_bound, since_cursor};
    ghost use Rattle.wq_query.specs.Reading.{asks};
    ghost use Rattle.wq_query.specs.Subscribed.{subscribes};

    /// The query that a JSON object asks, at this instance of the server. The first fault refuses
    /// it: see [`QueryFault`].
    ///
    /// Keys that are not known are ignored, and so are `dedup_results`, `defer` and `drop`. The
    /// value of `sync_timeout` is tested here, and the caller that crawls uses it. A value that is
    /// no object has no keys.
    pub fn read(alloc: Global, value: &Value, instance: &Instance) -> Result<Query, QueryFault>
        ensures { GivesQuery result (asks (instance_data instance.now) (data_of value.now)) }
    {
        if key::has_left_out_key(value) {
            return Err(QueryFault::LeftOutKey);
        }
        if key::has_both(value) {
            return Err(QueryFault::ExpressionAndProgram);
        }
        let expr = key::expression(alloc, value.get("expression"), instance)?;
        let fields = key::fields(alloc, value.get("fields"))?;
        let suffix = generator::suffixes(alloc, value.get("suffix"))?;
        let path = generator::paths(alloc, value.get("path"))?;
        let flags = glob::glob_flags(value.get("glob_includedotfiles"));
        let glob = glob::globs(alloc, value.get("glob"), flags)?;
        let since = key::since(alloc, value.get("since"), instance)?;
        let program = key::program(alloc, value.get("program"))?;
        let Some(options) = Options::read(value) else {
            return Err(QueryFault::WrongValue);
        };
        Ok(Query {
            expr,
            program,
            fields,
            since,
            generators: Generators {
                since: None,
                suffix,
                path,
                glob,
            },
            options,
        })
    }

    /// The query that the object of a subscription asks, without generators and without a cursor.
    ///
    /// A key of a generator is [`QueryFault::BadGenerator`], whatever its value is, and a cursor is
    /// [`QueryFault::BadClockSpec`]. All other faults come in the order of [`Query::read`].
    pub fn read_subscription(
        alloc: Global,
        value: &Value,
        instance: &Instance,
    ) -> Result<Query, QueryFault>
        ensures { GivesQuery result (subscribes (instance_data instance.now) (data_of value.now)) }
    {
        match Query::read(alloc, value, instance) {
            Ok(query) => subscription::without_generators(value, query),
            Err(fault) => Err(subscription::first_fault(value, fault)),
        }
    }

    /// The expression that the files match; that of every file if the query names a program.
    pub fn expr(&self) -> &Expr
        ensures value { term_of result.now ≡ (asked_of self.now).expression }
        ensures limits { IsTrue (expr_fits (term_of result.now)) }
    {
        &self.expr
    }

    /// The name of the program that says which files match, in place of the expression.
    pub fn program(&self) -> Option<&str>
        ensures { option_map (λ name. name.now) result ≡ (asked_of self.now).program }
    {
        match &self.program {
            None => None,
            Some(name) => Some(name.as_str()),
        }
    }

    /// The bound that the query sets: fresh if it has no `since`, and none if that is a cursor.
    pub fn bound(&self) -> Option<Bound>
        ensures { result ≡ since_bound (asked_of self.now).since }
    {
        match &self.since {
            QuerySince::Bound(bound) => Some(*bound),
            QuerySince::Cursor(_) => None,
        }
    }

    /// The name of the cursor from whose tick the query asks for changes, of 1 to 255 bytes.
    pub fn cursor(&self) -> Option<&str>
        ensures { option_map (λ name. name.now) result ≡ since_cursor (asked_of self.now).since }
    {
        match &self.since {
            QuerySince::Bound(_) => None,
            QuerySince::Cursor(name) => Some(name.as_str()),
        }
    }

    /// The parts of the query.
    pub fn into_parts(self) -> QueryParts
        ensures { data_of_parts result ≡ asked_of self }
    {
        let Query {
            expr,
            program,
            fields,
            since,
            generators,
            options,
        } = self;
        QueryParts {
            expr,
            program,
            fields,
            since,
            generators,
            options,
        }
    }
}
