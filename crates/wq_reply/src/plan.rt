//! The plan of a query's answer.
ghost use Rattle.std.specs.Prelude.{◌≡◌, Some, None};
ghost use Rattle.wq_term.specs.Expr.{term_of};
ghost use Rattle.wq_reply.specs.Meaning.{KeepsMeasure, SaysMeaning};

use crate::ahead::Ahead;
use crate::crew::{Alone, found};
use crate::listing::listed;
use std::alloc::{AllocError, Global};
use std::snapshot::Snapshot;
use std::sync::Arc;
use wq_base::Text;
use wq_clock::Bound;
use wq_eval::{answers_are_said, answers_are_within};
use wq_query::{Field, Options, Query, QueryParts, QuerySince};
use wq_term::{Expr, Generators};
use wq_verify::StoredProgram;
use wq_view::View;

/// A query with the bound from which its files are candidates, and the program that says which of
/// them match. That is the one of the query's name, or one that answers the meaning of its
/// expression within the steps of its measure.
pub struct Plan {
    /// The query's expression, as contracts see it. A snapshot takes no memory.
    pub(crate) expr: Snapshot<Expr>,
    /// The name that the query has for a program, as contracts see it.
    pub(crate) program_name: Snapshot<Option<Text>>,
    /// The point from which the query asked for changes, as contracts see it.
    pub(crate) since: Snapshot<QuerySince>,
    pub(crate) fields: Vec<Field>,
    /// The query's suffixes, paths and patterns, and the plan's bound.
    pub(crate) generators: Generators,
    pub(crate) options: Options,
    pub(crate) bound: Bound,
    pub(crate) program: Arc<StoredProgram>,
    ghost from: { generators.since ≡ Some bound },
    ghost meaning: { program_name.value ≡ None → SaysMeaning program.value (term_of expr.value) },
    ghost cost: { program_name.value ≡ None → KeepsMeasure program.value (term_of expr.value) },
}

// A plan is let go by one call, wherever a function gives up.
impl Drop for Plan {
    fn drop(self) {
        let Plan {
            expr: _,
            program_name: _,
            since: _,
            fields: _,
            generators: _,
            options: _,
            bound: _,
            program: _,
        } = self;
    }
}

impl Plan {
    ghost use Rattle.std.specs.Prelude.{IfOk, IfSome, option_map};
    ghost use Rattle.wq_clock.specs.declared.bound.Bound.TheVariants.{Tick};
    ghost use Rattle.wq_view.specs.Position.{records_at};
    ghost use Rattle.wq_query.specs.Query.{asked_of};
    ghost use Rattle.wq_reply.specs.Ahead.{IsAheadAt};
    ghost use Rattle.wq_reply.specs.Following.{with_bound};
    ghost use Rattle.wq_reply.specs.Listing.{AreWithin, files_of};
    ghost use Rattle.wq_reply.specs.Meaning.{AnswersWithin};
    ghost use Rattle.wq_reply.specs.Plan.{planned};

    /// The plan of answering a query with this bound, whichever the query sets. It lets the expression go, which the
    /// program replaces from now on.
    ///
    /// The program is the one that is kept under the name that the query has for one. Without a
    /// name, it answers the meaning of the query's expression on every record, and its budget is no
    /// more than the expression's measure.
    pub fn of(query: Query, bound: Bound, program: Arc<StoredProgram>) -> Plan
        requires { (asked_of query).program ≡ None
            → AnswersWithin program.value (asked_of query).expression }
        ensures { planned result ≡ record {
          query = asked_of query;
          bound = bound;
          program = option_map (λ _. program.value) (asked_of query).program;
        } }
    {
        answers_are_said();
        answers_are_within();
        program.may_run();
        let QueryParts {
            expr,
            program: program_name,
            fields,
            since,
            mut generators,
            options,
        } = query.into_parts();
        generators.since = Some(bound);
        Plan {
            expr: Snapshot::of(&expr),
            program_name: Snapshot::of(&program_name),
            since: Snapshot::of(&since),
            fields,
            generators,
            options,
            bound,
            program,
        }
    }

    /// The bound from which the plan tells changes.
    pub fn bound(&self) -> Bound
        ensures { result ≡ (planned self.now).bound }
    {
        self.bound
    }

    /// From now on the plan tells the changes after this tick. It takes no memory.
    pub fn tell_from(&mut self, tick: u64)
        ensures { planned self.new ≡ with_bound (Tick tick) (planned self.old) }
    {
        let bound = Bound::Tick(tick);
        self.generators.since = Some(bound);
        self.bound = bound;
    }

    /// The places of the files that the plan lists, in the view's order. What was found ahead is taken if it is of the
    /// plan's program and candidates.
    pub fn files_ahead(
        &self,
        alloc: Global,
        view: &View,
        ahead: Option<&Ahead>,
    ) -> Result<Vec<u32>, AllocError>
        requires { IfSome ahead (λ ahead. IsAheadAt view.now.records ahead.now) }
        ensures within { IfOk result (λ places. AreWithin view.now.records places.items) }
        ensures files { IfOk result (λ places. records_at view.now.records places.items
            ≡ files_of (planned self.now) view.now.records) }
    {
        found(listed(&Alone {}, alloc, self, view, ahead))
    }

    /// Another share of the plan's program.
    pub fn shared_program(&self) -> Result<Arc<StoredProgram>, AllocError> {
        self.program.clone()
    }
}
