//! The knowledge of the program of an expression, before the shelf is held.
ghost use Rattle.std.specs.Prelude.{◌≡◌, None, Ok, false, IfSome};
ghost use Rattle.serde_json.specs.View.{view as data_of};
ghost use Rattle.wq_clock.specs.Instance.{instance_data};
ghost use Rattle.wq_reply.specs.Meaning.{AnswersWithin};
ghost use Rattle.wq_query.specs.Query.{asked_of};
ghost use Rattle.wq_query.specs.Reading.{asks as queries};
ghost use Rattle.wq_registry.specs.CacheKey.{Says};
ghost use Rattle.wq_session.specs.Prepared.{IsFoundFor, IsLookup};
ghost use Rattle.wq_term.specs.Expr.{ExprData};

use serde_json::Value;
use std::alloc::Global;
use std::sync::Arc;
use wq_clock::Instance;
use wq_compile::is_too_large;
use wq_query::Query;
use wq_registry::{CacheKey, Compiled, compile_shared, kept_form};
use wq_verify::StoredProgram;

/// The knowledge of the program of an expression.
pub(crate) struct Lookup {
    /// Whether the expression has no program because it would be too large.
    pub(crate) is_large: bool,
    /// Whether the program is kept after the ask: that of a subscription or a trigger.
    pub(crate) stays: bool,
    /// The key that keeps the program of the expression. There is none if the query asks for every file, or memory ran
    /// out.
    pub(crate) key: Option<CacheKey>,
    /// A program that answers what the expression means within its measure, once it is found or compiled.
    pub(crate) program: Option<Arc<StoredProgram>>,
}

// It is let go by one call, wherever a function gives up.
impl Drop for Lookup {
    fn drop(self) {
        let Lookup {
            is_large: _,
            stays: _,
            key: _,
            program: _,
        } = self;
    }
}

impl Lookup {
    /// Nothing but the key of the expression of a query, which was read from this object, and whether its program stays.
    pub(crate) fn of(
        alloc: Global,
        object: &Value,
        instance: &Instance,
        query: &Query,
        stays: bool,
    ) -> Lookup
        requires { queries (instance_data instance.now) (data_of object.now)
            ≡ Ok (asked_of query.now) }
        ensures { IsLookup (asked_of query.now).expression result }
    {
        Lookup {
            is_large: is_too_large(query.expr()),
            stays,
            key: key_of(alloc, object, instance, query),
            program: None,
        }
    }

    /// Nothing, of an ask without an expression.
    pub(crate) fn none() -> Lookup
        ensures { (result.key ≡ None) × (result.program ≡ None) }
    {
        Lookup {
            is_large: false,
            stays: false,
            key: None,
            program: None,
        }
    }

    /// The program of a query's expression: the one that was found, or one that is compiled now, and is then also given
    /// for the cache. There is none if the query names a program, if it would be too large, or if memory ran out. A
    /// program that stays has the form in which it is kept.
    pub(crate) fn compiled(
        self,
        alloc: Global,
        query: &Query,
        found: Option<Arc<StoredProgram>>,
    ) -> (Lookup, Option<Compiled>)
        requires lookup { IsLookup (asked_of query.now).expression self }
        requires found { IsFoundFor self.key found }
        ensures { IsLookup (asked_of query.now).expression result.0 }
    {
        if query.program().is_some() || self.is_large {
            return (self, None);
        }
        let Some(program) = found else {
            return self.compiled_now(alloc, query);
        };
        let Lookup {
            is_large,
            stays,
            key,
            program: _,
        } = self;
        let lookup = Lookup {
            is_large,
            stays,
            key,
            program: Some(program),
        };
        (lookup.kept(alloc), None)
    }

    /// The knowledge with the program in the form in which it is kept, if it stays. If memory runs out there is no program.
    fn kept(self, alloc: Global) -> Lookup
        ensures { (t : ExprData) → IsLookup t self → IsLookup t result }
    {
        if !self.stays {
            return self;
        }
        let Lookup {
            is_large,
            stays,
            key,
            program,
        } = self;
        Lookup {
            is_large,
            stays,
            key,
            program: kept_program(alloc, program),
        }
    }

    /// A program that is compiled now, and also given for the cache.
    fn compiled_now(self, alloc: Global, query: &Query) -> (Lookup, Option<Compiled>)
        requires lookup { IsLookup (asked_of query.now).expression self }
        requires small { self.is_large ≡ false }
        ensures { IsLookup (asked_of query.now).expression result.0 }
    {
        let Ok(program) = compile_shared(alloc, query.expr()) else {
            return (self, None);
        };
        let Lookup {
            is_large,
            stays,
            key,
            program: _,
        } = self;
        let compiled = match key {
            Some(key) => Compiled::new(key, query.expr(), &program),
            None => None,
        };
        let lookup = Lookup {
            is_large,
            stays,
            key: None,
            program: Some(program),
        };
        (lookup.kept(alloc), compiled)
    }
}

/// A program in the form in which it is kept. There is none if memory runs out.
fn kept_program(alloc: Global, program: Option<Arc<StoredProgram>>) -> Option<Arc<StoredProgram>>
    ensures { (t : ExprData) → IfSome program (λ program. AnswersWithin program.value t)
        → IfSome result (λ kept. AnswersWithin kept.value t) }
{
    let Ok(kept) = kept_form(alloc, program?) else {
        return None;
    };
    Some(kept)
}

/// The key of the expression of a query that was read from this object, if it has one.
fn key_of(alloc: Global, object: &Value, instance: &Instance, query: &Query) -> Option<CacheKey>
    requires { queries (instance_data instance.now) (data_of object.now)
        ≡ Ok (asked_of query.now) }
    ensures { IfSome result (λ key. Says key (asked_of query.now).expression) }
{
    let Some(value) = object.get("expression") else {
        return None;
    };
    let Ok(key) = CacheKey::new(alloc, instance, value) else {
        return None;
    };
    Some(key)
}
