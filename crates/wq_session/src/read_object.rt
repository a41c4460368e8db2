//! The object of an ask, read before the shelf is held.
ghost use Rattle.std.specs.Prelude.{◌≡◌, Ok, Result, IfOk, option_map};
ghost use Rattle.serde_json.specs.View.{view as data_of};
ghost use Rattle.wq_clock.specs.Instance.{instance_data};
ghost use Rattle.wq_follow.specs.Defined.{definition_data};
ghost use Rattle.wq_follow.specs.Definition.{DefinitionData};
ghost use Rattle.wq_query.specs.Outcome.{GivesQuery};
ghost use Rattle.wq_query.specs.Query.{QueryData, asked_of};
ghost use Rattle.wq_query.specs.Reading.{asks as queries};
ghost use Rattle.wq_query.specs.declared.fault.QueryFault.{QueryFault};
ghost use Rattle.wq_ask.specs.declared.refusal.Refusal.{Refusal};
ghost use Rattle.wq_crawl.specs.At.{at_data};
ghost use Rattle.wq_session.specs.Prepared.{GivesDefined, GivesDefinedObject, GivesRead, GivesReadObject};
ghost use Rattle.wq_session.specs.Prepared.{IsKnown, IsLookup, IsReadAt, object_in, object_query};
ghost use Rattle.wq_session.specs.Trigger.{defined_by};

use crate::lookup::Lookup;
use serde_json::Value;
use std::alloc::Global;
use std::mem;
use wq_ask::{Ask, Refusal, RootAsk};
use wq_clock::Instance;
use wq_crawl::At;
use wq_follow::{Definition, TriggerFault};
use wq_query::{Query, QueryFault};

/// The object of an ask, read at the root that is looked at.
#[derive(Drop)]
pub(crate) enum ReadObject {
    /// The ask has no object, or no view is shown to read it at.
    None,
    /// A query, or the query of a subscription.
    Query(Query),
    /// A trigger.
    Trigger(Definition),
    /// The first reason to refuse the object.
    Refused(Refusal),
}

impl ReadObject {
    /// The object of an ask, if it has one, and the knowledge of its program. It is read only if a view is shown.
    #[tactic(auto, unfolding(crate::specs::Prepared::IsReadAt))]
    pub(crate) fn read(alloc: Global, ask: &Ask, at: Option<At<'_>>) -> (ReadObject, Lookup)
        ensures read { IsReadAt (object_in ask.now) (option_map at_data at.entry) result.0 }
        ensures known { IsKnown result.0 result.1 }
    {
        let Some(
            At {
                instance,
                view: Some(_),
            },
        ) = at
        else {
            return (ReadObject::None, Lookup::none());
        };
        let Ask::OfRoot { what, .. } = ask else {
            return (ReadObject::None, Lookup::none());
        };
        match what {
            RootAsk::Query(object) => {
                let query = Query::read(alloc, object, &instance);
                ReadObject::of_query(alloc, object, &instance, query, false)
            }
            RootAsk::Subscribe { query: object, .. } => {
                let query = Query::read_subscription(alloc, object, &instance);
                ReadObject::of_query(alloc, object, &instance, query, true)
            }
            RootAsk::AddTrigger(object) => ReadObject::of_trigger(alloc, object, &instance),
            _ => (ReadObject::None, Lookup::none()),
        }
    }

    /// The query that was read of an object, or the reason to refuse it; and the knowledge of its program, which may
    /// stay.
    fn of_query(
        alloc: Global,
        object: &Value,
        instance: &Instance,
        query: Result<Query, QueryFault>,
        stays: bool,
    ) -> (ReadObject, Lookup)
        requires { IfOk query (λ query.
            queries (instance_data instance.now) (data_of object.now) ≡ Ok (asked_of query)) }
        ensures read { (said : Result QueryData QueryFault) → GivesQuery query said
            → GivesReadObject said result.0 }
        ensures known { IsKnown result.0 result.1 }
    {
        match query {
            Ok(query) => {
                let lookup = Lookup::of(alloc, object, instance, &query, stays);
                (ReadObject::Query(query), lookup)
            }
            Err(QueryFault::NoMemory) => (ReadObject::Refused(Refusal::NoMemory), Lookup::none()),
            Err(fault) => (ReadObject::Refused(Refusal::Query(fault)), Lookup::none()),
        }
    }

    /// The trigger of an object, or the reason to refuse it; and the knowledge of its program, which stays.
    fn of_trigger(alloc: Global, object: &Value, instance: &Instance) -> (ReadObject, Lookup)
        ensures read { GivesDefinedObject (defined_by (instance_data instance.now)
            (data_of object.now)) result.0 }
        ensures known { IsKnown result.0 result.1 }
    {
        let refusal = match Definition::read(alloc, object, instance) {
            Ok(definition) => {
                let lookup = Lookup::of(
                    alloc,
                    definition.object(),
                    instance,
                    definition.query(),
                    true,
                );
                return (ReadObject::Trigger(definition), lookup);
            }
            Err(TriggerFault::BadName) => Refusal::BadName,
            Err(TriggerFault::BadShape) => Refusal::BadTrigger,
            Err(TriggerFault::Query(fault)) => Refusal::Query(fault),
            Err(TriggerFault::NoMemory) => Refusal::NoMemory,
        };
        (ReadObject::Refused(refusal), Lookup::none())
    }

    /// The query of the object, if it was read: of a trigger, the one that selects its files.
    pub(crate) fn query(&self) -> Option<&Query>
        ensures { option_map (λ query. asked_of query.now) result ≡ object_query self.now }
    {
        match self {
            ReadObject::Query(query) => Some(query),
            ReadObject::Trigger(definition) => Some(definition.query()),
            ReadObject::None | ReadObject::Refused(_) => None,
        }
    }

    /// Takes the query that was read, or gives the reason to refuse the ask. An object is not read if no view is shown.
    pub(crate) fn take_query(&mut self) -> Result<Query, Refusal>
        ensures known { (lookup : Lookup) → IsKnown self.old lookup
            → IfOk result (λ query. IsLookup (asked_of query).expression lookup) }
        ensures said { (said : Result QueryData QueryFault) → GivesReadObject said self.old
            → GivesRead result said }
    {
        match mem::replace(self, ReadObject::None) {
            ReadObject::Query(query) => Ok(query),
            ReadObject::Refused(refusal) => Err(refusal),
            ReadObject::Trigger(_) | ReadObject::None => Err(Refusal::NotWatched),
        }
    }

    /// Takes the trigger that was read, or gives the reason to refuse the ask. An object is not read if no view is
    /// shown.
    pub(crate) fn take_trigger(&mut self) -> Result<Definition, Refusal>
        ensures known { (lookup : Lookup) → IsKnown self.old lookup
            → IfOk result (λ definition.
            IsLookup ((definition_data definition).query).expression lookup) }
        ensures said { (said : Result DefinitionData Refusal) → GivesDefinedObject said self.old
            → GivesDefined result said }
    {
        match mem::replace(self, ReadObject::None) {
            ReadObject::Trigger(definition) => Ok(definition),
            ReadObject::Refused(refusal) => Err(refusal),
            ReadObject::Query(_) | ReadObject::None => Err(Refusal::NotWatched),
        }
    }
}
