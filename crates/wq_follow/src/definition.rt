//! Reading the object of a trigger.
ghost use Rattle.std.specs.Prelude.{◌≡◌, false, map, IfOk, OnOk};
ghost use Rattle.serde_json.specs.Data.{no_members};
ghost use Rattle.serde_json.specs.Find.{get};
ghost use Rattle.serde_json.specs.View.{members_view, view as data_of};
ghost use Rattle.serde_json.specs.Written.{has_float};
ghost use Rattle.wq_follow.specs.Definition.{known_part, with_key, with_keys};

use crate::fault::TriggerFault;
use crate::law::{definitions_are_shallow, definitions_have_no_float};
use crate::object_text::Object;
use crate::shape::{Shape, has_bad_length, read_shape};
use serde_json::{Map, Value, put};
use std::alloc::{AllocError, Global};
use wq_clock::Instance;
use wq_query::{Query, QueryFault};

/// The definition of a trigger: how its command is started, and which files matter.
#[derive(Drop)]
pub struct Definition {
    pub(crate) shape: Shape,
    pub(crate) query: Query,
    /// The object with the known keys.
    pub(crate) object: Object,
}

/// The keys that are known, in byte order.
const KNOWN_KEYS: [&str; 7] = [
    "append_files",
    "command",
    "expression",
    "max_files_stdin",
    "name",
    "program",
    "stdin",
];

impl Definition {
    ghost use Rattle.wq_clock.specs.Instance.{instance_data};
    ghost use Rattle.wq_query.specs.Query.{asked_of};
    ghost use Rattle.wq_follow.specs.Defined.{GivesDefinition, definition_data};
    ghost use Rattle.wq_follow.specs.Definition.{defines};

    /// The definition that the object of a trigger says, at this instance of the server. The first
    /// fault refuses it: see [`TriggerFault`]. Keys that are not known are ignored.
    pub fn read(
        alloc: Global,
        object: &Value,
        instance: &Instance,
    ) -> Result<Definition, TriggerFault>
        ensures { GivesDefinition result
            (defines (instance_data instance.now) (data_of object.now)) }
    {
        if has_bad_length(object.get("name")) {
            return Err(TriggerFault::BadName);
        }
        let shape = read_shape(alloc, object)?;
        let object = known_part(alloc, object)?;
        definitions_have_no_float();
        definitions_are_shallow();
        match Query::read(alloc, &object, instance) {
            Ok(query) => Ok(Definition {
                shape,
                query,
                object: Object::of(alloc, object)?,
            }),
            Err(QueryFault::NoMemory) => Err(TriggerFault::NoMemory),
            Err(fault) => Err(TriggerFault::Query(fault)),
        }
    }

    /// The name of the trigger, of 1 to 255 bytes.
    pub fn name(&self) -> &str
        ensures { result.now ≡ ((definition_data self.now).shape).name }
    {
        self.shape.name.as_str()
    }

    /// Which files matter, as a query that asks at a fresh bound.
    pub fn query(&self) -> &Query
        ensures { asked_of result.now ≡ (definition_data self.now).query }
    {
        &self.query
    }

    /// The object with the known keys, as they were given. Its query is
    /// [`query`](Definition::query), and it has no float.
    pub fn object(&self) -> &Value
        ensures object { data_of result.now ≡ (definition_data self.now).object }
        ensures floats { has_float (data_of result.now) ≡ false }
    {
        self.object.value()
    }
}

/// The object with the known keys alone.
fn known_part(alloc: Global, object: &Value) -> Result<Value, AllocError>
    ensures { IfOk result (λ part. data_of part ≡ known_part (data_of object.now)) }
{
    Ok(Value::Object(part_of(alloc, object, &KNOWN_KEYS)?))
}

/// The members of an object that have these keys.
fn part_of(alloc: Global, object: &Value, keys: &[&str]) -> Result<Map<String, Value>, AllocError>
    ensures { IfOk result (λ part. members_view part.entries ≡ with_keys
        (map (λ key. key.now) keys.now) (data_of object.now) no_members) }
{
    let mut part = Map::new(alloc);
    for key in keys {
        put_key(alloc, &mut part, object, *key)?;
    }
    Ok(part)
}

/// Puts the member of an object that has a key, if there is one.
fn put_key(
    alloc: Global,
    part: &mut Map<String, Value>,
    object: &Value,
    key: &str,
) -> Result<(), AllocError>
    ensures { OnOk result (members_view part.new.entries
        ≡ with_key key.now (get key.now (data_of object.now)) (members_view part.old.entries)) }
{
    if let Some(value) = object.get(key) {
        put(part, alloc, key, value.clone()?)?;
    }
    Ok(())
}
