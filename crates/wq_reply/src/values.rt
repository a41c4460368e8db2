//! The files of a reply as JSON values.
ghost use Rattle.std.specs.Prelude.{◌≡◌, ◌≤◌, [], ◌∷◌, map, IfOk};
ghost use Rattle.serde_json.specs.Data.{string};
ghost use Rattle.serde_json.specs.View.{view as data_of};
ghost use Rattle.wq_clock.specs.ClockText.{clock_text};
ghost use Rattle.wq_clock.specs.Instance.{instance_data};
ghost use Rattle.wq_record.specs.Kind.{letter_of};
ghost use Rattle.wq_reply.specs.Listing.{AreWithin};
ghost use Rattle.wq_reply.specs.Plan.{planned};
ghost use Rattle.wq_reply.specs.Reply.{field_data, file_data};
ghost use Rattle.wq_view.specs.Position.{records_at};

use crate::listing::is_new;
use crate::plan::Plan;
use serde_json::{Map, Value};
use std::alloc::{AllocError, Global};
use wq_base::MAX_NUMBER;
use wq_clock::{Bound, Instance, print};
use wq_query::Field;
use wq_view::{Kind, Record, View};

/// The values of the files at these places, as the plan tells them.
pub(crate) fn file_values(
    alloc: Global,
    plan: &Plan,
    instance: &Instance,
    view: &View,
    places: &[u32],
) -> Result<Vec<Value>, AllocError>
    requires { AreWithin view.now.records places.now }
    ensures { IfOk result (λ files. map data_of files.items
        ≡ map (file_data (planned plan.now).query.fields (instance_data instance.now)
        (planned plan.now).bound) (records_at view.now.records places.now)) }
{
    let mut reader = view.reader();
    let mut files = Vec::with_capacity(alloc, places.len())?;
    for place in places {
        let file = reader.get(*place as usize);
        files.push(file_value(alloc, &plan.fields, instance, plan.bound, file)?)?;
    }
    Ok(files)
}

/// The value of a file: the bare value of one field, or an object of several.
fn file_value(
    alloc: Global,
    fields: &[Field],
    instance: &Instance,
    bound: Bound,
    file: &Record,
) -> Result<Value, AllocError>
    ensures { IfOk result (λ v. data_of v
        ≡ file_data fields.now (instance_data instance.now) bound file.now) }
{
    if let [field] = fields {
        return field_value(alloc, *field, instance, bound, file);
    }
    let mut members = Map::new(alloc);
    for field in fields {
        let value = field_value(alloc, *field, instance, bound, file)?;
        serde_json::put(&mut members, alloc, field.name(), value)?;
    }
    Ok(Value::Object(members))
}

/// The value of a field of a file.
fn field_value(
    alloc: Global,
    field: Field,
    instance: &Instance,
    bound: Bound,
    file: &Record,
) -> Result<Value, AllocError>
    ensures { IfOk result (λ v. data_of v
        ≡ field_data (instance_data instance.now) bound file.now field) }
{
    match field {
        Field::Name => Value::try_from_str(alloc, file.name.as_str()),
        Field::Exists => Ok(Value::Bool(file.exists)),
        Field::New => Ok(Value::Bool(is_new(bound, file))),
        Field::Size => Ok(Value::from(file.size)),
        Field::Kind => letter_value(alloc, file.kind),
        Field::Cclock => clock_value(alloc, instance, file.ctick),
        Field::Oclock => clock_value(alloc, instance, file.otick),
        Field::Mtime => Ok(Value::from(file.mtime())),
        Field::MtimeMs => Ok(Value::from(file.mtime_ms)),
    }
}

/// The clock id of a tick of an instance.
fn clock_value(alloc: Global, instance: &Instance, tick: u64) -> Result<Value, AllocError>
    requires { tick ≤ MAX_NUMBER }
    ensures { IfOk result (λ v. data_of v ≡ string (clock_text (instance_data instance.now) tick)) }
{
    Value::try_from_str(alloc, print(instance, tick).as_str())
}

/// The letter of a kind.
fn letter_value(alloc: Global, kind: Kind) -> Result<Value, AllocError>
    ensures { IfOk result (λ v. data_of v ≡ string (letter_of kind ∷ [])) }
{
    let mut text = String::new(alloc);
    text.push(char::from(kind.letter()))?;
    Ok(Value::String(text))
}
