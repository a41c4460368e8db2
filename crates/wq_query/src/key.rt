//! Reading the keys of a query from a JSON object, one function for each.
ghost use Rattle.std.specs.Prelude.{◌≡◌, Some, map, option_map, IfOk, IsTrue};
ghost use Rattle.serde_json.specs.View.{view as data_of, items_view};
ghost use Rattle.wq_clock.specs.Instance.{instance_data};
ghost use Rattle.wq_term.specs.Expr.{always, term_of};
ghost use Rattle.wq_term.specs.Fits.{expr_fits};
ghost use Rattle.wq_query.specs.Outcome.{GivesExpression, GivesFields, GivesProgram, GivesSince};
ghost use Rattle.wq_query.specs.Reading.{has_both, has_key_of, has_left_out_key, is_plain_case};
ghost use Rattle.wq_query.specs.Reading.{expression_of, field_of, fields_in, fields_of, since_of};
ghost use Rattle.wq_query.specs.Reading.{cursor_in, flag_of, is_flag_or_absent};
ghost use Rattle.wq_query.specs.Reading.{is_whole_or_absent, program_name};

use crate::fault::QueryFault;
use crate::field::Field;
use crate::query::QuerySince;
use serde_json::Value;
use std::alloc::Global;
use wq_base::Text;
use wq_clock::{Bound, Instance, Spec, parse};
use wq_term::{Expr, TermFault, read_bound, read_expr, whole_number};

/// The keys that would change the answer and are left out.
const LEFT_OUT_KEYS: [&str; 3] = ["relative_root", "settle_period", "settle_timeout"];

/// Whether the query has a key that would change the answer and is left out.
pub(crate) fn has_left_out_key(query: &Value) -> bool
    ensures { result ≡ has_left_out_key (data_of query.now) }
{
    has_key_of(query, &LEFT_OUT_KEYS) || !is_plain_case(query.get("case_sensitive"))
}

/// Whether an expression and a program are there, of which one can say which files match.
pub(crate) fn has_both(query: &Value) -> bool
    ensures { result ≡ has_both (data_of query.now) }
{
    query.get("expression").is_some() && query.get("program").is_some()
}

/// Whether the query has one of these keys.
fn has_key_of(query: &Value, keys: &[&str]) -> bool
    ensures { result ≡ has_key_of (map (λ key. key.now) keys.now) (data_of query.now) }
{
    for key in keys {
        if query.get(*key).is_some() {
            return true;
        }
    }
    false
}

/// The expression: every file if there is none.
#[tactic(auto, using(crate::proofs::Keys::always_fits))]
pub(crate) fn expression(
    alloc: Global,
    value: Option<&Value>,
    instance: &Instance,
) -> Result<Expr, QueryFault>
    ensures read { GivesExpression result (expression_of (instance_data instance.now)
        (option_map (λ v. data_of v.now) value.entry)) }
    ensures limits { IfOk result (λ expr. IsTrue (expr_fits (term_of expr))) }
{
    let Some(value) = value else {
        return Ok(every_file());
    };
    match read_expr(alloc, value, instance) {
        Ok(expr) => Ok(expr),
        Err(TermFault::NoMemory) => Err(QueryFault::NoMemory),
        Err(fault) => Err(QueryFault::Expression(fault)),
    }
}

/// The expression of a query that has none.
fn every_file() -> Expr
    ensures { term_of result ≡ always }
{
    Expr::True
}

/// The point from which `since` asks for changes: a fresh bound if the key is not there.
pub(crate) fn since(
    alloc: Global,
    value: Option<&Value>,
    instance: &Instance,
) -> Result<QuerySince, QueryFault>
    ensures { GivesSince result (since_of (instance_data instance.now)
        (option_map (λ v. data_of v.now) value.entry)) }
{
    let Some(value) = value else {
        return Ok(QuerySince::Bound(Bound::Fresh));
    };
    if let Some(name) = cursor(value) {
        return Ok(QuerySince::Cursor(Text::copied(alloc, name)?));
    }
    match read_bound(value, instance) {
        Ok(bound) => Ok(QuerySince::Bound(bound)),
        Err(_) => Err(QueryFault::BadClockSpec),
    }
}

/// The name of the cursor that a value says, if it says one.
pub(crate) fn cursor(value: &Value) -> Option<&str>
    ensures { option_map (λ name. name.now) result ≡ cursor_in (data_of value.now) }
{
    match parse(value.as_str()?) {
        Ok(Spec::Cursor(name)) => Some(name),
        Ok(_) | Err(_) => None,
    }
}

/// The name of the program, if the key is there: a text of any length.
pub(crate) fn program(alloc: Global, value: Option<&Value>) -> Result<Option<Text>, QueryFault>
    ensures { GivesProgram result (program_name (option_map (λ v. data_of v.now) value.entry)) }
{
    match value {
        None => Ok(None),
        Some(Value::String(name)) => Ok(Some(Text::copied(alloc, name.as_str())?)),
        Some(_) => Err(QueryFault::WrongValue),
    }
}

/// The value of a key that is true or false; false if the key is not there.
pub fn flag(value: Option<&Value>) -> Option<bool>
    ensures { result ≡ flag_of (option_map (λ v. data_of v.now) value.entry) }
{
    match value {
        None => Some(false),
        Some(value) => value.as_bool(),
    }
}

/// Whether a key that is there is true or false.
pub(crate) fn is_flag(value: Option<&Value>) -> bool
    ensures { result ≡ is_flag_or_absent (option_map (λ v. data_of v.now) value.entry) }
{
    flag(value).is_some()
}

/// Whether a key that is there is a whole number from -2^62 to 2^62.
pub(crate) fn is_whole(value: Option<&Value>) -> bool
    ensures { result ≡ is_whole_or_absent (option_map (λ v. data_of v.now) value.entry) }
{
    match value {
        None => true,
        Some(value) => whole_number(value).is_some(),
    }
}

/// Whether `case_sensitive` is not there or true.
fn is_plain_case(value: Option<&Value>) -> bool
    ensures { result ≡ is_plain_case (option_map (λ v. data_of v.now) value.entry) }
{
    match value {
        None => true,
        Some(value) => value.as_bool() == Some(true),
    }
}

/// The fields: a list of names that is not empty, or the default ones.
pub(crate) fn fields(alloc: Global, value: Option<&Value>) -> Result<Vec<Field>, QueryFault>
    ensures { GivesFields result (fields_of (option_map (λ v. data_of v.now) value.entry)) }
{
    let Some(value) = value else {
        let default = [Field::Name, Field::Exists, Field::New, Field::Size];
        return Ok(Vec::from_slice(alloc, &default)?);
    };
    some_fields(alloc, value)
}

/// The fields that a value names: a list of names that is not empty.
///
/// # Errors
/// [`QueryFault::UnknownField`], and [`QueryFault::NoMemory`].
pub fn some_fields(alloc: Global, value: &Value) -> Result<Vec<Field>, QueryFault>
    ensures { GivesFields result (fields_of (Some (data_of value.now))) }
{
    let Some(names) = value.as_array() else {
        return Err(QueryFault::UnknownField);
    };
    if names.is_empty() {
        return Err(QueryFault::UnknownField);
    }
    fields_in(alloc, names)
}

/// The fields that a list of texts names.
fn fields_in(alloc: Global, names: &[Value]) -> Result<Vec<Field>, QueryFault>
    ensures { GivesFields result (fields_in (items_view names.now)) }
{
    let mut fields = Vec::with_capacity(alloc, names.len())?;
    for name in names {
        match field_in(name) {
            Some(field) => fields.push(field)?,
            None => return Err(QueryFault::UnknownField),
        }
    }
    Ok(fields)
}

/// The field that a text names.
fn field_in(name: &Value) -> Option<Field>
    ensures { result ≡ field_of (data_of name.now) }
{
    name.as_str().and_then(Field::named)
}
