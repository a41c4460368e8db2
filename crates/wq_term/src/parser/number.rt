//! Reading the terms over the numbers of a file: `size` and `since`.
ghost use Rattle.std.specs.Prelude.{◌≡◌};
ghost use Rattle.serde_json.specs.Data.{string};
ghost use Rattle.serde_json.specs.View.{view as data_of, items_view};
ghost use Rattle.wq_clock.specs.Instance.{instance_data};
ghost use Rattle.wq_term.specs.Argument.{bound_in, since_field_of};
ghost use Rattle.wq_term.specs.Outcome.{GivesExpr};
ghost use Rattle.wq_term.specs.Reading.{read_since, read_size, since_by};

use crate::expr::{Expr, Since};
use crate::fault::TermFault;
use crate::parser::argument::{comparison, second};
use crate::parser::word::{SinceField, field_named};
use serde_json::Value;
use wq_clock::{Bound, Instance, parse, resolve};

/// `size` of a relation and a number.
pub(super) fn read_size(arguments: &[Value]) -> Result<Expr, TermFault>
    ensures { GivesExpr result (read_size (items_view arguments.now)) }
{
    match comparison(arguments) {
        Some((relation, number)) => Ok(Expr::Size(relation, number)),
        None => Err(TermFault::WrongArguments),
    }
}

/// `since` of a clock spec and a field.
pub(super) fn read_since(arguments: &[Value], instance: &Instance) -> Result<Expr, TermFault>
    ensures { GivesExpr result
        (read_since (instance_data instance.now) (items_view arguments.now)) }
{
    match arguments {
        [spec] => since_by(SinceField::Oclock, spec, instance),
        [spec, word] => match field(word) {
            Some(field) => since_by(field, spec, instance),
            None => Err(TermFault::WrongArguments),
        },
        _ => Err(TermFault::WrongArguments),
    }
}

/// `since` by this field.
fn since_by(field: SinceField, spec: &Value, instance: &Instance) -> Result<Expr, TermFault>
    ensures { GivesExpr result (since_by (instance_data instance.now) (data_of spec.now) field) }
{
    let since = match field {
        SinceField::Oclock => Since::Observed(read_bound(spec, instance)?),
        SinceField::Cclock => Since::Created(read_bound(spec, instance)?),
        SinceField::Mtime => Since::Modified(second(spec).ok_or(TermFault::BadClockSpec)?),
    };
    Ok(Expr::Since(since))
}

/// A field of `since`.
fn field(value: &Value) -> Option<SinceField>
    ensures { result ≡ since_field_of (data_of value.now) }
{
    value.as_str().and_then(field_named)
}

/// The bound of a clock spec in JSON at this instance of the server. It is that of a text, or a
/// second of the Unix epoch from 0 to 2^62.
///
/// A malformed value is [`TermFault::BadClockSpec`], and a named cursor
/// [`TermFault::CursorInTerm`].
pub fn read_bound(value: &Value, instance: &Instance) -> Result<Bound, TermFault>
    ensures { result ≡ bound_in (instance_data instance.now) (data_of value.now) }
{
    match value {
        Value::String(text) => bound_of_text(text.as_str(), instance),
        _ => second(value)
            .map(Bound::Second)
            .ok_or(TermFault::BadClockSpec),
    }
}

/// The bound of a clock spec that is a text.
fn bound_of_text(text: &str, instance: &Instance) -> Result<Bound, TermFault>
    ensures { result ≡ bound_in (instance_data instance.now) (string text.now) }
{
    match parse(text) {
        Ok(spec) => resolve(&spec, instance).ok_or(TermFault::CursorInTerm),
        Err(_) => Err(TermFault::BadClockSpec),
    }
}
