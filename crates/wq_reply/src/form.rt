//! The form in which a reply tells of each file, found once for a reply from the fields that are
//! asked.
ghost use Rattle.std.specs.Prelude.{◌≡◌, [], IfOk, OnOk};
ghost use Rattle.wq_reply.specs.Printing.{IsFormOf, with_field, with_fields};

use std::alloc::{AllocError, Global};
use std::cmp::Ordering;
use wq_query::Field;

/// The form of a file in a reply.
#[derive(Drop)]
pub(crate) enum Form {
    /// The bare value of one field.
    Bare(Field),
    /// An object of these fields, each once and in the byte order of their names.
    Object(Vec<Field>),
}

impl Form {
    /// The form for the fields of a query.
    pub(crate) fn of(alloc: Global, fields: &[Field]) -> Result<Form, AllocError>
        ensures { IfOk result (IsFormOf fields.now) }
    {
        if fields.len() == 1 {
            return Ok(Form::Bare(fields[0]));
        }
        Ok(Form::Object(in_order(alloc, fields)?))
    }
}

/// The fields, each once and in the byte order of their names.
fn in_order(alloc: Global, fields: &[Field]) -> Result<Vec<Field>, AllocError>
    ensures { IfOk result (λ ordered. ordered.items ≡ with_fields [] fields.now) }
{
    let mut ordered = Vec::new(alloc);
    for field in fields {
        put_field(&mut ordered, *field)?;
    }
    Ok(ordered)
}

/// Puts a field among others in the byte order of their names, unless it is among them.
fn put_field(ordered: &mut Vec<Field>, field: Field) -> Result<(), AllocError>
    ensures { OnOk result (ordered.new.items ≡ with_field field ordered.old.items) }
{
    for place in 0..ordered.len() {
        match field.name().cmp(ordered[place].name()) {
            Ordering::Less => return Ok(ordered.insert(place, field)?),
            Ordering::Equal => return Ok(()),
            Ordering::Greater => {}
        }
    }
    Ok(ordered.push(field)?)
}
