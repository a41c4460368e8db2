//! Printing a reply straight into bytes: nothing is allocated for a file. `listing` chooses the
//! files.
ghost use Rattle.std.specs.Prelude.{◌≡◌, [], ◌∷◌, codes, map};
ghost use Rattle.json.specs.Token.{begin_object, end_object, key};
ghost use Rattle.json.specs.Token.{boolean as boolean_token, string as string_token};
ghost use Rattle.serde_json.specs.Data.{array, object, string};
ghost use Rattle.serde_json.specs.View.{items_of};
ghost use Rattle.wq_base.specs.Version.{version};
ghost use Rattle.wq_clock.specs.Bound.{is_fresh};
ghost use Rattle.wq_clock.specs.Instance.{instance_data};
ghost use Rattle.wq_record.specs.Kind.{letter_of};
ghost use Rattle.wq_reply.specs.Listing.{AreWithin, files_of};
ghost use Rattle.wq_view.specs.Position.{records_at};
ghost use Rattle.wq_reply.specs.Printing.{Appends, IsFormOf, Prints, members_of, told};
ghost use Rattle.wq_reply.specs.Plan.{planned};
ghost use Rattle.wq_reply.specs.Reply.{field_data, reply_of};

use crate::form::Form;
use crate::listing::is_new;
use crate::plan::Plan;
use json::Writer;
use std::alloc::AllocError;
use wq_base::VERSION;
use wq_clock::{Bound, Instance, print};
use wq_query::Field;
use wq_view::{Kind, Record, View};

/// The most bytes of a whole number with its sign.
const NUMBER: usize = 20;

/// The bytes of `false`.
const FLAG: usize = 5;

/// How many bytes texts are expected to have.
#[derive(Clone, Copy)]
pub(crate) struct Lengths {
    pub(crate) name: usize,
    pub(crate) clock: usize,
}

/// Prints the reply to a plan that lists the files at these places, in this form.
pub(crate) fn print_reply(
    out: &mut Writer,
    plan: &Plan,
    instance: &Instance,
    view: &View,
    places: &[u32],
    form: &Form,
) -> Result<(), AllocError>
    requires within { AreWithin view.now.records places.now }
    requires files { records_at view.now.records places.now
        ≡ files_of (planned plan.now) view.now.records }
    requires form { IsFormOf (planned plan.now).query.fields form.now }
    ensures { Prints result out.old out.new
        (reply_of (planned plan.now) (instance_data instance.now) view.now) }
{
    print_start(out, print(instance, view.tick()).as_str())?;
    print_files(out, form, instance, plan.bound, view, places)?;
    print_end(out, plan.bound)
}

/// Prints the bytes before the files.
pub(crate) fn print_start(out: &mut Writer, clock: &str) -> Result<(), AllocError>
    ensures { Appends result out.old out.new (begin_object ∷ key (codes "clock")
        ∷ string_token clock.now ∷ key (codes "files") ∷ []) }
{
    out.begin_object()?;
    print_text(out, "clock", clock)?;
    out.key("files")
}

/// Prints a key with a flag.
pub(crate) fn print_flag(out: &mut Writer, name: &str, flag: bool) -> Result<(), AllocError>
    ensures { Appends result out.old out.new (key name.now ∷ boolean_token flag ∷ []) }
{
    out.key(name)?;
    out.boolean(flag)
}

/// Prints a key with a text.
pub(crate) fn print_text(out: &mut Writer, name: &str, text: &str) -> Result<(), AllocError>
    ensures { Appends result out.old out.new (key name.now ∷ string_token text.now ∷ []) }
{
    out.key(name)?;
    out.string(text)
}

/// Prints the bytes after the files.
fn print_end(out: &mut Writer, bound: Bound) -> Result<(), AllocError>
    ensures { Appends result out.old out.new
        (key (codes "is_fresh_instance") ∷ boolean_token (is_fresh bound)
        ∷ key (codes "version") ∷ string_token version ∷ end_object ∷ []) }
{
    print_flag(out, "is_fresh_instance", bound.is_fresh())?;
    print_text(out, "version", VERSION)?;
    out.end_object()
}

/// Prints the data of the files at these places.
pub(crate) fn print_files(
    out: &mut Writer,
    form: &Form,
    instance: &Instance,
    bound: Bound,
    view: &View,
    places: &[u32],
) -> Result<(), AllocError>
    requires { AreWithin view.now.records places.now }
    ensures { Prints result out.old out.new (array (items_of
        (map (told form.now (instance_data instance.now) bound)
        (records_at view.now.records places.now)))) }
{
    let mut reader = view.reader();
    out.begin_array()?;
    for place in places {
        print_file(out, form, instance, bound, reader.get(*place as usize))?;
    }
    out.end_array()
}

/// Prints the data of a file.
pub(crate) fn print_file(
    out: &mut Writer,
    form: &Form,
    instance: &Instance,
    bound: Bound,
    file: &Record,
) -> Result<(), AllocError>
    ensures { Prints result out.old out.new
        (told form.now (instance_data instance.now) bound file.now) }
{
    match form {
        Form::Bare(field) => print_field(out, *field, instance, bound, file),
        Form::Object(fields) => print_object(out, fields, instance, bound, file),
    }
}

/// Prints an object of these fields of a file.
fn print_object(
    out: &mut Writer,
    fields: &[Field],
    instance: &Instance,
    bound: Bound,
    file: &Record,
) -> Result<(), AllocError>
    ensures { Prints result out.old out.new
        (object (members_of (instance_data instance.now) bound file.now fields.now)) }
{
    out.begin_object()?;
    for field in fields {
        out.key(field.name())?;
        print_field(out, *field, instance, bound, file)?;
    }
    out.end_object()
}

/// Prints the value of a field of a file.
fn print_field(
    out: &mut Writer,
    field: Field,
    instance: &Instance,
    bound: Bound,
    file: &Record,
) -> Result<(), AllocError>
    ensures { Prints result out.old out.new
        (field_data (instance_data instance.now) bound file.now field) }
{
    match field {
        Field::Name => out.string(file.name.as_str()),
        Field::Exists => out.boolean(file.exists),
        Field::New => out.boolean(is_new(bound, file)),
        Field::Size => out.i64(file.size),
        Field::Kind => print_letter(out, file.kind),
        Field::Cclock => out.string(print(instance, file.ctick).as_str()),
        Field::Oclock => out.string(print(instance, file.otick).as_str()),
        Field::Mtime => out.i64(file.mtime()),
        Field::MtimeMs => out.i64(file.mtime_ms),
    }
}

/// The room of the value of a field, with the quotes of a text.
pub(crate) fn room_of_field(field: Field, lengths: Lengths) -> usize {
    match field {
        Field::Name => lengths.name.saturating_add(2),
        Field::Exists | Field::New => FLAG,
        Field::Kind => 3,
        Field::Cclock | Field::Oclock => lengths.clock.saturating_add(2),
        Field::Size | Field::Mtime | Field::MtimeMs => NUMBER,
    }
}

/// Prints the letter of a kind.
fn print_letter(out: &mut Writer, kind: Kind) -> Result<(), AllocError>
    ensures { Prints result out.old out.new (string (letter_of kind ∷ [])) }
{
    let letter = [kind.letter()];
    // A letter is ASCII, which is proved here.
    out.string(unsafe { str::from_utf8_unchecked(&letter) })
}
