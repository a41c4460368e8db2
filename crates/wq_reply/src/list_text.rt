//! The two texts that tell the files of a plan outside a reply: a subscription's list, and the
//! input of a command.
ghost use Rattle.std.specs.Prelude.{◌≡◌, ◌∷◌, [], codes, true, IfOk};
ghost use Rattle.json.specs.Token.{end_object, key};
ghost use Rattle.json.specs.Token.{boolean as boolean_token, string as string_token};
ghost use Rattle.serde_json.specs.Written.{compact_text};
ghost use Rattle.wq_base.specs.Version.{version};
ghost use Rattle.wq_clock.specs.Instance.{instance_data};
ghost use Rattle.wq_view.specs.Position.{records_at};
ghost use Rattle.wq_reply.specs.Following.{files_data, list_data};
ghost use Rattle.wq_reply.specs.Listing.{AreWithin};
ghost use Rattle.wq_reply.specs.Printing.{Appends, IsFormOf, Prints};
ghost use Rattle.wq_reply.specs.Plan.{planned};

use crate::form::Form;
use crate::plan::Plan;
use crate::printer::{print_files, print_flag, print_start, print_text};
use json::Writer;
use std::alloc::{AllocError, Global};
use wq_base::VERSION;
use wq_clock::{Bound, Instance, print};
use wq_query::Field;
use wq_view::View;

/// How many bytes are taken for a list before any is printed.
const ROOM: usize = 256;

/// The list of a subscription of this root and name: it tells the files at these places, from the
/// plan's bound.
pub fn print_list(
    alloc: Global,
    plan: &Plan,
    instance: &Instance,
    view: &View,
    places: &[u32],
    root: &str,
    name: &str,
) -> Result<Vec<u8>, AllocError>
    requires { AreWithin view.now.records places.now }
    ensures { IfOk result (λ text. text.items ≡ compact_text (list_data root.now name.now
        (planned plan.now) (instance_data instance.now) view.now.tick
        (records_at view.now.records places.now))) }
{
    let form = Form::of(alloc, &plan.fields)?;
    let mut out = Writer::new(Vec::with_capacity(alloc, ROOM)?);
    put_list(&mut out, plan, instance, view, places, &form, root, name)?;
    let text = out.into_inner();
    Ok(text)
}

/// Prints a list of a subscription in this form.
fn put_list(
    out: &mut Writer,
    plan: &Plan,
    instance: &Instance,
    view: &View,
    places: &[u32],
    form: &Form,
    root: &str,
    name: &str,
) -> Result<(), AllocError>
    requires within { AreWithin view.now.records places.now }
    requires form { IsFormOf (planned plan.now).query.fields form.now }
    ensures { Prints result out.old out.new (list_data root.now name.now
        (planned plan.now) (instance_data instance.now) view.now.tick
        (records_at view.now.records places.now)) }
{
    print_start(out, print(instance, view.tick()).as_str())?;
    print_files(out, form, instance, plan.bound, view, places)?;
    put_end(out, plan.bound.is_fresh(), root, name)
}

/// Prints the end of the list, after the files.
fn put_end(out: &mut Writer, fresh: bool, root: &str, name: &str) -> Result<(), AllocError>
    ensures { Appends result out.old out.new
        (key (codes "is_fresh_instance") ∷ boolean_token fresh
        ∷ key (codes "root") ∷ string_token root.now
        ∷ key (codes "subscription") ∷ string_token name.now
        ∷ key (codes "unilateral") ∷ boolean_token true
        ∷ key (codes "version") ∷ string_token version ∷ end_object ∷ []) }
{
    put_root(out, fresh, root)?;
    put_name(out, name)?;
    put_version(out)
}

/// Prints whether the client knew nothing, and the root.
fn put_root(out: &mut Writer, fresh: bool, root: &str) -> Result<(), AllocError>
    ensures { Appends result out.old out.new
        (key (codes "is_fresh_instance") ∷ boolean_token fresh
        ∷ key (codes "root") ∷ string_token root.now ∷ []) }
{
    print_flag(out, "is_fresh_instance", fresh)?;
    out.key("root")?;
    out.string(root)
}

/// Prints the name, and that the client did not ask for this list.
fn put_name(out: &mut Writer, name: &str) -> Result<(), AllocError>
    ensures { Appends result out.old out.new
        (key (codes "subscription") ∷ string_token name.now
        ∷ key (codes "unilateral") ∷ boolean_token true ∷ []) }
{
    print_text(out, "subscription", name)?;
    print_flag(out, "unilateral", true)
}

/// Prints the version, and the end.
fn put_version(out: &mut Writer) -> Result<(), AllocError>
    ensures { Appends result out.old out.new
        (key (codes "version") ∷ string_token version ∷ end_object ∷ []) }
{
    print_text(out, "version", VERSION)?;
    out.end_object()
}

/// The files at these places as a JSON list, from this bound.
pub fn files_text(
    alloc: Global,
    fields: &[Field],
    instance: &Instance,
    bound: Bound,
    view: &View,
    places: &[u32],
) -> Result<Vec<u8>, AllocError>
    requires { AreWithin view.now.records places.now }
    ensures { IfOk result (λ text. text.items ≡ compact_text (files_data fields.now
        (instance_data instance.now) bound (records_at view.now.records places.now))) }
{
    let form = Form::of(alloc, fields)?;
    let mut out = Writer::new(Vec::with_capacity(alloc, ROOM)?);
    put_files(&mut out, &form, fields, instance, bound, view, places)?;
    let text = out.into_inner();
    Ok(text)
}

/// Prints the files at these places in a form of these fields.
fn put_files(
    out: &mut Writer,
    form: &Form,
    fields: &[Field],
    instance: &Instance,
    bound: Bound,
    view: &View,
    places: &[u32],
) -> Result<(), AllocError>
    requires within { AreWithin view.now.records places.now }
    requires form { IsFormOf fields.now form.now }
    ensures { Prints result out.old out.new (files_data fields.now (instance_data instance.now)
        bound (records_at view.now.records places.now)) }
{
    print_files(out, form, instance, bound, view, places)
}
