//! The start of a trigger's command: its arguments, its environment and its input.
ghost use Rattle.std.specs.Prelude.{◌≡◌, ◌≤◌, ◌++◌, IfOk, OnOk, length, take};
ghost use Rattle.wq_clock.specs.Instance.{instance_data};
ghost use Rattle.wq_base.specs.Limit.{max_number};
ghost use Rattle.wq_reply.specs.Listing.{AreWithin};
ghost use Rattle.wq_view.specs.Position.{records_at};
ghost use Rattle.wq_follow.specs.Follower.{batch_at};
ghost use Rattle.wq_follow.specs.Start.{appended, cuts, cuts_input, env_of, fitting, input_text};
ghost use Rattle.wq_follow.specs.Start.{name_lines, max_appended, file_names};
ghost use Rattle.wq_follow.specs.Start.{objects, since_text, start_of, taken};
ghost use Rattle.wq_follow.specs.Started.{IsClocked, env_data, input_data, order_data, start_data};

use crate::batch::Batch;
use crate::order::{Input, Order};
use std::alloc::{AllocError, Global};
use wq_base::{Table, Text};
use wq_clock::{Bound, ClockText, Instance, print};
use wq_query::Field;
use wq_reply::files_text;
use wq_view::View;

/// How many bytes appended names may have together, with one more for each.
pub const MAX_APPENDED: usize = 65_536;

/// The variables of a command that are added to the server's environment.
#[derive(Drop)]
pub struct Env {
    /// The clock id of the batch.
    pub clock: ClockText,
    /// Whether a list was cut.
    pub overflow: bool,
    pub root: Text,
    /// The clock id of the batch before, unless there was none.
    pub since: Option<ClockText>,
    pub trigger: Text,
}

/// The start of a command.
#[derive(Drop)]
pub struct Start {
    pub args: Table<Text>,
    pub env: Env,
    pub input: Table<u8>,
}

/// The count of the files at these places whose names are appended: the longest front of them for
/// which there is room.
pub(crate) fn fitting(view: &View, places: &[u32]) -> usize
    requires { AreWithin view.now.records places.now }
    ensures front { file_names (records_at view.now.records (take result places.now))
        ≡ fitting max_appended (file_names (records_at view.now.records places.now)) }
    ensures within { result ≤ length places.now }
{
    let mut reader = view.reader();
    let mut room = MAX_APPENDED;
    let mut count = 0usize;
    for place in places {
        let length = reader.get(*place as usize).name.as_bytes().len();
        if length >= room {
            return count;
        }
        room -= length + 1;
        count += 1;
    }
    count
}

/// The clock id of the tick from which a batch tells, if it has one.
fn since(instance: &Instance, from: Bound) -> Option<ClockText>
    requires { IsClocked from }
    ensures { result ≡ since_text (instance_data instance.now) from }
{
    match from {
        Bound::Tick(tick) => Some(print(instance, tick)),
        Bound::Fresh | Bound::Second(_) => None,
    }
}

/// Puts the names of the files at these places after the arguments.
fn put_names(
    alloc: Global,
    args: &mut Table<Text>,
    view: &View,
    places: &[u32],
) -> Result<(), AllocError>
    requires { AreWithin view.now.records places.now }
    ensures { OnOk result (args.new
        ≡ args.old ++ file_names (records_at view.now.records places.now)) }
{
    let mut reader = view.reader();
    for place in places {
        let name = reader.get(*place as usize).name.as_str();
        args.push(Text::copied(alloc, name)?)?;
    }
    Ok(())
}

/// The arguments of a command: its own, and the names that are appended.
fn args(
    alloc: Global,
    order: &Order,
    view: &View,
    places: &[u32],
    count: usize,
) -> Result<Table<Text>, AllocError>
    requires within { AreWithin view.now.records places.now }
    requires front { file_names (records_at view.now.records (take count places.now))
        ≡ appended (order_data order.now).appends (records_at view.now.records places.now) }
    requires count { count ≤ length places.now }
    ensures { IfOk result (λ args. args ≡ (order_data order.now).command
        ++ appended (order_data order.now).appends (records_at view.now.records places.now)) }
{
    let mut args = order.command.words(alloc)?;
    put_names(alloc, &mut args, view, &places[..count])?;
    Ok(args)
}

/// The count of the files at these places whose names are appended.
fn appended(order: &Order, view: &View, places: &[u32]) -> usize
    requires { AreWithin view.now.records places.now }
    ensures front { file_names (records_at view.now.records (take result places.now))
        ≡ appended (order_data order.now).appends (records_at view.now.records places.now) }
    ensures within { result ≤ length places.now }
{
    if order.appends {
        fitting(view, places)
    } else {
        0
    }
}

/// The places of the files that are on the input.
fn given<'a>(order: &Order, places: &'a [u32]) -> &'a [u32]
    ensures { result.now ≡ taken (order_data order.now).limit places.now }
{
    match order.limit {
        Some(limit) if limit < places.len() as u64 => &places[..limit as usize],
        _ => places,
    }
}

/// The input of a command for the files at these places.
fn input_for(
    alloc: Global,
    input: &Input,
    instance: &Instance,
    from: Bound,
    view: &View,
    places: &[u32],
) -> Result<Table<u8>, AllocError>
    requires { AreWithin view.now.records places.now }
    ensures { IfOk result (λ text. text ≡ input_text (input_data input.now)
        (instance_data instance.now) from (records_at view.now.records places.now)) }
{
    match input {
        Input::Nothing => Ok(Table::new(alloc)),
        Input::Names => names(alloc, view, places),
        Input::Objects(fields) => objects(alloc, fields.as_slice(), instance, from, view, places),
    }
}

/// The files at these places as a JSON list with a newline.
fn objects(
    alloc: Global,
    fields: &[Field],
    instance: &Instance,
    from: Bound,
    view: &View,
    places: &[u32],
) -> Result<Table<u8>, AllocError>
    requires { AreWithin view.now.records places.now }
    ensures { IfOk result (λ text. text ≡ input_text (objects fields.now)
        (instance_data instance.now) from (records_at view.now.records places.now)) }
{
    let mut text = files_text(alloc, fields, instance, from, view, places)?;
    text.push(b'\n')?;
    Ok(Table::from_vec(text))
}

/// The names of the files at these places, each with a newline.
fn names(alloc: Global, view: &View, places: &[u32]) -> Result<Table<u8>, AllocError>
    requires { AreWithin view.now.records places.now }
    ensures { IfOk result (λ text. text ≡ name_lines (records_at view.now.records places.now)) }
{
    let mut reader = view.reader();
    let mut text = Vec::new(alloc);
    for place in places {
        text.extend_from_slice(reader.get(*place as usize).name.as_bytes())?;
        text.push(b'\n')?;
    }
    Ok(Table::from_vec(text))
}

/// Whether files were cut from the arguments or from the input.
fn overflows(order: &Order, places: &[u32], count: usize) -> bool
    ensures { result ≡ cuts (order_data order.now) count (length places.now) }
{
    (order.appends && count < places.len()) || cuts_input(order, places.len())
}

/// Whether files were cut from the input.
fn cuts_input(order: &Order, count: usize) -> bool
    ensures { result ≡ cuts_input (input_data order.now.input) order.now.limit count }
{
    match (&order.input, order.limit) {
        (Input::Nothing, _) | (_, None) => false,
        (_, Some(limit)) => limit < count as u64,
    }
}

/// The environment of a command.
fn variables(
    alloc: Global,
    order: &Order,
    instance: &Instance,
    batch: &Batch,
    overflow: bool,
) -> Result<Env, AllocError>
    requires now { batch.now.now ≤ max_number }
    requires from { IsClocked batch.now.from }
    ensures { IfOk result (λ env. env_data env ≡ env_of (order_data order.now)
        (instance_data instance.now) batch.entry.now.from batch.entry.now.now overflow) }
{
    Ok(Env {
        clock: print(instance, batch.now),
        overflow,
        root: Text::copied(alloc, order.root.as_str())?,
        since: since(instance, batch.from),
        trigger: Text::copied(alloc, order.name.as_str())?,
    })
}

/// The start of a command for a batch.
pub(crate) fn start_of(
    alloc: Global,
    order: &Order,
    instance: &Instance,
    view: &View,
    batch: &Batch,
) -> Result<Start, AllocError>
    requires within { AreWithin view.now.records batch.now.files.items }
    requires now { batch.now.now ≤ max_number }
    requires from { IsClocked batch.now.from }
    ensures { IfOk result (λ s. start_data s ≡ start_of (order_data order.now)
        (instance_data instance.now) (batch_at view.now.records batch.entry.now)) }
{
    let places = batch.files.as_slice();
    let count = appended(order, view, places);
    let args = args(alloc, order, view, places, count)?;
    let overflow = overflows(order, places, count);
    let env = variables(alloc, order, instance, batch, overflow)?;
    let given = given(order, places);
    let input = input_for(alloc, &order.input, instance, batch.from, view, given)?;
    Ok(Start { args, env, input })
}
