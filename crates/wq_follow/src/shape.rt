//! Reads the command in the object of a trigger, by one function for each key.
ghost use Rattle.std.specs.Prelude.{◌≡◌, option_map, IfOk};
ghost use Rattle.serde_json.specs.View.{view as data_of, items_view};
ghost use Rattle.wq_follow.specs.Defined.{GivesShape};
ghost use Rattle.wq_follow.specs.Definition.{argument_of, arguments_in, command_of, file_count_of};
ghost use Rattle.wq_follow.specs.Definition.{has_bad_length, has_left_out_trigger_key, input_named};
ghost use Rattle.wq_follow.specs.Definition.{input_of, is_text_or_absent, is_trigger_name};
ghost use Rattle.wq_follow.specs.Definition.{limit_from, limit_of, list_input, trigger_name_of};
ghost use Rattle.wq_follow.specs.Definition.{names_program, shape_of, without_byte_0};
ghost use Rattle.wq_follow.specs.Started.{input_data};

use crate::command_text::CommandText;
use crate::fault::TriggerFault;
use crate::order::{Input, Order};
use serde_json::Value;
use std::alloc::{AllocError, Global};
use wq_base::{MAX_NUMBER, Table, Text};
use wq_query::{QueryFault, flag, some_fields};

/// How many bytes the name of a trigger may have.
pub const MAX_TRIGGER_NAME: usize = 255;

/// The command that the object of a trigger describes.
pub(crate) struct Shape {
    pub(crate) name: Text,
    pub(crate) command: CommandText,
    pub(crate) appends: bool,
    pub(crate) input: Input,
    pub(crate) limit: Option<u64>,
}

// A shape is let go by one call, wherever a function gives up.
impl Drop for Shape {
    fn drop(self) {
        let Shape {
            name: _,
            command: _,
            appends: _,
            input: _,
            limit: _,
        } = self;
    }
}

impl Shape {
    ghost use Rattle.wq_follow.specs.Defined.{shape_data};
    ghost use Rattle.wq_follow.specs.Defining.{order_of};
    ghost use Rattle.wq_follow.specs.Started.{order_data};

    /// How a trigger of this shape starts its command, for the root with this text.
    pub(crate) fn into_order(self, root: Text) -> Order
        ensures { order_data result ≡ order_of (shape_data self) root }
    {
        let Shape {
            name,
            command,
            appends,
            input,
            limit,
        } = self;
        Order {
            name,
            root,
            command,
            appends,
            input,
            limit,
        }
    }
}

/// Reads the command that an object describes.
pub(crate) fn read_shape(alloc: Global, object: &Value) -> Result<Shape, TriggerFault>
    ensures { GivesShape result (shape_of (data_of object.now)) }
{
    if has_left_out_key(object) {
        return Err(TriggerFault::BadShape);
    }
    if !is_text_or_absent(object.get("program")) {
        return Err(TriggerFault::BadShape);
    }
    let Some(name) = name(object.get("name")) else {
        return Err(TriggerFault::BadShape);
    };
    let Some(appends) = flag(object.get("append_files")) else {
        return Err(TriggerFault::BadShape);
    };
    let Some(limit) = limit(object.get("max_files_stdin")) else {
        return Err(TriggerFault::BadShape);
    };
    let Some(command) = CommandText::read(alloc, object.get("command"))? else {
        return Err(TriggerFault::BadShape);
    };
    let Some(input) = input(alloc, object.get("stdin"))? else {
        return Err(TriggerFault::BadShape);
    };
    Ok(Shape {
        name: Text::copied(alloc, name)?,
        command,
        appends,
        input,
        limit,
    })
}

/// Whether the name is a text, and of a wrong length.
pub(crate) fn has_bad_length(name: Option<&Value>) -> bool
    ensures { result ≡ has_bad_length (option_map (λ v. data_of v.now) name.entry) }
{
    match name {
        Some(Value::String(name)) => !is_trigger_name(name.as_str()),
        _ => false,
    }
}

/// Whether a text may be the name of a trigger.
fn is_trigger_name(name: &str) -> bool
    ensures { result ≡ is_trigger_name name.now }
{
    1 <= name.len() && name.len() <= MAX_TRIGGER_NAME
}

/// Whether an object has a key that would change the effect and is left out.
fn has_left_out_key(object: &Value) -> bool
    ensures { result ≡ has_left_out_trigger_key (data_of object.now) }
{
    object.get("stdout").is_some()
        || object.get("stderr").is_some()
        || object.get("chdir").is_some()
        || object.get("relative_root").is_some()
}

/// The name, which is a text.
fn name(value: Option<&Value>) -> Option<&str>
    ensures { option_map (λ name. name.now) result
        ≡ trigger_name_of (option_map (λ v. data_of v.now) value.entry) }
{
    match value {
        Some(Value::String(name)) => Some(name.as_str()),
        _ => None,
    }
}

/// Whether the program is a text, or not there.
fn is_text_or_absent(value: Option<&Value>) -> bool
    ensures { result ≡ is_text_or_absent (option_map (λ v. data_of v.now) value.entry) }
{
    match value {
        None | Some(Value::String(_)) => true,
        Some(_) => false,
    }
}

/// The greatest count of files on the input, if the value says one or is not there.
fn limit(value: Option<&Value>) -> Option<Option<u64>>
    ensures { result ≡ limit_of (option_map (λ v. data_of v.now) value.entry) }
{
    match value {
        None => Some(None),
        Some(value) => Some(limit_from(count(value)?)),
    }
}

/// The limit that a count sets; 0 sets none.
fn limit_from(count: u64) -> Option<u64>
    ensures { result ≡ limit_from count }
{
    if count == 0 { None } else { Some(count) }
}

/// A count: a whole number from 0 to 2^62.
fn count(value: &Value) -> Option<u64>
    ensures { result ≡ file_count_of (data_of value.now) }
{
    let count = value.as_u64()?;
    if count <= MAX_NUMBER {
        Some(count)
    } else {
        None
    }
}

/// The words of a command: a list of texts, of which the first names the program.
pub(crate) fn words(alloc: Global, value: Option<&Value>) -> Result<Option<Table<Text>>, AllocError>
    ensures { IfOk result (λ words. words
        ≡ command_of (option_map (λ v. data_of v.now) value.entry)) }
{
    let Some(Value::Array(list)) = value else {
        return Ok(None);
    };
    let Some(words) = arguments(alloc, list)? else {
        return Ok(None);
    };
    if !names_program(words.as_slice()) {
        return Ok(None);
    }
    Ok(Some(words))
}

/// The texts of a list.
fn arguments(alloc: Global, words: &[Value]) -> Result<Option<Table<Text>>, AllocError>
    ensures { IfOk result (λ texts. texts ≡ arguments_in (items_view words.now)) }
{
    let mut texts = Table::new(alloc);
    for word in words {
        let Some(text) = argument(word) else {
            return Ok(None);
        };
        texts.push(Text::copied(alloc, text)?)?;
    }
    Ok(Some(texts))
}

/// A text that a command may be given.
fn argument(word: &Value) -> Option<&str>
    ensures { option_map (λ text. text.now) result ≡ argument_of (data_of word.now) }
{
    match word {
        Value::String(text) => without_byte_0(text.as_str()),
        _ => None,
    }
}

/// A text, unless a byte of it is 0.
fn without_byte_0(text: &str) -> Option<&str>
    ensures { option_map (λ text. text.now) result ≡ without_byte_0 text.now }
{
    if text.as_bytes().contains(&0) {
        None
    } else {
        Some(text)
    }
}

/// Whether the first of some texts is there, and not empty.
fn names_program(texts: &[Text]) -> bool
    ensures { result ≡ names_program texts.now }
{
    match texts.first() {
        None => false,
        Some(text) => !text.as_bytes().is_empty(),
    }
}

/// The input: a word, or the fields of a JSON list; nothing if it is not there.
fn input(alloc: Global, value: Option<&Value>) -> Result<Option<Input>, AllocError>
    ensures { IfOk result (λ input. option_map input_data input
        ≡ input_of (option_map (λ v. data_of v.now) value.entry)) }
{
    match value {
        None => Ok(Some(Input::Nothing)),
        Some(Value::String(word)) => Ok(input_named(word.as_str())),
        Some(value) => list_input(alloc, value),
    }
}

/// The input that a word names.
fn input_named(word: &str) -> Option<Input>
    ensures { option_map input_data result ≡ input_named word.now }
{
    match word {
        "/dev/null" => Some(Input::Nothing),
        "NAME_PER_LINE" => Some(Input::Names),
        _ => None,
    }
}

/// The files as a JSON list, with the fields that a list names.
fn list_input(alloc: Global, value: &Value) -> Result<Option<Input>, AllocError>
    ensures { IfOk result (λ input. option_map input_data input ≡ list_input (data_of value.now)) }
{
    match some_fields(alloc, value) {
        Ok(fields) => Ok(Some(Input::Objects(Table::from_vec(fields)))),
        Err(QueryFault::NoMemory) => Err(AllocError),
        Err(_) => Ok(None),
    }
}
