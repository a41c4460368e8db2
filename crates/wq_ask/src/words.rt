//! The words of a line as arguments. The first word is the command's name.
ghost use Rattle.std.specs.Prelude.{◌≡◌};
ghost use Rattle.serde_json.specs.View.{view as data_of, items_view};
ghost use Rattle.wq_ask.specs.Argument.{are_none, are_options, behind, one_text, two_texts};
ghost use Rattle.wq_ask.specs.Words.{as_text, one_behind, three_behind, two_behind};

use serde_json::Value;
use wq_base::Text;

/// Whether nothing follows the first word, or one object.
pub(crate) fn are_options(words: &[Value]) -> bool
    ensures { result ≡ are_options (behind (items_view words.now)) }
{
    match words.split_first() {
        None => true,
        Some((_, values)) => are_options_alone(values),
    }
}

/// Whether there is nothing, or one object.
fn are_options_alone(values: &[Value]) -> bool
    ensures { result ≡ are_options (items_view values.now) }
{
    match values.split_first() {
        None => true,
        Some((options, rest)) => rest.is_empty() && options.is_object(),
    }
}

/// Whether nothing follows the first word.
pub(crate) fn are_none(words: &[Value]) -> bool
    ensures { result ≡ are_none (behind (items_view words.now)) }
{
    words.len() <= 1
}

/// The one text after the first word.
pub(crate) fn one_text(words: Vec<Value>) -> Option<Text>
    ensures { result ≡ one_text (behind (items_view words.items)) }
{
    text(one_behind(words)?)
}

/// The two texts after the first word.
pub(crate) fn two_texts(words: Vec<Value>) -> Option<(Text, Text)>
    ensures { result ≡ two_texts (behind (items_view words.items)) }
{
    let (first, second) = two_behind(words)?;
    Some((text(first)?, text(second)?))
}

/// The text, if the value is one.
pub(crate) fn text(value: Value) -> Option<Text>
    ensures { result ≡ as_text (data_of value) }
{
    match value {
        Value::String(text) => Some(Text::from_string(text)),
        _ => None,
    }
}

/// The one word after the first.
pub(crate) fn one_behind(mut words: Vec<Value>) -> Option<Value>
    ensures { result ≡ one_behind words.items }
{
    if words.len() != 2 {
        return None;
    }
    words.pop()
}

/// The two words after the first.
pub(crate) fn two_behind(mut words: Vec<Value>) -> Option<(Value, Value)>
    ensures { result ≡ two_behind words.items }
{
    if words.len() != 3 {
        return None;
    }
    let second = words.pop()?;
    let first = words.pop()?;
    Some((first, second))
}

/// The three words after the first.
pub(crate) fn three_behind(mut words: Vec<Value>) -> Option<(Value, Value, Value)>
    ensures { result ≡ three_behind words.items }
{
    if words.len() != 4 {
        return None;
    }
    let third = words.pop()?;
    let second = words.pop()?;
    let first = words.pop()?;
    Some((first, second, third))
}
