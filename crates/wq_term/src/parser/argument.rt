//! The meaning of one argument of a term, or of a few of them. The other modules say which term has
//! which arguments.
ghost use Rattle.std.specs.Prelude.{◌≡◌, ◌-◌, length, ok_or, option_map};
ghost use Rattle.std.specs.List.{suffix_len};
ghost use Rattle.serde_json.specs.View.{view as data_of, items_view};
ghost use Rattle.wq_base.specs.Byte.{is_slash};
ghost use Rattle.wq_term.specs.Argument.{term_parts, text_of, all_texts_of, texts_of};
ghost use Rattle.wq_term.specs.Argument.{whole_number_of, epoch_second, scope_of, relation_of};
ghost use Rattle.wq_term.specs.Argument.{comparison_of};
ghost use Rattle.wq_term.specs.Outcome.{GivesAs, GivesTexts};
ghost use Rattle.wq_term.specs.Text.{without_end_slashes};
ghost use Rattle.wq_term.specs.declared.fault.TermFault.TheVariants.{WrongArguments};

use crate::expr::Scope;
use crate::fault::TermFault;
use crate::parser::word::{relation_named, scope_named};
use serde_json::Value;
use std::alloc::Global;
use wq_base::{MAX_SIGNED, Relation};
use wq_clock::Bound;

/// The most bytes of a text in `name`, `suffix` and `dirname`, as it is given.
pub const MAX_TERM_TEXT: usize = 4096;

/// A name and the values after it.
pub(super) fn parts(value: &Value) -> Option<(&str, &[Value])>
    ensures { option_map (λ p. (p.0.now, items_view p.1.now)) result
        ≡ term_parts (data_of value.now) }
{
    match value {
        Value::String(name) => Some((name.as_str(), &[])),
        Value::Array(items) => match items.split_first() {
            Some((Value::String(name), arguments)) => Some((name.as_str(), arguments)),
            _ => None,
        },
        _ => None,
    }
}

/// A text of at most 4,096 bytes.
pub fn text(value: &Value) -> Option<&str>
    ensures { option_map (λ text. text.now) result ≡ text_of (data_of value.now) }
{
    match value {
        Value::String(text) if text.len() <= MAX_TERM_TEXT => Some(text.as_str()),
        _ => None,
    }
}

/// A text without the slashes at its end.
#[tactic(auto, using(crate::proofs::Slashes::seam))]
pub fn without_end_slashes(text: &str) -> &str
    ensures { result.now ≡ without_end_slashes text.now }
{
    &text[..before_end_slashes(text.as_bytes())]
}

/// How many bytes come before the slashes at the end.
fn before_end_slashes(text: &[u8]) -> usize
    ensures { result ≡ length text.now - suffix_len is_slash text.now }
{
    let mut end = text.len();
    while end > 0 && text[end - 1] == b'/' {
        end -= 1;
    }
    end
}

/// A copy of a text.
fn read_text(alloc: Global, value: &Value) -> Result<Vec<u8>, TermFault>
    ensures { GivesAs (λ text. text.items) result
        (ok_or (text_of (data_of value.now)) WrongArguments) }
{
    match text(value) {
        Some(text) => Ok(Vec::from_slice(alloc, text.as_bytes())?),
        None => Err(TermFault::WrongArguments),
    }
}

/// A list of texts, or one text.
pub(super) fn read_texts(alloc: Global, value: &Value) -> Result<Vec<Vec<u8>>, TermFault>
    ensures { GivesTexts result (texts_of (data_of value.now)) }
{
    if let Value::Array(items) = value {
        return read_all_texts(alloc, items);
    }
    let mut texts = Vec::new(alloc);
    texts.push(read_text(alloc, value)?)?;
    Ok(texts)
}

/// The texts of a list.
fn read_all_texts(alloc: Global, items: &[Value]) -> Result<Vec<Vec<u8>>, TermFault>
    ensures { GivesTexts result (all_texts_of (items_view items.now)) }
{
    let mut texts = Vec::new(alloc);
    for item in items {
        texts.push(read_text(alloc, item)?)?;
    }
    Ok(texts)
}

/// A whole number of JSON: an integer from -2^62 to 2^62.
pub fn whole_number(value: &Value) -> Option<i64>
    ensures { result ≡ whole_number_of (data_of value.now) }
{
    let number = value.as_i64()?;
    if -MAX_SIGNED <= number && number <= MAX_SIGNED {
        Some(number)
    } else {
        None
    }
}

/// A second of the Unix epoch, from 0 to 2^62.
pub(super) fn second(value: &Value) -> Option<i64>
    ensures { result ≡ epoch_second (data_of value.now) }
{
    let second = value.as_i64()?;
    if Bound::second(second).is_some() {
        Some(second)
    } else {
        None
    }
}

/// A scope.
pub(super) fn scope(value: &Value) -> Option<Scope>
    ensures { result ≡ scope_of (data_of value.now) }
{
    value.as_str().and_then(scope_named)
}

/// A relation.
fn relation(value: &Value) -> Option<Relation>
    ensures { result ≡ relation_of (data_of value.now) }
{
    value.as_str().and_then(relation_named)
}

/// A relation and a whole number.
#[tactic(auto, using(crate::proofs::Arguments::no_comparison))]
pub(super) fn comparison(arguments: &[Value]) -> Option<(Relation, i64)>
    ensures { result ≡ comparison_of (items_view arguments.now) }
{
    match arguments {
        [first, second] => {
            let relation = relation(first)?;
            Some((relation, whole_number(second)?))
        }
        _ => None,
    }
}
