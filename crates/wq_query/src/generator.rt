//! Reading the generators of a query beside its `since`: the suffixes and the paths.
ghost use Rattle.std.specs.Prelude.{◌≡◌, option_map};
ghost use Rattle.serde_json.specs.View.{view as data_of, items_view};
ghost use Rattle.wq_term.specs.Argument.{all_texts_of, text_of, texts_of};
ghost use Rattle.wq_query.specs.Generator.{path_depth, path_of, path_parts, paths_in, paths_of};
ghost use Rattle.wq_query.specs.Generator.{suffixes_of};
ghost use Rattle.wq_query.specs.Outcome.{GivesGenerator};

use crate::fault::QueryFault;
use serde_json::Value;
use std::alloc::Global;
use wq_base::{Table, Text};
use wq_term::{ANY_DEPTH, PathGen, text, whole_number, without_end_slashes};

/// The suffixes, if the key is there: a text, or a list of texts.
pub(crate) fn suffixes(
    alloc: Global,
    value: Option<&Value>,
) -> Result<Option<Table<Text>>, QueryFault>
    ensures { GivesGenerator result (suffixes_of (option_map (λ v. data_of v.now) value.entry)) }
{
    match value {
        None => Ok(None),
        Some(Value::Array(items)) => Ok(Some(all_texts(alloc, items)?)),
        Some(value) => {
            let mut texts = Table::new(alloc);
            texts.push(one_text(alloc, value)?)?;
            Ok(Some(texts))
        }
    }
}

/// The texts of a list.
fn all_texts(alloc: Global, items: &[Value]) -> Result<Table<Text>, QueryFault>
    ensures { GivesGenerator result (all_texts_of (items_view items.now)) }
{
    let mut texts = Table::new(alloc);
    for item in items {
        texts.push(one_text(alloc, item)?)?;
    }
    Ok(texts)
}

/// A copy of a text.
fn one_text(alloc: Global, value: &Value) -> Result<Text, QueryFault>
    ensures { GivesGenerator result (text_of (data_of value.now)) }
{
    match text(value) {
        Some(text) => Ok(Text::copied(alloc, text)?),
        None => Err(QueryFault::BadGenerator),
    }
}

/// The paths, if the key is there: a list of them.
pub(crate) fn paths(
    alloc: Global,
    value: Option<&Value>,
) -> Result<Option<Table<PathGen>>, QueryFault>
    ensures { GivesGenerator result (paths_of (option_map (λ v. data_of v.now) value.entry)) }
{
    match value {
        None => Ok(None),
        Some(Value::Array(items)) => Ok(Some(all_paths(alloc, items)?)),
        Some(_) => Err(QueryFault::BadGenerator),
    }
}

/// The paths of a list.
fn all_paths(alloc: Global, items: &[Value]) -> Result<Table<PathGen>, QueryFault>
    ensures { GivesGenerator result (paths_in (items_view items.now)) }
{
    let mut paths = Table::new(alloc);
    for item in items {
        paths.push(one_path(alloc, item)?)?;
    }
    Ok(paths)
}

/// A path, without the slashes at its end.
fn one_path(alloc: Global, value: &Value) -> Result<PathGen, QueryFault>
    ensures { GivesGenerator result (path_of (data_of value.now)) }
{
    let Some((path, depth)) = path_parts(value) else {
        return Err(QueryFault::BadGenerator);
    };
    let path = String::from_str(alloc, without_end_slashes(path))?;
    Ok(PathGen {
        path: Text::from_string(path),
        depth,
    })
}

/// The text and the depth of a path: of a bare text, without limit, or of an object that has both.
fn path_parts(value: &Value) -> Option<(&str, i64)>
    ensures { option_map (λ p. (p.0.now, p.1)) result ≡ path_parts (data_of value.now) }
{
    if let Value::String(_) = value {
        return Some((text(value)?, ANY_DEPTH));
    }
    let path = text(value.get("path")?)?;
    let depth = depth(value.get("depth")?)?;
    Some((path, depth))
}

/// A depth: a whole number of -1 or more, where -1 is without limit.
fn depth(value: &Value) -> Option<i64>
    ensures { result ≡ path_depth (data_of value.now) }
{
    let depth = whole_number(value)?;
    if ANY_DEPTH <= depth {
        Some(depth)
    } else {
        None
    }
}
