//! Reading the patterns of a query, which are a generator.
ghost use Rattle.std.specs.Prelude.{◌≡◌, option_map};
ghost use Rattle.serde_json.specs.View.{view as data_of, items_view};
ghost use Rattle.wq_query.specs.Glob.{are_texts, glob_flags, globs_of, pattern_in, patterns_in};
ghost use Rattle.wq_query.specs.Outcome.{GivesGlobs, GivesPattern};

use crate::fault::QueryFault;
use serde_json::Value;
use std::alloc::Global;
use wq_base::Table;
use wq_glob::{Flags, Pattern, PatternFault};

/// The flags of the patterns. `dotfiles` is the value of `glob_includedotfiles`.
pub(crate) fn glob_flags(dotfiles: Option<&Value>) -> Flags
    ensures { result ≡ glob_flags (option_map (λ v. data_of v.now) dotfiles.entry) }
{
    Flags {
        wholename: true,
        dotfiles: dotfiles.and_then(Value::as_bool) == Some(true),
        noescape: false,
        fold: false,
    }
}

/// The patterns with these flags, if the key is there: a list of texts.
pub(crate) fn globs(
    alloc: Global,
    value: Option<&Value>,
    flags: Flags,
) -> Result<Option<Table<Pattern>>, QueryFault>
    ensures { GivesGlobs result
        (globs_of flags (option_map (λ v. data_of v.now) value.entry)) }
{
    match value {
        None => Ok(None),
        Some(Value::Array(items)) => {
            if !are_texts(items) {
                return Err(QueryFault::BadGenerator);
            }
            Ok(Some(all_patterns(alloc, items, flags)?))
        }
        Some(_) => Err(QueryFault::BadGenerator),
    }
}

/// Whether each value of a list is a text.
fn are_texts(items: &[Value]) -> bool
    ensures { result ≡ are_texts (items_view items.now) }
{
    for item in items {
        if !item.is_string() {
            return false;
        }
    }
    true
}

/// The patterns of a list of texts.
fn all_patterns(alloc: Global, items: &[Value], flags: Flags) -> Result<Table<Pattern>, QueryFault>
    ensures { GivesPattern result (patterns_in flags (items_view items.now)) }
{
    let mut patterns = Table::new(alloc);
    for item in items {
        patterns.push(one_pattern(alloc, item, flags)?)?;
    }
    Ok(patterns)
}

/// The pattern of a text, if that is not too long for one.
fn one_pattern(alloc: Global, value: &Value, flags: Flags) -> Result<Pattern, QueryFault>
    ensures { GivesPattern result (pattern_in flags (data_of value.now)) }
{
    let Value::String(text) = value else {
        return Err(QueryFault::PatternTooLong);
    };
    match Pattern::parse(alloc, text.as_bytes(), flags) {
        Ok(pattern) => Ok(pattern),
        Err(PatternFault::TooLong) => Err(QueryFault::PatternTooLong),
        Err(PatternFault::NoMemory) => Err(QueryFault::NoMemory),
    }
}
