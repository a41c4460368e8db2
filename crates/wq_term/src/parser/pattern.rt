//! Reading the terms over patterns: `match` and `imatch`. `wq_glob` reads the text of a pattern.
ghost use Rattle.std.specs.Prelude.{◌≡◌};
ghost use Rattle.serde_json.specs.View.{view as data_of, items_view, members_view};
ghost use Rattle.wq_term.specs.Outcome.{GivesExpr};
ghost use Rattle.wq_term.specs.PatternArgument.{are_flags, flags_of, is_flag, is_set, plain_flags};
ghost use Rattle.wq_term.specs.Reading.{match_with, read_match};

use crate::expr::{Expr, Scope};
use crate::fault::TermFault;
use crate::parser::argument::scope;
use serde_json::{Map, Value};
use std::alloc::Global;
use wq_base::Case;
use wq_glob::{Flags, Pattern, PatternFault};

/// `match` and `imatch` of a pattern, a scope and flags.
pub(super) fn read_match(alloc: Global, case: Case, arguments: &[Value]) -> Result<Expr, TermFault>
    ensures { GivesExpr result (read_match case (items_view arguments.now)) }
{
    match arguments {
        [pattern] => match_with(alloc, pattern, plain_flags(case, Scope::Basename)),
        [pattern, word] => match scope(word) {
            Some(scope) => match_with(alloc, pattern, plain_flags(case, scope)),
            None => Err(TermFault::WrongArguments),
        },
        [pattern, word, object] => {
            let Some(scope) = scope(word) else {
                return Err(TermFault::WrongArguments);
            };
            let Some(flags) = with_flags(plain_flags(case, scope), object) else {
                return Err(TermFault::WrongArguments);
            };
            match_with(alloc, pattern, flags)
        }
        _ => Err(TermFault::WrongArguments),
    }
}

/// `match` and `imatch` of a pattern with these flags.
fn match_with(alloc: Global, pattern: &Value, flags: Flags) -> Result<Expr, TermFault>
    ensures { GivesExpr result (match_with (data_of pattern.now) flags) }
{
    let Value::String(text) = pattern else {
        return Err(TermFault::WrongArguments);
    };
    match Pattern::parse(alloc, text.as_bytes(), flags) {
        Ok(pattern) => Ok(Expr::Match(pattern)),
        Err(PatternFault::TooLong) => Err(TermFault::PatternTooLong),
        Err(PatternFault::NoMemory) => Err(TermFault::NoMemory),
    }
}

/// The flags of a pattern in a term that gives none.
fn plain_flags(case: Case, scope: Scope) -> Flags
    ensures { result ≡ plain_flags case scope }
{
    Flags {
        wholename: matches!(scope, Scope::Wholename),
        dotfiles: false,
        noescape: false,
        fold: matches!(case, Case::Folded),
    }
}

/// The flags, with those that an object sets.
fn with_flags(flags: Flags, object: &Value) -> Option<Flags>
    ensures { result ≡ flags_of flags (data_of object.now) }
{
    let Value::Object(members) = object else {
        return None;
    };
    if !are_flags(members) {
        return None;
    }
    Some(Flags {
        dotfiles: is_set(object, "includedotfiles"),
        noescape: is_set(object, "noescape"),
        ..flags
    })
}

/// Whether each member of an object is a flag.
fn are_flags(members: &Map<String, Value>) -> bool
    ensures { result ≡ are_flags (members_view members.now.entries) }
{
    for (key, value) in members.iter() {
        if !is_flag(key.as_str(), value) {
            return false;
        }
    }
    true
}

/// Whether a member is one of the two flags, and true or false.
fn is_flag(key: &str, value: &Value) -> bool
    ensures { result ≡ is_flag key.now (data_of value.now) }
{
    matches!(key, "includedotfiles" | "noescape") && value.is_boolean()
}

/// Whether an object has this flag, and it is true.
fn is_set(object: &Value, flag: &str) -> bool
    ensures { result ≡ is_set flag.now (data_of object.now) }
{
    object.get(flag).and_then(Value::as_bool) == Some(true)
}
