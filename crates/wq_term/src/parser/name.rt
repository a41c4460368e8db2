//! Reading the terms over the kind and the name of a file: `type`, `name`, `suffix` and `dirname`.
ghost use Rattle.std.specs.Prelude.{◌≡◌};
ghost use Rattle.serde_json.specs.View.{view as data_of, items_view};
ghost use Rattle.wq_term.specs.Argument.{depth_argument, kind_of_letter};
ghost use Rattle.wq_term.specs.Outcome.{GivesExpr};
ghost use Rattle.wq_term.specs.Reading.{below_at, name_in, read_dirname, read_kind, read_name};
ghost use Rattle.wq_term.specs.Reading.{read_suffix};

use crate::expr::{Depth, Expr, Scope};
use crate::fault::TermFault;
use crate::parser::argument::{comparison, parts, read_texts, scope, text, without_end_slashes};
use crate::parser::word::kind_named;
use serde_json::Value;
use std::alloc::Global;
use wq_base::Case;
use wq_record::Kind;

/// `type` of one letter.
#[tactic(auto, using(crate::proofs::Arguments::no_kind))]
pub(super) fn read_kind(arguments: &[Value]) -> Result<Expr, TermFault>
    ensures { GivesExpr result (read_kind (items_view arguments.now)) }
{
    let [letter] = arguments else {
        return Err(TermFault::WrongArguments);
    };
    match kind(letter) {
        Some(kind) => Ok(Expr::KindIs(kind)),
        None => Err(TermFault::WrongArguments),
    }
}

/// The kind of a letter.
fn kind(letter: &Value) -> Option<Kind>
    ensures { result ≡ kind_of_letter (data_of letter.now) }
{
    letter.as_str().and_then(kind_named)
}

/// `name` and `iname` of a text or texts, and a scope.
#[tactic(auto, using(crate::proofs::Arguments::no_name))]
pub(super) fn read_name(alloc: Global, case: Case, arguments: &[Value]) -> Result<Expr, TermFault>
    ensures { GivesExpr result (read_name case (items_view arguments.now)) }
{
    match arguments {
        [texts] => name_in(alloc, case, Scope::Basename, texts),
        [texts, word] => match scope(word) {
            Some(scope) => name_in(alloc, case, scope, texts),
            None => Err(TermFault::WrongArguments),
        },
        _ => Err(TermFault::WrongArguments),
    }
}

/// `name` and `iname` of this scope and a text or texts.
fn name_in(alloc: Global, case: Case, scope: Scope, texts: &Value) -> Result<Expr, TermFault>
    ensures { GivesExpr result (name_in case scope (data_of texts.now)) }
{
    let texts = read_texts(alloc, texts)?;
    Ok(Expr::Name { case, scope, texts })
}

/// `suffix` of a text or texts.
#[tactic(auto, using(crate::proofs::Arguments::no_suffix))]
pub(super) fn read_suffix(alloc: Global, arguments: &[Value]) -> Result<Expr, TermFault>
    ensures { GivesExpr result (read_suffix (items_view arguments.now)) }
{
    let [texts] = arguments else {
        return Err(TermFault::WrongArguments);
    };
    Ok(Expr::Suffix(read_texts(alloc, texts)?))
}

/// `dirname` and `idirname` of a directory, and a depth.
pub(super) fn read_dirname(
    alloc: Global,
    case: Case,
    arguments: &[Value],
) -> Result<Expr, TermFault>
    ensures { GivesExpr result (read_dirname case (items_view arguments.now)) }
{
    match arguments {
        [dir] => below_at(alloc, case, Depth::Any, dir),
        [dir, value] => match depth(value) {
            Some(depth) => below_at(alloc, case, depth, dir),
            None => Err(TermFault::WrongArguments),
        },
        _ => Err(TermFault::WrongArguments),
    }
}

/// `dirname` and `idirname` of this depth and a directory.
fn below_at(alloc: Global, case: Case, depth: Depth, dir: &Value) -> Result<Expr, TermFault>
    ensures { GivesExpr result (below_at case depth (data_of dir.now)) }
{
    let Some(dir) = text(dir) else {
        return Err(TermFault::WrongArguments);
    };
    let dir = Vec::from_slice(alloc, without_end_slashes(dir).as_bytes())?;
    Ok(Expr::Dirname { case, dir, depth })
}

/// A depth, `["depth", relation, number]`.
fn depth(value: &Value) -> Option<Depth>
    ensures { result ≡ depth_argument (data_of value.now) }
{
    let Some(("depth", arguments)) = parts(value) else {
        return None;
    };
    let (relation, number) = comparison(arguments)?;
    Some(Depth::Is(relation, number))
}
