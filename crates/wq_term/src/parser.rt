//! Reading an expression from a JSON value: the terms, their heads and how they nest. The modules
//! below read the arguments of one term; `meaning` says what a term means.
ghost use Rattle.std.specs.Prelude.{◌≡◌, IfOk, IsTrue};
ghost use Rattle.serde_json.specs.View.{view as data_of, items_view};
ghost use Rattle.wq_clock.specs.Instance.{instance_data};
ghost use Rattle.wq_term.specs.Outcome.{GivesExpr, GivesAll};
ghost use Rattle.wq_term.specs.Fits.{expr_fits};
ghost use Rattle.wq_term.specs.Limit.{max_depth};
ghost use Rattle.wq_term.specs.Reading.{read_plain, read_negation, read_all, read_named, reads_as};
ghost use Rattle.wq_term.specs.Expr.{term_of};

mod argument;
mod name;
mod number;
mod pattern;
mod word;

use crate::expr::Expr;
use crate::fault::TermFault;
use crate::head::Head;
use crate::law::read_expressions_fit;
use argument::parts;
pub use argument::{MAX_TERM_TEXT, text, whole_number, without_end_slashes};
pub use number::read_bound;
use serde_json::Value;
use std::alloc::Global;
use wq_base::Case;
use wq_clock::Instance;

/// How many terms may be inside one another, the outermost counted.
pub const MAX_DEPTH: u32 = 64;

/// The expression that a JSON value says, at this instance of the server.
///
/// A term is an array headed by its name, with its arguments after it; the bare name stands for an
/// array of it alone. The first fault refuses the value: see [`TermFault`]. Which values are read
/// is also said as a grammar: see
/// [`values_say_what_they_write`](crate::values_say_what_they_write).
pub fn read_expr(alloc: Global, value: &Value, instance: &Instance) -> Result<Expr, TermFault>
    ensures read { GivesExpr result
        (reads_as (instance_data instance.now) max_depth (data_of value.now)) }
    ensures limits { IfOk result (λ expr. IsTrue (expr_fits (term_of expr))) }
{
    read_expressions_fit();
    read_term(alloc, value, instance, MAX_DEPTH)
}

/// The expression that a value says, of at most this many levels.
#[cycle(read)]
#[tactic(auto, unfolding(crate::specs::Reading::reads_as))]
fn read_term(
    alloc: Global,
    value: &Value,
    instance: &Instance,
    levels: u32,
) -> Result<Expr, TermFault>
    ensures { GivesExpr result (reads_as (instance_data instance.now) levels (data_of value.now)) }
{
    if levels == 0 {
        return Err(TermFault::TooDeep);
    }
    let Some((head, arguments)) = parts(value) else {
        return Err(TermFault::WrongArguments);
    };
    let Some(head) = Head::named(head) else {
        return Err(TermFault::UnknownTerm);
    };
    read_named(alloc, head, arguments, instance, levels - 1)
}

/// A term with this head and these arguments, the terms inside of at most this many levels.
#[cycle(read)]
fn read_named(
    alloc: Global,
    head: Head,
    arguments: &[Value],
    instance: &Instance,
    levels: u32,
) -> Result<Expr, TermFault>
    ensures { GivesExpr result (read_named (instance_data instance.now)
        (reads_as (instance_data instance.now) levels) head (items_view arguments.now)) }
{
    match head {
        Head::True => read_plain(Expr::True, arguments),
        Head::False => read_plain(Expr::False, arguments),
        Head::Exists => read_plain(Expr::Exists, arguments),
        Head::Empty => read_plain(Expr::Empty, arguments),
        Head::KindIs => name::read_kind(arguments),
        Head::Name => name::read_name(alloc, Case::Exact, arguments),
        Head::Iname => name::read_name(alloc, Case::Folded, arguments),
        Head::Match => pattern::read_match(alloc, Case::Exact, arguments),
        Head::Imatch => pattern::read_match(alloc, Case::Folded, arguments),
        Head::Suffix => name::read_suffix(alloc, arguments),
        Head::Size => number::read_size(arguments),
        Head::Since => number::read_since(arguments, instance),
        Head::Dirname => name::read_dirname(alloc, Case::Exact, arguments),
        Head::Idirname => name::read_dirname(alloc, Case::Folded, arguments),
        Head::Not => read_negation(alloc, arguments, instance, levels),
        Head::AllOf => Ok(Expr::AllOf(read_all(alloc, arguments, instance, levels)?)),
        Head::AnyOf => Ok(Expr::AnyOf(read_all(alloc, arguments, instance, levels)?)),
    }
}

/// `not` of one term.
#[cycle(read)]
#[tactic(auto, using(crate::proofs::Arguments::no_negation))]
fn read_negation(
    alloc: Global,
    arguments: &[Value],
    instance: &Instance,
    levels: u32,
) -> Result<Expr, TermFault>
    ensures { GivesExpr result (read_negation (reads_as (instance_data instance.now) levels)
        (items_view arguments.now)) }
{
    let [term] = arguments else {
        return Err(TermFault::WrongArguments);
    };
    let term = read_term(alloc, term, instance, levels)?;
    Ok(Expr::Not(Box::new(alloc, term)?))
}

/// The terms of a list.
#[cycle(read)]
fn read_all(
    alloc: Global,
    arguments: &[Value],
    instance: &Instance,
    levels: u32,
) -> Result<Vec<Expr>, TermFault>
    ensures { GivesAll result (read_all (reads_as (instance_data instance.now) levels)
        (items_view arguments.now)) }
{
    let mut terms = Vec::new(alloc);
    for argument in arguments {
        terms.push(read_term(alloc, argument, instance, levels)?)?;
    }
    Ok(terms)
}

/// A term that has no arguments.
#[tactic(auto, using(crate::proofs::Arguments::not_plain))]
fn read_plain(term: Expr, arguments: &[Value]) -> Result<Expr, TermFault>
    ensures { GivesExpr result (read_plain (term_of term) (items_view arguments.now)) }
{
    if arguments.is_empty() {
        Ok(term)
    } else {
        Err(TermFault::WrongArguments)
    }
}
