//! How many instructions the code of an expression has. `wq_compile` makes the code itself.
ghost use Rattle.std.specs.Prelude.{◌≡◌, map};
ghost use Rattle.wq_term.specs.CodeLength.{at_most_word, below_len, code_len, since_len, terms_len};
ghost use Rattle.wq_term.specs.Expr.{term_of, terms_of};

use crate::expr::{Depth, Expr, Since};
use wq_clock::Bound;

/// How many instructions the code of the expression has, without the one that ends a program; of a
/// number beyond 64 bits the greatest one.
#[cycle(length)]
pub fn code_len(expr: &Expr) -> u64
    ensures { result ≡ at_most_word (code_len (term_of expr.now)) }
{
    match expr {
        Expr::True => 1,
        Expr::False => 1,
        Expr::Exists => 1,
        Expr::Empty => 16,
        Expr::KindIs(_) => 3,
        Expr::Name { .. } => 2,
        Expr::Match(_) => 2,
        Expr::Suffix(_) => 2,
        Expr::Size(_, _) => 6,
        Expr::Since(since) => since_len(*since),
        Expr::Dirname { depth, .. } => below_len(*depth),
        Expr::Not(term) => code_len(term).saturating_add(1),
        Expr::AllOf(terms) => terms_len(terms),
        Expr::AnyOf(terms) => terms_len(terms),
    }
}

/// The same of the terms of a list.
#[cycle(length)]
fn terms_len(terms: &[Expr]) -> u64
    ensures { result ≡ at_most_word (terms_len (terms_of (map term_of terms.now))) }
{
    let Some((first, others)) = terms.split_first() else {
        return 1;
    };
    let mut len = code_len(first);
    for term in others {
        len = len.saturating_add(2).saturating_add(code_len(term));
    }
    len
}

/// The same of `since`.
fn since_len(since: Since) -> u64
    ensures { result ≡ since_len since }
{
    match since {
        Since::Observed(Bound::Fresh) => 1,
        Since::Created(Bound::Fresh) => 1,
        _ => 3,
    }
}

/// The same of `dirname`.
fn below_len(depth: Depth) -> u64
    ensures { result ≡ below_len depth }
{
    match depth {
        Depth::Any => 5,
        Depth::Is(_, _) => 12,
    }
}
