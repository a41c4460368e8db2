//! Whether a record matches an expression, straight from the expression's meaning. It takes no
//! memory.
ghost use Rattle.std.specs.Prelude.{◌≡◌, ◌||◌, ◌&&◌, map};
ghost use Rattle.wq_term.specs.Expr.{means, every, some, has_kind, empty, term_of, terms_of};

mod number;
mod pattern;
mod text;

use crate::expr::Expr;
use wq_record::{Kind, Record};

/// Whether the record matches the expression.
#[cycle(holds)]
pub fn holds(expr: &Expr, file: &Record) -> bool
    ensures { result ≡ means (term_of expr.now) file.now }
{
    match expr {
        Expr::True => true,
        Expr::False => false,
        Expr::Exists => file.exists,
        Expr::Empty => is_empty(file),
        Expr::KindIs(kind) => has_kind(*kind, file),
        Expr::Name { case, scope, texts } => text::is_named(*case, *scope, texts, file),
        Expr::Match(pattern) => pattern::name_fits(pattern, file),
        Expr::Suffix(texts) => text::has_suffix(texts, file),
        Expr::Size(relation, n) => file.exists && relation.holds(file.size, *n),
        Expr::Since(since) => since.holds(file),
        Expr::Dirname { case, dir, depth } => text::is_below(*case, dir, *depth, file),
        Expr::Not(term) => !holds(term, file),
        Expr::AllOf(terms) => all_hold(terms, file),
        Expr::AnyOf(terms) => any_holds(terms, file),
    }
}

/// Whether the record matches every term.
#[cycle(holds)]
fn all_hold(terms: &[Expr], file: &Record) -> bool
    ensures { result ≡ every (terms_of (map term_of terms.now)) file.now }
{
    for term in terms {
        if !holds(term, file) {
            return false;
        }
    }
    true
}

/// Whether the record matches some term.
#[cycle(holds)]
fn any_holds(terms: &[Expr], file: &Record) -> bool
    ensures { result ≡ some (terms_of (map term_of terms.now)) file.now }
{
    for term in terms {
        if holds(term, file) {
            return true;
        }
    }
    false
}

/// Whether the file exists, and is a regular file or a directory of size 0.
fn is_empty(file: &Record) -> bool
    ensures { result ≡ means empty file.now }
{
    file.exists && (has_kind(Kind::File, file) || has_kind(Kind::Dir, file)) && file.size == 0
}

/// Whether the file is of this kind.
fn has_kind(kind: Kind, file: &Record) -> bool
    ensures { result ≡ has_kind kind file.now }
{
    kind.letter() == file.kind.letter()
}
