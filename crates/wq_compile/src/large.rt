//! The expressions that have no program: those whose code or lists are too long.
ghost use Rattle.std.specs.Prelude.{◌≡◌, length, map};
ghost use Rattle.wq_term.specs.Expr.{term_of, terms_of, texts_in};
ghost use Rattle.wq_compile.specs.Large.{has_long_list, have_long_list, is_long_list, is_too_large};
ghost use Rattle.wq_compile.specs.Code.{filled};

use wq_code::{MAX_ENTRIES, MAX_TABLE_ROWS};
use wq_term::{Expr, code_len};

/// Whether the code of the expression and the end have too many instructions, or a list has too
/// many entries.
pub fn is_too_large(expr: &Expr) -> bool
    ensures { result ≡ is_too_large (term_of expr.now) }
{
    code_len(expr) >= MAX_TABLE_ROWS as u64 || has_long_list(expr)
}

/// Whether a list of texts in the expression has too many entries; empty suffixes do not count.
#[cycle(measuring)]
fn has_long_list(expr: &Expr) -> bool
    ensures { result ≡ has_long_list (term_of expr.now) }
{
    match expr {
        Expr::True => false,
        Expr::False => false,
        Expr::Exists => false,
        Expr::Empty => false,
        Expr::KindIs(_) => false,
        Expr::Name { texts, .. } => texts.len() > MAX_ENTRIES,
        Expr::Match(_) => false,
        Expr::Suffix(texts) => filled_count(texts) > MAX_ENTRIES,
        Expr::Size(_, _) => false,
        Expr::Since(_) => false,
        Expr::Dirname { .. } => false,
        Expr::Not(term) => has_long_list(term),
        Expr::AllOf(terms) => have_long_list(terms),
        Expr::AnyOf(terms) => have_long_list(terms),
    }
}

/// The same of the terms of a list.
#[cycle(measuring)]
fn have_long_list(terms: &[Expr]) -> bool
    ensures { result ≡ have_long_list (terms_of (map term_of terms.now)) }
{
    for term in terms {
        if has_long_list(term) {
            return true;
        }
    }
    false
}

/// How many of the texts are not empty.
fn filled_count(texts: &[Vec<u8>]) -> usize
    ensures { result ≡ length (filled (texts_in texts.now)) }
{
    let mut count = 0;
    for text in texts {
        if !text.is_empty() {
            count += 1;
        }
    }
    count
}
