//! Whether an expression keeps the limits that reading one tests.
ghost use Rattle.std.specs.Prelude.{◌≡◌, ◌&&◌, map, nat_le};
ghost use Rattle.std.specs.List.{list_all};
ghost use Rattle.wq_term.specs.Expr.{depth_of, greatest_depth, term_of, terms_of, texts_in};
ghost use Rattle.wq_term.specs.Fits.{all_keep_limits, bound_fits, depth_fits, expr_fits, is_second};
ghost use Rattle.wq_term.specs.Fits.{is_text, is_whole, keeps_limits, since_fits};

use crate::expr::{Depth, Expr, Since};
use crate::parser::{MAX_DEPTH, MAX_TERM_TEXT};
use wq_base::{MAX_NUMBER, MAX_SIGNED};
use wq_clock::Bound;
use wq_glob::MAX_PATTERN;

impl Expr {
    /// Whether the expression keeps the limits of those that are read. Terms are at most
    /// [`MAX_DEPTH`] inside one another, texts have at most [`MAX_TERM_TEXT`] bytes, and patterns
    /// 255. Numbers are from -2^62 to 2^62, and seconds and ticks from 0 to 2^62.
    #[tactic(auto, unfolding(crate::specs::Fits::expr_fits))]
    pub fn fits(&self) -> bool
        ensures { result ≡ expr_fits (term_of self.now) }
    {
        fits_in(self, MAX_DEPTH)
    }
}

/// Whether the expression has at most this many levels and keeps the other limits.
#[cycle(fitting)]
fn fits_in(expr: &Expr, levels: u32) -> bool
    ensures { result ≡ (nat_le (depth_of (term_of expr.now)) levels
        && keeps_limits (term_of expr.now)) }
{
    if levels == 0 {
        return false;
    }
    match expr {
        Expr::True => true,
        Expr::False => true,
        Expr::Exists => true,
        Expr::Empty => true,
        Expr::KindIs(_) => true,
        Expr::Name { texts, .. } => are_texts(texts),
        Expr::Match(pattern) => pattern.text().len() <= MAX_PATTERN,
        Expr::Suffix(texts) => are_texts(texts),
        Expr::Size(_, n) => is_whole(*n),
        Expr::Since(since) => since_fits(*since),
        Expr::Dirname { dir, depth, .. } => is_text(dir) && depth_fits(*depth),
        Expr::Not(term) => fits_in(term, levels - 1),
        Expr::AllOf(terms) => all_fit(terms, levels - 1),
        Expr::AnyOf(terms) => all_fit(terms, levels - 1),
    }
}

/// The same of each term of a list.
#[cycle(fitting)]
fn all_fit(terms: &[Expr], levels: u32) -> bool
    ensures { result ≡ (nat_le (greatest_depth (terms_of (map term_of terms.now))) levels
        && all_keep_limits (terms_of (map term_of terms.now))) }
{
    for term in terms {
        if !fits_in(term, levels) {
            return false;
        }
    }
    true
}

/// Whether each of some texts is short enough.
fn are_texts(texts: &[Vec<u8>]) -> bool
    ensures { result ≡ list_all is_text (texts_in texts.now) }
{
    for text in texts {
        if !is_text(text) {
            return false;
        }
    }
    true
}

/// Whether a text is short enough.
fn is_text(text: &[u8]) -> bool
    ensures { result ≡ is_text text.now }
{
    text.len() <= MAX_TERM_TEXT
}

/// Whether the number of a depth is a whole number of the server.
fn depth_fits(depth: Depth) -> bool
    ensures { result ≡ depth_fits depth }
{
    match depth {
        Depth::Any => true,
        Depth::Is(_, n) => is_whole(n),
    }
}

/// Whether the point of `since` is in range.
fn since_fits(since: Since) -> bool
    ensures { result ≡ since_fits since }
{
    match since {
        Since::Observed(bound) => bound_fits(bound),
        Since::Created(bound) => bound_fits(bound),
        Since::Modified(second) => is_second(second),
    }
}

/// Whether a tick or a second is in range.
fn bound_fits(bound: Bound) -> bool
    ensures { result ≡ bound_fits bound }
{
    match bound {
        Bound::Fresh => true,
        Bound::Tick(tick) => tick <= MAX_NUMBER,
        Bound::Second(second) => is_second(second),
    }
}

/// Whether a number lies from -2^62 to 2^62.
fn is_whole(n: i64) -> bool
    ensures { result ≡ is_whole n }
{
    -MAX_SIGNED <= n && n <= MAX_SIGNED
}

/// Whether a number lies from 0 to 2^62.
fn is_second(n: i64) -> bool
    ensures { result ≡ is_second n }
{
    0 <= n && n <= MAX_SIGNED
}
