//! Laws about reading expressions, each a function whose contract is the law. A proof of another
//! crate gets a law by a call, which costs nothing.
ghost use Rattle.wq_term.specs.Law.{BoundsSayWhatTheyWrite, NumbersSayWhatTheyWrite};
ghost use Rattle.wq_term.specs.Law.{ReadExpressionsAreShallow, ReadExpressionsFit};
ghost use Rattle.wq_term.specs.Law.{ValuesSayWhatTheyWrite};

use wq_clock::texts_say_what_they_spell;

/// [`read_expr`](crate::read_expr) reads exactly the values of the grammar of expressions whose
/// terms are at most 64 deep.
pub fn values_say_what_they_write()
    ensures { ValuesSayWhatTheyWrite }
{
    texts_say_what_they_spell();
}

/// An expression that is read is at most 64 terms deep.
pub fn read_expressions_are_shallow()
    ensures { ReadExpressionsAreShallow }
{
    texts_say_what_they_spell();
}

/// An expression that is read keeps the limits that [`Expr::fits`](crate::Expr::fits) tests.
pub fn read_expressions_fit()
    ensures { ReadExpressionsFit }
{
    texts_say_what_they_spell();
}

/// [`read_bound`](crate::read_bound) reads exactly the values of the grammar of bounds.
pub fn bounds_say_what_they_write()
    ensures { BoundsSayWhatTheyWrite }
{
    texts_say_what_they_spell();
}

/// [`whole_number`](crate::whole_number) reads exactly the integers from -2^62 to 2^62.
pub fn numbers_say_what_they_write()
    ensures { NumbersSayWhatTheyWrite }
{}
