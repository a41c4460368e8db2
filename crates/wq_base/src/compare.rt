//! Comparisons of numbers and texts.
ghost use Rattle.std.specs.Prelude.{◌≡◌};
ghost use Rattle.std.specs.Str.{str_eq_ignore_ascii_case};
ghost use Rattle.wq_base.specs.Compare.{compares, folded_order, is_suffix, same_text};

use std::cmp::Ordering;

/// The relation of a first number to a second one.
#[derive(Clone, Copy, Debug)]
pub enum Relation {
    /// The numbers are equal.
    Eq,
    /// The numbers differ.
    Ne,
    /// The first number is less.
    Lt,
    /// The first number is less, or they are equal.
    Le,
    /// The first number is greater.
    Gt,
    /// The first number is greater, or they are equal.
    Ge,
}

/// How texts are compared.
#[derive(Clone, Copy, Debug)]
pub enum Case {
    /// The bytes are compared as they are.
    Exact,
    /// A to Z count as a to z, and each other byte as it is.
    Folded,
}

impl Relation {
    /// Whether this relation holds between the first number and the second.
    pub fn holds(self, left: i64, right: i64) -> bool
        ensures { result ≡ compares self left right }
    {
        match self {
            Relation::Eq => left == right,
            Relation::Ne => left != right,
            Relation::Lt => left < right,
            Relation::Le => left <= right,
            Relation::Gt => left > right,
            Relation::Ge => left >= right,
        }
    }
}

impl Case {
    /// Whether two texts are the same.
    pub fn is_same(self, left: &[u8], right: &[u8]) -> bool
        ensures { result ≡ same_text self left.now right.now }
    {
        match self {
            Case::Exact => left == right,
            Case::Folded => is_same_folded(left, right),
        }
    }
}

/// Whether a text is this suffix, if A to Z count as a to z. An empty text is no suffix.
pub fn is_suffix(text: &[u8], suffix: &[u8]) -> bool
    ensures { result ≡ is_suffix text.now suffix.now }
{
    !text.is_empty() && Case::Folded.is_same(text, suffix)
}

/// Whether two texts are the same, if A to Z count as a to z.
fn is_same_folded(left: &[u8], right: &[u8]) -> bool
    ensures { result ≡ str_eq_ignore_ascii_case left.now right.now }
{
    if left.len() != right.len() {
        return false;
    }
    for (i, byte) in left.iter().enumerate() {
        if !byte.eq_ignore_ascii_case(&right[i]) {
            return false;
        }
    }
    true
}

/// The order of two texts, if A to Z count as a to z.
pub fn folded_order(first: &[u8], second: &[u8]) -> Ordering
    ensures { result ≡ folded_order first.now second.now }
{
    let mut rest_first = first;
    let mut rest_second = second;
    while let (Some((x, later_first)), Some((y, later_second))) = (
        rest_first.split_first(),
        rest_second.split_first(),
    ) {
        let order = x.to_ascii_lowercase().cmp(&y.to_ascii_lowercase());
        if order.is_ne() {
            return order;
        }
        rest_first = later_first;
        rest_second = later_second;
    }
    rest_first.len().cmp(&rest_second.len())
}
