//! Whether two programs are the same, one part after the other. It takes no memory.
ghost use Rattle.std.specs.Prelude.{◌≡◌, IsTrue};

use wq_code::{Op, Raw, Table, TextList};
use wq_glob::Pattern;

/// A part of a program that can be compared with another one.
pub(crate) trait Same {
    ghost use Rattle.std.specs.Prelude.{◌≡◌, IsTrue};

    /// Whether it is equal to the other. Only what follows from a yes is promised.
    fn is_same(&self, other: &Self) -> bool
        ensures { IsTrue result → self.now ≡ other.now };
}

impl Same for i64 {
    fn is_same(&self, other: &i64) -> bool {
        *self == *other
    }
}

impl Same for Table<u8> {
    fn is_same(&self, other: &Table<u8>) -> bool {
        self.as_slice() == other.as_slice()
    }
}

impl Same for TextList {
    fn is_same(&self, other: &TextList) -> bool {
        all_same(self.texts(), other.texts())
    }
}

impl Same for Pattern {
    fn is_same(&self, other: &Pattern) -> bool {
        self.text() == other.text() && self.flags() == other.flags()
    }
}

impl Same for Table<Pattern> {
    fn is_same(&self, other: &Table<Pattern>) -> bool {
        all_same(self.as_slice(), other.as_slice())
    }
}

impl Same for Op {
    #[tactic(auto, using(crate::proofs::Words::one_word))]
    fn is_same(&self, other: &Op) -> bool {
        let word = self.word();
        let other = other.word();
        word.op == other.op && word.a == other.a && word.b == other.b
    }
}

impl Same for Raw {
    fn is_same(&self, other: &Raw) -> bool {
        if !all_same(self.nums.as_slice(), other.nums.as_slice()) {
            return false;
        }
        if !all_same(self.texts.as_slice(), other.texts.as_slice()) {
            return false;
        }
        if !all_same(self.lists.as_slice(), other.lists.as_slice()) {
            return false;
        }
        if !all_same(self.patterns.as_slice(), other.patterns.as_slice()) {
            return false;
        }
        if !all_same(self.sets.as_slice(), other.sets.as_slice()) {
            return false;
        }
        all_same(self.code.as_slice(), other.code.as_slice())
    }
}

/// Whether the rows of two tables are equal, each to the one at its place.
fn all_same<T: Same>(rows: &[T], others: &[T]) -> bool
    ensures { IsTrue result → rows.now ≡ others.now }
{
    let mut left = rows;
    let mut rest = others;
    while let [row, rows_after @ ..] = left {
        let [other, others_after @ ..] = rest else {
            return false;
        };
        if !row.is_same(other) {
            return false;
        }
        left = rows_after;
        rest = others_after;
    }
    rest.is_empty()
}
