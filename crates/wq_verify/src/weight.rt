//! How many bytes of memory an open program takes, at most. No contract depends on these numbers: they decide alone in
//! which form a program is kept.

use wq_code::{Raw, Table, TextList};
use wq_glob::Pattern;

/// The bytes of a text that is empty: its place in a table, which may have room for as many again, and its allocation.
const TEXT: usize = 96;

/// The bytes of a list or a set that is empty: its place in a table, and the allocations of its tables.
const LIST: usize = 256;

/// The bytes of a pattern that is empty: its place in a table, and an allocation of each of its parts.
const PATTERN: usize = 320;

/// The bytes of a pattern for each byte of its text: a step, and a third of the set of a class.
const PATTERN_BYTE: usize = 20;

/// The bytes of the place of a text in its list.
const PLACE: usize = 8;

/// The bytes of a number or an instruction, in a table that may have room for as many again.
const ROW: usize = 32;

/// The bytes of memory of an open program, at most.
pub(crate) fn weight_of(raw: &Raw) -> usize {
    rows_weight(raw.nums.len())
        .saturating_add(texts_weight(raw.texts.as_slice()))
        .saturating_add(lists_weight(raw.lists.as_slice()))
        .saturating_add(patterns_weight(raw.patterns.as_slice()))
        .saturating_add(sets_weight(raw.sets.as_slice()))
        .saturating_add(rows_weight(raw.code.len()))
}

/// The bytes of numbers or instructions.
fn rows_weight(count: usize) -> usize {
    count.saturating_mul(ROW)
}

/// The bytes of some texts.
fn texts_weight(texts: &[Table<u8>]) -> usize {
    let mut total: usize = 0;
    for text in texts {
        total = total.saturating_add(text.len()).saturating_add(TEXT);
    }
    total
}

/// The bytes of some lists.
fn lists_weight(lists: &[TextList]) -> usize {
    let mut total: usize = 0;
    for list in lists {
        total = total
            .saturating_add(LIST)
            .saturating_add(texts_weight(list.texts()))
            .saturating_add(list.len().saturating_mul(PLACE));
    }
    total
}

/// The bytes of some patterns.
fn patterns_weight(patterns: &[Pattern]) -> usize {
    let mut total: usize = 0;
    for pattern in patterns {
        total = total
            .saturating_add(PATTERN)
            .saturating_add(pattern.text().len().saturating_mul(PATTERN_BYTE));
    }
    total
}

/// The bytes of some sets.
fn sets_weight(sets: &[Table<Pattern>]) -> usize {
    let mut total: usize = 0;
    for patterns in sets {
        total = total
            .saturating_add(LIST)
            .saturating_add(patterns_weight(patterns.as_slice()));
    }
    total
}
