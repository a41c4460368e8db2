//! The files with one of some suffixes.
ghost use Rattle.std.specs.Prelude.{◌≡◌, ◌≤◌, ◌+◌, count_by, sum_by, IfOk};
ghost use Rattle.wq_view.specs.Position.{positions_of};
ghost use Rattle.wq_gen.specs.Candidate.{gives, suffix_is_among};
ghost use Rattle.wq_gen.specs.Counted.{suffix_looks, text_looks};

use crate::counted::Counted;
use std::alloc::{AllocError, Global};
use wq_base::{Table, Text};
use wq_view::Suffixes;

/// The positions of the files with one of the suffixes, if there are suffixes.
pub(crate) fn with_suffix(
    alloc: Global,
    counted: &mut Counted<'_>,
    suffixes: &Option<Table<Text>>,
) -> Result<Vec<u32>, AllocError>
    ensures found { IfOk result (λ found. found.items
        ≡ positions_of (gives suffix_is_among suffixes.now) counted.old.view.records) }
    ensures few { counted.new.count
        ≤ counted.old.count + suffix_looks suffixes.now counted.old.view.records }
    ensures same { counted.new.view ≡ counted.old.view }
{
    match suffixes {
        Some(suffixes) => with_texts(alloc, counted, suffixes.as_slice()),
        None => Ok(Vec::new(alloc)),
    }
}

/// The positions of the files with one of these suffixes, whatever their number.
fn with_texts(
    alloc: Global,
    counted: &mut Counted<'_>,
    texts: &[Text],
) -> Result<Vec<u32>, AllocError>
    ensures found { IfOk result (λ found. found.items
        ≡ positions_of (suffix_is_among texts.now) counted.old.view.records) }
    ensures few { counted.new.count
        ≤ counted.old.count + sum_by (text_looks counted.old.view.records) texts.now }
    ensures same { counted.new.view ≡ counted.old.view }
{
    if texts.is_empty() {
        return Ok(Vec::new(alloc));
    }
    let sought = Suffixes::of(alloc, texts)?;
    found_by_suffix(alloc, counted, &sought)
}

/// The positions of the files whose suffix is one of these. Each of them is a look, and that there are no others is one.
fn found_by_suffix(
    alloc: Global,
    counted: &mut Counted<'_>,
    sought: &Suffixes<'_>,
) -> Result<Vec<u32>, AllocError>
    ensures found { IfOk result (λ found. found.items
        ≡ positions_of (suffix_is_among sought.now) counted.old.view.records) }
    ensures few { counted.new.count ≤ counted.old.count
        + (count_by (suffix_is_among sought.now) counted.old.view.records + 1) }
    ensures same { counted.new.view ≡ counted.old.view }
{
    let mut found = Vec::new(alloc);
    counted.push_with_suffix(sought, &mut found)?;
    Ok(found)
}
