//! The files whose whole names fit patterns. Each record is looked at once, whatever the number of
//! patterns.
ghost use Rattle.std.specs.Prelude.{◌≡◌, ◌≤◌, ◌+◌, length, IfOk};
ghost use Rattle.std.specs.List.{list_any};
ghost use Rattle.wq_glob.specs.Limit.{max_matched_text};
ghost use Rattle.wq_glob.specs.Pattern.{fits};
ghost use Rattle.wq_view.specs.Position.{positions_of};
ghost use Rattle.wq_gen.specs.Candidate.{gives, is_fitting};
ghost use Rattle.wq_gen.specs.Counted.{glob_looks};

use crate::counted::Counted;
use crate::position::keep_if;
use std::alloc::Global;
use wq_base::{Asker, FILES_BETWEEN_LOOKS, Table, Unanswered};
use wq_glob::Pattern;
use wq_view::Record;

/// The positions of the files that exist and fit one of the patterns, if there are patterns.
pub(crate) fn with_glob<A: Asker>(
    alloc: Global,
    asker: &A,
    counted: &mut Counted<'_>,
    patterns: &Option<Table<Pattern>>,
) -> Result<Vec<u32>, Unanswered>
    ensures found { IfOk result (λ found. found.items
        ≡ positions_of (gives is_fitting patterns.now) counted.old.view.records) }
    ensures few { counted.new.count
        ≤ counted.old.count + glob_looks patterns.now counted.old.view.records }
    ensures same { counted.new.view ≡ counted.old.view }
{
    match patterns {
        Some(patterns) => fitting(alloc, asker, counted, patterns.as_slice()),
        None => Ok(Vec::new(alloc)),
    }
}

/// The positions of the files that exist and fit one of these patterns, unless the asker goes.
fn fitting<A: Asker>(
    alloc: Global,
    asker: &A,
    counted: &mut Counted<'_>,
    patterns: &[Pattern],
) -> Result<Vec<u32>, Unanswered>
    ensures found { IfOk result (λ found. found.items
        ≡ positions_of (is_fitting patterns.now) counted.old.view.records) }
    ensures few { counted.new.count
        ≤ counted.old.count + length counted.old.view.records }
    ensures same { counted.new.view ≡ counted.old.view }
{
    let mut found = Vec::new(alloc);
    for i in 0..counted.len() {
        if i % FILES_BETWEEN_LOOKS == 0 && asker.is_gone() {
            return Err(Unanswered::Gone);
        }
        keep_if(is_fitting(patterns, counted.look(i)), &mut found, i)?;
    }
    Ok(found)
}

/// Whether the file exists, and one of these patterns fits its whole name.
#[tactic(auto, using(wq_term::proofs::Texts::name_is_short))]
fn is_fitting(patterns: &[Pattern], file: &Record) -> bool
    ensures { result ≡ is_fitting patterns.now file.now }
{
    file.exists && fits_one(patterns, file.name.as_bytes())
}

/// Whether one of these patterns fits a name.
fn fits_one(patterns: &[Pattern], name: &[u8]) -> bool
    requires { length name.now ≤ max_matched_text }
    ensures { result ≡ list_any (λ pattern. fits pattern name.now) patterns.now }
{
    for pattern in patterns {
        if pattern.fits(name) {
            return true;
        }
    }
    false
}
