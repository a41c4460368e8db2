//! The candidates among the records of a view.
ghost use Rattle.std.specs.Prelude.{◌≡◌, ◌≤◌, ◌+◌, IfOk};
ghost use Rattle.wq_gen.specs.Candidate.{is_candidate};
ghost use Rattle.wq_gen.specs.Counted.{allowed};
ghost use Rattle.std.specs.List.{range_with_len};
ghost use Rattle.wq_view.specs.Limit.{max_records};
ghost use Rattle.wq_view.specs.Position.{positions_of};

use crate::counted::Counted;
use crate::generators::is_any_there;
use crate::glob::with_glob;
use crate::path::with_path;
use crate::position::union;
use crate::since::changed_since;
use crate::suffix::with_suffix;
use std::alloc::{AllocError, Global};
use wq_base::{Asker, Stays, Unanswered};
use wq_term::Generators;
use wq_view::View;

/// The positions of the candidates, ascending, each once. The candidates are the records that some
/// generator gives, or all records if there is no generator.
///
/// The cost grows with the number of candidates, and with the number of files below the paths. A
/// bound that is a second looks at each record, and so do patterns, whatever their number. Suffixes
/// read one byte for each record: the number of its suffix in its chunk of the view.
///
/// # Errors
/// Memory ran out.
pub fn candidates(
    alloc: Global,
    view: &View,
    generators: &Generators,
) -> Result<Vec<u32>, AllocError>
    ensures { IfOk result (λ found. found.items
        ≡ positions_of (is_candidate generators.now) view.now.records) }
{
    let mut counted = Counted::of(view);
    candidates_counted(alloc, &mut counted, generators)
}

/// The same for an asker.
///
/// # Errors
/// Memory ran out, or the asker went while patterns were tried.
pub fn candidates_for<A: Asker>(
    alloc: Global,
    asker: &A,
    view: &View,
    generators: &Generators,
) -> Result<Vec<u32>, Unanswered>
    ensures { IfOk result (λ found. found.items
        ≡ positions_of (is_candidate generators.now) view.now.records) }
{
    let mut counted = Counted::of(view);
    candidates_counted_for(alloc, asker, &mut counted, generators)
}

/// The positions of the candidates. The number of looks is bounded.
///
/// # Errors
/// Memory ran out.
pub fn candidates_counted(
    alloc: Global,
    counted: &mut Counted<'_>,
    generators: &Generators,
) -> Result<Vec<u32>, AllocError>
    ensures found { IfOk result (λ found. found.items
        ≡ positions_of (is_candidate generators.now) counted.old.view.records) }
    ensures few { counted.new.count
        ≤ counted.old.count + allowed generators.now counted.old.view.records }
    ensures same { counted.new.view ≡ counted.old.view }
{
    match candidates_counted_for(alloc, &Stays {}, counted, generators) {
        Ok(found) => Ok(found),
        Err(_) => Err(AllocError),
    }
}

/// The same for an asker.
///
/// # Errors
/// Memory ran out, or the asker went while patterns were tried.
pub fn candidates_counted_for<A: Asker>(
    alloc: Global,
    asker: &A,
    counted: &mut Counted<'_>,
    generators: &Generators,
) -> Result<Vec<u32>, Unanswered>
    ensures found { IfOk result (λ found. found.items
        ≡ positions_of (is_candidate generators.now) counted.old.view.records) }
    ensures few { counted.new.count
        ≤ counted.old.count + allowed generators.now counted.old.view.records }
    ensures same { counted.new.view ≡ counted.old.view }
{
    if !is_any_there(generators) {
        return Ok(all(alloc, counted.len())?);
    }
    let changed = changed_since(alloc, counted, generators.since)?;
    let suffixed = with_suffix(alloc, counted, &generators.suffix)?;
    let on_path = with_path(alloc, counted, &generators.path)?;
    let fitting = with_glob(alloc, asker, counted, &generators.glob)?;
    let early = union(alloc, changed, suffixed)?;
    Ok(union(alloc, union(alloc, early, on_path)?, fitting)?)
}

/// Every position below a number.
fn all(alloc: Global, count: usize) -> Result<Vec<u32>, AllocError>
    requires { count ≤ max_records }
    ensures { IfOk result (λ found. found.items ≡ range_with_len 0 count) }
{
    let mut found = Vec::with_capacity(alloc, count)?;
    for i in 0..count {
        found.push(i as u32)?;
    }
    Ok(found)
}
