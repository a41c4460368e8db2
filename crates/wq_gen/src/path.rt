//! The files at paths. The files below a path are neighbours in a view. So the cost grows with
//! their number, and not with the size of the view.
ghost use Rattle.std.specs.Prelude.{◌≡◌, ◌≤◌, ◌<◌, ◌+◌, ◌++◌, ◌||◌, true, false, count_by, length, map, sum_by, IfOk};
ghost use Rattle.wq_gen.specs.Candidate.{gives, is_itself, is_on_path, is_under};
ghost use Rattle.wq_gen.specs.Counted.{one_path_looks, path_looks};
ghost use Rattle.wq_view.specs.Below.{is_below};
ghost use Rattle.wq_gen.specs.Depth.{under_between};
ghost use Rattle.wq_view.specs.Limit.{max_records};
ghost use Rattle.wq_view.specs.Position.{passes_at, positions_of};
ghost use Rattle.wq_record.specs.RecordData.{RecordData};

use crate::counted::Counted;
use crate::depth::deep_directory;
use crate::generators::{is_itself, is_under};
use crate::outer::outer_paths;
use crate::position::{keep_if, union};
use std::alloc::{AllocError, Global};
use wq_base::{Case, Table, rest_below};
use wq_term::PathGen;

/// How far ahead of a file that is too deep another one of its directory is sought. A search for the end of a directory
/// takes about as long as so many looks.
const AHEAD: usize = 64;

/// The positions of the files at the paths, if there are paths.
pub(crate) fn with_path(
    alloc: Global,
    counted: &mut Counted<'_>,
    paths: &Option<Table<PathGen>>,
) -> Result<Vec<u32>, AllocError>
    ensures found { IfOk result (λ found. found.items
        ≡ positions_of (gives is_on_path paths.now) counted.old.view.records) }
    ensures few { counted.new.count
        ≤ counted.old.count + path_looks paths.now counted.old.view.records }
    ensures same { counted.new.view ≡ counted.old.view }
{
    match paths {
        Some(paths) => on_paths(alloc, counted, &outer_paths(alloc, paths.as_slice())?),
        None => Ok(Vec::new(alloc)),
    }
}

/// The positions of the files that are one of these paths or are below one.
fn on_paths(
    alloc: Global,
    counted: &mut Counted<'_>,
    paths: &[&PathGen],
) -> Result<Vec<u32>, AllocError>
    ensures found { IfOk result (λ found. found.items
        ≡ positions_of (is_on_path (map (λ p. p.now) paths.now)) counted.old.view.records) }
    ensures few { counted.new.count ≤ counted.old.count
        + sum_by (one_path_looks counted.old.view.records) (map (λ p. p.now) paths.now) }
    ensures same { counted.new.view ≡ counted.old.view }
{
    match paths {
        [] => Ok(Vec::new(alloc)),
        [path] => on_path(alloc, counted, path),
        _ => {
            let (first, second) = paths.split_at(paths.len() / 2);
            let left = on_paths(alloc, counted, first)?;
            let right = on_paths(alloc, counted, second)?;
            union(alloc, left, right)
        }
    }
}

/// The positions of the file that is this path and of the files below it.
fn on_path(alloc: Global, counted: &mut Counted<'_>, path: &PathGen) -> Result<Vec<u32>, AllocError>
    ensures found { IfOk result (λ found. found.items
        ≡ positions_of (λ r. is_itself path.now r || is_under path.now r)
        counted.old.view.records) }
    ensures few { counted.new.count
        ≤ counted.old.count + one_path_looks counted.old.view.records path.now }
    ensures same { counted.new.view ≡ counted.old.view }
{
    let itself = itself(alloc, counted, path)?;
    let under = under(alloc, counted, path)?;
    union(alloc, itself, under)
}

/// The position of the file that is this path, unless it is a directory.
fn itself(alloc: Global, counted: &mut Counted<'_>, path: &PathGen) -> Result<Vec<u32>, AllocError>
    ensures found { IfOk result (λ found. found.items
        ≡ positions_of (is_itself path.now) counted.old.view.records) }
    ensures few { counted.new.count ≤ counted.old.count + 2 }
    ensures same { counted.new.view ≡ counted.old.view }
{
    let mut found = Vec::new(alloc);
    let Some(i) = counted.find(path.path.as_str()) else {
        return Ok(found);
    };
    keep_if(is_itself(path, counted.look(i)), &mut found, i)?;
    Ok(found)
}

/// The positions of the files below this path.
fn under(alloc: Global, counted: &mut Counted<'_>, path: &PathGen) -> Result<Vec<u32>, AllocError>
    ensures found { IfOk result (λ found. found.items
        ≡ positions_of (is_under path.now) counted.old.view.records) }
    ensures few { counted.new.count
        ≤ counted.old.count + (count_by (is_below path.now.path) counted.old.view.records + 1) }
    ensures same { counted.new.view ≡ counted.old.view }
{
    let mut found = Vec::new(alloc);
    let (start, end) = counted.below(path.path.as_str());
    let mut at = start;
    while at < end {
        at = go_on(counted, path, &mut found, at, end)?;
    }
    Ok(found)
}

/// Looks at a record below a path, and gives the position from which to go on.
fn go_on(
    counted: &mut Counted<'_>,
    path: &PathGen,
    found: &mut Vec<u32>,
    at: usize,
    end: usize,
) -> Result<usize, AllocError>
    requires low { at < end }
    requires fits { end ≤ length counted.old.view.records }
    requires few { end ≤ max_records }
    ensures on { IfOk result (λ next. (at < next) × (next ≤ end)) }
    ensures found { IfOk result (λ next. found.new.items ≡ found.old.items
        ++ under_between path.now counted.old.view.records at next) }
    ensures few { counted.new.count + at ≤ counted.old.count + end }
    ensures looks { IfOk result (λ next. counted.new.count + at ≤ counted.old.count + next) }
    ensures same { counted.new.view ≡ counted.old.view }
{
    let file = counted.look(at);
    if end - at > AHEAD && !is_under(path, file) {
        if let Some(directory) = deep_directory(path, file.name.as_str()) {
            return pass_over(counted, path, directory, found, at, end);
        }
    }
    keep_if(is_under(path, file), found, at)?;
    Ok(at + 1)
}

/// Passes over the files below a directory that is too deep, if there are many, and else looks at the next ones.
fn pass_over(
    counted: &mut Counted<'_>,
    path: &PathGen,
    directory: &str,
    found: &mut Vec<u32>,
    at: usize,
    end: usize,
) -> Result<usize, AllocError>
    requires ahead { at + AHEAD < end }
    requires fits { end ≤ length counted.old.view.records }
    requires few { end ≤ max_records }
    requires there { passes_at (is_below directory.now) counted.old.view.records at ≡ true }
    requires deep { (r : RecordData) → is_below directory.now r ≡ true
        → is_under path.now r ≡ false }
    ensures on { IfOk result (λ next. (at < next) × (next ≤ end)) }
    ensures found { IfOk result (λ next. found.new.items ≡ found.old.items
        ++ under_between path.now counted.old.view.records at next) }
    ensures few { counted.new.count + at + 1 ≤ counted.old.count + end }
    ensures looks { IfOk result (λ next. counted.new.count + at + 1 ≤ counted.old.count + next) }
    ensures same { counted.new.view ≡ counted.old.view }
{
    let far = at + AHEAD;
    let last = counted.look(far);
    if rest_below(Case::Exact, directory.as_bytes(), last.name.as_bytes()).is_some() {
        let (_, next) = counted.below(directory);
        return Ok(next.min(end));
    }
    for i in at + 1..far {
        keep_if(is_under(path, counted.look(i)), found, i)?;
    }
    keep_if(is_under(path, last), found, far)?;
    Ok(far + 1)
}
