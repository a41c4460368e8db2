//! The test of one record by each generator of a query.
ghost use Rattle.std.specs.Prelude.{◌≡◌, ◌≤◌, length};
ghost use Rattle.wq_gen.specs.Candidate.{is_any_there, is_bounded, is_itself, changed_since, is_under, is_within};

use wq_base::{Case, rest_below, slashes};
use wq_clock::Bound;
use wq_term::{ANY_DEPTH, Generators, PathGen};
use wq_view::{Kind, MAX_NAME, Record};

/// Whether there is a generator.
pub(crate) fn is_any_there(generators: &Generators) -> bool
    ensures { result ≡ is_any_there generators.now }
{
    is_bounded(generators.since)
        || generators.suffix.is_some()
        || generators.path.is_some()
        || generators.glob.is_some()
}

/// Whether there is a bound that is not fresh.
fn is_bounded(since: Option<Bound>) -> bool
    ensures { result ≡ is_bounded since }
{
    match since {
        None => false,
        Some(bound) => !bound.is_fresh(),
    }
}

/// Whether the file was seen to change after the bound. If the bound is a second, at that second or
/// after it.
pub(crate) fn is_since(bound: Bound, file: &Record) -> bool
    ensures { result ≡ changed_since bound file.now }
{
    match bound {
        Bound::Fresh => false,
        Bound::Tick(tick) => tick < file.otick,
        Bound::Second(second) => second <= file.osec,
    }
}

/// Whether the path gives a file of this name, because the file was not last seen as a directory.
pub(crate) fn is_itself(path: &PathGen, file: &Record) -> bool
    ensures { result ≡ is_itself path.now file.now }
{
    file.name.as_bytes() == path.path.as_bytes() && file.kind != Kind::Dir
}

/// Whether the file is strictly below the path, and within its depth.
#[tactic(auto, using(wq_term::proofs::Texts::name_is_short))]
pub(crate) fn is_under(path: &PathGen, file: &Record) -> bool
    ensures { result ≡ is_under path.now file.now }
{
    match rest_below(Case::Exact, path.path.as_bytes(), file.name.as_bytes()) {
        Some(rest) => is_within(path.depth, rest),
        None => false,
    }
}

/// Whether the part of a name after a path is within this depth.
fn is_within(depth: i64, rest: &[u8]) -> bool
    requires { length rest.now ≤ MAX_NAME }
    ensures { result ≡ is_within depth rest.now }
{
    depth == ANY_DEPTH || slashes(rest) as i64 <= depth
}
