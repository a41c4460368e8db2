//! Directories that are too deep for a path.
ghost use Rattle.std.specs.Prelude.{◌≡◌, ◌≤◌, ◌<◌, pos, true, IfSome, count_by, get_or, length, take};
ghost use Rattle.wq_base.specs.Byte.{is_slash};
ghost use Rattle.wq_gen.specs.Depth.{IsDeep};

use wq_base::{Case, rest_below};
use wq_term::PathGen;
use wq_view::MAX_NAME;

/// The directory of a name in which the depth of a path is exceeded. The path gives no file below it.
pub(crate) fn deep_directory<'a>(path: &PathGen, name: &'a str) -> Option<&'a str>
    requires { length name.now ≤ MAX_NAME }
    ensures { IfSome result (λ dir. IsDeep path.now name.now dir.now) }
{
    let Some(rest) = rest_below(Case::Exact, path.path.as_bytes(), name.as_bytes()) else {
        return None;
    };
    let Some(slash) = slash_after(rest, path) else {
        return None;
    };
    let end = name.len() - rest.len() + slash;
    if end == 0 {
        return None;
    }
    match name.split_at_checked(end) {
        Some((directory, _)) => Some(directory),
        None => None,
    }
}

/// The place of the slash that has as many slashes before it as the depth of a path.
fn slash_after(text: &[u8], path: &PathGen) -> Option<usize>
    requires { length text.now ≤ MAX_NAME }
    ensures { IfSome result (λ k. (k < length text.now) × (is_slash (get_or text.now k 0) ≡ true)
        × (path.now.depth ≡ pos (count_by is_slash (take k text.now)))) }
{
    let mut passed = 0usize;
    for (at, byte) in text.iter().enumerate() {
        if *byte == b'/' {
            if passed as i64 == path.depth {
                return Some(at);
            }
            passed += 1;
        }
    }
    None
}
