//! Names below a directory.
ghost use Rattle.std.specs.Prelude.{◌≡◌, ◌≤◌, IfSome, option_map, count_by, length};
ghost use Rattle.wq_base.specs.Byte.{is_slash};
ghost use Rattle.wq_base.specs.Directory.{after_slash, rest_below};

use crate::compare::Case;

/// The part of a name after the directory and a slash, if the name is strictly below the directory.
/// All names are below the empty directory, and their part is the whole name.
///
/// `rest_below(Case::Exact, b"src", b"src/a/b.c")` is `Some(b"a/b.c")`. For `b"src"` or `b"srcs/a"`
/// it is `None`.
pub fn rest_below<'a>(case: Case, dir: &[u8], name: &'a [u8]) -> Option<&'a [u8]>
    ensures value { option_map (λ rest. rest.now) result ≡ rest_below case dir.now name.now }
    ensures bound { IfSome result (λ rest. length rest.now ≤ length name.now) }
{
    if dir.is_empty() {
        return Some(name);
    }
    let (start, rest) = name.split_at_checked(dir.len())?;
    if case.is_same(start, dir) {
        after_slash(rest)
    } else {
        None
    }
}

/// The text after its first byte, if that byte is a slash.
fn after_slash(text: &[u8]) -> Option<&[u8]>
    ensures value { option_map (λ rest. rest.now) result ≡ after_slash text.now }
    ensures bound { IfSome result (λ rest. length rest.now ≤ length text.now) }
{
    match text.split_first() {
        Some((b'/', rest)) => Some(rest),
        _ => None,
    }
}

/// The number of slashes in a text.
pub fn slashes(text: &[u8]) -> usize
    ensures count { result ≡ count_by is_slash text.now }
    ensures bound { result ≤ length text.now }
{
    text.iter().filter(|b| **b == b'/').count()
}
