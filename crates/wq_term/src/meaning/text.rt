//! How the texts of a term compare to the name of a file.
ghost use Rattle.std.specs.Prelude.{◌≡◌, ◌≤◌, length};
ghost use Rattle.wq_term.specs.Expr.{texts_in};
ghost use Rattle.wq_term.specs.Text.{scope_part, is_named, has_suffix};
ghost use Rattle.wq_term.specs.Text.{has_depth, lies_below};

use crate::expr::{Depth, Scope};
use wq_base::{Case, is_suffix, rest_below, slashes};
use wq_record::{MAX_NAME, Record};

/// Whether a part of the file's name is one of the texts.
pub(super) fn is_named(case: Case, scope: Scope, texts: &[Vec<u8>], file: &Record) -> bool
    ensures { result ≡ is_named case scope (texts_in texts.now) file.now.name }
{
    let part = part_of(scope, file);
    for text in texts {
        if case.is_same(text, part) {
            return true;
        }
    }
    false
}

/// Whether the file's suffix is one of the texts, with A to Z as a to z.
pub(super) fn has_suffix(texts: &[Vec<u8>], file: &Record) -> bool
    ensures { result ≡ has_suffix (texts_in texts.now) file.now.name }
{
    let suffix = file.suffix();
    for text in texts {
        if is_suffix(text, suffix) {
            return true;
        }
    }
    false
}

/// Whether the file lies strictly below the directory, at this depth.
#[tactic(auto, using(crate::proofs::Texts::name_is_short))]
pub(super) fn is_below(case: Case, dir: &[u8], depth: Depth, file: &Record) -> bool
    ensures { result ≡ lies_below case dir.now depth file.now.name }
{
    match rest_below(case, dir, file.name.as_bytes()) {
        Some(rest) => has_depth(depth, rest),
        None => false,
    }
}

/// The part of the file's name that the scope asks for.
pub(super) fn part_of(scope: Scope, file: &Record) -> &[u8]
    ensures value { result.now ≡ scope_part scope file.now.name }
    ensures short { length result.now ≤ MAX_NAME }
{
    match scope {
        Scope::Basename => file.basename(),
        Scope::Wholename => file.name.as_bytes(),
    }
}

/// Whether the rest of a name after a directory has as many slashes as the depth asks for.
fn has_depth(depth: Depth, rest: &[u8]) -> bool
    requires { length rest.now ≤ MAX_NAME }
    ensures { result ≡ has_depth depth rest.now }
{
    match depth {
        Depth::Any => true,
        Depth::Is(relation, depth) => relation.holds(slashes(rest) as i64, depth),
    }
}
