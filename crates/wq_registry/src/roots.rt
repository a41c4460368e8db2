//! The roots of a shelf, found by number or text.
ghost use Rattle.std.specs.Prelude.{◌≡◌, ◌∷◌, ◌++◌, ◌≤◌, [], nat_eq, option_copied, position};
ghost use Rattle.std.specs.Prelude.{vec_len, vec_capacity, OnErr, OnOk};
ghost use Rattle.std.specs.List.{list_any};
ghost use Rattle.wq_registry.specs.Root.{called, is_newer, numbered, without_number, without_text};

use crate::root::Root;
use std::alloc::AllocError;

/// The root of a number.
pub(crate) fn numbered<T>(roots: &[Root<T>], number: u64) -> Option<&Root<T>>
    ensures { option_copied result ≡ numbered number roots.now }
{
    roots.iter().find(|root| number == root.number())
}

/// The root of a text.
pub(crate) fn called<'a, T>(roots: &'a [Root<T>], text: &str) -> Option<&'a Root<T>>
    ensures { option_copied result ≡ called text.now roots.now }
{
    roots.iter().find(|root| text == root.text())
}

/// The place of the root of a number.
pub(crate) fn place_of<T>(roots: &[Root<T>], number: u64) -> Option<usize>
    ensures { result ≡ position (λ r. nat_eq number r.number) roots.now }
{
    roots.iter().position(|root| number == root.number())
}

/// Whether a root says that one of this text and number is not new.
pub(crate) fn has_newer<T>(roots: &[Root<T>], text: &str, number: u64) -> bool
    ensures { result ≡ list_any (is_newer text.now number) roots.now }
{
    roots.iter().any(|root| root.is_newer(text, number))
}

/// Puts a root last, in the place of those of its text.
pub(crate) fn put_last<T: Drop>(roots: &mut Vec<Root<T>>, root: Root<T>) -> Result<(), AllocError>
    ensures put { OnOk result
        (roots.new.items ≡ without_text root.text roots.old.items ++ root ∷ []) }
    ensures kept { OnErr result (roots.new.items ≡ roots.old.items) }
{
    roots.reserve(1)?;
    drop_called(roots, root.text());
    match roots.push(root) {
        Ok(()) => Ok(()),
        Err(_) => unreachable!(),
    }
}

/// Takes out the roots of a text.
fn drop_called<T: Drop>(roots: &mut Vec<Root<T>>, text: &str)
    ensures others { roots.new.items ≡ without_text text.now roots.old.items }
    ensures shorter { vec_len roots.new ≤ vec_len roots.old }
    ensures room { vec_capacity roots.new ≡ vec_capacity roots.old }
{
    roots.retain(|root| text != root.text());
}

/// Takes out the roots of a number.
pub(crate) fn drop_numbered<T: Drop>(roots: &mut Vec<Root<T>>, number: u64)
    ensures { roots.new.items ≡ without_number number roots.old.items }
{
    roots.retain(|root| number != root.number());
}
