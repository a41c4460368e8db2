//! The order of a name and the names strictly below a directory. Those names are neighbours in byte order.
ghost use Rattle.std.specs.Prelude.{◌≡◌};
ghost use Rattle.wq_view.specs.Below.{order_below};

use std::cmp::Ordering;

/// How a name compares to the names that begin with the directory and a slash: before them, one of them, or after them.
pub(crate) fn order_below(dir: &[u8], name: &[u8]) -> Ordering
    ensures { result ≡ order_below dir.now name.now }
{
    let mut left = name;
    for step in dir {
        match left.split_first() {
            None => return Ordering::Less,
            Some((byte, rest)) if byte == step => left = rest,
            Some((byte, _)) => return byte.cmp(step),
        }
    }
    match left.first() {
        None => Ordering::Less,
        Some(byte) => byte.cmp(&b'/'),
    }
}
