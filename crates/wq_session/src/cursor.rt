//! A cursor by its root and its name.

use wq_base::Text;

/// A named cursor of a root.
#[derive(Drop)]
pub struct Cursor {
    /// The number of the root.
    pub root: u64,
    /// The name, without `n:`.
    pub name: Text,
}
