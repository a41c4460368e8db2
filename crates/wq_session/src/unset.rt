//! The receipt for unsetting a cursor.
ghost use Rattle.std.specs.Prelude.{◌≡◌};
ghost use Rattle.wq_registry.specs.Shelf.{cursor_unset};
ghost use Rattle.wq_session.specs.Shelved.{shelf_data};

use crate::cursor::Cursor;
use std::marker::Model;
use wq_follow::Trigger;
use wq_registry::Shelf;

/// The receipt for unsetting a cursor on a shelf. Only unsetting makes one, so a desk that never comes to a shelf has
/// none to give.
#[derive(Drop)]
pub struct Unset {
    cursor: Cursor,
}

impl Model for Unset {
    ghost use Rattle.wq_session.specs.declared.cursor.Cursor.{Cursor};

    ghost Value = { Cursor };

    ghost view = { λ u. u.cursor };
}

impl Unset {
    /// Unsets a cursor ([`Shelf::unset_cursor`]).
    pub fn on(shelf: &mut Shelf<Trigger>, cursor: Cursor) -> Unset
        ensures unset { shelf_data shelf.new
            ≡ cursor_unset cursor.root cursor.name (shelf_data shelf.old) }
        ensures named { result ≡ cursor }
    {
        shelf.unset_cursor(cursor.root, cursor.name.as_str());
        Unset { cursor }
    }
}
