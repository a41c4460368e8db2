//! The state in which a root is found that a session wants to be shown.
ghost use Rattle.std.specs.Prelude.{◌≡◌, List, None};
ghost use Rattle.wq_live.specs.Table.{IsFullTable, IsTableOf, root_by_text};
ghost use Rattle.wq_live.specs.declared.event.RootEvent.{RootEvent};
ghost use Rattle.wq_crawl.specs.Publish.{IsPlace};

use wq_live::RootTable;

/// The state in which a root is found that a session wants to be shown.
#[derive(Clone, Copy, Debug, PartialEq, Eq, Drop)]
pub enum Place {
    /// It is shown under this number.
    Shown(u64),
    /// It is not shown, and no more root can be started.
    Full,
    /// It is not shown, and can be started.
    Free,
}

/// The state in which a table has the root of this text.
pub fn place_for(table: &RootTable, root: &str) -> Place
    ensures place { (events : List RootEvent) → IsTableOf events table.now
        → IsPlace root.now events result }
    ensures new { result ≡ Place.Free → root_by_text root.now table.now ≡ None }
    ensures room { result ≡ Place.Free → IsFullTable table.now → ⊥ }
{
    match table.number_of(root) {
        Some(number) => Place::Shown(number),
        None if table.is_full() => Place::Full,
        None => Place::Free,
    }
}
