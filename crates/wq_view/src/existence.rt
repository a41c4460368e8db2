//! How many files exist, of those that a run of records says something about.
ghost use Rattle.std.specs.Prelude.{◌≡◌, ◌≤◌, length, IsTrue};
ghost use Rattle.std.specs.List.{list_all};
ghost use Rattle.wq_record.specs.Seen.{is_lawful_row};
ghost use Rattle.wq_view.specs.SeenRows.{seen_row, seen_rows};

use wq_record::Record;

/// The number of records whose files exist.
pub(crate) fn existing_in(records: &[Record]) -> usize
    ensures count { result ≡ length (seen_rows records.now) }
    ensures lawful { IsTrue (list_all is_lawful_row (seen_rows records.now)) }
{
    let mut count = records.len();
    let mut more = records;
    while let Some((known, later)) = more.split_first() {
        if !is_there(known) {
            count -= 1;
        }
        more = later;
    }
    count
}

/// Whether a record's file exists.
fn is_there(known: &Record) -> bool
    ensures exists { result ≡ known.now.exists }
    ensures lawful { IsTrue (is_lawful_row (seen_row known.now)) }
{
    known.exists
}
