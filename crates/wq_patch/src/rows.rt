//! Rows of the files of records.
ghost use Rattle.std.specs.Prelude.{◌≡◌, ◌++◌, drop, take, IfOk, IsTrue, OnOk};
ghost use Rattle.std.specs.List.{list_all};
ghost use Rattle.wq_record.specs.Seen.{is_lawful_row};
ghost use Rattle.wq_view.specs.Records.{records_left};
ghost use Rattle.wq_view.specs.SeenRows.{seen_row, seen_rows};

use std::alloc::{AllocError, Global};
use wq_record::{Record, Seen};
use wq_view::Records;

/// The rows of the files that exist among the first `count` of these records. They share the names of the records.
pub fn existing_rows(
    alloc: Global,
    records: Records<'_>,
    count: usize,
) -> Result<Vec<Seen>, AllocError>
    ensures rows { IfOk result (λ rows.
        rows.items ≡ seen_rows (take count (records_left records.entry))) }
    ensures lawful { IfOk result (λ rows. IsTrue (list_all is_lawful_row rows.items)) }
{
    let room = records.run(count).existing;
    rows_of(alloc, records, count, room)
}

/// The rows of the files that exist among the first `passed` of these records, with room for so many rows.
fn rows_of(
    alloc: Global,
    records: Records<'_>,
    passed: usize,
    room: usize,
) -> Result<Vec<Seen>, AllocError>
    ensures { IfOk result (λ rows. rows.items
        ≡ seen_rows (take passed (records_left records.entry))) }
{
    let mut rows = Vec::with_capacity(alloc, room)?;
    let mut left = records;
    for _ in 0..passed {
        let Some(record) = left.next() else {
            break;
        };
        if record.exists {
            rows.push(row_of(record)?)?;
        }
    }
    Ok(rows)
}

/// Rows, and those of the files that exist among the first `most` of these records; and the records after those.
pub(crate) fn with_seen(
    alloc: Global,
    rows: Vec<Seen>,
    records: Records<'_>,
    most: usize,
) -> Result<(Vec<Seen>, Records<'_>), AllocError>
    ensures rows { IfOk result (λ it. it.0.items
        ≡ rows.items ++ seen_rows (take most (records_left records.entry))) }
    ensures left { IfOk result (λ it.
        records_left it.1 ≡ drop most (records_left records.entry)) }
{
    let more = rows_of(alloc, records, most, 0)?;
    Ok((joined(rows, more)?, records.after(most)))
}

/// Rows, and other rows after them.
pub(crate) fn joined(mut first: Vec<Seen>, mut rest: Vec<Seen>) -> Result<Vec<Seen>, AllocError>
    ensures { IfOk result (λ rows. rows.items ≡ first.items ++ rest.items) }
{
    if first.is_empty() {
        return Ok(rest);
    }
    first.append(&mut rest)?;
    Ok(first)
}

/// Adds the rows of the files that exist by these records.
pub(crate) fn push_seen(rows: &mut Vec<Seen>, records: Records<'_>) -> Result<(), AllocError>
    ensures { OnOk result (rows.new.items
        ≡ rows.old.items ++ seen_rows (records_left records.entry)) }
{
    let mut left = records;
    while let Some(record) = left.next() {
        if record.exists {
            rows.push(row_of(record)?)?;
        }
    }
    Ok(())
}

/// The row of a file as its record says it. It shares the record's name.
pub(crate) fn row_of(known: &Record) -> Result<Seen, AllocError>
    ensures { IfOk result (λ row. row ≡ seen_row known.now) }
{
    Ok(Seen {
        name: known.name.shared()?,
        kind: known.kind,
        size: known.size,
        mtime_ms: known.mtime_ms,
    })
}
