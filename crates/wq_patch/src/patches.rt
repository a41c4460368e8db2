//! The patches of a listing, all together.
ghost use Rattle.std.specs.Prelude.{◌≡◌, [], List, IfOk, IsTrue};
ghost use Rattle.wq_patch.specs.PatchMaker.{records_behind, rows_before};
ghost use Rattle.wq_record.specs.RecordData.{RecordData};
ghost use Rattle.wq_view.specs.Patch.{patched};
ghost use Rattle.wq_view.specs.Records.{records_left};

use crate::rows::{joined, push_seen, with_seen};
use std::alloc::{AllocError, Global};
use wq_record::Seen;
use wq_view::{Patch, Records};

/// Patches that say just what these say, without those that change nothing.
pub fn simplified(alloc: Global, patches: Vec<Patch>) -> Result<Vec<Patch>, AllocError>
    ensures { IfOk result (λ fewer. (records : List RecordData)
        → patched records fewer.items ≡ patched records patches.items) }
{
    let mut fewer = Vec::new(alloc);
    let mut kept = 0usize;
    for patch in patches {
        // No view has so many records.
        let sum = kept.checked_add(patch.kept).ok_or(AllocError)?;
        if changes_nothing(&patch) {
            kept = sum;
        } else {
            fewer.push(Patch {
                kept: sum,
                replaced: patch.replaced,
                rows: patch.rows,
            })?;
            kept = 0;
        }
    }
    Ok(fewer)
}

/// Whether a patch keeps all records up to its end, and has no rows.
fn changes_nothing(patch: &Patch) -> bool
    ensures replaced { IsTrue result → patch.now.replaced ≡ 0 }
    ensures rows { IsTrue result → patch.now.rows.items ≡ [] }
{
    patch.replaced == 0 && patch.rows.is_empty()
}

/// The rows of a listing that differs by these patches from the records. They share the names of the records.
pub fn patched_rows(
    alloc: Global,
    records: Records<'_>,
    patches: Vec<Patch>,
) -> Result<Vec<Seen>, AllocError>
    ensures { IfOk result (λ rows.
        rows.items ≡ patched (records_left records.entry) patches.items) }
{
    let (mut rows, left) = rows_with(alloc, records, patches)?;
    push_seen(&mut rows, left)?;
    Ok(rows)
}

/// The rows up to the end of the last of these patches of records, and the records after it.
pub(crate) fn rows_with(
    alloc: Global,
    records: Records<'_>,
    patches: Vec<Patch>,
) -> Result<(Vec<Seen>, Records<'_>), AllocError>
    ensures rows { IfOk result (λ it.
        it.0.items ≡ rows_before (records_left records.entry) patches.items) }
    ensures left { IfOk result (λ it.
        records_left it.1 ≡ records_behind (records_left records.entry) patches.items) }
{
    let mut rows = Vec::new(alloc);
    let mut left = records;
    for patch in patches {
        let (kept, rest) = with_seen(alloc, rows, left, patch.kept)?;
        rows = joined(kept, patch.rows)?;
        left = rest.after(patch.replaced);
    }
    Ok((rows, left))
}
