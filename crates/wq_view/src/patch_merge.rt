//! The changes that a pass makes in a view if its rows differ by patches from the view's records. Chunks that no patch
//! touches are shared, and nothing looks at their records.
ghost use Rattle.std.specs.Prelude.{◌≡◌, ◌≤◌, ◌++◌, [], drop, length, take, IfNone, IfOk, IfSome, IsTrue, OnOk, map};
ghost use Rattle.std.specs.FinMap.{is_sorted};
ghost use Rattle.std.specs.declared.cmp.Ordering.TheVariants.{Less};
ghost use Rattle.std.specs.List.{list_all};
ghost use Rattle.wq_record.specs.Name.{name_cmp};
ghost use Rattle.wq_record.specs.Seen.{entry_of, is_count, is_lawful_row};
ghost use Rattle.wq_view.specs.Chunk.{records_in};
ghost use Rattle.wq_view.specs.ChunkFiller.{filled};
ghost use Rattle.wq_view.specs.Merge.{pairs_of, records_after, shows};
ghost use Rattle.wq_view.specs.Moves.{moves_data, no_moves, with_pairs, with_same};
ghost use Rattle.wq_view.specs.SeenRows.{seen_rows};
ghost use Rattle.wq_view.specs.Patch.{patched};
ghost use Rattle.wq_view.specs.Patching.{AreBelow, FitFrom, FitsAt, has_lawful_rows, last_rows};
ghost use Rattle.wq_view.specs.Patching.{patched_after, patched_moves, patched_shows, record_name, row_name};
ghost use Rattle.wq_view.specs.Records.{records_left};
ghost use Rattle.wq_view.specs.Run.{rows_behind, run_after, run_pairs};
ghost use Rattle.wq_view.specs.Stretch.{stretch_records};
ghost use Rattle.wq_view.specs.View.{NamesRise};

use crate::chunk::Slot;
use crate::chunk_filler::ChunkFiller;
use crate::chunks::Chunks;
use crate::listing::names_rise;
use crate::moves::Moves;
use crate::pair::Moment;
use crate::pass_merge::{look, push_after, push_rows, push_run_after, share_all};
use crate::patch::Patch;
use crate::records::Records;
use crate::stretch::Stretch;
use std::alloc::{AllocError, Global};
use wq_record::{MAX_TICK, Record, Seen};

/// The number of records for which the next chunk is made, beyond those of the chunk that it comes from: the rows of
/// these patches, as far as they begin in that chunk, that replace no record.
fn growth(patches: &[Patch]) -> usize {
    let mut passed = 0usize;
    let mut rows = 0usize;
    for patch in patches {
        if passed > MOST_PASSED {
            break;
        }
        rows = rows.saturating_add(patch.rows.len().saturating_sub(patch.replaced));
        passed = passed
            .saturating_add(patch.kept)
            .saturating_add(patch.replaced)
            .saturating_add(1);
    }
    rows
}

/// The number of records after which patches are in another chunk.
const MOST_PASSED: usize = 768;

/// The chunks after a pass that differs by these patches from their records, and the moves of the records. The call is
/// refused if memory runs out, and also if there would be too many records.
pub(crate) fn chunks_patched(
    alloc: Global,
    slots: &[Slot],
    patches: &[Patch],
    at: &Moment,
) -> Result<(Chunks, Moves), AllocError>
    requires lawful { IsTrue (list_all has_lawful_rows patches.now) }
    requires tick { at.now.tick ≤ MAX_TICK }
    requires second { IsTrue (is_count at.now.second) }
    ensures records { IfOk result (λ after. after.0
        ≡ patched_after at.now.tick at.now.second (records_in slots.now) patches.now) }
    ensures moves { IfOk result (λ after. moves_data after.1
        ≡ patched_moves no_moves (records_in slots.now) patches.now) }
{
    let mut filling = ChunkFiller::new(alloc, slots.len())?;
    let mut moves = Moves::new(alloc);
    let mut left = Records::of(slots);
    let mut more = patches;
    while let Some((patch, later)) = more.split_first() {
        left = keep(&mut filling, &mut moves, left, patch.kept, more)?;
        left = replace(&mut filling, &mut moves, left, patch, later, at)?;
        more = later;
    }
    keep_all(&mut filling, &mut moves, left)?;
    Ok((filling.finish()?, moves))
}

/// Adds all these records as they are.
fn keep_all(
    filling: &mut ChunkFiller,
    moves: &mut Moves,
    records: Records<'_>,
) -> Result<(), AllocError>
    ensures records { OnOk result (filled filling.new
        ≡ filled filling.old ++ records_left records.entry) }
    ensures moves { OnOk result (moves_data moves.new
        ≡ with_same (length (records_left records.entry)) (moves_data moves.old)) }
{
    filling.push_copies(records.records)?;
    moves.keep(records.records.len())?;
    share_all(filling, moves, records.slots)
}

/// Adds the first `count` records as they are, and gives the records after them. These patches are to come.
fn keep<'a>(
    filling: &mut ChunkFiller,
    moves: &mut Moves,
    records: Records<'a>,
    count: usize,
    patches: &[Patch],
) -> Result<Records<'a>, AllocError>
    ensures records { IfOk result (λ _. filled filling.new
        ≡ filled filling.old ++ take count (records_left records.entry)) }
    ensures left { IfOk result (λ left.
        records_left left ≡ drop count (records_left records.entry)) }
    ensures moves { IfOk result (λ _. moves_data moves.new
        ≡ with_same (length (take count (records_left records.entry))) (moves_data moves.old)) }
{
    let mut left = records;
    let mut more = count;
    while let Some(stretch) = Stretch::take(&mut left, more) {
        keep_stretch(filling, moves, stretch, patches)?;
        more -= stretch.len();
    }
    Ok(left)
}

/// Adds records as they are. A whole chunk is shared.
fn keep_stretch(
    filling: &mut ChunkFiller,
    moves: &mut Moves,
    stretch: Stretch<'_>,
    patches: &[Patch],
) -> Result<(), AllocError>
    ensures records { OnOk result (filled filling.new
        ≡ filled filling.old ++ stretch_records stretch.entry) }
    ensures moves { OnOk result (moves_data moves.new
        ≡ with_same (length (stretch_records stretch.entry)) (moves_data moves.old)) }
{
    moves.keep(stretch.len())?;
    match stretch {
        Stretch::Chunk(slot) => filling.share(&slot.chunk),
        Stretch::Start(slot, records) => {
            begin(filling, slot, patches)?;
            filling.push_copies(records)
        }
        Stretch::Rest(records) => filling.push_copies(records),
    }
}

/// Begins a chunk for the records of this one, and for those that these patches bring.
fn begin(filling: &mut ChunkFiller, slot: &Slot, patches: &[Patch]) -> Result<(), AllocError>
    ensures { OnOk result (filled filling.new ≡ filled filling.old) }
{
    let count = slot.chunk.records().len();
    filling.begin(count.saturating_add(growth(patches)))
}

/// Adds the records that a patch replaces, as they are after a pass with its rows, and those that are new. Gives the
/// records after them. The other patches are to come.
fn replace<'a>(
    filling: &mut ChunkFiller,
    moves: &mut Moves,
    records: Records<'a>,
    patch: &Patch,
    patches: &[Patch],
    at: &Moment,
) -> Result<Records<'a>, AllocError>
    requires lawful { IsTrue (list_all is_lawful_row patch.now.rows.items) }
    requires tick { at.now.tick ≤ MAX_TICK }
    requires second { IsTrue (is_count at.now.second) }
    ensures records { IfOk result (λ _. filled filling.new ≡ filled filling.old
        ++ records_after at.now.tick at.now.second
        (take patch.now.replaced (records_left records.entry)) patch.now.rows.items) }
    ensures left { IfOk result (λ left.
        records_left left ≡ drop patch.now.replaced (records_left records.entry)) }
    ensures moves { IfOk result (λ _. moves_data moves.new
        ≡ with_pairs
        (pairs_of (take patch.now.replaced (records_left records.entry)) patch.now.rows.items)
        (moves_data moves.old)) }
{
    let mut left = records;
    let mut more = patch.replaced;
    let mut rows = patch.rows.as_slice();
    while let Some(stretch) = Stretch::take(&mut left, more) {
        rows = replace_stretch(filling, moves, stretch, rows, patches, at)?;
        more -= stretch.len();
    }
    if rows.is_empty() {
        return Ok(left);
    }
    if left.is_empty() {
        filling.reopen(rows.len())?;
    }
    push_rows(filling, moves, rows, at)?;
    Ok(left)
}

/// Adds records as they are after a pass, and gives the rows after the ones that belong to them.
fn replace_stretch<'a>(
    filling: &mut ChunkFiller,
    moves: &mut Moves,
    stretch: Stretch<'a>,
    rows: &'a [Seen],
    patches: &[Patch],
    at: &Moment,
) -> Result<&'a [Seen], AllocError>
    requires lawful { IsTrue (list_all is_lawful_row rows.now) }
    requires tick { at.now.tick ≤ MAX_TICK }
    requires second { IsTrue (is_count at.now.second) }
    ensures records { IfOk result (λ _. filled filling.new ≡ filled filling.old
        ++ run_after at.now.tick at.now.second (stretch_records stretch.entry) rows.now) }
    ensures left { IfOk result (λ left.
        left.now ≡ rows_behind (stretch_records stretch.entry) rows.now) }
    ensures moves { IfOk result (λ _. moves_data moves.new
        ≡ with_pairs (run_pairs (stretch_records stretch.entry) rows.now) (moves_data moves.old)) }
{
    match stretch {
        Stretch::Chunk(slot) => return push_after(filling, moves, slot, rows, at),
        Stretch::Start(slot, _) => begin(filling, slot, patches)?,
        Stretch::Rest(_) => {}
    }
    let left = look(stretch.records(), rows).left;
    push_run_after(filling, moves, stretch.records(), rows, at)?;
    Ok(left)
}

/// Whether rows say just the same as the first `count` of these records.
fn are_shown(records: Records<'_>, count: usize, rows: &[Seen]) -> bool
    ensures { result ≡ shows (take count (records_left records.entry)) rows.now }
{
    let mut left = records;
    let mut more = count;
    let mut others = rows;
    while let Some(stretch) = Stretch::take(&mut left, more) {
        let seen = look(stretch.records(), others);
        if !seen.is_same {
            return false;
        }
        others = seen.left;
        more -= stretch.len();
    }
    others.is_empty()
}

/// Whether the rows of all patches say just the same as the records that they replace.
pub(crate) fn all_shown(slots: &[Slot], patches: &[Patch]) -> bool
    ensures { result ≡ patched_shows (records_in slots.now) patches.now }
{
    let mut left = Records::of(slots);
    let mut more = patches;
    while let Some((patch, later)) = more.split_first() {
        let start = left.after(patch.kept);
        if !are_shown(start, patch.replaced, &patch.rows) {
            return false;
        }
        left = start.after(patch.replaced);
        more = later;
    }
    true
}

/// Whether patches fit the records, whose names rise.
pub(crate) fn are_fit(chunks: &Chunks, patches: &[Patch]) -> bool
    requires { NamesRise chunks.now }
    ensures { IsTrue result → FitFrom chunks.now 0 [] patches.now }
{
    let mut at = 0usize;
    let mut earlier: &[Seen] = &[];
    let mut more = patches;
    while let Some((patch, later)) = more.split_first() {
        let Some(start) = at.checked_add(patch.kept) else {
            return false;
        };
        let Some(end) = start.checked_add(patch.replaced) else {
            return false;
        };
        if !is_fit(chunks, start, end, earlier, &patch.rows) {
            return false;
        }
        at = end;
        earlier = last_of(earlier, &patch.rows);
        more = later;
    }
    true
}

/// The rows, or the earlier ones if there are none.
fn last_of<'a>(earlier: &'a [Seen], rows: &'a [Seen]) -> &'a [Seen]
    ensures { result.now ≡ last_rows earlier.now rows.now }
{
    if rows.is_empty() { earlier } else { rows }
}

/// Whether rows fit in the place of the records from `start` up to `end`, after these earlier rows.
fn is_fit(chunks: &Chunks, start: usize, end: usize, earlier: &[Seen], rows: &[Seen]) -> bool
    requires known { NamesRise chunks.now }
    requires earlier { IsTrue (is_sorted name_cmp (map entry_of earlier.now)) }
    ensures { IsTrue result → FitsAt chunks.now start end earlier.now rows.now }
{
    if start > chunks.len() || end > chunks.len() {
        return false;
    }
    names_rise(rows)
        && are_after(earlier, rows)
        && are_after_records(chunks, start, rows)
        && are_before_records(chunks, end, rows)
}

/// Whether rows come after these earlier ones.
fn are_after(earlier: &[Seen], rows: &[Seen]) -> bool
    requires earlier { IsTrue (is_sorted name_cmp (map entry_of earlier.now)) }
    requires rows { IsTrue (is_sorted name_cmp (map entry_of rows.now)) }
    ensures { IsTrue result → AreBelow row_name row_name earlier.now rows.now }
{
    match earlier.last() {
        Some(last) => match rows.first() {
            Some(first) => is_below(last.name.as_slice(), first.name.as_slice()),
            None => true,
        },
        None => true,
    }
}

/// Whether rows come after the first `start` records.
fn are_after_records(chunks: &Chunks, start: usize, rows: &[Seen]) -> bool
    requires known { NamesRise chunks.now }
    requires bound { start ≤ length chunks.now }
    requires rows { IsTrue (is_sorted name_cmp (map entry_of rows.now)) }
    ensures { IsTrue result → AreBelow record_name row_name (take start chunks.now) rows.now }
{
    if start == 0 {
        return true;
    }
    match rows.first() {
        Some(first) => {
            let last = chunks.get(start - 1);
            is_below(last.name.as_bytes(), first.name.as_slice())
        }
        None => true,
    }
}

/// Whether rows come before the records from `end` on.
fn are_before_records(chunks: &Chunks, end: usize, rows: &[Seen]) -> bool
    requires known { NamesRise chunks.now }
    requires bound { end ≤ length chunks.now }
    requires rows { IsTrue (is_sorted name_cmp (map entry_of rows.now)) }
    ensures { IsTrue result → AreBelow row_name record_name rows.now (drop end chunks.now) }
{
    if end == chunks.len() {
        return true;
    }
    match rows.last() {
        Some(last) => {
            let first = chunks.get(end);
            is_below(last.name.as_slice(), first.name.as_bytes())
        }
        None => true,
    }
}

/// Whether a name is below another one.
fn is_below(name: &[u8], other: &[u8]) -> bool
    ensures { IsTrue result → name_cmp name.now other.now ≡ Less }
{
    name.cmp(other).is_lt()
}
