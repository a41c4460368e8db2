//! The changes that a pass makes in a view. The view after the pass shares each chunk that the pass leaves as it is.
ghost use Rattle.std.specs.Prelude.{◌≡◌, ◌≤◌, ◌++◌, length, [], IfOk, IsTrue, OnOk};
ghost use Rattle.std.specs.List.{list_all};
ghost use Rattle.wq_view.specs.Chunk.{records_in, slot_records};
ghost use Rattle.wq_view.specs.ChunkFiller.{filled};
ghost use Rattle.wq_view.specs.Merge.{pair_after, pairs_of, records_after};
ghost use Rattle.wq_view.specs.Moves.{moves_data, with_pair, with_pairs, with_same};
ghost use Rattle.wq_view.specs.Pair.{has_lawful_row, pair_data};
ghost use Rattle.wq_view.specs.Run.{is_same_run, keeps_names, rows_behind, run_after, run_pairs};
ghost use Rattle.wq_record.specs.Seen.{is_lawful_row, is_count};

use crate::chunk::{Chunk, Slot};
use crate::chunk_filler::ChunkFiller;
use crate::moves::Moves;
use crate::pair::{Moment, Pair, Pairs};
use std::alloc::{AllocError, Global};
use wq_record::{MAX_TICK, Record, Seen};

/// What the rows of a run of records say of it, and the rows after them.
#[derive(Clone, Copy)]
pub(crate) struct Looked<'a> {
    /// Whether the pass leaves the run as it is.
    pub(crate) is_same: bool,
    /// Whether the pass brings no name into the run.
    keeps_names: bool,
    /// How many records the run has after the pass.
    count: usize,
    pub(crate) left: &'a [Seen],
}

/// Compares a run of records with its rows. Each pair is looked at once.
pub(crate) fn look<'a>(records: &'a [Record], rows: &'a [Seen]) -> Looked<'a>
    ensures same { result.is_same ≡ is_same_run records.now rows.now }
    ensures names { result.keeps_names ≡ keeps_names records.now rows.now }
    ensures left { result.left.now ≡ rows_behind records.now rows.now }
{
    let mut pairs = Pairs::of(records, rows);
    let mut is_same = true;
    let mut keeps_names = true;
    let mut count = 0usize;
    while let Some(pair) = pairs.take() {
        is_same = is_same && pair.is_unchanged();
        keeps_names = keeps_names && pair.has_record();
        count = count.saturating_add(1);
    }
    Looked {
        is_same,
        keeps_names,
        count,
        left: pairs.rows(),
    }
}

/// Adds chunks as they are.
pub(crate) fn share_all(
    filling: &mut ChunkFiller,
    moves: &mut Moves,
    slots: &[Slot],
) -> Result<(), AllocError>
    ensures records { OnOk result (filled filling.new
        ≡ filled filling.old ++ records_in slots.now) }
    ensures moves { OnOk result (moves_data moves.new
        ≡ with_same (length (records_in slots.now)) (moves_data moves.old)) }
{
    for slot in slots {
        moves.keep(slot.chunk.records().len())?;
        filling.share(&slot.chunk)?;
    }
    Ok(())
}

/// Adds a chunk as it is after a pass, and gives the rows after its own. A chunk that the pass leaves as it is, is
/// shared.
pub(crate) fn push_after<'a>(
    filling: &mut ChunkFiller,
    moves: &mut Moves,
    slot: &'a Slot,
    rows: &'a [Seen],
    at: &Moment,
) -> Result<&'a [Seen], AllocError>
    requires lawful { IsTrue (list_all is_lawful_row rows.now) }
    requires tick { at.now.tick ≤ MAX_TICK }
    requires second { IsTrue (is_count at.now.second) }
    ensures records { IfOk result (λ left. filled filling.new
        ≡ filled filling.old ++ run_after at.now.tick at.now.second (slot_records slot.now)
        rows.now) }
    ensures left { IfOk result (λ left. left.now ≡ rows_behind (slot_records slot.now) rows.now) }
    ensures moves { IfOk result (λ _. moves_data moves.new
        ≡ with_pairs (run_pairs (slot_records slot.now) rows.now) (moves_data moves.old)) }
{
    let records = slot.chunk.records();
    let seen = look(records, rows);
    if seen.is_same {
        moves.keep(records.len())?;
        filling.share(&slot.chunk)?;
        return Ok(seen.left);
    }
    if seen.keeps_names {
        let chunk = chunk_after(filling.allocator(), moves, &slot.chunk, rows, at)?;
        filling.put(chunk)?;
        return Ok(seen.left);
    }
    filling.begin(seen.count)?;
    push_run_after(filling, moves, records, rows, at)?;
    Ok(seen.left)
}

/// A chunk after a pass that brings no name into it. Its suffixes stay as they are.
fn chunk_after(
    alloc: Global,
    moves: &mut Moves,
    chunk: &Chunk,
    rows: &[Seen],
    at: &Moment,
) -> Result<Chunk, AllocError>
    requires lawful { IsTrue (list_all is_lawful_row rows.now) }
    requires tick { at.now.tick ≤ MAX_TICK }
    requires second { IsTrue (is_count at.now.second) }
    requires names { IsTrue (keeps_names chunk.now rows.now) }
    ensures records { IfOk result (λ after.
        after ≡ run_after at.now.tick at.now.second chunk.now rows.now) }
    ensures moves { IfOk result (λ _. moves_data moves.new
        ≡ with_pairs (run_pairs chunk.now rows.now) (moves_data moves.old)) }
{
    let known = chunk.records();
    let mut records = Vec::with_capacity(alloc, known.len())?;
    let mut pairs = Pairs::of(known, rows);
    while let Some(pair) = pairs.take() {
        records.push(note_after(moves, pair, at)?)?;
    }
    chunk.of_same_names(alloc, records)
}

/// Adds the records of a run as they are after a pass.
pub(crate) fn push_run_after(
    filling: &mut ChunkFiller,
    moves: &mut Moves,
    records: &[Record],
    rows: &[Seen],
    at: &Moment,
) -> Result<(), AllocError>
    requires lawful { IsTrue (list_all is_lawful_row rows.now) }
    requires tick { at.now.tick ≤ MAX_TICK }
    requires second { IsTrue (is_count at.now.second) }
    ensures records { OnOk result (filled filling.new
        ≡ filled filling.old ++ run_after at.now.tick at.now.second records.now rows.now) }
    ensures moves { OnOk result (moves_data moves.new
        ≡ with_pairs (run_pairs records.now rows.now) (moves_data moves.old)) }
{
    let mut pairs = Pairs::of(records, rows);
    while let Some(pair) = pairs.take() {
        filling.push(note_after(moves, pair, at)?)?;
    }
    Ok(())
}

/// Notes a pair, and gives its record after a pass.
fn note_after(moves: &mut Moves, pair: Pair<'_>, at: &Moment) -> Result<Record, AllocError>
    requires lawful { IsTrue (has_lawful_row (pair_data pair)) }
    requires tick { at.now.tick ≤ MAX_TICK }
    requires second { IsTrue (is_count at.now.second) }
    ensures made { IfOk result (λ r.
        r ≡ pair_after at.now.tick at.now.second (pair_data pair.entry)) }
    ensures moves { IfOk result (λ _. moves_data moves.new
        ≡ with_pair (pair_data pair.entry) (moves_data moves.old)) }
{
    let stays = pair.is_unchanged();
    moves.note(pair, stays)?;
    pair.after_if(stays, at)
}

/// Adds the records of these rows. Their names are new.
pub(crate) fn push_rows(
    filling: &mut ChunkFiller,
    moves: &mut Moves,
    rows: &[Seen],
    at: &Moment,
) -> Result<(), AllocError>
    requires lawful { IsTrue (list_all is_lawful_row rows.now) }
    requires tick { at.now.tick ≤ MAX_TICK }
    requires second { IsTrue (is_count at.now.second) }
    ensures records { OnOk result (filled filling.new
        ≡ filled filling.old ++ records_after at.now.tick at.now.second [] rows.now) }
    ensures moves { OnOk result (moves_data moves.new
        ≡ with_pairs (pairs_of [] rows.now) (moves_data moves.old)) }
{
    for row in rows {
        filling.push(note_after(moves, Pair::New(row), at)?)?;
    }
    Ok(())
}
