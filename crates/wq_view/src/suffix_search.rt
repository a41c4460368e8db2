//! The search for the records with a suffix, chunk by chunk. It takes no memory but that for what it finds.
ghost use Rattle.std.specs.Prelude.{◌≡◌, ◌≤◌, ◌<◌, ◌+◌, ◌++◌, ℕ, List, Some, length, slice_get, IfErr, IfOk};
ghost use Rattle.wq_view.specs.Chunk.{records_in};
ghost use Rattle.wq_view.specs.Limit.{max_records};
ghost use Rattle.wq_view.specs.Looks.{count_after};
ghost use Rattle.wq_view.specs.Position.{places_from, positions_of};
ghost use Rattle.wq_view.specs.Sought.{sought_texts};
ghost use Rattle.wq_view.specs.Suffix.{AreFlagged, IsFlagged, has_suffix_of};

use crate::chunk::Slot;
use crate::sought::Sought;
use crate::suffix::OTHER;
use std::alloc::AllocError;
use wq_record::Record;

/// The records of a chunk, and which suffixes among theirs are sought.
#[derive(Drop)]
pub(crate) struct Flagged<'a> {
    pub(crate) records: &'a [Record],
    /// The numbers of their suffixes.
    pub(crate) numbers: &'a [u8],
    /// Which of the numbers are sought.
    pub(crate) flags: [bool; 256],
}

/// The position of a record whose suffix is sought: the one with so many such records before it.
pub(crate) fn nth_found(slots: &[Slot], sought: Sought<'_>, k: usize) -> Option<usize>
    requires { length (records_in slots.now) ≤ max_records }
    ensures { result
        ≡ slice_get (positions_of (has_suffix_of (sought_texts sought.entry)) (records_in slots.now)) k }
{
    let mut at = 0;
    let mut left = k;
    for slot in slots {
        let chunk = slot.chunk.flagged(sought);
        match nth_of_chunk(sought, &chunk, left) {
            Ok(i) => return Some(at + i),
            Err(after) => left = after,
        }
        at += chunk.records.len();
    }
    None
}

/// The place in a chunk of a record whose suffix is sought: the one with so many such records before it. If there are
/// fewer, the call gives how many of those after the chunk come before it.
fn nth_of_chunk(sought: Sought<'_>, chunk: &Flagged<'_>, k: usize) -> Result<usize, usize>
    requires { AreFlagged (sought_texts sought) chunk.now.flags chunk.now.numbers.now
        chunk.now.records.now }
    ensures inside { IfOk result (λ i. i < length chunk.now.records.now) }
    ensures here { IfOk result (λ i. (at : ℕ) (more : List ℕ)
        → slice_get (places_from (has_suffix_of (sought_texts sought.entry)) at chunk.now.records.now
        ++ more) k ≡ Some (at + i)) }
    ensures later { IfErr result (λ after. (at : ℕ) (more : List ℕ)
        → slice_get (places_from (has_suffix_of (sought_texts sought.entry)) at chunk.now.records.now
        ++ more) k ≡ slice_get more after) }
{
    let mut left = k;
    for (i, number) in chunk.numbers.iter().enumerate() {
        if is_sought(sought, &chunk.flags, *number, &chunk.records[i]) {
            if left == 0 {
                return Ok(i);
            }
            left -= 1;
        }
    }
    Err(left)
}

/// Adds the positions of the records whose suffix is sought, ascending. Each is a look, which is counted as it is found,
/// and that there is no other is one more.
pub(crate) fn push_found(
    slots: &[Slot],
    sought: Sought<'_>,
    looks: &mut u64,
    found: &mut Vec<u32>,
) -> Result<(), AllocError>
    requires { length (records_in slots.now) ≤ max_records }
    ensures found { IfOk result (λ _. found.new.items ≡ found.old.items
        ++ positions_of (has_suffix_of (sought_texts sought.entry)) (records_in slots.now)) }
    ensures counted { IfOk result (λ _. looks.new ≡ count_after
        (length (positions_of (has_suffix_of (sought_texts sought.entry)) (records_in slots.now)) + 1)
        looks.old) }
    ensures few { looks.new ≤ looks.old
        + (length (positions_of (has_suffix_of (sought_texts sought.entry)) (records_in slots.now)) + 1) }
{
    let mut at = 0;
    for slot in slots {
        let chunk = slot.chunk.flagged(sought);
        push_of_chunk(sought, &chunk, at, looks, found)?;
        at += chunk.records.len();
    }
    *looks = looks.saturating_add(1);
    Ok(())
}

/// Adds the positions of the records of a chunk whose suffix is sought. The first record has this position.
fn push_of_chunk(
    sought: Sought<'_>,
    chunk: &Flagged<'_>,
    at: usize,
    looks: &mut u64,
    found: &mut Vec<u32>,
) -> Result<(), AllocError>
    requires flagged { AreFlagged (sought_texts sought) chunk.now.flags chunk.now.numbers.now
        chunk.now.records.now }
    requires few { at + length chunk.now.records.now ≤ max_records }
    ensures found { IfOk result (λ _. found.new.items ≡ found.old.items
        ++ places_from (has_suffix_of (sought_texts sought.entry)) at chunk.now.records.now) }
    ensures counted { IfOk result (λ _. looks.new ≡ count_after
        (length (places_from (has_suffix_of (sought_texts sought.entry)) at chunk.now.records.now))
        looks.old) }
    ensures few { looks.new ≤ looks.old
        + length (places_from (has_suffix_of (sought_texts sought.entry)) at chunk.now.records.now) }
{
    for (i, number) in chunk.numbers.iter().enumerate() {
        if is_sought(sought, &chunk.flags, *number, &chunk.records[i]) {
            *looks = looks.saturating_add(1);
            found.push((at + i) as u32)?;
        }
    }
    Ok(())
}

/// Whether the suffix of a record is sought. If its number is that of all other suffixes, the suffix itself is looked at.
fn is_sought(sought: Sought<'_>, flags: &[bool; 256], number: u8, file: &Record) -> bool
    requires { IsFlagged (sought_texts sought) flags.now number file.now }
    ensures { result ≡ has_suffix_of (sought_texts sought.entry) file.now }
{
    flags[number as usize] && (number as usize != OTHER || sought.has(file.suffix()))
}
