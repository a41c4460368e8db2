//! The order of last change: the positions of a view's records, those of the latest pass first. Most records were seen
//! to change by the first pass alone. They are in no list: they are the ones that are not among the others.
ghost use Rattle.std.specs.Prelude.{◌≡◌, ◌<◌, ◌≤◌, ◌++◌, [], slice_get, IfOk, OnOk};
ghost use Rattle.std.specs.Arc.{arc_slice_items};
ghost use Rattle.std.specs.List.{All};
ghost use Rattle.std.specs.Option.{option_map_or};
ghost use Rattle.wq_view.specs.Limit.{max_records};
ghost use Rattle.wq_view.specs.Moves.{IsAfter, is_among, moved_of, moves_data};
ghost use Rattle.wq_view.specs.Order.{Rises, nth_outside, positions_in};

use crate::moves::Moves;
use std::alloc::{AllocError, Global};
use std::marker::Model;
use std::sync::ArcSlice;

/// An order of positions. Views share its lists.
#[derive(Drop)]
pub(crate) struct Order {
    /// The positions of the records that a later pass than the first saw change, the latest pass first.
    later: Option<ArcSlice<u32>>,
    /// The same, rising.
    rising: Option<ArcSlice<u32>>,
    /// How many records there are.
    count: usize,
}

impl Model for Order {
    ghost use Rattle.std.specs.Prelude.{◌≤◌, []};
    ghost use Rattle.std.specs.Option.{option_map_or};
    ghost use Rattle.std.specs.Arc.{arc_slice_items};
    ghost use Rattle.wq_view.specs.Limit.{max_records};
    ghost use Rattle.wq_view.specs.Order.{OrderParts, order_code};

    ghost Value = { OrderParts };

    ghost coded = { order_code };

    ghost view = { λ o. record {
      later = option_map_or arc_slice_items o.later [];
      rising = option_map_or arc_slice_items o.rising [];
      count = o.count;
    } };

    ghost invariant = { λ o. o.count ≤ max_records };
}

impl Order {
    /// The order of so many records that only the first pass saw. The call takes no memory.
    pub(crate) fn first(count: usize) -> Order
        requires { count ≤ max_records }
        ensures { result ≡ record { later = []; rising = []; count = count } }
    {
        Order {
            later: None,
            rising: None,
            count,
        }
    }

    /// The same order.
    pub(crate) fn copy(&self) -> Result<Order, AllocError>
        ensures { IfOk result (λ order. order ≡ self.now) }
    {
        Ok(Order {
            later: shared(&self.later)?,
            rising: shared(&self.rising)?,
            count: self.count,
        })
    }

    /// The position at a place of the order.
    pub(crate) fn get(&self, k: usize) -> Option<usize>
        requires { Rises self.now.rising }
        ensures { result ≡ slice_get (positions_in self.now) k }
    {
        let later = items(&self.later);
        if k < later.len() {
            return Some(later[k] as usize);
        }
        let place = k - later.len();
        let rising = items(&self.rising);
        if place >= self.count.saturating_sub(rising.len()) {
            return None;
        }
        Some(nth_outside(rising, place))
    }

    /// The order after a pass with these moves. The first pass makes no list.
    pub(crate) fn after(
        &self,
        alloc: Global,
        moves: &Moves,
        is_first: bool,
    ) -> Result<Order, AllocError>
        requires came { Rises (moves_data moves.now).came }
        requires changed { Rises (moves_data moves.now).changed }
        requires within { All (λ p. nth_outside (moves_data moves.now).came p < max_records)
            self.now.later }
        ensures { IfOk result (IsAfter is_first (moves_data moves.now) self.now) }
    {
        if is_first {
            return Ok(Order::first(moves.next));
        }
        let old = items(&self.later);
        let mut later = Vec::with_capacity(alloc, moves.changed.len().saturating_add(old.len()))?;
        later.extend_from_slice(&moves.changed)?;
        push_moved(&mut later, moves, old)?;
        let mut rising = Vec::from_slice(alloc, &later)?;
        rising.sort_unstable();
        Ok(Order {
            later: Some(ArcSlice::from_vec(later)?),
            rising: Some(ArcSlice::from_vec(rising)?),
            count: moves.next,
        })
    }
}

/// The positions of a list, if there is one.
fn items(list: &Option<ArcSlice<u32>>) -> &[u32]
    ensures { result.now ≡ option_map_or arc_slice_items list.now [] }
{
    match list {
        Some(list) => list.as_slice(),
        None => &[],
    }
}

/// The same list.
fn shared(list: &Option<ArcSlice<u32>>) -> Result<Option<ArcSlice<u32>>, AllocError>
    ensures { IfOk result (λ copy. option_map_or arc_slice_items copy []
        ≡ option_map_or arc_slice_items list.now []) }
{
    match list {
        Some(list) => Ok(Some(list.clone()?)),
        None => Ok(None),
    }
}

/// Adds the positions after a pass of the records at these positions before it, but for those that changed.
fn push_moved(later: &mut Vec<u32>, moves: &Moves, old: &[u32]) -> Result<(), AllocError>
    requires came { Rises (moves_data moves.now).came }
    requires changed { Rises (moves_data moves.now).changed }
    requires within { All (λ p. nth_outside (moves_data moves.now).came p < max_records) old.now }
    ensures { OnOk result (later.new.items
        ≡ later.old.items ++ moved_of (moves_data moves.now) old.now) }
{
    for position in old {
        let place = nth_outside(&moves.came, *position as usize) as u32;
        if !is_among(&moves.changed, place) {
            later.push(place)?;
        }
    }
    Ok(())
}

/// Whether a position is in a rising list.
fn is_among(rising: &[u32], position: u32) -> bool
    requires { Rises rising.now }
    ensures { result ≡ is_among rising.now position }
{
    rising.binary_search(&position).is_ok()
}

/// The number at a place among those that are not in a rising list. This is a binary search.
fn nth_outside(rising: &[u32], place: usize) -> usize
    requires rises { Rises rising.now }
    requires few { place ≤ max_records }
    ensures { result ≡ nth_outside rising.now place }
{
    let mut low = 0usize;
    let mut high = rising.len();
    while low < high {
        let mid = low + (high - low) / 2;
        if rising[mid] as usize <= place + mid {
            low = mid + 1;
        } else {
            high = mid;
        }
    }
    place + low
}
