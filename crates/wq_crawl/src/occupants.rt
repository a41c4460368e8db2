//! Which root each lane is for.

use std::alloc::{AllocError, Global};

/// A lane that is for a root, or for none yet.
#[derive(Drop)]
struct Occupied {
    /// The text of the root. It is empty before the first, or if memory ran out for it.
    root: String,
    /// How many threads are at the lane now.
    threads: u64,
    /// The turn at which the last thread came.
    turn: u64,
}

/// The roots that lanes are for, each in the place of its lane.
#[derive(Drop)]
pub(crate) struct Occupants {
    alloc: Global,
    lanes: Vec<Occupied>,
    /// How many threads came so far.
    turn: u64,
}

impl Occupants {
    /// So many lanes without a root.
    pub(crate) fn none(alloc: Global, count: usize) -> Result<Occupants, AllocError> {
        let mut lanes = Vec::with_capacity(alloc, count)?;
        for _ in 0..count {
            lanes.push(Occupied {
                root: String::new(alloc),
                threads: 0,
                turn: 0,
            })?;
        }
        Ok(Occupants {
            alloc,
            lanes,
            turn: 0,
        })
    }

    /// A thread comes for a root, to the lane of the place that is returned. It is the lane that has the root. If none
    /// has, the root gets the lane that has no thread and to which none came for longest. If all have threads, it is the
    /// first lane.
    pub(crate) fn come(&mut self, root: &str) -> usize {
        self.turn = self.turn.wrapping_add(1);
        let place = match self.place_of(root) {
            Some(place) => place,
            None => self.place_for(root),
        };
        let turn = self.turn;
        if let Some(lane) = self.lanes.get_mut(place) {
            lane.threads = lane.threads.saturating_add(1);
            lane.turn = turn;
        }
        place
    }

    /// A thread goes from the lane of this place.
    pub(crate) fn go(&mut self, place: usize) {
        if let Some(lane) = self.lanes.get_mut(place) {
            lane.threads = lane.threads.saturating_sub(1);
        }
    }

    /// The place of the lane that has a root.
    fn place_of(&self, root: &str) -> Option<usize> {
        self.lanes.iter().position(|it| it.root.as_str() == root)
    }

    /// Gives a root the lane that has no thread and to which none came for longest, and returns its place. It is the
    /// first lane if all have threads, which then keeps its root.
    fn place_for(&mut self, root: &str) -> usize {
        let Some(place) = self.longest_free() else {
            return 0;
        };
        let text = String::from_str(self.alloc, root).unwrap_or(String::new(self.alloc));
        if let Some(lane) = self.lanes.get_mut(place) {
            lane.root = text;
        }
        place
    }

    /// The place of the lane that has no thread and to which none came for longest.
    fn longest_free(&self) -> Option<usize> {
        let mut found: Option<(usize, u64)> = None;
        for (place, lane) in self.lanes.iter().enumerate() {
            let is_earlier = match found {
                Some((_, turn)) => lane.turn < turn,
                None => true,
            };
            if lane.threads == 0 && is_earlier {
                found = Some((place, lane.turn));
            }
        }
        let (place, _) = found?;
        Some(place)
    }
}
