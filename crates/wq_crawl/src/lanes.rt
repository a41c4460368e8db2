//! The lanes of a crawler that threads share.

use crate::callers::Callers;
use crate::lane::Lane;
use crate::lister::Lister;
use crate::occupants::Occupants;
use crate::seconds::Seconds;
use crate::turn::LaneTurn;
use std::alloc::{AllocError, Global};
use std::sync::atomic::{AtomicU64, Ordering};
use std::sync::{Arc, Mutex, Wait};
use std::time::Duration;
use wq_patch::Tree;

/// The parts of a lane.
#[derive(Drop)]
pub struct LaneParts<T: Tree + Drop, S: Seconds + Drop> {
    /// Lists the roots of the lane.
    pub tree: T,
    /// Tells the second of a pass.
    pub seconds: S,
    /// Counts the calls of clients that wait for a crawl in the lane. The tree may look at it.
    pub waiting: Arc<AtomicU64>,
    /// How many nanoseconds of processor time other threads than the one that asked took for the last listing in the
    /// lane. The tree says so here.
    pub helped: Arc<AtomicU64>,
}

/// A lane that threads share, and the calls of clients that wait for it. Only the thread that has the turn locks it.
#[derive(Drop)]
pub(crate) struct SharedLane<T: Tree + Drop, S: Seconds + Drop> {
    pub(crate) callers: Callers,
    helped: Arc<AtomicU64>,
    pub(crate) turn: LaneTurn,
    pub(crate) lane: Mutex<Lane<T, S>>,
}

/// Lanes that threads share. A root keeps its lane for as long as others are free.
#[derive(Drop)]
pub(crate) struct Lanes<T: Tree + Drop, S: Seconds + Drop> {
    first: SharedLane<T, S>,
    others: Vec<SharedLane<T, S>>,
    occupants: Mutex<Occupants>,
}

impl<T: Tree + Drop, S: Seconds + Drop> SharedLane<T, S> {
    /// A lane of these parts.
    fn new(parts: LaneParts<T, S>) -> SharedLane<T, S> {
        SharedLane {
            callers: Callers::new(parts.waiting),
            helped: parts.helped,
            turn: LaneTurn::new(),
            lane: Mutex::new(Lane::new(Lister::new(parts.tree, parts.seconds))),
        }
    }

    /// The processor time that other threads than the one that asked took for the last listing.
    pub(crate) fn helped(&self) -> Duration {
        Duration::from_nanos(self.helped.load(Ordering::SeqCst))
    }
}

impl<T: Tree + Drop, S: Seconds + Drop> Lanes<T, S> {
    /// The lanes of these parts: one, and some more.
    pub(crate) fn new(
        alloc: Global,
        first: LaneParts<T, S>,
        more: Vec<LaneParts<T, S>>,
    ) -> Result<Lanes<T, S>, AllocError> {
        let occupants = Occupants::none(alloc, more.len().saturating_add(1))?;
        let mut others = Vec::with_capacity(alloc, more.len())?;
        for parts in more {
            others
                .push(SharedLane::new(parts))
                .map_err(AllocError::from)?;
        }
        Ok(Lanes {
            first: SharedLane::new(first),
            others,
            occupants: Mutex::new(occupants),
        })
    }

    /// The lane of this place.
    pub(crate) fn at(&self, place: usize) -> &SharedLane<T, S> {
        match place.checked_sub(1) {
            Some(place) => self.others.get(place).unwrap_or(&self.first),
            None => &self.first,
        }
    }

    /// A thread comes for a root, and goes from the lane of this place later ([`Occupants::come`]).
    pub(crate) fn come<R: Wait>(&self, rt: &R, root: &str) -> usize {
        self.occupants.lock(rt).come(root)
    }

    /// A thread goes from the lane of this place.
    pub(crate) fn go<R: Wait>(&self, rt: &R, place: usize) {
        self.occupants.lock(rt).go(place);
    }

    /// Counts a client at each lane for good, so that each walk that gives way ends.
    pub(crate) fn end_walks(&self) {
        self.first.callers.enter();
        for lane in &self.others {
            lane.callers.enter();
        }
    }
}
