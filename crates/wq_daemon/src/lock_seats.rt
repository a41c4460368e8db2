//! The seats that the threads of the server share: those of sessions, as long as no session has them, and one for looks at
//! the roots that are shown.

use crate::assembly::SEATS;
use crate::questions::AskedRoots;
use std::alloc::{AllocError, Global};
use std::sync::{Mutex, Wait};
use wq_live::{Named, Publisher, RootTable, Seat};
use wq_server::{RootNumbers, Stir};

/// How many sessions may have a seat: all but the seat for looks and that of rounds. They are more than clients may be
/// connected, since a session outlives a client that goes while it scans.
const SESSION_SEATS: usize = SEATS - 2;

/// Seats, each taken and given back under a lock.
pub(crate) struct LockSeats<N: Named, R: Wait + Copy + Drop> {
    rt: R,
    alloc: Global,
    free: Mutex<Vec<Seat<N>>>,
    /// The seat for looks at the roots that are shown. It is there whenever it is not locked.
    idle: Mutex<Option<Seat<N>>>,
}

impl<N: Named, R: Wait + Copy + Drop> LockSeats<N, R> {
    /// Seats of this publisher: one for each session that may be, and one for looks.
    pub(crate) fn new(
        rt: R,
        alloc: Global,
        publisher: &mut Publisher<N, R>,
    ) -> Result<LockSeats<N, R>, AllocError> {
        let idle = publisher.seat()?;
        let free = session_seats(alloc, publisher)?;
        Ok(LockSeats {
            rt,
            alloc,
            free: Mutex::new(free),
            idle: Mutex::new(Some(idle)),
        })
    }

    /// A free seat.
    pub(crate) fn take(&self) -> Option<Seat<N>> {
        self.free.lock(&self.rt).pop()
    }

    /// Gives a seat back.
    pub(crate) fn give(&self, seat: Seat<N>) {
        // There is room for all seats, so this takes no memory.
        let _ = self.free.lock(&self.rt).push(seat);
    }

    /// The text of the root of this number, if it is shown. There is none if memory runs out for
    /// it.
    pub(crate) fn text(&self, number: u64) -> Option<String> {
        let mut place = self.idle.lock(&self.rt);
        let (seat, text) = look_at_text(place.take()?, self.alloc, number);
        *place = Some(seat);
        text
    }

    /// The roots that are shown now; none if memory runs out for them.
    pub(crate) fn numbers(&self) -> Option<RootNumbers> {
        let mut place = self.idle.lock(&self.rt);
        let (seat, numbers) = look_at_numbers(place.take()?);
        *place = Some(seat);
        numbers
    }

    /// What stirred these roots, if clients asked of those; none if memory runs out for it.
    pub(crate) fn stirs(&self, shown: &[u64], asked: &AskedRoots) -> Option<Vec<Stir>> {
        let mut place = self.idle.lock(&self.rt);
        let (seat, stirs) = look_at_stirs(place.take()?, self.alloc, shown, asked);
        *place = Some(seat);
        stirs
    }
}

// A value with a destructor of its own is freed by one call, wherever a function gives up.
impl<N: Named, R: Wait + Copy + Drop> Drop for LockSeats<N, R> {
    fn drop(self) {
        let LockSeats {
            rt: _,
            alloc: _,
            free: _,
            idle: _,
        } = self;
    }
}

/// A seat of this publisher for each session that may be.
fn session_seats<N: Named, R: Wait + Drop>(
    alloc: Global,
    publisher: &mut Publisher<N, R>,
) -> Result<Vec<Seat<N>>, AllocError> {
    let mut seats = Vec::with_capacity(alloc, SESSION_SEATS)?;
    for _ in 0..SESSION_SEATS {
        seats.push(publisher.seat()?).map_err(AllocError::from)?;
    }
    Ok(seats)
}

/// The text of the root of this number, if a seat sees it, and the seat. There is none if memory
/// runs out for it, or if the look is refused.
fn look_at_text<N: Named>(seat: Seat<N>, alloc: Global, number: u64) -> (Seat<N>, Option<String>) {
    match seat.look() {
        Ok(look) => {
            let text = match look.table().text(number) {
                Some(text) => String::from_str(alloc, text).ok(),
                None => None,
            };
            (look.leave(), text)
        }
        Err(blind) => (blind.seat(), None),
    }
}

/// The roots that a seat sees, and the seat. There are none if memory runs out for them, or if the look is refused.
fn look_at_numbers<N: Named>(seat: Seat<N>) -> (Seat<N>, Option<RootNumbers>) {
    match seat.look() {
        Ok(look) => {
            let table = look.table();
            let numbers = match table.numbers() {
                Ok(shown) => Some(RootNumbers {
                    shown,
                    given: table.given(),
                }),
                Err(_) => None,
            };
            (look.leave(), numbers)
        }
        Err(blind) => (blind.seat(), None),
    }
}

/// What a seat sees of these roots, if clients asked of those, and the seat. There is nothing if memory runs out for it,
/// or if the look is refused.
fn look_at_stirs<N: Named>(
    seat: Seat<N>,
    alloc: Global,
    shown: &[u64],
    asked: &AskedRoots,
) -> (Seat<N>, Option<Vec<Stir>>) {
    match seat.look() {
        Ok(look) => {
            let stirs = stirs_in(look.table(), alloc, shown, asked).ok();
            (look.leave(), stirs)
        }
        Err(blind) => (blind.seat(), None),
    }
}

/// What a table shows of these roots, if clients asked of those.
fn stirs_in(
    table: &RootTable,
    alloc: Global,
    shown: &[u64],
    asked: &AskedRoots,
) -> Result<Vec<Stir>, AllocError> {
    let mut stirs = Vec::with_capacity(alloc, shown.len())?;
    for number in shown {
        stirs.push(stir_in(table, *number, asked))?;
    }
    Ok(stirs)
}

/// What a table shows of the root of this number. One that is not shown any more counts as asked of.
fn stir_in(table: &RootTable, number: u64, asked: &AskedRoots) -> Stir {
    let tick = match table.view(number) {
        Some(view) => view.tick(),
        None => 0,
    };
    let is_asked = match table.text(number) {
        Some(root) => asked.has(root),
        None => true,
    };
    Stir {
        number,
        tick,
        is_asked,
    }
}
