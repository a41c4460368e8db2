//! A thread that does the tasks of rounds, and how it is given one.

use crate::task::Task;
use crate::times::Took;
use std::sync::{Condvar, Mutex, Wait};
use std::time::{Clock, Duration};

/// The state of a thread that does tasks.
#[derive(Clone, Copy, Drop)]
enum HandState {
    /// It waits for a task.
    Idle,
    /// It was given this task, and has not done it yet.
    Given(Task),
    /// It did the task that it was given, which took so long.
    Done(Took),
    /// It ends.
    Ends,
}

/// A thread that does tasks, one after the other. The thread and the one that gives tasks share this.
#[derive(Drop)]
pub(crate) struct Hand {
    state: Mutex<HandState>,
    changed: Condvar,
}

impl Hand {
    /// A thread that waits for its first task.
    pub(crate) fn new() -> Hand {
        Hand {
            state: Mutex::new(HandState::Idle),
            changed: Condvar::new(),
        }
    }

    /// Gives a task to the thread, which has none.
    pub(crate) fn give<R: Wait>(&self, rt: &R, task: Task) {
        self.set(rt, HandState::Given(task));
    }

    /// Has the thread end, when it has done the task that it has.
    pub(crate) fn end<R: Wait>(&self, rt: &R) {
        self.set(rt, HandState::Ends);
    }

    /// Waits until the thread has done its task, but no longer than this. Returns how long the task took.
    pub(crate) fn wait<R: Wait + Clock>(&self, rt: &R, time: Duration) -> Option<Took> {
        let lock = self.state.lock(rt);
        let (mut state, _) = self.changed.wait_timeout_while(rt, lock, time, |state| {
            matches!(state, HandState::Given(_))
        });
        match *state {
            HandState::Done(took) => {
                *state = HandState::Idle;
                Some(took)
            }
            _ => None,
        }
    }

    /// The next task for the thread, which waits for it. There is none if the thread is to end.
    pub(crate) fn next<R: Wait>(&self, rt: &R) -> Option<Task> {
        let lock = self.state.lock(rt);
        let state = self.changed.wait_while(rt, lock, |state| {
            matches!(state, HandState::Idle | HandState::Done(_))
        });
        match *state {
            HandState::Given(task) => Some(task),
            _ => None,
        }
    }

    /// The thread has done its task, which took so long.
    pub(crate) fn finish<R: Wait>(&self, rt: &R, took: Took) {
        let mut state = self.state.lock(rt);
        if let HandState::Given(_) = *state {
            *state = HandState::Done(took);
        }
        drop(state);
        self.changed.notify_all();
    }

    /// Sets the state.
    fn set<R: Wait>(&self, rt: &R, state: HandState) {
        *self.state.lock(rt) = state;
        self.changed.notify_all();
    }
}
