//! The threads that do the tasks of rounds. There is one, as long as no task takes long. A task that takes long keeps its
//! thread, and the next task gets another one.

use crate::hand::Hand;
use crate::patience::Patience;
use crate::task::Task;
use crate::times::Took;
use std::alloc::{AllocError, Global};
use std::sync::{Arc, Wait};
use std::time::{Clock, Duration};

/// A thread, and the task that it has.
#[derive(Drop)]
struct Working {
    hand: Arc<Hand>,
    task: Option<Task>,
}

/// The threads that do tasks.
#[derive(Drop)]
pub(crate) struct Hands {
    alloc: Global,
    threads: Vec<Working>,
}

impl Hands {
    /// No thread yet.
    pub(crate) fn new(alloc: Global) -> Hands {
        Hands {
            alloc,
            threads: Vec::new(alloc),
        }
    }

    /// Whether a thread has a task at the root of this number.
    pub(crate) fn has(&self, number: u64) -> bool {
        self.threads.iter().any(|it| match it.task {
            Some(task) => task.number() == number,
            None => false,
        })
    }

    /// How many threads there are.
    pub(crate) fn len(&self) -> usize {
        self.threads.len()
    }

    /// Removes the thread that was added last.
    pub(crate) fn remove_last(&mut self) {
        let _ = self.threads.pop();
    }

    /// The place of a thread that has no task.
    pub(crate) fn idle(&self) -> Option<usize> {
        self.threads.iter().position(|it| it.task.is_none())
    }

    /// Adds a thread that has no task.
    pub(crate) fn add(&mut self, hand: Arc<Hand>) -> Result<(), AllocError> {
        Ok(self.threads.push(Working { hand, task: None })?)
    }

    /// A thread that is to be added.
    pub(crate) fn another(&self) -> Result<Arc<Hand>, AllocError> {
        Ok(Arc::new(self.alloc, Hand::new())?)
    }

    /// Gives a task to the thread of this place, which has none, and waits until it is done, but no longer than this.
    /// Returns how long the task took.
    pub(crate) fn give<R: Wait + Clock>(
        &mut self,
        rt: &R,
        place: usize,
        task: Task,
        time: Duration,
    ) -> Option<Took> {
        let thread = self.threads.get_mut(place)?;
        thread.hand.give(rt, task);
        let took = thread.hand.wait(rt, time);
        if took.is_none() {
            thread.task = Some(task);
        }
        took
    }

    /// Takes a task that was done since it was given, with the time that it took.
    pub(crate) fn take_done<R: Wait + Clock>(&mut self, rt: &R) -> Option<(Task, Took)> {
        for thread in &mut self.threads {
            if let Some(task) = thread.task
                && let Some(took) = thread.hand.wait(rt, Duration::ZERO)
            {
                thread.task = None;
                return Some((task, took));
            }
        }
        None
    }

    /// Has the last threads end as long as they have no task, if another one has none either.
    pub(crate) fn end_spare<R: Wait>(&mut self, rt: &R) {
        for _ in 0..self.threads.len() {
            if !self.is_last_spare() {
                return;
            }
            if let Some(thread) = self.threads.pop() {
                thread.hand.end(rt);
            }
        }
    }

    /// Whether the last thread has no task, and another one has none either.
    fn is_last_spare(&self) -> bool {
        match (self.idle(), self.threads.last()) {
            (Some(first), Some(last)) => last.task.is_none() && first < self.threads.len() - 1,
            _ => false,
        }
    }

    /// Has all threads end, and waits for those that have a task, but together no longer than this.
    pub(crate) fn end<R: Wait + Clock>(&mut self, rt: &R, time: Duration) {
        let patience = Patience::new(rt, time);
        for thread in &mut self.threads {
            if thread.task.is_some() {
                let _ = thread.hand.wait(rt, patience.left(rt));
            }
            thread.hand.end(rt);
        }
    }
}
