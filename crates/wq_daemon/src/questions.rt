//! The questions that clients asked of roots since the last round.

use std::alloc::Global;
use std::mem;
use std::sync::{Mutex, Wait};

/// So many roots are kept by their names. If clients asked of more, they count as having asked of all.
const MOST: usize = 64;

/// The roots of which clients asked.
#[derive(Drop)]
pub(crate) struct AskedRoots {
    roots: Vec<String>,
    /// Whether a client asked of no root that is known, which counts for all of them.
    is_all: bool,
}

impl AskedRoots {
    /// No root.
    fn none(alloc: Global) -> AskedRoots {
        AskedRoots {
            roots: Vec::new(alloc),
            is_all: false,
        }
    }

    /// Whether a client asked of the root of this text.
    pub(crate) fn has(&self, root: &str) -> bool {
        self.is_all || self.roots.iter().any(|it| it.as_str() == root)
    }

    /// Adds a root. If memory runs out for it, clients asked of all.
    fn add(&mut self, alloc: Global, root: &str) {
        if self.has(root) {
            return;
        }
        self.is_all = self.roots.len() >= MOST || !self.is_kept(alloc, root);
    }

    /// Whether memory sufficed to keep one root more.
    fn is_kept(&mut self, alloc: Global, root: &str) -> bool {
        match String::from_str(alloc, root) {
            Ok(text) => self.roots.push(text).is_ok(),
            Err(_) => false,
        }
    }
}

/// The roots of which clients asked since the last round. Threads share them.
pub(crate) struct Questions<R: Wait + Copy + Drop> {
    rt: R,
    alloc: Global,
    asked: Mutex<AskedRoots>,
}

impl<R: Wait + Copy + Drop> Questions<R> {
    /// No question yet.
    pub(crate) fn new(rt: R, alloc: Global) -> Questions<R> {
        Questions {
            rt,
            alloc,
            asked: Mutex::new(AskedRoots::none(alloc)),
        }
    }

    /// A client asks of the root of this text.
    pub(crate) fn add(&self, root: &str) {
        self.asked.lock(&self.rt).add(self.alloc, root);
    }

    /// A client asks, and it is not known of which root.
    pub(crate) fn add_all(&self) {
        self.asked.lock(&self.rt).is_all = true;
    }

    /// The roots of which clients asked since this was called last.
    pub(crate) fn take(&self) -> AskedRoots {
        let mut asked = self.asked.lock(&self.rt);
        mem::replace(&mut *asked, AskedRoots::none(self.alloc))
    }
}

// It is freed by one call, wherever a function gives up.
impl<R: Wait + Copy + Drop> Drop for Questions<R> {
    fn drop(self) {
        let Questions {
            rt: _,
            alloc: _,
            asked: _,
        } = self;
    }
}
