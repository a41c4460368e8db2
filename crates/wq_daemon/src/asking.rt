//! The roots and the desk of a session, of which each use is kept as a question, before it is passed on.

use crate::questions::Questions;
use std::sync::atomic::{AtomicBool, Ordering};
use std::sync::{Arc, Wait};
use wq_crawl::{Asked, Crawl, CrawlFault, FoundRoot, Roots};
use wq_live::{Named, Told};
use wq_registry::{CacheKey, Compiled, Forgotten};
use wq_session::{Cursor, Desk, Prepared, Unset, Work};
use wq_verify::StoredProgram;

/// Roots that a session asks. They name the root of a question.
#[derive(Drop)]
pub(crate) struct AskingRoots<'a, Q: Drop, R: Wait + Copy + Drop> {
    pub(crate) roots: Q,
    pub(crate) questions: &'a Questions<R>,
    /// Whether the line that the session answers now named its root so.
    pub(crate) is_named: &'a AtomicBool,
}

impl<N: Named, Q: Roots<N> + Drop, R: Wait + Copy + Drop> Roots<N> for AskingRoots<'_, Q, R> {
    ghost crawler = { λ it. Q.crawler it.roots };

    fn open(&mut self, root: &str) -> Result<Told<N>, CrawlFault> {
        self.questions.add(root);
        let told = self.roots.open(root);
        // After a refusal the desk is not asked for this line.
        self.is_named.store(told.is_ok(), Ordering::SeqCst);
        told
    }

    fn ask(&self) -> Asked {
        self.roots.ask()
    }

    fn crawl(&mut self, asked: Asked, root: &str) -> Result<Crawl<N>, CrawlFault> {
        self.questions.add(root);
        let crawl = self.roots.crawl(asked, root);
        self.is_named.store(crawl.is_ok(), Ordering::SeqCst);
        crawl
    }

    fn retire(&mut self, root: FoundRoot) -> Result<Told<N>, CrawlFault> {
        self.roots.retire(root)
    }

    fn workers(&self) -> u32 {
        self.roots.workers()
    }
}

/// A desk that a session asks. A line for which no root was asked may be about any of them.
#[derive(Drop)]
pub(crate) struct AskingDesk<'a, Q: Drop, R: Wait + Copy + Drop> {
    pub(crate) desk: Q,
    pub(crate) questions: &'a Questions<R>,
    pub(crate) is_named: &'a AtomicBool,
}

impl<Q: Desk + Drop, R: Wait + Copy + Drop> Desk for AskingDesk<'_, Q, R> {
    ghost shelf = { λ it. Q.shelf it.desk };

    fn find(&mut self, key: &CacheKey) -> Option<Arc<StoredProgram>> {
        self.desk.find(key)
    }

    fn keep(&mut self, compiled: Compiled) -> Option<Forgotten> {
        self.desk.keep(compiled)
    }

    fn hold(&mut self, prepared: Prepared<'_>) -> Work {
        if !self.is_named.swap(false, Ordering::SeqCst) {
            self.questions.add_all();
        }
        self.desk.hold(prepared)
    }

    fn unset(&mut self, cursor: Cursor) -> Unset {
        self.desk.unset(cursor)
    }
}
