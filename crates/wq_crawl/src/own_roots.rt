//! Roots that one session has for itself: a crawler.

use crate::begun::Asked;
use crate::crawl::Crawl;
use crate::crawler::Crawler;
use crate::fault::CrawlFault;
use crate::found_root::FoundRoot;
use crate::roots::Roots;
use crate::seconds::Seconds;
use std::sync::Wait;
use wq_live::{Named, Told};
use wq_patch::Tree;

/// A crawler that one session has for itself. Its roots show it.
impl<N: Named, R: Wait + Drop, T: Tree + Drop, S: Seconds + Drop> Roots<N> for Crawler<N, R, T, S> {
    ghost use Rattle.std.specs.Prelude.{Some};

    ghost crawler = { λ c. Some c };

    fn open(&mut self, root: &str) -> Result<Told<N>, CrawlFault> {
        self.open(root)
    }

    fn ask(&self) -> Asked {
        self.ask()
    }

    fn crawl(&mut self, asked: Asked, root: &str) -> Result<Crawl<N>, CrawlFault> {
        self.crawl_since(&asked, root)
    }

    fn retire(&mut self, root: FoundRoot) -> Result<Told<N>, CrawlFault> {
        self.retire(root.number())
    }

    fn workers(&self) -> u32 {
        1
    }
}
