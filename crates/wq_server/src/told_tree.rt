//! The tree of a server, which tells the operator of its listings: what they leave out, and which
//! took long.
ghost use Rattle.std.specs.Prelude.{◌≡◌};

use crate::lines::{left_out_line, slow_line};
use crate::times::time_since;
use std::alloc::Global;
use std::io;
use std::sync::Arc;
use std::time::{Clock, Instant};
use wq_base::MAX_ROOTS;
use wq_launch::Notices;
use wq_patch::{LeftOut, Listing, Recent, Tree, TreeFault};
use wq_view::{Seen, View};

/// The server tells its operator of a listing that took this many seconds.
const LONG: u64 = 60;

/// A root, and what the operator was told that its last listing left out.
#[derive(Drop)]
struct ToldRoot {
    root: String,
    left_out: LeftOut,
}

/// A tree that tells the operator of its listings.
#[derive(Drop)]
pub struct ToldTree<R, T, O>
where
    R: Clock + Drop,
    T: Tree + Drop,
    O: Notices + Drop,
{
    rt: R,
    alloc: Global,
    tree: T,
    notices: Arc<O>,
    /// The roots of which the operator was told what they leave out.
    known: Vec<ToldRoot>,
}

impl<R, T, O> ToldTree<R, T, O>
where
    R: Clock + Drop,
    T: Tree + Drop,
    O: Notices + Drop,
{
    /// A tree that lists by this one, before it lists a root. Its lines go to these notices.
    pub fn new(rt: R, alloc: Global, tree: T, notices: Arc<O>) -> ToldTree<R, T, O> {
        ToldTree {
            rt,
            alloc,
            tree,
            notices,
            known: Vec::new(alloc),
        }
    }

    /// Tells the operator of a listing that began at this moment.
    fn tell(&mut self, root: &str, began: io::Result<Instant>, is_listed: bool)
        ensures { self.new.tree ≡ self.old.tree }
    {
        let seconds = time_since(&self.rt, began).as_secs();
        if seconds >= LONG
            && let Ok(line) = slow_line(self.alloc, root, seconds)
        {
            self.notices.tell(&line);
        }
        let left_out = self.tree.left_out();
        // The operator knows what an earlier listing left out.
        let known = match self.known.iter().find(|it| it.root.as_str() == root) {
            Some(known) => known.left_out,
            None => LeftOut::nothing(),
        };
        if is_listed && left_out != known {
            self.tell_left_out(root, left_out);
        }
    }

    /// Tells the operator what a listing of a root left out. If memory runs out for that, the
    /// operator hears of it after the next listing.
    fn tell_left_out(&mut self, root: &str, left_out: LeftOut)
        ensures { self.new.tree ≡ self.old.tree }
    {
        let (Ok(line), Ok(text)) = (
            left_out_line(self.alloc, root, left_out),
            String::from_str(self.alloc, root),
        ) else {
            return;
        };
        self.known.retain(|it| it.root.as_str() != root);
        if self.known.len() >= MAX_ROOTS {
            self.known.remove(0);
        }
        if self
            .known
            .push(ToldRoot {
                root: text,
                left_out,
            })
            .is_ok()
        {
            self.notices.tell(&line);
        }
    }
}

impl<R, T, O> Tree for ToldTree<R, T, O>
where
    R: Clock + Drop,
    T: Tree + Drop,
    O: Notices + Drop,
{
    ghost failed = { λ it. T.failed it.tree };

    ghost listed = { λ it. T.listed it.tree };

    ghost whole = { λ it. T.whole it.tree };

    fn list(&mut self, root: &str) -> Result<Vec<Seen>, TreeFault> {
        let began = Instant::now(&self.rt);
        let listed = self.tree.list(root);
        self.tell(root, began, listed.is_ok());
        listed
    }

    fn list_again(&mut self, root: &str, last: &View) -> Result<Listing, TreeFault> {
        let began = Instant::now(&self.rt);
        let listed = self.tree.list_again(root, last);
        self.tell(root, began, listed.is_ok());
        listed
    }

    fn glance(
        &mut self,
        root: &str,
        last: &View,
        recent: &Recent<'_>,
    ) -> Result<Listing, TreeFault> {
        // A glance leaves out no other files than the listing before it, as far as it can know.
        self.tree.glance(root, last, recent)
    }

    fn failures(&self) -> u64 {
        self.tree.failures()
    }
}
