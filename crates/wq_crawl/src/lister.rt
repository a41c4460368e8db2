//! The lister, which lists a root by a tree, and gives what the listing comes to by a clock.
ghost use Rattle.std.specs.Prelude.{◌≡◌, Err, IfErr, IfNone, IfOk, IsTrue, List, MatchResult, OnOk};
ghost use Rattle.std.specs.List.{list_all};
ghost use Rattle.wq_record.specs.Seen.{is_lawful_row};
ghost use Rattle.wq_live.specs.declared.event.RootEvent.{RootEvent};
ghost use Rattle.wq_live.specs.Table.{IsTableOf};
ghost use Rattle.wq_patch.specs.Tree.{AreLawful, IsCounted, IsFew, ListingFits, Lists, rows_given_again, rows_listed};
ghost use Rattle.wq_crawl.specs.Crawl.{IsNoPassOver, IsPassOver, IsRelisted, ListsAgain, crawler_at};

use crate::begun::Raised;
use crate::fault::CrawlFault;
use crate::relisted::Relisted;
use crate::seconds::Seconds;
use std::marker::Model;
use wq_live::RootTable;
use wq_patch::{Listing, Recent, Tree, TreeFault};
use wq_view::{Pass, View};

/// Lists roots. It has a tree and a clock, which a listing uses one after the other. Contracts see the state that both
/// show.
#[derive(Drop)]
pub struct Lister<T: Tree + Drop, S: Seconds + Drop> {
    tree: T,
    seconds: S,
}

impl<T: Tree + Drop, S: Seconds + Drop> Model for Lister<T, S> {
    ghost use Rattle.wq_crawl.specs.Crawl.{ListerData, lister_code};

    ghost Value = { ListerData };

    ghost coded = { lister_code };

    ghost view = { λ l. record {
      clock = S.told l.seconds;
      listed = T.listed l.tree;
      failed = T.failed l.tree;
      whole = T.whole l.tree;
    } };
}

impl<T: Tree + Drop, S: Seconds + Drop> Lister<T, S> {
    /// The lister of these parts.
    pub fn new(tree: T, seconds: S) -> Lister<T, S>
        ensures { result ≡ record {
          clock = S.told seconds;
          listed = T.listed tree;
          failed = T.failed tree;
          whole = T.whole tree;
        } }
    {
        Lister { tree, seconds }
    }

    /// The pass of a root, as the tree shows it now.
    pub(crate) fn list(&mut self, root: &str) -> Result<Pass, CrawlFault>
        ensures listed { (events : List RootEvent) → MatchResult result
            (λ pass. IsPassOver root.now (crawler_at events self.old) pass
            (crawler_at events self.new))
            (λ fault. IsNoPassOver root.now (crawler_at events self.old) fault
            (crawler_at events self.new)) }
        ensures whole { OnOk result (IsTrue (self.new).whole) }
    {
        let rows = match self.tree.list(root) {
            Ok(rows) => rows,
            Err(fault) => return Err(CrawlFault::Tree(fault)),
        };
        let at = self.seconds.second();
        match Pass::of_lawful(rows, at) {
            Ok(pass) => Ok(pass),
            Err(fault) => Err(CrawlFault::Pass(fault)),
        }
    }

    /// The listing of the root of this number and text, as the tree shows it now, beside its view in this table. If there
    /// are recent directories, it is that of a glance.
    pub(crate) fn list_again(
        &mut self,
        table: &RootTable,
        number: u64,
        root: &str,
        recent: Option<&Recent<'_>>,
    ) -> Result<Relisted, CrawlFault>
        ensures listed { (events : List RootEvent) → IsTableOf events table.now
            → MatchResult result
            (λ relisted. IsRelisted number root.now (crawler_at events self.old) relisted
            (crawler_at events self.new))
            (λ fault. IsNoPassOver root.now (crawler_at events self.old) fault
            (crawler_at events self.new)) }
        ensures whole { IfNone recent.entry (OnOk result (IsTrue (self.new).whole)) }
    {
        let listing = match self.listing(table, number, root, recent) {
            Ok(listing) => listing,
            Err(fault) => return Err(CrawlFault::Tree(fault)),
        };
        let second = self.seconds.second();
        match listing {
            Listing::Rows(rows) => match Pass::of_lawful(rows, second) {
                Ok(pass) => Ok(Relisted::Pass(pass)),
                Err(fault) => Err(CrawlFault::Pass(fault)),
            },
            Listing::Patches(patches) => match Pass::fault_of_patches(second) {
                None => Ok(Relisted::Patched(patches, second)),
                Some(fault) => Err(CrawlFault::Pass(fault)),
            },
        }
    }

    /// The listing of the whole root of this number and text, as the tree shows it now, beside its view in this table. The
    /// crawl was counted before.
    pub(crate) fn list_whole(
        &mut self,
        raised: Raised,
        table: &RootTable,
        number: u64,
        root: &str,
    ) -> Result<Listed, CrawlFault>
        ensures listed { (events : List RootEvent) → IsTableOf events table.now
            → MatchResult result
            (λ listed. IsRelisted number root.now (crawler_at events self.old) listed.relisted
            (crawler_at events self.new))
            (λ fault. IsNoPassOver root.now (crawler_at events self.old) fault
            (crawler_at events self.new)) }
        ensures whole { OnOk result (IsTrue (self.new).whole) }
        ensures number { IfOk result (λ listed. listed.number ≡ number) }
        ensures count { IfOk result (λ listed. listed.raised.count ≡ raised.count) }
    {
        match self.list_again(table, number, root, None) {
            Ok(relisted) => Ok(Listed {
                relisted,
                number,
                raised,
            }),
            Err(fault) => Err(fault),
        }
    }

    /// The listing of the root of this number and text, as the tree shows it now.
    fn listing(
        &mut self,
        table: &RootTable,
        number: u64,
        root: &str,
        recent: Option<&Recent<'_>>,
    ) -> Result<Listing, TreeFault>
        ensures clock { (self.new).clock ≡ (self.old).clock }
        ensures counted { IfErr result (IsCounted (self.old).failed (self.new).failed) }
        ensures lawful { IfOk result AreLawful }
        ensures listed { (events : List RootEvent) → IsTableOf events table.now
            → MatchResult result
            (λ listing. ListsAgain number root.now (crawler_at events self.old) listing
            (crawler_at events self.new))
            (λ fault. Lists (self.old).listed root.now (Err fault) (self.new).listed) }
        ensures whole { IfNone recent.entry (OnOk result (IsTrue (self.new).whole)) }
    {
        match table.root(root) {
            Some((shown, last)) if shown == number => {
                listed_again(&mut self.tree, root, last, recent)
            }
            _ => match self.tree.list(root) {
                Ok(rows) => Ok(Listing::Rows(rows)),
                Err(fault) => Err(fault),
            },
        }
    }
}

/// A listing of a whole root that has a view. Only [`Lister::list_whole`] makes one.
#[derive(Drop)]
pub(crate) struct Listed {
    relisted: Relisted,
    /// The number of the root.
    number: u64,
    /// When it began.
    raised: Raised,
}

impl Listed {
    /// What the listing came to, the number of the root, and how many crawls began before.
    pub(crate) fn parts(self) -> (Relisted, u64, u64)
        ensures relisted { result.0 ≡ self.relisted }
        ensures number { result.1 ≡ self.number }
        ensures count { result.2 ≡ self.raised.count }
    {
        let count = self.raised.count();
        (self.relisted, self.number, count)
    }

    /// The number of the root.
    pub(crate) fn number(&self) -> u64
        ensures { result ≡ self.now.number }
    {
        self.number
    }
}

/// The listing of a root with this last view, or the one of a glance if there are recent directories.
fn listed_again<T: Tree>(
    tree: &mut T,
    root: &str,
    last: &View,
    recent: Option<&Recent<'_>>,
) -> Result<Listing, TreeFault>
    ensures counted { IfErr result (IsCounted (T.failed tree.old) (T.failed tree.new)) }
    ensures lawful { IfOk result (λ listing.
        IsTrue (list_all is_lawful_row (rows_listed last.now.records listing))) }
    ensures few { IfOk result (IsFew last.now.records) }
    ensures fit { IfOk result (ListingFits last.now.records) }
    ensures listed { Lists (T.listed tree.old) root.now
        (rows_given_again last.now.records result) (T.listed tree.new) }
    ensures whole { IfNone recent.entry (OnOk result (IsTrue (T.whole tree.new))) }
{
    match recent {
        Some(recent) => tree.glance(root, last, recent),
        None => tree.list_again(root, last),
    }
}
