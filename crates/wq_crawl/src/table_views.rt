//! The views of a world: the roots that are shown there. A line is answered at them.
ghost use Rattle.std.specs.Prelude.{◌≡◌, ◌≤◌, IfErr, IfOk, IfSome, List, None, option_map};
ghost use Rattle.wq_base.specs.Limit.{max_number};
ghost use Rattle.wq_clock.specs.Run.{run_data};
ghost use Rattle.wq_crawl.specs.declared.fault.CrawlFault.TheVariants.{NoMemory};
ghost use Rattle.wq_live.specs.Table.{IsTableOf, root_by_text};
ghost use Rattle.wq_live.specs.declared.event.RootEvent.{RootEvent};
ghost use Rattle.wq_crawl.specs.Meets.{at_root, ending, fault_for, numbered, refused_fault};
ghost use Rattle.wq_crawl.specs.Tables.{EndsTable, Finds, refused_data};
ghost use Rattle.wq_crawl.specs.Meets.{shows_root};
ghost use Rattle.wq_crawl.specs.Need.{need_data};
ghost use Rattle.wq_crawl.specs.At.{at_data};
ghost use Rattle.wq_crawl.specs.Views.{root_at_data};

use crate::at::At;
use crate::fault::CrawlFault;
use crate::need::Need;
use crate::refused::Refused;
use crate::views::{RootAt, Views};
use wq_clock::Run;
use wq_live::RootTable;

/// The roots of a world, in a run of the server. A crawl or a watching is a happening of its own. If it was refused, so
/// is a line that comes directly after it and needs it.
#[derive(Drop)]
pub struct TableViews {
    /// The run of the server.
    pub run: Run,
    /// The roots that are shown, with their views.
    pub table: RootTable,
    /// The last crawl or watching, if it was refused and nothing followed it.
    pub refused: Option<Refused>,
}

impl TableViews {
    /// The views of these roots. No crawl and no watching was refused.
    pub fn new(run: Run, table: RootTable) -> TableViews
        ensures { (result.run ≡ run) × (result.table ≡ table) × (result.refused ≡ None) }
    {
        TableViews {
            run,
            table,
            refused: None,
        }
    }

    /// The root of a number, as a session looks at it, if it is shown.
    pub fn numbered(&self, number: u64) -> Option<At<'_>>
        ensures { (events : List RootEvent) → IsTableOf events self.now.table
            → option_map at_data result ≡ numbered number (run_data self.now.run) self.now.table }
    {
        let given = self.table.given();
        if number > given {
            return None;
        }
        let view = self.table.view(number)?;
        Some(At {
            instance: self.run.instance(number),
            view: Some(view),
        })
    }
}

impl Views for TableViews {
    ghost use Rattle.std.specs.Prelude.{◌≡◌, List, None, option_map};
    ghost use Rattle.wq_clock.specs.Run.{run_data};
    ghost use Rattle.wq_live.specs.Table.{IsTableOf};
    ghost use Rattle.wq_live.specs.declared.event.RootEvent.{RootEvent};
    ghost use Rattle.wq_crawl.specs.Meets.{Meets};
    ghost use Rattle.wq_crawl.specs.Tables.{refused_data};

    ghost readies = { λ before need ready after. (after.run ≡ before.run) × (after.refused ≡ None)
        × ((events : List RootEvent) → IsTableOf events before.table → (later : List RootEvent)
        × Meets need (run_data before.run) (option_map refused_data before.refused) events ready
        later × IsTableOf later after.table) };

    fn ready(self, need: Need<'_>) -> (Self, Result<Option<RootAt>, CrawlFault>) {
        let TableViews {
            run,
            table,
            refused,
        } = self;
        if let Some(fault) = fault_for(need, &table, refused) {
            return (TableViews::new(run, table), Err(fault));
        }
        match ending(need, &table) {
            Some(number) => at_end(run, table, number),
            None => {
                let root = looked(need, run, &table);
                (TableViews::new(run, table), root)
            }
        }
    }
}

/// Whether the root of this text is shown.
fn shows(table: &RootTable, root: &str) -> bool
    ensures { result ≡ shows_root root.now table.now }
{
    table.number_of(root).is_some()
}

/// The fault of the crawl or the watching that an ask needs, if it needs one and that was refused.
fn fault_for(need: Need<'_>, table: &RootTable, refused: Option<Refused>) -> Option<CrawlFault>
    ensures { result
        ≡ fault_for (need_data need.entry) table.now (option_map refused_data refused) }
{
    match need {
        Need::Crawl(root) if shows(table, root) => fault_of(root, refused),
        Need::Open(root) if !shows(table, root) => fault_of(root, refused),
        _ => None,
    }
}

/// Why this root could not be crawled or opened.
fn fault_of(root: &str, refused: Option<Refused>) -> Option<CrawlFault>
    ensures { result ≡ refused_fault root.now (option_map refused_data refused) }
{
    let refused = refused?;
    if refused.root.as_str() == root {
        Some(refused.fault)
    } else {
        None
    }
}

/// The number of the root that an ask ends, if it is shown.
fn ending(need: Need<'_>, table: &RootTable) -> Option<u64>
    ensures value { result ≡ ending (need_data need.entry) table.now }
    ensures bound { IfSome result (λ number. number ≤ max_number) }
{
    match need {
        Need::Retire(root) => table.number_of(root),
        _ => None,
    }
}

/// The root of this number, after its end. Only its number is used.
fn at_end(
    run: Run,
    table: RootTable,
    number: u64,
) -> (TableViews, Result<Option<RootAt>, CrawlFault>)
    requires { number ≤ max_number }
    ensures run { result.0.run ≡ run }
    ensures followed { result.0.refused ≡ None }
    ensures ends { EndsTable number (run_data run) table result.1 result.0.table }
{
    match table.with_end(number) {
        Ok(Some(ended)) => {
            let root = RootAt {
                instance: run.instance(number),
                view: None,
            };
            (TableViews::new(run, ended), Ok(Some(root)))
        }
        // The root is shown, so only memory can run out.
        _ => (TableViews::new(run, table), Err(CrawlFault::NoMemory)),
    }
}

/// The root that an ask looks at if it ends no root: the root that it names, if that is shown.
fn looked(need: Need<'_>, run: Run, table: &RootTable) -> Result<Option<RootAt>, CrawlFault>
    ensures { Finds (need_data need.entry) (run_data run) table.now result }
{
    match need {
        Need::Nothing | Need::Retire(_) => Ok(None),
        Need::Look(root) | Need::Crawl(root) | Need::Open(root) => at_root(run, table, root),
    }
}

/// A root with a share of its view, if it is shown.
fn at_root(run: Run, table: &RootTable, root: &str) -> Result<Option<RootAt>, CrawlFault>
    ensures found { IfOk result (λ found. option_map root_at_data found
        ≡ option_map (at_root (run_data run)) (root_by_text root.now table.now)) }
    ensures short { IfErr result (λ fault. fault ≡ NoMemory) }
{
    match table.share(root) {
        Ok(Some((number, view))) => Ok(Some(RootAt {
            instance: run.instance(number),
            view: Some(view),
        })),
        Ok(None) => Ok(None),
        Err(_) => Err(CrawlFault::NoMemory),
    }
}
