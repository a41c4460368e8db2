//! The world that sessions play in, without files, sockets and threads: its roots, the shelf of all
//! clients, and their sessions. Its happenings: crawls and openings of roots, asks of clients, idle
//! moments, rounds of triggers, and ends of runs.
ghost use Rattle.std.specs.Prelude.{◌≡◌, ◌+◌, ◌++◌, ◌∷◌, List, Ok, [], false, map, string_bytes};
ghost use Rattle.std.specs.Prelude.{true, IfOk, IsErr, OnErr, OnOk, None, pos};
ghost use Rattle.wq_live.specs.Table.{IsFullTable, IsTableOf, root_by_text};
ghost use Rattle.wq_live.specs.declared.event.RootEvent.TheVariants.{Started};
ghost use Rattle.wq_view.specs.Listing.{listing_of};
ghost use Rattle.wq_clock.specs.Run.{run_data};
ghost use Rattle.wq_replay.specs.Client.{root_numbers_of};
ghost use Rattle.wq_replay.specs.Stands.{Leads, Stands, all_sent, crawl_data, happening_data};
ghost use Rattle.wq_replay.specs.Stands.{sent_if};
ghost use Rattle.wq_replay.specs.Gets.{Gets, Rests};
ghost use Rattle.wq_replay.specs.Playing.{Happens, Runs};
ghost use Rattle.wq_replay.specs.World.{Crawls, HappeningData, SentData, Starts, Watches};
ghost use Rattle.wq_replay.specs.World.{WorldData, new_world, root_text};
ghost use Rattle.wq_replay.specs.Rounds.{Rounds, trigger_run, sent_note, without_running};

use crate::client::Client;
use crate::clients;
use crate::happening::Happening;
use crate::launcher::MemoryLauncher;
use crate::runs::RunSet;
use crate::sent::{Sent, SentLines};
use crate::start_line::lines_about;
use std::alloc::{AllocError, Global};
use std::mem;
use wq_ask::Ask;
use wq_base::{Table, Text};
use wq_clock::Run;
use wq_crawl::{CrawlFault, Place, Refused, TableViews, place_for};
use wq_follow::Trigger;
use wq_live::RootTable;
use wq_registry::{Cache, Shelf};
use wq_session::{Out, round_ahead};
use wq_view::{Pass, ViewFault};

/// A world in which clients ask about roots.
#[derive(Drop)]
pub struct World {
    pub(crate) views: TableViews,
    pub(crate) shelf: Shelf<Trigger>,
    /// The clients that have subscriptions.
    pub(crate) clients: Vec<Client>,
    /// The commands of triggers that run.
    pub(crate) runs: RunSet,
    /// Whether memory ran out in a call, so that every later call is refused.
    pub(crate) spent: bool,
    pub(crate) alloc: Global,
}

/// The root of a new world.
pub(crate) const ROOT: &str = "/r";

impl World {
    /// A world before any happening, with this run of the server and a socket of this name. The root `/r` is watched,
    /// and no pass went over it.
    pub fn new(alloc: Global, run: Run, sockname: String) -> Result<World, AllocError>
        ensures { IfOk result (Stands (new_world (run_data run) (string_bytes sockname))) }
    {
        let cache = Cache::new(alloc, run.start, run.pid)?;
        let mut shelf = Shelf::new(alloc, cache, sockname);
        let table = first_table(alloc)?;
        match shelf.add_root(ROOT, 1) {
            Ok(()) => Ok(World {
                views: TableViews::new(run, table),
                shelf,
                clients: Vec::new(alloc),
                runs: RunSet::new(alloc),
                spent: false,
                alloc,
            }),
            Err(_) => Err(AllocError),
        }
    }

    /// Plays these happenings in turn, and gives the lines that the server sends.
    ///
    /// An ask that needs a crawl of a root, or has to watch it, has to come directly after that. If that was refused,
    /// so is the ask.
    ///
    /// # Errors
    /// Memory ran out for a view, for the place of a client, or for the list of the lines. From then on every call is
    /// refused.
    pub fn play(&mut self, happenings: Vec<Happening<'_>>) -> Result<Vec<Sent>, AllocError>
        // For every world that this one means:
        ensures runs { (before : WorldData) → Stands before self.old → IfOk result (λ sent.
            (after : WorldData) × Runs before (map happening_data happenings.entry.items)
            (all_sent sent.items) after × Stands after self.new) }
        // For all happenings that led to it from a new one:
        ensures leads { (first : WorldData) (events : List HappeningData) (said : List SentData)
            → Leads first events said self.old → IfOk result (λ sent.
            Leads first (events ++ map happening_data happenings.entry.items)
            (said ++ all_sent sent.items) self.new) }
        ensures spent { self.old.spent ≡ true → IsErr result }
        ensures spends { OnErr result (self.new.spent ≡ true) }
    {
        if self.spent {
            return Err(AllocError);
        }
        let sent = self.play_all(happenings);
        if sent.is_err() {
            self.spent = true;
        }
        sent
    }

    /// Plays these happenings in turn, if memory suffices.
    fn play_all(&mut self, happenings: Vec<Happening<'_>>) -> Result<Vec<Sent>, AllocError>
        ensures { (before : WorldData) → Stands before self.old → IfOk result (λ sent.
            (after : WorldData) × Runs before (map happening_data happenings.entry.items)
            (all_sent sent.items) after × Stands after self.new) }
    {
        let alloc = self.alloc;
        let mut sent = Vec::new(alloc);
        for happening in happenings {
            if let Some(said) = self.happen(alloc, happening)? {
                sent.push(said)?;
            }
        }
        Ok(sent)
    }

    /// Plays one happening.
    fn happen(
        &mut self,
        alloc: Global,
        happening: Happening<'_>,
    ) -> Result<Option<Sent>, AllocError>
        ensures { (before : WorldData) → Stands before self.old → IfOk result (λ sent.
            (after : WorldData)
            × Happens before (happening_data happening.entry) (sent_if sent) after
            × Stands after self.new) }
    {
        match happening {
            Happening::Crawl { root, seen } => {
                self.crawl(root, seen)?;
                Ok(None)
            }
            Happening::Watch { root, seen } => {
                self.watch(root, seen)?;
                Ok(None)
            }
            Happening::Asked { client, ask } => {
                let out = self.answer(alloc, client, ask)?;
                Ok(Some(Sent::ToClient(SentLines { client, out })))
            }
            Happening::Idle { client, root } => {
                let out = self.rest(alloc, client, root)?;
                Ok(Some(Sent::ToClient(SentLines { client, out })))
            }
            Happening::Round { root, answers } => {
                let lines = self.round(alloc, &root, answers)?;
                Ok(Some(Sent::OfRound(lines)))
            }
            Happening::Ended { run } => {
                self.end_run(run);
                Ok(None)
            }
        }
    }

    /// Crawls a root, with this listing or fault.
    fn crawl(&mut self, root: Text, seen: Result<&Pass, CrawlFault>) -> Result<(), AllocError>
        ensures { (before : WorldData) → Stands before self.old → OnOk result (
            (after : WorldData) × Crawls before root (crawl_data seen.entry) after
            × Stands after self.new) }
    {
        match seen {
            Ok(pass) => self.pass(root, pass),
            Err(fault) => {
                self.views.refused = Some(Refused { root, fault });
                Ok(())
            }
        }
    }

    /// Crawls a root, with this listing.
    fn pass(&mut self, root: Text, pass: &Pass) -> Result<(), AllocError>
        ensures { (before : WorldData) → Stands before self.old → OnOk result (
            (after : WorldData) × Crawls before root (Ok pass.now) after × Stands after self.new) }
    {
        self.views.refused = None;
        let Some(number) = self.views.table.number_of(root.as_str()) else {
            return Ok(());
        };
        match self.views.table.with_pass(number, pass) {
            Ok(None) => Ok(()),
            Ok(Some(table)) => {
                self.views.table = table;
                Ok(())
            }
            Err(ViewFault::TicksSpent) => {
                let fault = CrawlFault::TicksSpent;
                self.views.refused = Some(Refused { root, fault });
                Ok(())
            }
            Err(ViewFault::NoMemory) => Err(AllocError),
        }
    }

    /// Opens a root that is not shown, with this listing or fault.
    fn watch(&mut self, root: Text, seen: Result<&Pass, CrawlFault>) -> Result<(), AllocError>
        ensures { (before : WorldData) → Stands before self.old → OnOk result (
            (after : WorldData) × Watches before root (crawl_data seen.entry) after
            × Stands after self.new) }
    {
        match place_for(&self.views.table, root.as_str()) {
            Place::Shown(_) => {
                self.views.refused = None;
                Ok(())
            }
            Place::Full => {
                let fault = CrawlFault::TooManyRoots;
                self.views.refused = Some(Refused { root, fault });
                Ok(())
            }
            Place::Free => self.start(root, seen),
        }
    }

    /// Starts a root that is not shown, with this listing or fault.
    fn start(&mut self, root: Text, seen: Result<&Pass, CrawlFault>) -> Result<(), AllocError>
        requires new { root_by_text root self.old.views.table ≡ None }
        requires room { IsFullTable self.old.views.table → ⊥ }
        ensures { (before : WorldData) → Stands before self.old → OnOk result (
            (after : WorldData) × Starts before root (crawl_data seen.entry) after
            × Stands after self.new) }
    {
        match seen {
            Ok(pass) => self.start_with(root, pass),
            Err(fault) => {
                self.views.refused = Some(Refused { root, fault });
                Ok(())
            }
        }
    }

    /// Starts a root that is not shown with this pass.
    fn start_with(&mut self, root: Text, pass: &Pass) -> Result<(), AllocError>
        requires new { root_by_text root self.old.views.table ≡ None }
        requires room { IsFullTable self.old.views.table → ⊥ }
        ensures { (before : WorldData) → Stands before self.old → OnOk result (
            (after : WorldData) × Starts before root (Ok pass.now) after × Stands after self.new) }
    {
        match self.views.table.with_start(root.as_str(), pass) {
            Ok(table) => {
                self.views.table = table;
                self.views.refused = None;
                Ok(())
            }
            // There is room for one more root, so only memory can run out.
            Err(_) => Err(AllocError),
        }
    }

    /// The reply to the ask of a client. An ask that needs a crawl of a root, or has to watch it, has to come directly
    /// after that.
    fn answer(&mut self, alloc: Global, client: i64, ask: Ask) -> Result<Out, AllocError>
        ensures { (before : WorldData) → Stands before self.old → IfOk result (λ out.
            (after : WorldData) × Gets client before ask out after × Stands after self.new) }
    {
        let blank = TableViews::new(self.views.run, RootTable::new(alloc));
        let views = mem::replace(&mut self.views, blank);
        let answered = clients::answer(
            &mut self.clients,
            alloc,
            client,
            ask,
            views,
            &mut self.shelf,
        )?;
        let (views, out) = answered;
        self.views = views;
        Ok(out)
    }

    /// The lists that an idle moment of the root of this number gives out to a client.
    fn rest(&mut self, alloc: Global, client: i64, root: u64) -> Result<Out, AllocError>
        ensures { (before : WorldData) → Stands before self.old → IfOk result (λ out.
            (after : WorldData) × Rests client root before out after × Stands after self.new) }
    {
        self.views.refused = None;
        let at = self.views.numbered(root);
        clients::idle(&mut self.clients, alloc, client, root, at)
    }

    /// The numbers of the roots of a client's subscriptions, each once, ascending.
    pub fn numbers(&self, client: i64) -> Result<Vec<u64>, AllocError>
        ensures { (before : WorldData) → Stands before self.now → IfOk result (λ numbers.
            numbers.items ≡ root_numbers_of (before.follows client)) }
    {
        clients::numbers(&self.clients, self.alloc, client)
    }

    /// Has a round of the triggers of a root, in which the launcher gives these answers to the starts in turn. A start
    /// without an answer fails.
    ///
    /// It gives a line about each start, without its newline.
    pub(crate) fn round(
        &mut self,
        alloc: Global,
        root: &Text,
        answers: Vec<Option<u32>>,
    ) -> Result<Table<Table<u8>>, AllocError>
        ensures { (before : WorldData) → Stands before self.old → IfOk result (λ lines.
            (after : WorldData)
            × Rounds root.now answers.items before (map sent_note lines) after
            × Stands after self.new) }
    {
        self.views.refused = None;
        let Some((number, view)) = self.views.table.root(root.as_str()) else {
            return Ok(Table::new(alloc));
        };
        let instance = self.views.run.instance(number);
        let runs = mem::replace(&mut self.runs, RunSet::new(alloc));
        let mut launcher = MemoryLauncher::new(alloc, runs, answers);
        round_ahead(&instance, view, &mut self.shelf, &[], &mut launcher);
        if launcher.spent {
            return Err(AllocError);
        }
        let lines = lines_about(alloc, &launcher.tried)?;
        self.runs = launcher.runs;
        Ok(lines)
    }

    /// Ends the runs of a number.
    pub(crate) fn end_run(&mut self, run: u32)
        ensures { (before : WorldData) → Stands before self.old
            → Stands (without_running run before) self.new }
    {
        self.views.refused = None;
        self.runs.end(run);
    }

    /// The run of the command of a trigger of a root, if the root is shown, the trigger is there, and its command was
    /// started. It may have ended.
    pub fn trigger_run(&self, root: &str, trigger: &str) -> Option<u32>
        ensures { (before : WorldData) → Stands before self.now
            → result ≡ trigger_run root.now trigger.now before }
    {
        let number = self.views.table.number_of(root)?;
        self.shelf.root(number)?.trigger(trigger)?.running()
    }
}

/// The table of a new world: `/r` is shown, and no pass went over it.
fn first_table(alloc: Global) -> Result<RootTable, AllocError>
    ensures { IfOk result (IsTableOf (Started 1 root_text ∷ [])) }
{
    let pass = no_files(alloc)?;
    let table = RootTable::new(alloc);
    match table.with_start(ROOT, &pass) {
        Ok(table) => Ok(table),
        Err(_) => Err(AllocError),
    }
}

/// A pass that saw no file.
pub(crate) fn no_files(alloc: Global) -> Result<Pass, AllocError>
    ensures { IfOk result (λ pass. pass ≡ listing_of [] (pos 0)) }
{
    match Pass::new(Vec::new(alloc), 0) {
        Ok(pass) => Ok(pass),
        Err(_) => Err(AllocError),
    }
}
