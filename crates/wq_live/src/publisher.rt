//! The publisher, which alone changes the list of events. It shows the table that follows from the list.
ghost use Rattle.std.specs.Prelude.{if◌then◌else◌, ◌+◌, ◌↔◌, None, option_map, ◌≡◌, ◌<◌, ◌⊎◌, ◌++◌, ◌∷◌, [], Err, IfErr, IfOk, IsTrue, MatchResult, Some, false, length, map, nat_lt, true};
ghost use Rattle.left_right.specs.Sides.{view};
ghost use Rattle.wq_live.specs.Log.{AgreeAs, BeginsLog, head_of};
ghost use Rattle.wq_base.specs.Limit.{max_number, max_roots};
ghost use Rattle.wq_record.specs.Limit.{max_tick};
ghost use Rattle.wq_record.specs.Seen.{is_count};
ghost use Rattle.wq_view.specs.Change.{MakePass, pass_by};
ghost use Rattle.wq_view.specs.View.{IsViewOf, ViewData};
ghost use Rattle.wq_live.specs.declared.event.RootEvent.TheVariants.{Ended, Passed};
ghost use Rattle.wq_live.specs.Event.{is_shown, passes_over, shown_root, shown, start_events, started};
ghost use Rattle.wq_live.specs.News.{news_event};
ghost use Rattle.wq_live.specs.Table.{IsNews, IsNoNews, IsTableOf, WantsForTicks};

use crate::kept::Note;
use crate::log::Head;
use crate::named::Named;
use crate::news::News;
use crate::publication::{ShownWriter, show};
use crate::seat::{Look, Seat, Told};
use crate::shown::Next;
use crate::table::{RootTable, StartFault};
use core::{mem, slice};
use std::alloc::{AllocError, Global};
use std::marker::{Model, PhantomData};
use std::sync::{Arc, Wait};
use wq_view::{Change, Pass, Patch, View, ViewFault, history_has_one_view};

/// The publisher. Contracts see its list of events.
pub struct Publisher<N: Named, R: Wait + Drop> {
    writer: ShownWriter,
    head: Head,
    alloc: Global,
    rt: R,
    /// Whether the writer still keeps the table before the last one, for looks that have not ended.
    keeps_older: bool,
    of: PhantomData<N>,
}

impl<N: Named, R: Wait + Drop> Model for Publisher<N, R> {
    ghost use Rattle.std.specs.Prelude.{◌≡◌, List, Some};
    ghost use Rattle.left_right.specs.Sides.{view as known};
    ghost use Rattle.wq_live.specs.declared.event.RootEvent.{RootEvent};
    ghost use Rattle.wq_live.specs.Log.{events_code, head_of};

    ghost Value = { List RootEvent };

    ghost coded = { events_code };

    ghost view = { λ p. p.writer.desk.shown.value.log };

    ghost invariant = { λ p. (known p.writer.desk.place ≡ Some p.writer.desk.shown.value)
        × (p.writer.desk.shown.value.book ≡ N.book) × (p.head ≡ head_of N.book)
        × N.published N.book p.writer.desk.shown.value.log };
}

// The end waits for looks that have not ended.
impl<N: Named, R: Wait + Drop> Drop for Publisher<N, R> {
    fn drop(self) {
        let Publisher {
            writer,
            head: _,
            alloc: _,
            rt,
            keeps_older: _,
            of: _,
        } = self;
        writer.take(&rt);
    }
}

impl<N: Named, R: Wait + Drop> Publisher<N, R> {
    /// The publisher that shows its values by this writer.
    pub(crate) fn over(writer: ShownWriter, head: Head, alloc: Global, rt: R) -> Publisher<N, R>
        requires known { view writer.desk.place ≡ Some writer.desk.shown.value }
        requires named { writer.desk.shown.value.book ≡ N.book }
        requires head { head ≡ head_of N.book }
        ensures list { result ≡ writer.desk.shown.value.log }
        ensures published { N.published N.book result }
    {
        N::publishes(writer.published().published());
        Publisher {
            writer,
            head,
            alloc,
            rt,
            keeps_older: false,
            of: PhantomData,
        }
    }

    /// A new seat, which has seen all that is published. The call is refused if memory runs out, or if every place is
    /// in use.
    pub fn seat(&mut self) -> Result<Seat<N>, AllocError>
        ensures seat { IfOk result (λ seat. seat ≡ self.new) }
        ensures kept { self.new ≡ self.old }
    {
        let saw = self.writer.published().log().again();
        let mut reader = self.writer.factory().reader()?;
        reader.learn::<Note>(self.writer.tell::<Note>());
        Ok(Seat::new(reader, saw))
    }

    /// The table that is published.
    pub fn table(&self) -> &RootTable
        ensures table { IsTableOf self.now result.now }
        ensures published { N.published N.book self.now }
    {
        self.writer.published().table()
    }

    /// Whether the list of events is shorter than that of a look. If it is, it begins the look's list; if not, the
    /// look's list begins it. So a seat sees only events that were published here.
    pub fn is_shorter(&self, look: &Look<N>) -> bool
        ensures shorter { result ≡ nat_lt (length self.now) (length look.now) }
        ensures begins { AgreeAs result self.now look.now }
    {
        self.writer.published().log().is_shorter(look.log())
    }

    /// Whether the root of this number is shown as it was when a list was given out: it was and is shown, and no pass
    /// over it was published since then.
    pub fn is_as_told(&self, told: &Told<N>, number: u64) -> bool
        ensures { IsTrue result → passes_over number self.now ≡ passes_over number told.now }
    {
        if self.is_behind(told) {
            return false;
        }
        match (self.table().view(number), told.table().view(number)) {
            (Some(now), Some(then)) => now.tick() == then.tick(),
            _ => false,
        }
    }

    /// Whether the list of events is shorter than one that was given out, which it never is. If it is not, the list that
    /// was given out begins it.
    fn is_behind(&self, told: &Told<N>) -> bool
        ensures { AgreeAs result self.now told.now }
    {
        self.writer.published().log().is_shorter(told.log())
    }

    /// The number of the root of this text, if it is shown.
    pub fn find(&self, text: &str) -> Option<u64>
        ensures { result ≡ option_map (λ root. root.number) (shown_root text.now self.now) }
    {
        self.table().number_of(text)
    }

    /// The number of roots that are shown, at most 16.
    pub fn len(&self) -> usize
        ensures { result ≡ length (shown self.now) }
    {
        self.table().len()
    }

    /// Publishes the start of a root that is not shown, with its first pass. The root gets the number after that of the
    /// last start. The call returns this number, and the list after the start.
    ///
    /// The call is refused if 16 roots are shown, if the number 2^62 was given, or if memory runs out. An error changes
    /// nothing. The call waits for looks that still read the value before the last one.
    pub fn start(&mut self, text: &str, pass: Pass) -> Result<(u64, Told<N>), StartFault>
        requires new { shown_root text.now self.old ≡ None }
        ensures number { IfOk result (λ it. it.0 ≡ length (started self.old) + 1) }
        ensures added { IfOk result (λ it. self.new ≡ self.old ++ start_events it.0 text.now pass) }
        ensures told { IfOk result (λ it. it.1 ≡ self.new) }
        ensures published { N.published N.book self.new }
        ensures full { (result ≡ Err StartFault.TooManyRoots)
            ↔ ((length (shown self.old) ≡ max_roots) ⊎ (length (started self.old) ≡ max_number)) }
        ensures err { IfErr result (λ _. self.new ≡ self.old) }
    {
        let next = self.table().with_start(text, &pass)?;
        let number = next.given();
        let none = View::new(self.alloc);
        let change = pass.over(&none);
        let news = start_news(self.alloc, number, text, &pass, &change)?;
        let told = self.add(next, &news)?;
        Ok((number, told))
    }

    /// The list that is published now.
    pub fn told(&self) -> Result<Told<N>, AllocError>
        ensures told { IfOk result (λ told. told ≡ self.now) }
        ensures published { N.published N.book self.now }
    {
        Ok(Told::new(self.writer.published().again()?))
    }

    /// Publishes a pass over the root of this number, and returns the list after it. The call adds nothing if the root
    /// is not shown, or if the last pass over it saw just the same.
    ///
    /// The call is refused if the root's ticks are spent and the pass saw something else, or if memory runs out. An
    /// error changes nothing. The call waits for looks that still read the value before the last one.
    pub fn publish(&mut self, number: u64, pass: Pass) -> Result<Told<N>, ViewFault>
        ensures told { IfOk result (λ told. told ≡ self.new) }
        ensures published { N.published N.book self.new }
        ensures added { IfOk result (λ _. (IsNoNews self.old number pass × (self.new ≡ self.old))
            ⊎ (IsNews self.old number pass × (length (passes_over number self.old) < max_tick)
            × (self.new ≡ self.old ++ Passed number pass ∷ []))) }
        ensures spent { (result ≡ Err ViewFault.TicksSpent) ↔ WantsForTicks self.old number pass }
        ensures err { IfErr result (λ _. self.new ≡ self.old) }
    {
        let Some(view) = self.table().view(number) else {
            return Ok(self.told()?);
        };
        let change = pass.over(view);
        self.publish_change(number, &change)
    }

    /// Publishes a pass over the root of this number, which has the view that the pass differs from. No rows are made of
    /// the other files. The call answers as [`Publisher::publish`] does.
    pub fn publish_change(&mut self, number: u64, change: &Change<'_>) -> Result<Told<N>, ViewFault>
        requires { IsViewOf (passes_over number self.old) (change.now).base }
        ensures told { IfOk result (λ told. told ≡ self.new) }
        ensures published { N.published N.book self.new }
        ensures added { IfOk result (λ _.
            (IsNoNews self.old number (change.now).pass × (self.new ≡ self.old))
            ⊎ (IsNews self.old number (change.now).pass
            × (length (passes_over number self.old) < max_tick)
            × (self.new ≡ self.old ++ Passed number (change.now).pass ∷ []))) }
        ensures spent { (result ≡ Err ViewFault.TicksSpent)
            ↔ WantsForTicks self.old number (change.now).pass }
        ensures err { IfErr result (λ _. self.new ≡ self.old) }
    {
        history_has_one_view();
        let Some(next) = self.table().with_change(number, change)? else {
            return Ok(self.told()?);
        };
        let news = News::Pass(number, change);
        Ok(self.add(next, slice::from_ref(&news))?)
    }

    /// Publishes a pass at this second over the root of this number, whose rows differ by these patches from the root's
    /// view. The call answers as [`Publisher::publish`] does.
    pub fn publish_patches(
        &mut self,
        number: u64,
        patches: &[Patch],
        second: i64,
    ) -> Result<Told<N>, ViewFault>
        requires fit { (view : ViewData) × IsViewOf (passes_over number self.old) view
            × MakePass view.records patches.now }
        requires second { IsTrue (is_count second) }
        ensures told { IfOk result (λ told. told ≡ self.new) }
        ensures published { N.published N.book self.new }
        // For the view of the passes over the root:
        ensures added { (view : ViewData) → IsViewOf (passes_over number self.old) view
            → IfOk result (λ _.
            (IsNoNews self.old number (pass_by view.records patches.now second)
            × (self.new ≡ self.old))
            ⊎ (IsNews self.old number (pass_by view.records patches.now second)
            × (length (passes_over number self.old) < max_tick)
            × (self.new ≡ self.old
            ++ Passed number (pass_by view.records patches.now second) ∷ []))) }
        ensures spent { (view : ViewData) → IsViewOf (passes_over number self.old) view
            → ((result ≡ Err ViewFault.TicksSpent)
            ↔ WantsForTicks self.old number (pass_by view.records patches.now second)) }
        ensures err { IfErr result (λ _. self.new ≡ self.old) }
    {
        history_has_one_view();
        let Some(view) = self.table().view(number) else {
            return Ok(self.told()?);
        };
        let change = Change::of(view, patches, second);
        self.publish_change(number, &change)
    }

    /// Publishes the end of the root of this number, and returns the list after it. The call adds nothing if the root
    /// is not shown.
    ///
    /// An error changes nothing. The call waits for looks that still read the value before the last one.
    pub fn retire(&mut self, number: u64) -> Result<Told<N>, AllocError>
        ensures told { IfOk result (λ told. told ≡ self.new) }
        ensures published { N.published N.book self.new }
        ensures added { IfOk result (λ _. ((is_shown self.old number ≡ false)
            × (self.new ≡ self.old))
            ⊎ ((is_shown self.old number ≡ true) × (self.new ≡ self.old ++ Ended number ∷ []))) }
        ensures err { IfErr result (λ _. self.new ≡ self.old) }
    {
        let Some(next) = self.table().with_end(number)? else {
            return self.told();
        };
        let news = News::End(number);
        self.add(next, slice::from_ref(&news))
    }

    /// Frees the table before the last one, with the views that no other table has. It changes nothing, and waits for
    /// looks that still read that table.
    pub fn let_go(&mut self)
        ensures { self.new ≡ self.old }
    {
        if !self.keeps_older {
            return;
        }
        let Ok(again) = self.writer.published().next() else {
            return;
        };
        if self.show(again).is_ok() {
            self.keeps_older = false;
        }
    }

    /// Adds events, and shows the table after them.
    fn add(&mut self, table: RootTable, news: &[News<'_>]) -> Result<Told<N>, AllocError>
        requires { IsTableOf (self.old ++ map news_event news.now) table }
        ensures added { MatchResult result
            (λ told. (self.new ≡ self.old ++ map news_event news.now) × (told ≡ self.new))
            (λ _. self.new ≡ self.old) }
        ensures published { N.published N.book self.new }
    {
        let table = Arc::new(self.alloc, table)?;
        let told = table.clone()?;
        let mut log = self.writer.published().log().again();
        if !log.add_all(&self.head, news) {
            return Err(AllocError);
        }
        self.show(Next::new(table, log))?;
        self.keeps_older = true;
        Ok(Told::new(self.writer.published().with_table(told)))
    }

    /// Shows the next value, whose list continues the one that is shown. The call is refused if there is no memory to
    /// line the value up.
    fn show(&mut self, next: Next) -> Result<(), AllocError>
        requires { BeginsLog (record { book = N.book; log = self.old }) next }
        ensures shown { MatchResult result (λ _. self.new ≡ next.log) (λ _. self.new ≡ self.old) }
        ensures published { N.published N.book self.new }
    {
        let done = mem::replace_with(&mut self.writer, (&self.rt, next), |writer, (rt, next)| {
            show(rt, writer, next)
        });
        N::publishes(self.writer.published().published());
        done
    }
}

/// The events that the start of a root adds: its start, and its first pass unless that saw no file.
fn start_news<'a>(
    alloc: Global,
    number: u64,
    text: &'a str,
    pass: &Pass,
    change: &'a Change<'a>,
) -> Result<Vec<News<'a>>, AllocError>
    requires { (change.now).pass ≡ pass.now }
    ensures { IfOk result (λ news.
        map news_event news.items ≡ start_events number text.now pass.now) }
{
    let mut news = Vec::with_capacity(alloc, 2)?;
    news.push(News::Start(number, text))?;
    if !pass.is_empty() {
        news.push(News::Pass(number, change))?;
    }
    Ok(news)
}
