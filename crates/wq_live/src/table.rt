//! The table of all roots that are shown. Each change makes a new table and leaves the old one. The two tables share
//! the texts, and the views of the roots that did not change.
ghost use Rattle.std.specs.Prelude.{◌≡◌, ◌≢◌, ◌≤◌, ◌<◌, ◌+◌, ◌++◌, ◌∷◌, ◌↔◌, ◌⊎◌, [], Err, IfErr, IfNone, IfOk, IfSome, IsTrue, List, MatchOption, MatchResult, None, Some, false, find, length, map, option_map, true};
ghost use Rattle.wq_base.specs.Limit.{max_number, max_roots};
ghost use Rattle.wq_live.specs.declared.event.RootEvent.{RootEvent};
ghost use Rattle.wq_live.specs.declared.event.RootEvent.TheVariants.{Ended, Passed};
ghost use Rattle.wq_view.specs.History.{History, last_stats};
ghost use Rattle.wq_record.specs.Limit.{max_tick};
ghost use Rattle.wq_view.specs.View.{IsViewOf};
ghost use Rattle.wq_live.specs.Event.{IsFull, first_history, is_shown, number_of, passes_over, start_events};
ghost use Rattle.wq_live.specs.Table.{IsFullTable, IsNews, IsNoNews, IsStarted, IsTableOf, WantsForTicks, has_number, number_by_text, root_by_text, with_view, without};

use crate::shown_root::ShownRoot;
use std::alloc::{AllocError, Global};
use std::marker::Model;
use std::sync::Arc;
use thiserror::Error;
use wq_base::{MAX_NUMBER, MAX_ROOTS, Text};
use wq_view::{Change, Pass, View, ViewFault};

/// The reason for which a root is not started. The fault leaves the table as it was.
#[derive(Clone, Copy, Debug, PartialEq, Eq, Drop, Error)]
pub enum StartFault {
    /// 16 roots are shown, or the number 2^62 was given.
    #[error("too many roots")]
    TooManyRoots,
    /// Memory ran out.
    #[error("no memory")]
    NoMemory,
}

impl From<AllocError> for StartFault {
    ghost use Rattle.std.specs.Prelude.{◌≡◌};
    ghost use Rattle.wq_live.specs.declared.table.StartFault.TheVariants.{NoMemory};

    ghost from_gives = { λ _ fault. fault ≡ NoMemory };

    fn from(_error: AllocError) -> StartFault {
        StartFault::NoMemory
    }
}

/// The roots that are shown, at most 16, with their views, and the number of roots that were ever started.
#[derive(Drop)]
pub struct RootTable {
    roots: Vec<ShownRoot>,
    given: u64,
}

impl Model for RootTable {
    ghost use Rattle.std.specs.Prelude.{◌≤◌, length};
    ghost use Rattle.wq_base.specs.Limit.{max_number, max_roots};
    ghost use Rattle.wq_live.specs.Table.{TableData, table_code};

    ghost Value = { TableData };

    ghost coded = { table_code };

    ghost view = { λ t. record { roots = t.roots.items; given = t.given } };

    ghost invariant = { λ t. (length t.roots.items ≤ max_roots) × (t.given ≤ max_number) };
}

impl RootTable {
    /// The table before any root was started.
    pub fn new(alloc: Global) -> RootTable
        ensures empty { result ≡ record { roots = []; given = 0 } }
        ensures history { IsTableOf [] result }
    {
        RootTable {
            roots: Vec::new(alloc),
            given: 0,
        }
    }

    /// The number of roots that are shown, at most 16.
    pub fn len(&self) -> usize
        ensures value { result ≡ length self.now.roots }
        ensures bound { result ≤ max_roots }
    {
        self.roots.len()
    }

    /// The number of roots that were ever started. It is also the number of the last root.
    pub fn given(&self) -> u64
        ensures value { result ≡ self.now.given }
        ensures bound { result ≤ max_number }
    {
        self.given
    }

    /// Whether no root is shown.
    pub fn is_empty(&self) -> bool
        ensures { IsTrue result ↔ (self.now.roots ≡ []) }
    {
        self.roots.is_empty()
    }

    /// Whether no more root can be started, because 16 are shown or the number 2^62 was given.
    pub fn is_full(&self) -> bool
        ensures table { IsTrue result ↔ IsFullTable self.now }
        ensures list { (events : List RootEvent) → IsTableOf events self.now
            → (IsTrue result ↔ IsFull events) }
    {
        self.roots.len() == MAX_ROOTS || self.given == MAX_NUMBER
    }

    /// The number and the view of the root of this text, if it is shown.
    pub fn root(&self, text: &str) -> Option<(u64, &View)>
        ensures number { option_map (λ it. it.0) result ≡ number_by_text text.now self.now }
        ensures view { option_map (λ it. it.1.now) result
            ≡ option_map (λ root. root.view) (root_by_text text.now self.now) }
        ensures bound { IfSome result (λ it. it.0 ≤ max_number) }
    {
        let root = self.root_of_text(text)?;
        Some((root.number, &root.view))
    }

    /// The number of the root of this text, and a share of its view, if it is shown. The call is refused if no share
    /// can be had.
    pub fn share(&self, text: &str) -> Result<Option<(u64, Arc<View>)>, AllocError>
        ensures number { IfOk result (λ it. option_map (λ it. it.0) it
            ≡ number_by_text text.now self.now) }
        ensures view { IfOk result (λ it. option_map (λ it. it.1.value) it
            ≡ option_map (λ root. root.view) (root_by_text text.now self.now)) }
        ensures bound { IfOk result (λ it. IfSome it (λ it. it.0 ≤ max_number)) }
    {
        match self.root_of_text(text) {
            Some(root) => Ok(Some((root.number, root.view.clone()?))),
            None => Ok(None),
        }
    }

    /// The number of the root of this text, if it is shown.
    pub fn number_of(&self, text: &str) -> Option<u64>
        ensures table { result ≡ number_by_text text.now self.now }
        ensures list { (events : List RootEvent) → IsTableOf events self.now
            → result ≡ number_of text.now events }
        ensures bound { IfSome result (λ number. number ≤ max_number) }
    {
        let root = self.root_of_text(text)?;
        Some(root.number)
    }

    /// The text of the root of this number, if it is shown.
    pub fn text(&self, number: u64) -> Option<&str>
        ensures { option_map (λ text. text.now) result
            ≡ option_map (λ root. root.text) (find (has_number number) self.now.roots) }
    {
        let root = self.root_of_number(number)?;
        Some(root.text.as_str())
    }

    /// The view of the root of this number, if it is shown.
    pub fn view(&self, number: u64) -> Option<&View>
        ensures view { option_map (λ view. view.now) result
            ≡ option_map (λ root. root.view) (find (has_number number) self.now.roots) }
        ensures bound { IfSome result (λ _. number ≤ max_number) }
    {
        let root = self.root_of_number(number)?;
        Some(&root.view)
    }

    /// A share of the view of the root of this number, if it is shown. The call is refused if no share can be had.
    pub fn share_of(&self, number: u64) -> Result<Option<Arc<View>>, AllocError>
        ensures view { IfOk result (λ it. option_map (λ view. view.value) it
            ≡ option_map (λ root. root.view) (find (has_number number) self.now.roots)) }
        ensures bound { IfOk result (λ it. IfSome it (λ _. number ≤ max_number)) }
    {
        match self.root_of_number(number) {
            Some(root) => Ok(Some(root.view.clone()?)),
            None => Ok(None),
        }
    }

    /// The numbers of the roots that are shown, in the order of their starts.
    pub fn numbers(&self) -> Result<Vec<u64>, AllocError>
        ensures { IfOk result
            (λ numbers. numbers.items ≡ map (λ root. root.number) self.now.roots) }
    {
        let mut numbers = Vec::with_capacity(*self.roots.allocator(), self.roots.len())?;
        for root in &self.roots {
            numbers.push(root.number)?;
        }
        Ok(numbers)
    }

    /// The root of this text.
    fn root_of_text(&self, text: &str) -> Option<&ShownRoot>
        ensures { option_map (λ root. root.now) result ≡ root_by_text text.now self.now }
    {
        self.roots
            .iter()
            .find(|root| root.text.as_bytes() == text.as_bytes())
    }

    /// The root of this number.
    fn root_of_number(&self, number: u64) -> Option<&ShownRoot>
        ensures { option_map (λ root. root.now) result ≡ find (has_number number) self.now.roots }
    {
        self.roots.iter().find(|root| root.number == number)
    }

    /// The table after the start of a root that is not shown, with its first pass. The root gets the number after that
    /// of the last start.
    ///
    /// The call is refused if 16 roots are shown, if the number 2^62 was given, or if memory runs out.
    pub fn with_start(&self, text: &str, pass: &Pass) -> Result<RootTable, StartFault>
        requires new { root_by_text text.now self.now ≡ None }
        ensures started { (events : List RootEvent) → IsTableOf events self.now
            → IfOk result (IsTableOf
            (events ++ start_events (self.now.given + 1) text.now pass.now)) }
        ensures number { IfOk result (λ table. table.given ≡ self.now.given + 1) }
        ensures full { (result ≡ Err StartFault.TooManyRoots)
            ↔ IsFullTable self.now }
    {
        if self.is_full() {
            return Err(StartFault::TooManyRoots);
        }
        Ok(self.with_root(text, pass)?)
    }

    /// The table with one more root. The view of that root is that of this one pass.
    fn with_root(&self, text: &str, pass: &Pass) -> Result<RootTable, AllocError>
        requires room { length self.now.roots ≢ max_roots }
        requires numbers { self.now.given ≢ max_number }
        ensures { IfOk result (λ table. IsStarted self.now text.now pass.now table) }
    {
        let alloc = *self.roots.allocator();
        let mut roots = self.copies(alloc, self.roots.len() + 1)?;
        let number = self.given + 1;
        let text = Arc::new(alloc, Text::copied(alloc, text)?)?;
        let view = Arc::new(alloc, first_view(alloc, pass)?)?;
        roots.push(ShownRoot { number, text, view })?;
        Ok(RootTable {
            roots,
            given: number,
        })
    }

    /// The same roots, with room for so many.
    fn copies(&self, alloc: Global, room: usize) -> Result<Vec<ShownRoot>, AllocError>
        ensures { IfOk result (λ roots. roots.items ≡ self.now.roots) }
    {
        let mut roots = Vec::with_capacity(alloc, room)?;
        for root in &self.roots {
            roots.push(root.copy()?)?;
        }
        Ok(roots)
    }

    /// The table after a pass over the root of this number. There is none if the pass adds nothing, because the root is
    /// not shown or its last pass saw just the same.
    ///
    /// The call is refused if the root's ticks are spent and the pass saw something else, or if memory runs out.
    pub fn with_pass(&self, number: u64, pass: &Pass) -> Result<Option<RootTable>, ViewFault>
        ensures passed { (events : List RootEvent) → IsTableOf events self.now
            → IfOk result (λ next. MatchOption next
            (IsNoNews events number pass.now)
            (λ table. IsNews events number pass.now
            × IsTableOf (events ++ Passed number pass.now ∷ []) table)) }
        ensures room { (events : List RootEvent) → IsTableOf events self.now
            → IfOk result (λ next.
            IfSome next (λ _. length (passes_over number events) < max_tick)) }
        ensures spent { (events : List RootEvent) → IsTableOf events self.now
            → ((result ≡ Err ViewFault.TicksSpent) ↔ WantsForTicks events number pass.now) }
    {
        match self.root_of_number(number) {
            Some(root) => self.with_change(number, &pass.over(&root.view)),
            None => Ok(None),
        }
    }

    /// The table after a pass over the root of this number, which has the view that the pass differs from. The call
    /// answers as [`RootTable::with_pass`] does.
    pub fn with_change(
        &self,
        number: u64,
        change: &Change<'_>,
    ) -> Result<Option<RootTable>, ViewFault>
        requires { IfSome (find (has_number number) self.now.roots)
            (λ root. (change.now).base ≡ root.view) }
        ensures passed { (events : List RootEvent) → IsTableOf events self.now
            → IfOk result (λ next. MatchOption next
            (IsNoNews events number (change.now).pass)
            (λ table. IsNews events number (change.now).pass
            × IsTableOf (events ++ Passed number (change.now).pass ∷ []) table)) }
        ensures room { (events : List RootEvent) → IsTableOf events self.now
            → IfOk result (λ next.
            IfSome next (λ _. length (passes_over number events) < max_tick)) }
        ensures spent { (events : List RootEvent) → IsTableOf events self.now
            → ((result ≡ Err ViewFault.TicksSpent)
            ↔ WantsForTicks events number (change.now).pass) }
    {
        let Some(root) = self.root_of_number(number) else {
            return Ok(None);
        };
        let Some(view) = root.view.after(change)? else {
            return Ok(None);
        };
        Ok(Some(self.with_view(number, view)?))
    }

    /// The table in which the root of this number has this view.
    fn with_view(&self, number: u64, view: View) -> Result<RootTable, AllocError>
        ensures { IfOk result (λ table. table ≡ record {
          roots = map (with_view number view) self.now.roots;
          given = self.now.given;
        }) }
    {
        let view = Arc::new(*self.roots.allocator(), view)?;
        let mut roots = Vec::with_capacity(*self.roots.allocator(), self.roots.len())?;
        for root in &self.roots {
            roots.push(root.with_view(number, &view)?)?;
        }
        Ok(RootTable {
            roots,
            given: self.given,
        })
    }

    /// The table after the end of the root of this number. There is none if the root is not shown, because nothing is
    /// added then.
    pub fn with_end(&self, number: u64) -> Result<Option<RootTable>, AllocError>
        ensures { (events : List RootEvent) → IsTableOf events self.now
            → IfOk result (λ next. MatchOption next
            (is_shown events number ≡ false)
            (λ table. (is_shown events number ≡ true)
            × IsTableOf (events ++ Ended number ∷ []) table)) }
    {
        if self.root_of_number(number).is_none() {
            return Ok(None);
        }
        Ok(Some(self.without(number)?))
    }

    /// The table without the root of this number.
    fn without(&self, number: u64) -> Result<RootTable, AllocError>
        ensures { IfOk result (λ table. table ≡ without number self.now) }
    {
        let mut roots = Vec::with_capacity(*self.roots.allocator(), self.roots.len())?;
        for root in &self.roots {
            if root.number != number {
                roots.push(root.copy()?)?;
            }
        }
        Ok(RootTable {
            roots,
            given: self.given,
        })
    }
}

/// The view of a root that starts with this pass.
fn first_view(alloc: Global, pass: &Pass) -> Result<View, AllocError>
    ensures { IfOk result (IsViewOf (first_history pass.now)) }
{
    let mut view = View::new(alloc);
    match view.absorb(pass) {
        Ok(_moved) => Ok(view),
        Err(_) => Err(AllocError),
    }
}
