//! Seats, which look at the published table. A look waits for nobody and takes no memory.
ghost use Rattle.std.specs.Prelude.{◌≡◌, ◌≤◌, IfErr, IfOk, IfSome, MatchResult, Some, is_some, length, nat_lt, option_map};
ghost use mathlib.Core.List.{IsPrefix};
ghost use Rattle.left_right.specs.Sides.{view};
ghost use Rattle.wq_base.specs.Limit.{max_number};
ghost use Rattle.wq_view.specs.View.{IsViewOf};
ghost use Rattle.wq_live.specs.Event.{IsLawfulList, is_shown, passes_over, shown_root};
ghost use Rattle.wq_live.specs.Log.{AgreeAs, BeginsLog, IsAhead, begun_with};
ghost use Rattle.wq_live.specs.Table.{IsTableOf};

use crate::log::Log;
use crate::named::Named;
use crate::refused::{SeatReader, SeatReading, enter};
use crate::shown::Shown;
use crate::table::RootTable;
use std::alloc::AllocError;
use std::marker::{Model, PhantomData};
use std::sync::Arc;
use wq_view::View;

/// A list of events that the publisher gave out, with its table. Contracts see the list.
pub struct Told<N: Named> {
    shown: Shown,
    of: PhantomData<N>,
}

// A list is let go by one call, wherever a function gives up.
impl<N: Named> Drop for Told<N> {
    fn drop(self) {
        let Told { shown: _, of: _ } = self;
    }
}

impl<N: Named> Model for Told<N> {
    ghost use Rattle.std.specs.Prelude.{◌≡◌, List};
    ghost use Rattle.wq_live.specs.declared.event.RootEvent.{RootEvent};

    ghost Value = { List RootEvent };

    ghost use Rattle.wq_live.specs.Log.{events_code};

    ghost coded = { events_code };

    ghost view = { λ t. t.shown.log };

    ghost invariant = { λ t. (t.shown.book ≡ N.book) × N.published N.book t.shown.log };
}

impl<N: Named> Told<N> {
    pub(crate) fn new(shown: Shown) -> Told<N>
        requires { shown.book ≡ N.book }
        ensures list { result ≡ shown.log }
        ensures published { N.published N.book result }
    {
        N::publishes(shown.published());
        Told {
            shown,
            of: PhantomData,
        }
    }

    /// The list was published.
    pub fn published(&self)
        ensures { N.published N.book self.now }
    {
        let _ = &self.shown;
    }

    /// The table of the list.
    pub fn table(&self) -> &RootTable
        ensures { IsTableOf self.now result.now }
    {
        self.shown.table()
    }

    /// The list.
    pub(crate) fn log(&self) -> &Log
        ensures { result.now ≡ record { book = N.book; log = self.now } }
    {
        self.shown.log()
    }

    /// The value that is shown of the list.
    fn into_shown(self) -> Shown
        ensures { result ≡ record { book = N.book; log = self } }
    {
        let Told { shown, of: _ } = self;
        shown
    }
}

/// A seat. Contracts see the list with which its next look begins. That is the longest list that it learned, or the
/// list that it saw if that is longer. The seat keeps no table that a look would not show.
#[derive(Drop)]
pub struct Seat<N: Named> {
    reader: SeatReader,
    saw: Log,
    told: Option<Shown>,
    of: PhantomData<N>,
}

impl<N: Named> Model for Seat<N> {
    ghost use Rattle.std.specs.Prelude.{◌≡◌, List, Some};
    ghost use Rattle.left_right.specs.Sides.{view as known};
    ghost use Rattle.wq_live.specs.declared.event.RootEvent.{RootEvent};
    ghost use Rattle.wq_live.specs.Log.{IsAhead, begun_with};

    ghost Value = { List RootEvent };

    ghost use Rattle.wq_live.specs.Log.{events_code};

    ghost coded = { events_code };

    ghost view = { λ s. begun_with s.saw s.told };

    ghost invariant = { λ s. (known s.reader.place ≡ Some s.saw) × (s.saw.book ≡ N.book)
        × IsAhead s.saw s.told };
}

impl<N: Named> Seat<N> {
    /// The seat of a reader that knows this list.
    pub(crate) fn new(reader: SeatReader, saw: Log) -> Seat<N>
        requires known { view reader.place ≡ Some saw }
        requires named { saw.book ≡ N.book }
        ensures { result ≡ saw.log }
    {
        Seat {
            reader,
            saw,
            told: None,
            of: PhantomData,
        }
    }

    /// Learns a list of the publisher: from now on the seat's looks begin with that list too. The call neither waits
    /// nor takes memory.
    pub fn learn(self, told: Told<N>) -> Seat<N>
        ensures kept { IsPrefix self result }
        ensures told { IsPrefix told result }
    {
        let Seat {
            reader,
            saw,
            told: before,
            of,
        } = self;
        let told = ahead(&saw, longest(before, told.into_shown()));
        Seat {
            reader,
            saw,
            told,
            of,
        }
    }

    /// Looks at the published table. Contracts see the list of the look. It begins with the list that the seat saw
    /// before, and with each list that the seat learned.
    ///
    /// The call is refused if the publisher is gone. A refused look changes nothing. The call neither waits nor takes
    /// memory.
    pub fn look(self) -> Result<Look<N>, Blind<N>>
        ensures begins { MatchResult result (λ look. IsPrefix self look) (λ blind. blind ≡ self) }
        ensures published { IfOk result (λ look. N.published N.book look) }
        ensures refused { IfErr result (λ blind. N.refused N.book blind) }
    {
        let known = self.known();
        let Seat {
            reader,
            saw,
            told,
            of,
        } = self;
        match enter(reader, known) {
            Ok(reading) => {
                let told = match told {
                    Some(told) => ahead(reading.get().log(), told),
                    None => None,
                };
                claim::<N>(reading.get(), &told);
                Ok(Look { reading, told, of })
            }
            Err((reader, refused)) => {
                N::refuses(&refused);
                Err(Blind {
                    seat: Seat {
                        reader,
                        saw,
                        told,
                        of,
                    },
                })
            }
        }
    }

    /// The list with which the next look begins.
    fn known(&self) -> Log
        ensures { result ≡ record { book = N.book; log = self.now } }
    {
        match &self.told {
            Some(told) => told.log().again(),
            None => self.saw.again(),
        }
    }
}

/// A seat whose look was refused. Only [`Seat::look`] makes one. Contracts see the seat's list.
#[derive(Drop)]
pub struct Blind<N: Named> {
    seat: Seat<N>,
}

impl<N: Named> Model for Blind<N> {
    ghost use Rattle.std.specs.Prelude.{List};
    ghost use Rattle.wq_live.specs.declared.event.RootEvent.{RootEvent};

    ghost Value = { List RootEvent };

    ghost use Rattle.wq_live.specs.Log.{events_code};

    ghost coded = { events_code };

    ghost view = { λ b. b.seat };

    ghost invariant = { λ b. N.refused N.book b.seat };
}

impl<N: Named> Blind<N> {
    /// The seat, as it was before the look.
    pub fn seat(self) -> Seat<N>
        ensures seat { result ≡ self }
        ensures refused { N.refused N.book self }
    {
        self.seat
    }
}

/// A look at the published table. Contracts see its list.
///
/// The type is not `Drop`: a caller ends a look by `leave`.
pub struct Look<N: Named> {
    reading: SeatReading,
    /// The list that the seat learned, if it is longer than the published one.
    told: Option<Shown>,
    of: PhantomData<N>,
}

impl<N: Named> Model for Look<N> {
    ghost use Rattle.std.specs.Prelude.{◌≡◌, List, Some};
    ghost use Rattle.left_right.specs.Sides.{view as known};
    ghost use Rattle.wq_live.specs.declared.event.RootEvent.{RootEvent};
    ghost use Rattle.wq_live.specs.Log.{IsAhead, begun_with};

    ghost Value = { List RootEvent };

    ghost use Rattle.wq_live.specs.Log.{events_code};

    ghost coded = { events_code };

    ghost view = { λ l. begun_with l.reading.part.value l.told };

    ghost invariant = { λ l. (known l.reading.place ≡ Some l.reading.part.value)
        × (l.reading.part.value.book ≡ N.book) × IsAhead l.reading.part.value l.told
        × N.published N.book (begun_with l.reading.part.value l.told) };
}

impl<N: Named> Look<N> {
    /// The table of the look's list, which was published.
    pub fn table(&self) -> &RootTable
        ensures table { IsTableOf self.now result.now }
        ensures published { N.published N.book self.now }
    {
        match &self.told {
            Some(told) => told.table(),
            None => self.reading.get().table(),
        }
    }

    /// Whether this look's list is shorter than that of another look at the same publisher. If it is, it begins the
    /// other list; if not, the other list begins it. So all looks have the same order of events.
    pub fn is_shorter(&self, other: &Look<N>) -> bool
        ensures shorter { result ≡ nat_lt (length self.now) (length other.now) }
        ensures begins { AgreeAs result self.now other.now }
    {
        self.log().is_shorter(other.log())
    }

    /// The look's list.
    pub(crate) fn log(&self) -> &Log
        ensures { result.now ≡ record { book = N.book; log = self.now } }
    {
        match &self.told {
            Some(told) => told.log(),
            None => self.reading.get().log(),
        }
    }

    /// The number and the view of the root of this text, if the look's list shows it.
    pub fn root(&self, text: &str) -> Option<(u64, &View)>
        ensures lawful { IsLawfulList self.now }
        ensures number { option_map (λ it. it.0) result
            ≡ option_map (λ root. root.number) (shown_root text.now self.now) }
        ensures view { IfSome result (λ it. IsViewOf (passes_over it.0 self.now) it.1.now) }
        ensures bound { IfSome result (λ it. it.0 ≤ max_number) }
    {
        self.table().root(text)
    }

    /// The number of the root of this text, and a share of its view, if the look's list shows it. The share outlives
    /// the look. So a caller that needs the view for long holds up no publish.
    ///
    /// The call is refused if no share can be had. The look then still lends the view.
    pub fn share(&self, text: &str) -> Result<Option<(u64, Arc<View>)>, AllocError>
        ensures lawful { IsLawfulList self.now }
        ensures number { IfOk result (λ it. option_map (λ it. it.0) it
            ≡ option_map (λ root. root.number) (shown_root text.now self.now)) }
        ensures view { IfOk result (λ it.
            IfSome it (λ it. IsViewOf (passes_over it.0 self.now) it.1.value)) }
        ensures bound { IfOk result (λ it. IfSome it (λ it. it.0 ≤ max_number)) }
    {
        let share = self.table().share(text)?;
        Ok(share)
    }

    /// The view of the root of this number, if the look's list shows it.
    pub fn view(&self, number: u64) -> Option<&View>
        ensures lawful { IsLawfulList self.now }
        ensures shown { is_some result ≡ is_shown self.now number }
        ensures view { IfSome result (λ view. IsViewOf (passes_over number self.now) view.now) }
        ensures bound { IfSome result (λ _. number ≤ max_number) }
    {
        self.table().view(number)
    }

    /// A share of the view of the root of this number, if the look's list shows it. The share outlives the look.
    ///
    /// The call is refused if no share can be had. The look then still lends the view.
    pub fn share_of(&self, number: u64) -> Result<Option<Arc<View>>, AllocError>
        ensures lawful { IsLawfulList self.now }
        ensures shown { IfOk result (λ it. is_some it ≡ is_shown self.now number) }
        ensures view { IfOk result (λ it.
            IfSome it (λ view. IsViewOf (passes_over number self.now) view.value)) }
        ensures bound { IfOk result (λ it. IfSome it (λ _. number ≤ max_number)) }
    {
        let share = self.table().share_of(number)?;
        Ok(share)
    }

    /// Ends the look, and gives back the seat, whose next look begins with this look's list.
    pub fn leave(self) -> Seat<N>
        ensures { result ≡ self }
    {
        let Look { reading, told, of } = self;
        let saw = reading.get().log().again();
        Seat {
            reader: reading.leave(),
            saw,
            told,
            of,
        }
    }
}

/// Says that the list of a look was published: the list that was learned, if there is one, and else the one that is
/// shown.
fn claim<N: Named>(shown: &Shown, told: &Option<Shown>)
    requires named { shown.now.book ≡ N.book }
    requires ahead { IsAhead shown.now told.now }
    ensures { N.published N.book (begun_with shown.now told.now) }
{
    match told {
        Some(told) => N::publishes(told.published()),
        None => N::publishes(shown.published()),
    }
}

/// The list that the seat learned, if it is longer than this one.
fn ahead(log: &Log, told: Shown) -> Option<Shown>
    requires { log.now.book ≡ told.book }
    ensures ahead { IsAhead log.now result }
    ensures told { IsPrefix told.log (begun_with log.now result) }
{
    if log.is_shorter(told.log()) {
        Some(told)
    } else {
        None
    }
}

/// The longer of two lists that the seat learned.
fn longest(before: Option<Shown>, told: Shown) -> Shown
    requires { IfSome before (λ before. before.book ≡ told.book) }
    ensures before { IfSome before (λ before. BeginsLog before result) }
    ensures told { BeginsLog told result }
{
    match before {
        Some(before) => before.longer(told),
        None => told,
    }
}
