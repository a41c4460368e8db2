//! The matcher: a row of cells over the steps of a pattern, filled from the end of the text to its
//! start. It cuts no text, never goes back and takes no memory.
ghost use Rattle.std.specs.Prelude.{◌≡◌, ◌<◌, ◌≤◌, ℕ, ◌+◌, length, drop, List, ◌∷◌, [], true};
ghost use Rattle.std.specs.Prelude.{false, ◌⊎◌, ◌-◌, IsTrue, nat_lt, ◌&&◌, ◌||◌};
ghost use Rattle.std.specs.Bool.{MatchBool};
ghost use Rattle.wq_glob.specs.Cell.{step_cell, fit_cell, fits_at_end, mark_at, cell_of, marks_at};
ghost use Rattle.wq_glob.specs.Cell.{AreRound, Bounds, IsBlank, IsRow, IsWindow, Widens};
ghost use Rattle.wq_glob.specs.Cell.{step_cells};
ghost use Rattle.wq_glob.specs.Step.{step_reach, seen_of};
ghost use Rattle.wq_glob.specs.Mark.{Mark};

use crate::byte::lower_if;
use crate::rules::Rules;
use crate::step::{Step, may_take_nothing};

/// The state of a tail of the pattern at a place of the text.
#[derive(Clone, Copy)]
pub(crate) struct Cell {
    /// The tail fits the text from here on.
    pub(crate) fits: bool,
    /// The tail begins with `**/`, and the text from here on is the rest of its part, up to a
    /// slash, and then fits.
    pub(crate) begun: bool,
}

impl Cell {
    /// The cell of a tail that fits no more, however the text goes on to its front.
    pub(crate) const DEAD: Cell = Cell {
        fits: false,
        begun: false,
    };

    /// The cell of a tail that does not begin with `**/`.
    fn fit(fits: bool) -> Cell
        ensures { result ≡ fit_cell fits }
    {
        Cell { fits, begun: false }
    }
}

/// The steps from the first to the last whose cells are not dead.
#[derive(Clone, Copy)]
pub(crate) struct Window {
    pub(crate) low: usize,
    pub(crate) high: usize,
}

/// A byte of the text as the steps of a pattern see it.
#[derive(Clone, Copy)]
pub(crate) struct Seen {
    pub(crate) byte: u8,
    /// The byte, in lower case if the pattern ignores case.
    pub(crate) folded: u8,
    pub(crate) slash: bool,
    /// It is no leading dot that a literal alone may take.
    pub(crate) shown: bool,
    /// `?`, `*` and a class may take it.
    pub(crate) wild: bool,
}

/// The byte at a place of the text.
#[inline(always)]
pub(crate) fn seen_at(text: &[u8], at: usize, rules: &Rules) -> Seen
    requires { at < length text.now }
    ensures { result ≡ seen_of rules.now (mark_at rules.now text.now at) }
{
    let byte = text[at];
    let slash = byte == b'/';
    let shown = rules.flags.dotfiles || byte != b'.' || (at > 0 && text[at - 1] != b'/');
    Seen {
        byte,
        folded: lower_if(rules.flags.fold, byte),
        slash,
        shown,
        wild: shown && !(rules.flags.wholename && slash),
    }
}

/// A cell, from the cell of the same step and from those of the next step, after the byte and at
/// it.
fn next_cell(
    step: &Step,
    seen: &Seen,
    old: Cell,
    old_next: bool,
    new_next: bool,
    rules: &Rules,
) -> Cell
    ensures { result ≡ step_cell rules.now step.now seen.now old old_next new_next }
{
    match step {
        Step::Byte(byte) => Cell::fit(old_next && seen.folded == *byte),
        Step::AnyByte => Cell::fit(old_next && seen.wild),
        Step::Set(set) => Cell::fit(old_next && seen.wild && rules.in_set(*set, seen.byte)),
        Step::Stars => Cell::fit(new_next || (old.fits && seen.wild)),
        Step::Tail => Cell::fit(new_next || (old.fits && seen.shown)),
        Step::Below => {
            let begun = seen.shown && (old.begun || (seen.slash && old_next));
            Cell {
                fits: new_next || begun,
                begun,
            }
        }
        Step::Never => Cell::fit(false),
    }
}

/// The cell of the steps from `k` on at a byte, from the cells around it: dead if no step is left.
fn cell_at(
    steps: &[Step],
    k: usize,
    seen: &Seen,
    old: Cell,
    old_next: bool,
    new_next: bool,
    rules: &Rules,
) -> Cell
    requires { k ≤ length steps.now }
    ensures { (x : Mark) (text : List Mark) → seen.now ≡ seen_of rules.now x
        → AreRound rules.now steps.now k x text old old_next new_next
        → result ≡ cell_of rules.now (drop k steps.now) (x ∷ text) }
{
    if k < steps.len() {
        next_cell(&steps[k], seen, old, old_next, new_next, rules)
    } else {
        Cell::DEAD
    }
}

/// The effect of a byte on a row: its live window, and the number of cells that were looked at.
#[derive(Clone, Copy)]
pub(crate) struct Renewal {
    pub(crate) window: Option<Window>,
    pub(crate) cells: u64,
}

/// Renews a row for the byte at `at`: from the last live cell down, as long as a cell or the next
/// one may live.
pub(crate) fn renew(
    row: &mut [Cell],
    window: Window,
    steps: &[Step],
    text: &[u8],
    at: usize,
    rules: &Rules,
) -> Renewal
    requires room { length steps.now < length row.old }
    requires small { length steps.now < 256 }
    requires place { at < length text.now }
    requires filled { IsRow rules.now steps.now (marks_at rules.now text.now (at + 1)) row.old }
    requires lives { IsWindow rules.now steps.now (marks_at rules.now text.now (at + 1)) 0 window }

    ensures row { IsRow rules.now steps.now (marks_at rules.now text.now at) row.new }
    ensures window { Bounds rules.now steps.now (marks_at rules.now text.now at) 0 result.window }
    ensures cells { step_cells rules.now steps.now (marks_at rules.now text.now at)
        ≡ step_cells rules.now steps.now (marks_at rules.now text.now (at + 1)) + result.cells }
    ensures counted { 1 ≤ result.cells }
    ensures bounded { result.cells ≤ length steps.now + 1 }
{
    let seen = seen_at(text, at, rules);
    let mut k = window.high + 1;
    let mut old_next = false;
    let mut new_next = false;
    let mut live: Option<Window> = None;
    while is_open(k, window.low, old_next, new_next) {
        k -= 1;
        let old = row[k];
        let new = cell_at(steps, k, &seen, old, old_next, new_next, rules);
        row[k] = new;
        live = window_with(live, k, new);
        old_next = old.fits;
        new_next = new.fits;
    }
    Renewal {
        window: live,
        cells: (window.high + 1 - k) as u64,
    }
}

/// Whether the cell before `k` may live at a byte: one that lived after it, or one before a cell
/// that fits.
fn is_open(k: usize, low: usize, old_next: bool, new_next: bool) -> bool
    ensures { result ≡ (nat_lt 0 k && (nat_lt low k || old_next || new_next)) }
{
    k > 0 && (k > low || old_next || new_next)
}

/// The window with the cell at `k`, which is before it, if that cell lives.
fn window_with(window: Option<Window>, k: usize, cell: Cell) -> Option<Window>
    ensures { Widens k cell window result }
{
    if !cell.fits && !cell.begun {
        return window;
    }
    match window {
        Some(live) => Some(Window {
            low: k,
            high: live.high,
        }),
        None => Some(Window { low: k, high: k }),
    }
}

/// Whether the step before `low` may take nothing.
fn is_skipped(steps: &[Step], low: usize) -> bool
    requires { low ≤ length steps.now }
    ensures later { IsTrue result → 0 < low }
    ensures skipped { (f : Rules) → fits_at_end f steps.now low ≡ true → MatchBool result
        (fits_at_end f steps.now (low - 1) ≡ true)
        ((low ≡ 0) ⊎ (fits_at_end f steps.now (low - 1) ≡ false)) }
{
    low > 0 && may_take_nothing(&steps[low - 1])
}

/// Fills a blank row for the end of the text, at which a tail fits if its steps may all take
/// nothing.
pub(crate) fn fill_end(row: &mut [Cell], steps: &[Step]) -> Window
    requires room { length steps.now < length row.old }
    requires blank { IsBlank row.old }
    ensures row { (f : Rules) → IsRow f steps.now [] row.new }
    ensures lives { (f : Rules) → IsWindow f steps.now [] 0 result }
    ensures ordered { result.low ≤ result.high }
    ensures last { result.high ≡ length steps.now }
    ensures cells { (f : Rules) → step_cells f steps.now [] ≡ result.high + 1 - (result.low - 1) }
{
    let mut low = steps.len();
    row[low] = Cell::fit(true);
    while is_skipped(steps, low) {
        low -= 1;
        row[low] = Cell::fit(true);
    }
    Window {
        low,
        high: steps.len(),
    }
}
