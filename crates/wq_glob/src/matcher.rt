//! Tries a compiled pattern on a text: first the last byte, then the leading bytes one by one, and
//! then row by row from the end of the text. `row` defines rows.
ghost use Rattle.std.specs.Prelude.{◌≡◌, ◌<◌, ◌≤◌, ◌+◌, ◌-◌, ◌*◌, ◌&&◌, ℕ, List, ◌∷◌, [], length};
ghost use Rattle.std.specs.Prelude.{drop, true, false, IsTrue, MatchOption, ⊤};
ghost use Rattle.std.specs.Bool.{MatchBool};
ghost use Rattle.wq_glob.specs.Cell.{IsBlank, marks_at, marks_of, step_agrees, step_cells};
ghost use Rattle.wq_glob.specs.Cell.{step_fits};
ghost use Rattle.wq_glob.specs.Cost.{begins_literal, cost, differs_at_end, front};
ghost use Rattle.wq_glob.specs.Least.{least_of};
ghost use Rattle.wq_glob.specs.Step.{step_form};

use crate::byte::lower_if;
use crate::leftmost::answer_of;
use crate::limit::{MAX_MATCHED_TEXT, MAX_PATTERN};
use crate::row::{Cell, fill_end, renew};
use crate::rules::Rules;
use crate::step::Step;

/// The answer of [`Pattern::matches`](crate::Pattern::matches).
#[derive(Clone, Copy, Debug, PartialEq, Eq)]
pub struct Hit {
    /// The pattern fits the text.
    pub yes: bool,
    /// The cost of the answer: how many cells of the table of atoms and places it counts, as the
    /// definition `cells_of` says.
    pub cells: u64,
}

/// Fills rows from the end of the text down to `from`, until one has no live cell.
fn run(row: &mut [Cell], steps: &[Step], text: &[u8], from: usize, rules: &Rules) -> Hit
    requires room { length steps.now < length row.old }
    requires blank { IsBlank row.old }
    requires small { length steps.now ≤ MAX_PATTERN }
    requires short { length text.now ≤ MAX_MATCHED_TEXT }
    requires place { from ≤ length text.now }

    ensures yes { result.yes ≡ step_fits rules.now steps.now (marks_at rules.now text.now from) }
    ensures cells { result.cells
        ≡ step_cells rules.now steps.now (marks_at rules.now text.now from) }
    ensures bounded { result.cells ≤ (length steps.now + 1) * (length text.now - from + 1) }
    ensures counted { IsTrue result.yes → length text.now - from + 1 ≤ result.cells }
    ensures looked { 1 ≤ result.cells }
{
    let mut window = fill_end(row, steps);
    // The cells of the window, and the dead one before it if there is one.
    let mut cells = (window.high + 1 - window.low.saturating_sub(1)) as u64;
    let mut at = text.len();
    while at > from {
        at -= 1;
        let renewal = renew(row, window, steps, text, at, rules);
        cells += renewal.cells;
        let Some(live) = renewal.window else {
            return Hit { yes: false, cells };
        };
        window = live;
    }
    Hit {
        yes: row[0].fits,
        cells,
    }
}

/// Whether the step at a place is a byte.
fn is_byte_at(steps: &[Step], at: usize) -> bool
    ensures { (f : Rules) → result ≡ begins_literal (step_form f) (drop at steps.now) }
{
    at < steps.len() && matches!(&steps[at], Step::Byte(_))
}

/// Whether the step at a place is a byte that the text has there.
fn agrees_at(steps: &[Step], text: &[u8], at: usize, rules: &Rules) -> bool
    ensures within { IsTrue result → (at < length steps.now) × (at < length text.now) }
    ensures value { at ≤ length text.now
        → result ≡ step_agrees rules.now steps.now text.now at }
{
    if at >= steps.len() || at >= text.len() {
        return false;
    }
    match &steps[at] {
        Step::Byte(byte) => lower_if(rules.flags.fold, text[at]) == *byte,
        _ => false,
    }
}

/// How many steps at the front of a pattern are bytes that the text has in their places.
fn front_of(steps: &[Step], text: &[u8], rules: &Rules) -> usize
    ensures steps { result ≤ length steps.now }
    ensures text { result ≤ length text.now }
    ensures front { result ≡ front (step_form rules.now) steps.now (marks_at rules.now text.now 0) }
    ensures stops { step_agrees rules.now steps.now text.now result ≡ false }
    ensures same { step_fits rules.now steps.now (marks_at rules.now text.now 0)
        ≡ step_fits rules.now (drop result steps.now) (marks_at rules.now text.now result) }
{
    let mut len = 0;
    while agrees_at(steps, text, len, rules) {
        len += 1;
    }
    len
}

/// Whether a pattern ends in a byte that the text does not end in.
fn differs_at_end(steps: &[Step], text: &[u8], rules: &Rules) -> bool
    ensures answer { IsTrue result
        → step_fits rules.now steps.now (marks_of rules.now text.now) ≡ false }
    ensures value { result
        ≡ differs_at_end (step_form rules.now) steps.now (marks_of rules.now text.now) }
{
    if steps.is_empty() {
        return false;
    }
    let Step::Byte(byte) = &steps[steps.len() - 1] else {
        return false;
    };
    text.is_empty() || lower_if(rules.flags.fold, text[text.len() - 1]) != *byte
}

/// How many cells a row has on the stack for most patterns, and for the longest.
const SHORT_ROW: usize = 32;

const LONG_ROW: usize = MAX_PATTERN + 1;

fn short_row() -> [Cell; SHORT_ROW]
    ensures blank { IsBlank result }
    ensures len { length result ≡ SHORT_ROW }
{
    [Cell::DEAD; SHORT_ROW]
}

fn long_row() -> [Cell; LONG_ROW]
    ensures blank { IsBlank result }
    ensures len { length result ≡ LONG_ROW }
{
    [Cell::DEAD; LONG_ROW]
}

/// Fills rows for the steps after the front, in as much room as these take.
fn hit_by_rows(steps: &[Step], text: &[u8], from: usize, rules: &Rules) -> Hit
    requires small { length steps.now ≤ MAX_PATTERN }
    requires short { length text.now ≤ MAX_MATCHED_TEXT }
    requires place { from ≤ length text.now }

    ensures yes { result.yes ≡ step_fits rules.now steps.now (marks_at rules.now text.now from) }
    ensures cells { result.cells
        ≡ step_cells rules.now steps.now (marks_at rules.now text.now from) }
    ensures bounded { result.cells ≤ (length steps.now + 1) * (length text.now - from + 1) }
    ensures counted { IsTrue result.yes → length text.now - from + 1 ≤ result.cells }
    ensures looked { 1 ≤ result.cells }
{
    if steps.len() < SHORT_ROW {
        run(&mut short_row(), steps, text, from, rules)
    } else {
        run(&mut long_row(), steps, text, from, rules)
    }
}

/// Whether the steps fit the text, and the cost of the answer.
#[inline(always)]
pub(crate) fn hit_of(steps: &[Step], text: &[u8], rules: &Rules) -> Hit
    requires small { length steps.now ≤ MAX_PATTERN }
    requires short { length text.now ≤ MAX_MATCHED_TEXT }

    ensures yes { result.yes ≡ step_fits rules.now steps.now (marks_of rules.now text.now) }
    ensures cells { result.cells
        ≡ cost (step_form rules.now) steps.now (marks_of rules.now text.now) }
    ensures bounded { result.cells ≤ (length steps.now + 1) * (length text.now + 1) }
    ensures counted { IsTrue result.yes → length text.now + 1 ≤ result.cells }
    ensures looked { 1 ≤ result.cells }
{
    if differs_at_end(steps, text, rules) {
        return Hit {
            yes: false,
            cells: 1,
        };
    }
    let same = front_of(steps, text, rules);
    if is_byte_at(steps, same) {
        // The last byte, the bytes that are the same and the one that differs.
        return Hit {
            yes: false,
            cells: same as u64 + 2,
        };
    }
    let hit = hit_by_rows(&steps[same..], text, same, rules);
    Hit {
        yes: hit.yes,
        cells: hit.cells + same as u64,
    }
}

/// Whether the steps fit the text, without the cost. A text with fewer bytes than they need, or
/// with another last byte, is refused first. The rest is done from left to right if that gives the
/// answer, and else by rows.
#[inline(always)]
pub(crate) fn fits_of(steps: &[Step], least: usize, text: &[u8], rules: &Rules) -> bool
    requires small { length steps.now ≤ MAX_PATTERN }
    requires least { least ≤ least_of steps.now }
    requires short { length text.now ≤ MAX_MATCHED_TEXT }
    ensures { result ≡ step_fits rules.now steps.now (marks_of rules.now text.now) }
{
    if text.len() < least || differs_at_end(steps, text, rules) {
        return false;
    }
    match answer_of(steps, text, rules) {
        Some(yes) => yes,
        None => hit_of(steps, text, rules).yes,
    }
}
