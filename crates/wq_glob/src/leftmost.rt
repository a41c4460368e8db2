//! Tries a compiled pattern on a text from left to right: each `*` ends at the first place at which
//! the steps after it go on. It counts no cells. It gives no answer if the first place may be the
//! wrong one, and for `**` in the midst of stars. `row` answers for all.
ghost use Rattle.std.specs.Prelude.{◌≡◌, ◌<◌, ◌≤◌, ◌+◌, ◌==◌, ℕ, IfSome, IsTrue, true, false};
ghost use Rattle.std.specs.Prelude.{MatchOption, length, drop};
ghost use Rattle.wq_glob.specs.Cell.{mark_at, marks_at, marks_of, step_fits};
ghost use Rattle.wq_glob.specs.Fits.{has_no_hidden_dot, is_wild};
ghost use Rattle.wq_glob.specs.Leftmost.{AreTaken, HasNoName, IsFirstWild, IsNextName, IsNowhere};
ghost use Rattle.wq_glob.specs.Leftmost.{IsSettled, IsTurn};
ghost use Rattle.wq_glob.specs.Leftmost.{all_stay, are_shown, begins_below, begins_stars};
ghost use Rattle.wq_glob.specs.Leftmost.{begins_tail, first_takes, fits_from, single_takes};
ghost use Rattle.wq_glob.specs.Leftmost.{stays_in_name};
ghost use Rattle.wq_glob.specs.declared.rules.Rules.{Rules};

use crate::byte::lower_if;
use crate::row::seen_at;
use crate::rules::Rules;
use crate::search::{find, find_same, last_name};
use crate::step::Step;

/// How a pattern goes on after steps that took one byte each.
#[derive(Clone, Copy)]
pub(crate) enum Turn {
    /// The pattern and the text end together.
    Fits,
    /// The next step takes one byte and not the next one, or the pattern ends before the text.
    Differs,
    /// The next step is `*`.
    Star,
    /// The next step is `**/`.
    Directories,
    /// The next step is a last `**`.
    Rest,
}

/// Whether `*` may take the byte at a place.
#[inline(always)]
fn is_wild_at(text: &[u8], at: usize, rules: &Rules) -> bool
    requires { at < length text.now }
    ensures { result ≡ is_wild rules.now.flags (mark_at rules.now text.now at) }
{
    let byte = text[at];
    if byte != b'.' && byte != b'/' {
        return true;
    }
    seen_at(text, at, rules).wild
}

/// Whether the byte at a place is no hidden dot.
#[inline(always)]
fn is_shown_at(text: &[u8], at: usize, rules: &Rules) -> bool
    requires { at < length text.now }
    ensures { result ≡ has_no_hidden_dot (mark_at rules.now text.now at) }
{
    text[at] != b'.' || seen_at(text, at, rules).shown
}

/// Whether a step takes one byte, and may take that at a place.
#[inline(always)]
fn single_takes(step: &Step, text: &[u8], at: usize, rules: &Rules) -> bool
    requires { at < length text.now }
    ensures { result ≡ single_takes rules.now step.now (mark_at rules.now text.now at) }
{
    match step {
        Step::Byte(byte) => lower_if(rules.flags.fold, text[at]) == *byte,
        Step::AnyByte => is_wild_at(text, at, rules),
        Step::Set(set) => is_wild_at(text, at, rules) && rules.in_set(*set, text[at]),
        Step::Stars | Step::Below | Step::Tail | Step::Never => false,
    }
}

/// Whether there is a step at `k` and a byte at the place, and the step takes that byte alone.
#[inline(always)]
fn takes_at(steps: &[Step], k: usize, text: &[u8], at: usize, rules: &Rules) -> bool
    ensures within { IsTrue result → (k < length steps.now) × (at < length text.now) }
    ensures value { result
        ≡ first_takes rules.now (drop k steps.now) (marks_at rules.now text.now at) }
{
    if k >= steps.len() || at >= text.len() {
        return false;
    }
    single_takes(&steps[k], text, at, rules)
}

/// How many steps from `k` on take one byte each of those from a place on.
#[inline(always)]
fn taken(steps: &[Step], k: usize, text: &[u8], at: usize, rules: &Rules) -> usize
    requires step { k ≤ length steps.now }
    requires place { at ≤ length text.now }
    ensures taken { AreTaken rules.now steps.now text.now k at result }
    ensures stops { first_takes rules.now (drop (k + result) steps.now)
        (marks_at rules.now text.now (at + result)) ≡ false }
{
    let mut len = 0;
    while takes_at(steps, k + len, text, at + len, rules) {
        len += 1;
    }
    len
}

/// How the steps from `k` on go on at a place whose byte the first of them does not take alone.
#[inline(always)]
fn turn_at(steps: &[Step], k: usize, text: &[u8], at: usize, rules: &Rules) -> Turn
    requires step { k ≤ length steps.now }
    requires place { at ≤ length text.now }
    requires stops { first_takes rules.now (drop k steps.now)
        (marks_at rules.now text.now at) ≡ false }
    ensures { IsTurn result (fits_from rules.now steps.now text.now k at) (drop k steps.now) }
{
    if k == steps.len() {
        return if at == text.len() {
            Turn::Fits
        } else {
            Turn::Differs
        };
    }
    match &steps[k] {
        Step::Stars => Turn::Star,
        Step::Below => Turn::Directories,
        Step::Tail => Turn::Rest,
        Step::Byte(_) | Step::AnyByte | Step::Set(_) | Step::Never => Turn::Differs,
    }
}

/// After a byte that `*` may take, the next one that it may not take or that is after a slash.
#[inline(always)]
fn plain_end(text: &[u8], at: usize, to: usize) -> usize
    requires order { at < to }
    requires place { to ≤ length text.now }
    ensures after { at < result }
    ensures within { result ≤ to }
    ensures wild { (f : Rules) (i : ℕ) → at < i → i < result
        → is_wild f.flags (mark_at f text.now i) ≡ true }
{
    if text[at] == b'/' {
        return at + 1;
    }
    find_same(text, at + 1, to, b'/')
}

/// Whether there is a place before `to`, and `*` may take its byte.
#[inline(always)]
fn is_passed(text: &[u8], at: usize, to: usize, rules: &Rules) -> bool
    requires { to ≤ length text.now }
    ensures within { IsTrue result → at < to }
    ensures wild { at < to → result ≡ is_wild rules.now.flags (mark_at rules.now text.now at) }
{
    at < to && is_wild_at(text, at, rules)
}

/// The first place from `from` on with a byte that `*` may not take, or `to`.
#[inline(always)]
fn pass(text: &[u8], from: usize, to: usize, rules: &Rules) -> usize
    requires order { from ≤ to }
    requires place { to ≤ length text.now }
    ensures after { from ≤ result }
    ensures within { result ≤ to }
    ensures wild { (i : ℕ) → from ≤ i → i < result
        → is_wild rules.now.flags (mark_at rules.now text.now i) ≡ true }
    ensures stops { result < to
        → is_wild rules.now.flags (mark_at rules.now text.now result) ≡ false }
{
    let mut at = from;
    while is_passed(text, at, to, rules) {
        at = plain_end(text, at, to);
    }
    at
}

/// Whether none of so many steps from `k` on takes the byte at a place.
fn avoids(steps: &[Step], k: usize, len: usize, text: &[u8], at: usize, rules: &Rules) -> bool
    requires { k + len ≤ length steps.now }
    ensures { IsTrue result → (i : ℕ) → i < len
        → first_takes rules.now (drop (k + i) steps.now) (marks_at rules.now text.now at) ≡ false }
{
    let mut i = 0;
    while i < len {
        if takes_at(steps, k + i, text, at, rules) {
            return false;
        }
        i += 1;
    }
    true
}

/// Whether a `*` that begins at a place may take all bytes up to the end, or up to one that so many
/// steps from `k` on do not take either.
fn is_settled(steps: &[Step], k: usize, len: usize, text: &[u8], at: usize, rules: &Rules) -> bool
    requires steps { k + len ≤ length steps.now }
    requires place { at ≤ length text.now }
    ensures { IsTrue result → IsSettled rules.now steps.now text.now k len at }
{
    let end = pass(text, at, text.len(), rules);
    if end == text.len() {
        return true;
    }
    !is_wild_at(text, end, rules) && avoids(steps, k, len, text, end, rules)
}

/// The first place from `from` on with the byte that follows a `*`, if the `*` may take all before
/// it.
#[inline(always)]
fn seek_byte(text: &[u8], from: usize, byte: u8, rules: &Rules) -> Option<usize>
    requires { from ≤ length text.now }
    ensures { MatchOption result (IsNowhere rules.now text.now byte from)
        (IsFirstWild rules.now text.now byte from) }
{
    let place = find(text, from, byte, rules.flags.fold);
    if place == text.len() {
        return None;
    }
    if pass(text, from, place, rules) < place {
        return None;
    }
    Some(place)
}

/// A place from `from` on before which the steps after a `*` do not go on, or none if they go on
/// nowhere.
#[inline(always)]
fn seek(steps: &[Step], star: usize, text: &[u8], from: usize, rules: &Rules) -> Option<usize>
    requires stars { begins_stars (drop star steps.now) ≡ true }
    requires step { star < length steps.now }
    requires place { from ≤ length text.now }
    ensures after { IfSome result (λ place. from ≤ place) }
    ensures within { IfSome result (λ place. place ≤ length text.now) }
    ensures same { MatchOption result (fits_from rules.now steps.now text.now star from ≡ false)
        (λ place. fits_from rules.now steps.now text.now star from
        ≡ fits_from rules.now steps.now text.now star place) }
{
    if star + 1 == steps.len() {
        return Some(pass(text, from, text.len(), rules));
    }
    match &steps[star + 1] {
        Step::Byte(byte) => seek_byte(text, from, *byte, rules),
        _ => Some(from),
    }
}

/// Whether no dot from a place on is hidden.
fn is_shown(text: &[u8], from: usize, rules: &Rules) -> bool
    requires { from ≤ length text.now }
    ensures { IsTrue result → are_shown rules.now text.now from ≡ true }
{
    let mut at = from;
    while at < text.len() {
        if !is_shown_at(text, at, rules) {
            return false;
        }
        at += 1;
    }
    true
}

/// Whether the steps from a last `**` on fit the text from a place on, if they do and it is the
/// last step. A text with a hidden dot is left to rows, so that no dot is looked for again.
fn fits_rest(steps: &[Step], k: usize, text: &[u8], at: usize, rules: &Rules) -> Option<bool>
    requires rest { begins_tail (drop k steps.now) ≡ true }
    requires step { k < length steps.now }
    requires place { at ≤ length text.now }
    ensures { IfSome result (λ yes. yes ≡ fits_from rules.now steps.now text.now k at) }
{
    if k + 1 == steps.len() && is_shown(text, at, rules) {
        Some(true)
    } else {
        None
    }
}

/// Whether a `*` is the last step and may take all from a place on.
#[inline(always)]
fn takes_rest(steps: &[Step], star: usize, text: &[u8], from: usize, rules: &Rules) -> bool
    requires stars { begins_stars (drop star steps.now) ≡ true }
    requires place { from ≤ length text.now }
    ensures { IsTrue result → fits_from rules.now steps.now text.now star from ≡ true }
{
    star + 1 == steps.len() && pass(text, from, text.len(), rules) == text.len()
}

/// Whether the steps from a `*` on fit the text from a place on, if that is found without going
/// back: each `*` after it ends the search of the one before.
fn fits_stars(steps: &[Step], first: usize, text: &[u8], from: usize, rules: &Rules) -> Option<bool>
    requires stars { begins_stars (drop first steps.now) ≡ true }
    requires step { first < length steps.now }
    requires place { from ≤ length text.now }
    ensures { IfSome result (λ yes. yes ≡ fits_from rules.now steps.now text.now first from) }
{
    let mut star = first;
    let mut begin = from;
    loop {
        let Some(place) = seek(steps, star, text, begin, rules) else {
            return Some(false);
        };
        begin = place;
        let len = taken(steps, star + 1, text, begin, rules);
        let next = star + 1 + len;
        match turn_at(steps, next, text, begin + len, rules) {
            Turn::Fits => return Some(true),
            Turn::Directories | Turn::Rest => return None,
            Turn::Star => {
                if takes_rest(steps, next, text, begin + len, rules) {
                    return Some(true);
                }
                if !is_settled(steps, star + 1, len, text, begin + len, rules) {
                    return None;
                }
                star = next;
                begin += len;
            }
            Turn::Differs => {
                if begin == text.len() || !is_wild_at(text, begin, rules) {
                    return Some(false);
                }
                begin += 1;
            }
        }
    }
}

/// Whether the steps from `k` on fit the text from a place on, if no `**/` is among them and that
/// is found without going back.
fn fits_names(steps: &[Step], k: usize, text: &[u8], at: usize, rules: &Rules) -> Option<bool>
    requires step { k ≤ length steps.now }
    requires place { at ≤ length text.now }
    ensures { IfSome result (λ yes. yes ≡ fits_from rules.now steps.now text.now k at) }
{
    let len = taken(steps, k, text, at, rules);
    match turn_at(steps, k + len, text, at + len, rules) {
        Turn::Fits => Some(true),
        Turn::Differs => Some(false),
        Turn::Star => fits_stars(steps, k + len, text, at + len, rules),
        Turn::Rest => fits_rest(steps, k + len, text, at + len, rules),
        Turn::Directories => None,
    }
}

/// Where the next name begins, if `**/` may take the bytes from a place up to it.
fn next_name(text: &[u8], from: usize, rules: &Rules) -> Option<usize>
    requires { from ≤ length text.now }
    ensures after { IfSome result (λ next. from < next) }
    ensures within { IfSome result (λ next. next ≤ length text.now) }
    ensures next { MatchOption result (HasNoName rules.now text.now from)
        (IsNextName rules.now text.now from) }
{
    let mut at = from;
    while at < text.len() {
        if !is_shown_at(text, at, rules) {
            return None;
        }
        let byte = text[at];
        at += 1;
        if byte == b'/' {
            return Some(at);
        }
    }
    None
}

/// Whether a step takes no slash.
#[inline(always)]
fn stays_in_name(step: &Step, rules: &Rules) -> bool
    ensures { result ≡ stays_in_name rules.now step.now }
{
    match step {
        Step::Byte(byte) => *byte != b'/',
        Step::AnyByte | Step::Set(_) | Step::Stars => rules.flags.wholename,
        Step::Below | Step::Tail => false,
        Step::Never => true,
    }
}

/// Whether no step from `k` on takes a slash.
#[inline(always)]
fn stay_in_name(steps: &[Step], k: usize, rules: &Rules) -> bool
    requires { k ≤ length steps.now }
    ensures { IsTrue result → all_stay rules.now (drop k steps.now) ≡ true }
{
    let mut i = k;
    while i < steps.len() {
        if !stays_in_name(&steps[i], rules) {
            return false;
        }
        i += 1;
    }
    true
}

/// The first place from `from` on, and before `to`, with a hidden dot, or `to`.
#[inline(always)]
fn first_hidden(text: &[u8], from: usize, to: usize, rules: &Rules) -> usize
    requires order { from ≤ to }
    requires place { to ≤ length text.now }
    ensures after { from ≤ result }
    ensures within { result ≤ to }
    ensures shown { (i : ℕ) → from ≤ i → i < result
        → has_no_hidden_dot (mark_at rules.now text.now i) ≡ true }
    ensures stops { result < to
        → has_no_hidden_dot (mark_at rules.now text.now result) ≡ false }
{
    let mut at = from;
    while at < to {
        if !is_shown_at(text, at, rules) {
            return at;
        }
        at += 1;
    }
    to
}

/// Whether the steps from a `**/` on fit the text from a place on. The later ones take no slash, so
/// they fit the last name or nothing.
fn fits_last_name(steps: &[Step], k: usize, text: &[u8], from: usize, rules: &Rules) -> Option<bool>
    requires below { begins_below (drop k steps.now) ≡ true }
    requires step { k < length steps.now }
    requires stay { all_stay rules.now (drop (k + 1) steps.now) ≡ true }
    requires place { from ≤ length text.now }
    ensures { IfSome result (λ yes. yes ≡ fits_from rules.now steps.now text.now k from) }
{
    let name = last_name(text, from);
    if !fits_names(steps, k + 1, text, name, rules)? {
        return Some(false);
    }
    Some(first_hidden(text, from, name, rules) == name)
}

/// Whether the steps from a `**/` on fit the text from a place on, if that is found by trying the
/// later ones at each name, or at the last one if they take no slash.
fn fits_below(steps: &[Step], k: usize, text: &[u8], from: usize, rules: &Rules) -> Option<bool>
    requires below { begins_below (drop k steps.now) ≡ true }
    requires step { k < length steps.now }
    requires place { from ≤ length text.now }
    ensures { IfSome result (λ yes. yes ≡ fits_from rules.now steps.now text.now k from) }
{
    if stay_in_name(steps, k + 1, rules) {
        return fits_last_name(steps, k, text, from, rules);
    }
    let mut begin = from;
    loop {
        if fits_names(steps, k + 1, text, begin, rules)? {
            return Some(true);
        }
        match next_name(text, begin, rules) {
            Some(next) => begin = next,
            None => return Some(false),
        }
    }
}

/// Whether the steps fit the text, if that is found from left to right.
pub(crate) fn answer_of(steps: &[Step], text: &[u8], rules: &Rules) -> Option<bool>
    ensures { IfSome result
        (λ yes. yes ≡ step_fits rules.now steps.now (marks_of rules.now text.now)) }
{
    let len = taken(steps, 0, text, 0, rules);
    match turn_at(steps, len, text, len, rules) {
        Turn::Fits => Some(true),
        Turn::Differs => Some(false),
        Turn::Star => fits_stars(steps, len, text, len, rules),
        Turn::Directories => fits_below(steps, len, text, len, rules),
        Turn::Rest => fits_rest(steps, len, text, len, rules),
    }
}
