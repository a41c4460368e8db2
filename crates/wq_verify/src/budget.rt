//! The greatest cost of a program.
ghost use Rattle.std.specs.Prelude.{◌≡◌, ◌≤◌, IfOk, IsTrue, List, length, map, slice_get, sum_by};
ghost use Rattle.std.specs.Option.{option_map_or};
ghost use Rattle.wq_code.specs.Fits.{raw_fits};
ghost use Rattle.wq_verify.specs.Limit.{max_file_name};
ghost use Rattle.wq_glob.specs.Pattern.{PatternData};
ghost use Rattle.wq_verify.specs.Budget.{most_cost, most_pattern_cost, longest_len, width_of, budget_of};
ghost use Rattle.wq_verify.specs.Budget.{pattern_weight, set_weight};

use crate::program::Program;
use std::alloc::{AllocError, Global};
use wq_base::Table;
use wq_code::{Op, Raw};
use wq_glob::Pattern;

/// The length of the longest text.
fn longest_len(texts: &[Table<u8>]) -> usize
    ensures { result ≡ longest_len texts.now }
{
    let mut most = 0;
    let mut left = texts;
    while let Some((text, others)) = left.split_first() {
        most = most.max(text.len());
        left = others;
    }
    most
}

/// The most bytes that a text on the stack can have.
fn width_of(raw: &Raw, name_len: u64) -> u64
    requires limits { IsTrue (raw_fits raw.now) }
    requires short { name_len ≤ max_file_name }
    ensures value { result ≡ width_of raw.now name_len }
    ensures low { result ≤ max_file_name }
{
    name_len.max(longest_len(raw.texts.as_slice()) as u64)
}

/// The most that a pattern can cost at each place of a text: a cell for each of its atoms, and one.
fn pattern_weight(pattern: &Pattern) -> u32
    ensures value { result ≡ pattern_weight pattern.now }
    ensures low { result ≤ 256 }
{
    pattern.atoms() as u32 + 1
}

/// The most that the patterns of a set can cost together at each place of a text.
fn set_weight(patterns: &[Pattern]) -> u32
    requires { length patterns.now ≤ 65536 }
    ensures { result ≡ set_weight patterns.now }
{
    let mut total = 0;
    for pattern in patterns {
        total += pattern_weight(pattern);
    }
    total
}

/// The most that each set of a program can cost at each place of a text. So the patterns of a set are
/// counted once, however many instructions try it.
pub(crate) fn set_weights(alloc: Global, raw: &Raw) -> Result<Vec<u32>, AllocError>
    requires { IsTrue (raw_fits raw.now) }
    ensures { IfOk result (λ weights. weights.items ≡ map set_weight raw.now.sets) }
{
    let mut left = raw.sets.as_slice();
    let mut weights = Vec::with_capacity(alloc, left.len())?;
    while let Some((patterns, others)) = left.split_first() {
        weights.push(set_weight(patterns.as_slice()))?;
        left = others;
    }
    Ok(weights)
}

/// The most that the pattern of `match` can cost on texts of this width.
fn match_cost(raw: &Raw, width: u64, place: u32) -> u64
    requires { width ≤ max_file_name }
    ensures value { result ≡
        option_map_or (most_pattern_cost width) (slice_get raw.now.patterns place) 0 }
    ensures low { result ≤ 1048832 }
{
    match raw.patterns.as_slice().get(place as usize) {
        Some(pattern) => u64::from(pattern_weight(pattern)) * (width + 1),
        None => 0,
    }
}

/// The most that the set of `anymatch` can cost on texts of this width, by what the sets can cost at
/// each place.
fn set_cost(weights: &[u32], width: u64, place: u32) -> u64
    requires { width ≤ max_file_name }
    ensures value { (sets : List (List PatternData)) → weights.now ≡ map set_weight sets
        → result ≡ option_map_or (sum_by (most_pattern_cost width)) (slice_get sets place) 0 }
    ensures low { result ≤ 17596481007615 }
{
    match weights.get(place as usize) {
        Some(weight) => u64::from(*weight) * (width + 1),
        None => 0,
    }
}

/// How many entries a list has.
fn list_cost(raw: &Raw, place: u32) -> u64
    requires { IsTrue (raw_fits raw.now) }
    ensures value { result ≡ option_map_or length (slice_get raw.now.lists place) 0 }
    ensures low { result ≤ 65536 }
{
    match raw.lists.as_slice().get(place as usize) {
        Some(entries) => entries.len() as u64,
        None => 0,
    }
}

/// The most that an instruction can cost with texts of this width.
fn cost(raw: &Raw, weights: &[u32], width: u64, op: Op) -> u64
    requires limits { IsTrue (raw_fits raw.now) }
    requires weights { weights.now ≡ map set_weight raw.now.sets }
    requires narrow { width ≤ max_file_name }
    ensures value { result ≡ most_cost raw.now width op }
    ensures low { result ≤ 17596481007616 }
{
    match op {
        Op::Match(place) => 1 + match_cost(raw, width, place),
        Op::AnyMatch(place) => 1 + set_cost(weights, width, place),
        Op::OneOf(_, place) => 1 + list_cost(raw, place),
        _ => 1,
    }
}

impl Program {
    /// The most that the program can cost on a name of `name_len` bytes, at most 4,096. Each
    /// instruction counts once, whether a run meets it or not, for 1. A pattern adds its atoms and
    /// one, times the bytes of the widest text and one, and so does each pattern of a set. A list
    /// adds its entries. It takes no memory.
    #[tactic(auto, unfolding(crate::specs::Budget::budget_of))]
    pub fn budget(&self, name_len: u64) -> u64
        requires { name_len ≤ max_file_name }
        ensures { result ≡ budget_of self.now name_len }
    {
        let raw = self.raw();
        let weights = self.weights();
        let width = width_of(raw, name_len);
        let mut total = 0;
        for op in raw.code.as_slice() {
            total += cost(raw, weights, width, *op);
        }
        total
    }
}
