//! Lists of texts in which a text is found after a few comparisons.
ghost use Rattle.std.specs.Prelude.{◌≡◌, ◌≤◌, map, length, All, IfOk};
ghost use Rattle.std.specs.List.{list_any, range_with_len};
ghost use Rattle.std.specs.Ordering.{nat_cmp, ordering_then};
ghost use Rattle.wq_base.specs.Compare.{folded_order, same_text};
ghost use Rattle.wq_base.specs.TextList.{AreInOrder, key_with, place_order, text_at, text_key, twofold_order};
ghost use Rattle.wq_base.specs.declared.compare.Case.TheVariants.{Exact, Folded};

use crate::compare::{Case, folded_order};
use crate::table::Table;
use std::alloc::{AllocError, Global};
use std::cmp::Ordering;
use std::marker::Model;

/// So many texts are looked at one by one, which takes no longer than a search among them.
const FEW: usize = 16;

/// More texts than these are looked at one by one too. No list of a program has more.
const MOST: usize = 65_536;

/// A list of texts. Contracts see the texts alone, and not their places in memory.
#[derive(Debug, Drop)]
pub struct TextList {
    texts: Table<Table<u8>>,
    /// The places of the texts in their order, or none if they are looked at one by one.
    order: Vec<Place>,
}

/// The place of a text, and its key. Keys are compared first, since they are at hand and mostly differ.
#[derive(Clone, Copy, Debug)]
pub(crate) struct Place {
    key: u32,
    place: u32,
}

impl Model for TextList {
    ghost use Rattle.std.specs.Prelude.{◌≡◌, ◌⊎◌, ℕ, List, []};
    ghost use Rattle.wq_base.specs.TextList.{AreInOrder};

    ghost Value = { List (List ℕ) };

    ghost view = { λ l. l.texts };

    ghost invariant = { λ l. (l.order.items ≡ []) ⊎ AreInOrder l.texts l.order.items };
}

impl TextList {
    /// The list of these texts.
    pub fn new(alloc: Global, texts: Table<Table<u8>>) -> Result<TextList, AllocError>
        ensures { IfOk result (λ list. list ≡ texts) }
    {
        let order = if texts.len() <= FEW || texts.len() > MOST {
            Vec::new(alloc)
        } else {
            in_order(alloc, texts.as_slice())?
        };
        Ok(TextList { texts, order })
    }

    /// The texts, given back. It takes no memory.
    pub fn into_table(self) -> Table<Table<u8>>
        ensures { result ≡ self }
    {
        self.texts
    }

    /// The texts.
    pub fn texts(&self) -> &[Table<u8>]
        ensures { result.now ≡ self.now }
    {
        self.texts.as_slice()
    }

    /// The number of texts.
    pub fn len(&self) -> usize
        ensures { result ≡ length self.now }
    {
        self.texts.len()
    }

    /// Whether a text is one of the list. The call compares it with each if they are 16 or fewer.
    /// Else it searches for the text's key, which takes 17 comparisons of numbers if they are 65,536.
    pub fn has(&self, case: Case, text: &[u8]) -> bool
        ensures { result ≡ list_any (λ one. same_text case one text.now) self.now }
    {
        let texts = self.texts.as_slice();
        let order = self.order.as_slice();
        if order.is_empty() {
            return is_one_of(case, texts, text);
        }
        match case {
            Case::Exact => has_exact(texts, order, text),
            Case::Folded => has_folded(texts, order, text),
        }
    }
}

/// Whether a text is one of these, by a look at each.
fn is_one_of(case: Case, texts: &[Table<u8>], text: &[u8]) -> bool
    ensures { result ≡ list_any (λ one. same_text case one text.now) texts.now }
{
    for one in texts {
        if case.is_same(one.as_slice(), text) {
            return true;
        }
    }
    false
}

/// Whether a text is one of these, by a search in their order.
fn has_exact(texts: &[Table<u8>], order: &[Place], text: &[u8]) -> bool
    requires { AreInOrder texts.now order.now }
    ensures { result ≡ list_any (λ one. same_text Exact one text.now) texts.now }
{
    let key = text_key(text);
    let at = order.binary_search_by(|place| exact_order(texts, place, key, text));
    at.is_ok()
}

/// Whether a text is one of these, if A to Z count as a to z, by a search in their order.
fn has_folded(texts: &[Table<u8>], order: &[Place], text: &[u8]) -> bool
    requires { AreInOrder texts.now order.now }
    ensures { result ≡ list_any (λ one. same_text Folded one text.now) texts.now }
{
    let key = text_key(text);
    let at = order.binary_search_by(|place| caseless_order(texts, place, key, text));
    at.is_ok()
}

/// The order of a place and a text with its key.
fn exact_order(texts: &[Table<u8>], place: &Place, key: u32, text: &[u8]) -> Ordering
    ensures { result ≡ ordering_then (nat_cmp place.now.key key)
        (twofold_order (text_at texts.now place.now.place) text.now) }
{
    match place.key.cmp(&key) {
        Ordering::Equal => twofold_order(text_at(texts, place.place), text),
        order => order,
    }
}

/// The same, if A to Z count as a to z.
fn caseless_order(texts: &[Table<u8>], place: &Place, key: u32, text: &[u8]) -> Ordering
    ensures { result ≡ ordering_then (nat_cmp place.now.key key)
        (folded_order (text_at texts.now place.now.place) text.now) }
{
    match place.key.cmp(&key) {
        Ordering::Equal => folded_order(text_at(texts, place.place), text),
        order => order,
    }
}

/// The order of two places: that of their keys, and then that of their texts.
fn place_order(texts: &[Table<u8>], a: &Place, b: &Place) -> Ordering
    ensures { result ≡ place_order texts.now a.now b.now }
{
    exact_order(texts, a, b.key, text_at(texts, b.place))
}

/// The places of the texts in their order.
fn in_order(alloc: Global, texts: &[Table<u8>]) -> Result<Vec<Place>, AllocError>
    requires { length texts.now ≤ 65536 }
    ensures { IfOk result (λ order. AreInOrder texts.now order.items) }
{
    let mut order = places(alloc, texts)?;
    order.sort_unstable_by(|a, b| place_order(texts, a, b));
    Ok(order)
}

/// The places of the texts, from the first one.
fn places(alloc: Global, texts: &[Table<u8>]) -> Result<Vec<Place>, AllocError>
    requires { length texts.now ≤ 65536 }
    ensures all { IfOk result (λ places. map (λ p. p.place) places.items
        ≡ range_with_len 0 (length texts.now)) }
    ensures keys { IfOk result (λ places.
        All (λ p. p.key ≡ text_key (text_at texts.now p.place)) places.items) }
{
    let mut places = Vec::with_capacity(alloc, texts.len())?;
    for place in 0..texts.len() as u32 {
        let key = text_key(text_at(texts, place));
        places.push(Place { key, place })?;
    }
    Ok(places)
}

/// The text at a place.
fn text_at(texts: &[Table<u8>], place: u32) -> &[u8]
    ensures { result.now ≡ text_at texts.now place }
{
    match texts.get(place as usize) {
        Some(text) => text.as_slice(),
        None => &[],
    }
}

/// The key of a text. Texts have the same one if A to Z count as a to z and they are the same.
fn text_key(text: &[u8]) -> u32
    ensures { result ≡ text_key text.now }
{
    let mut key = 2_166_136_261;
    for byte in text {
        key = key_with(key, byte.to_ascii_lowercase());
    }
    key
}

/// A key after one more byte.
fn key_with(key: u32, byte: u8) -> u32
    ensures { result ≡ key_with key byte }
{
    (key ^ u32::from(byte)).wrapping_mul(16_777_619)
}

/// The order of two texts, if A to Z count as a to z, and then that of their bytes as they are.
fn twofold_order(first: &[u8], second: &[u8]) -> Ordering
    ensures { result ≡ twofold_order first.now second.now }
{
    match folded_order(first, second) {
        Ordering::Equal => first.cmp(second),
        order => order,
    }
}
