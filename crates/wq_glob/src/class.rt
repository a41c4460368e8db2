//! Reads the classes of a pattern, as `[a-z]` or `[![:digit:]]`, into sets of bytes. It finds the
//! end of a class, and the texts that are no class. `matching` tries a set on a text.
ghost use Rattle.std.specs.Prelude.{◌≡◌, ◌<◌, ◌==◌, ℕ, ◌+◌, List, [], ◌∷◌, ◌++◌, ◌||◌, length, true};
ghost use Rattle.std.specs.Prelude.{drop, None, Some, MatchOption, option_map, not, position};
ghost use Rattle.std.specs.Prelude.{IfSome, IsTrue, ◌≤◌, ◌-◌, ◌&&◌, nat_le, slice_index};
ghost use Rattle.wq_base.specs.Byte.{is_colon};
ghost use Rattle.wq_glob.specs.Byte.{is_between, is_close};
ghost use Rattle.wq_glob.specs.ByteSet.{has_byte};
ghost use Rattle.wq_glob.specs.Class.{in_item, in_name, in_class, in_either_case};
ghost use Rattle.wq_glob.specs.Member.{AreMembers, HasItems, Holds};
ghost use Rattle.wq_glob.specs.Reading.{begins, is_behind_colon, letter, item_named, named_item};
ghost use Rattle.wq_glob.specs.Reading.{range_end, plain_item, first_item, class_items};

use crate::byte::{begins, behind, lower, upper};
use crate::byte_set::ByteSet;

/// A named class of POSIX, in ASCII.
#[derive(Clone, Copy)]
pub(crate) enum ClassName {
    Alnum,
    Alpha,
    Blank,
    Cntrl,
    Digit,
    Graph,
    Lower,
    Print,
    Punct,
    Space,
    Upper,
    Xdigit,
}

/// An item between the brackets of a class.
#[derive(Clone, Copy)]
pub(crate) enum Item {
    /// The first byte, and all bytes from it to the last; if the last is lower, the first alone.
    Range(u8, u8),
    Named(ClassName),
    /// A name between `[:` and `:]` that is the name of no class.
    Unknown,
}

/// The bytes of the items of a class, and whether all their names are known.
#[derive(Clone, Copy)]
pub(crate) struct Members {
    pub(crate) set: ByteSet,
    pub(crate) known: bool,
}

/// Whether a named class holds the byte.
fn in_name(name: ClassName, byte: u8) -> bool
    ensures { result ≡ in_name name byte }
{
    match name {
        ClassName::Alnum => byte.is_ascii_alphanumeric(),
        ClassName::Alpha => byte.is_ascii_alphabetic(),
        ClassName::Blank => byte == b' ' || byte == b'\t',
        ClassName::Cntrl => byte.is_ascii_control(),
        ClassName::Digit => byte.is_ascii_digit(),
        ClassName::Graph => byte.is_ascii_graphic(),
        ClassName::Lower => byte.is_ascii_lowercase(),
        ClassName::Print => byte.is_ascii_graphic() || byte == b' ',
        ClassName::Punct => byte.is_ascii_graphic() && !byte.is_ascii_alphanumeric(),
        ClassName::Space => (byte >= 9 && byte <= 13) || byte == b' ',
        ClassName::Upper => byte.is_ascii_uppercase(),
        ClassName::Xdigit => byte.is_ascii_hexdigit(),
    }
}

/// The class of this name.
#[tactic(auto, unfolding(crate::specs::Reading::item_named))]
fn item_named(name: &[u8]) -> Item
    ensures { result ≡ item_named name.now }
{
    match name {
        b"alnum" => Item::Named(ClassName::Alnum),
        b"alpha" => Item::Named(ClassName::Alpha),
        b"blank" => Item::Named(ClassName::Blank),
        b"cntrl" => Item::Named(ClassName::Cntrl),
        b"digit" => Item::Named(ClassName::Digit),
        b"graph" => Item::Named(ClassName::Graph),
        b"lower" => Item::Named(ClassName::Lower),
        b"print" => Item::Named(ClassName::Print),
        b"punct" => Item::Named(ClassName::Punct),
        b"space" => Item::Named(ClassName::Space),
        b"upper" => Item::Named(ClassName::Upper),
        b"xdigit" => Item::Named(ClassName::Xdigit),
        _ => Item::Unknown,
    }
}

/// The byte that the front of a text stands for, and the bytes after it.
pub(crate) fn letter(text: &[u8], noescape: bool) -> Option<(u8, &[u8])>
    ensures { option_map (λ (read, after). (read, after.now)) result ≡ letter noescape text.now }
{
    let text = if !noescape && begins(text, b'\\') {
        &text[1..]
    } else {
        text
    };
    if text.is_empty() {
        return None;
    }
    Some((text[0], &text[1..]))
}

/// The place of the first `]`.
fn close_of(text: &[u8]) -> Option<usize>
    ensures place { result ≡ position is_close text.now }
    ensures within { IfSome result (λ i. i < length text.now) }
{
    text.iter().position(|b| *b == b']')
}

/// Whether a colon is before the place.
fn is_behind_colon(text: &[u8], place: usize) -> bool
    requires { place ≤ length text.now }
    ensures later { IsTrue result → 1 ≤ place }
    ensures value { result ≡ (is_behind_colon text.now place) }
{
    place >= 1 && text[place - 1] == b':'
}

/// After `[:`, the named class up to `:]`, and the rest.
#[tactic(auto, unfolding(crate::specs::Reading::named_item))]
fn named_item(text: &[u8]) -> Option<(Item, &[u8])>
    ensures { option_map (λ (read, after). (read, after.now)) result ≡ named_item text.now }
{
    let Some(end) = close_of(text) else {
        return None;
    };
    if is_behind_colon(text, end) {
        Some((item_named(&text[..end - 1]), &text[end + 1..]))
    } else {
        None
    }
}

/// After the first byte of a range, the byte that ends it, and the rest.
#[tactic(auto, unfolding(crate::specs::Reading::range_end))]
fn range_end(text: &[u8], noescape: bool) -> Option<(u8, &[u8])>
    ensures { option_map (λ (read, after). (read, after.now)) result ≡ range_end noescape text.now }
{
    if begins(text, b'-') && !begins(&text[1..], b']') {
        letter(&text[1..], noescape)
    } else {
        None
    }
}

/// The item at the front of a text that is no named class, and the rest.
#[tactic(auto, unfolding(crate::specs::Reading::plain_item, crate::specs::Reading::item_from))]
fn plain_item(text: &[u8], noescape: bool) -> Option<(Item, &[u8])>
    ensures { option_map (λ (read, after). (read, after.now)) result
        ≡ plain_item noescape text.now }
{
    let (first, after) = letter(text, noescape)?;
    match range_end(after, noescape) {
        Some((last, rest)) => Some((Item::Range(first, last), rest)),
        None => Some((Item::Range(first, first), after)),
    }
}

/// The item at the front of a text, and the rest.
#[tactic(auto, unfolding(crate::specs::Reading::first_item))]
fn first_item(text: &[u8], noescape: bool) -> Option<(Item, &[u8])>
    ensures { option_map (λ (read, after). (read, after.now)) result
        ≡ first_item noescape text.now }
{
    if begins(text, b'[') && begins(&text[1..], b':') {
        match named_item(&text[2..]) {
            Some(named) => Some(named),
            None => plain_item(text, noescape),
        }
    } else {
        plain_item(text, noescape)
    }
}

/// Adds the first byte of a range and those from it to the last.
fn insert_range(set: &mut ByteSet, first: u8, last: u8)
    ensures { (b : ℕ) → b < 256
        → has_byte set.new b ≡ (has_byte set.old b || (b == first || is_between first last b)) }
{
    set.insert(first);
    for n in usize::from(first)..usize::from(last) + 1 {
        set.insert(n as u8);
    }
}

/// Adds the bytes of a named class.
fn insert_name(set: &mut ByteSet, name: ClassName)
    ensures { (b : ℕ) → b < 256 → has_byte set.new b ≡ (has_byte set.old b || in_name name b) }
{
    for n in 0..256usize {
        let byte = n as u8;
        if in_name(name, byte) {
            set.insert(byte);
        }
    }
}

/// Adds the bytes that an item holds. An item of one byte takes one step.
fn insert_item(set: &mut ByteSet, item: Item)
    ensures { (b : ℕ) → b < 256 → has_byte set.new b ≡ (has_byte set.old b || in_item b item) }
{
    match item {
        Item::Range(first, last) => insert_range(set, first, last),
        Item::Named(name) => insert_name(set, name),
        Item::Unknown => {}
    }
}

impl Members {
    /// The members of no items.
    fn none() -> Members
        ensures { AreMembers result [] }
    {
        Members {
            set: ByteSet::empty(),
            known: true,
        }
    }

    /// Adds the bytes of one more item.
    fn add(&mut self, item: Item)
        ensures { (items : List Item)
            → AreMembers self.old items → AreMembers self.new (items ++ item ∷ []) }
    {
        insert_item(&mut self.set, item);
        self.known = self.known && !matches!(item, Item::Unknown);
    }
}

/// The members of the items of a class, up to the `]` that ends it, and the text after it.
pub(crate) fn read_items(text: &[u8], noescape: bool) -> Option<(Members, &[u8])>
    ensures { MatchOption result (class_items noescape text.now ≡ None)
        (λ (members, after). HasItems (class_items noescape text.now) members after.now) }
{
    let mut members = Members::none();
    let Some((first, mut rest)) = first_item(text, noescape) else {
        return None;
    };
    members.add(first);
    while !begins(rest, b']') {
        let Some((item, after)) = first_item(rest, noescape) else {
            return None;
        };
        members.add(item);
        rest = after;
    }
    Some((members, behind(rest)))
}

/// Whether the items of a class hold a byte or the same letter in its other form.
fn is_held(set: &ByteSet, byte: u8) -> bool
    ensures { (items : List Item) → Holds set.now items → result ≡ in_either_case true items byte }
{
    set.has(byte) || set.has(lower(byte)) || set.has(upper(byte))
}

/// The bytes of the items of a class, and the same letters in their other form.
fn in_both_cases(set: &ByteSet) -> ByteSet
    ensures { (items : List Item) → Holds set.now items → (b : ℕ) → b < 256
        → has_byte result b ≡ in_either_case true items b }
{
    let mut held = *set;
    // The letters are bytes from 65, `A`, to 122, `z`.
    for n in 65..123usize {
        let byte = n as u8;
        if is_held(set, byte) {
            held.insert(byte);
        }
    }
    held
}

/// The bytes of the items of a class, as a text is compared that leaves out case or does not.
fn cased(set: &ByteSet, fold: bool) -> ByteSet
    ensures { (items : List Item) → Holds set.now items → (b : ℕ) → b < 256
        → has_byte result b ≡ in_either_case fold items b }
{
    if fold { in_both_cases(set) } else { *set }
}

/// The bytes of a class whose items hold the set. Letters of both cases are added first, if case is
/// left out; then the class is negated.
pub(crate) fn class_set(set: &ByteSet, negated: bool, fold: bool) -> ByteSet
    ensures { (items : List Item) → Holds set.now items → (b : ℕ) → b < 256
        → has_byte result b ≡ in_class fold record { negated = negated; items = items } b }
{
    let held = cased(set, fold);
    if negated { held.complement() } else { held }
}
