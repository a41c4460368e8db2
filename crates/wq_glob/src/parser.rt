//! Reads a pattern into the steps that the matcher runs, one for each atom, from left to right.
//! `class` reads classes, `rules` keeps their sets, and `row` says how steps take a text.
ghost use Rattle.std.specs.Prelude.{◌≡◌, ◌<◌, ◌≤◌, ℕ, List, [], ◌∷◌, ◌++◌, ◌&&◌, ◌||◌, length};
ghost use Rattle.std.specs.Prelude.{drop, if◌then◌else◌, IfOk, true};
ghost use Rattle.wq_glob.specs.Atom.{atoms_from, first_atom, known_class, literal_at, one_of_at};
ghost use Rattle.wq_glob.specs.Atom.{stars_at};
ghost use Rattle.std.specs.List.{prefix_len};
ghost use Rattle.wq_glob.specs.Byte.{is_star};
ghost use Rattle.wq_glob.specs.Member.{AreMembers};
ghost use Rattle.wq_glob.specs.Reading.{begins, is_negation};
ghost use Rattle.wq_glob.specs.Step.{AllStand, IsKept, IsPieceOf, step_opens};
ghost use Rattle.wq_glob.specs.declared.class.Item.{Item};

use crate::byte::{begins, behind, lower_if};
use crate::byte_set::ByteSet;
use crate::class::{Members, class_set, letter, read_items};
use crate::flag::Flags;
use crate::limit::MAX_PATTERN;
use crate::rules::Rules;
use crate::step::Step;
use std::alloc::{AllocError, Global};

/// An atom as it is read: its step, or the set of its class, which has no number yet.
pub(crate) enum Piece {
    Plain(Step),
    Held(ByteSet),
}

/// A pattern as it was read: its steps, and what these refer to.
#[derive(Drop)]
pub(crate) struct Compiled {
    pub(crate) rules: Rules,
    pub(crate) steps: Vec<Step>,
}

/// The byte at the front of a text, or the one after its backslash, and the rest.
#[tactic(auto, unfolding(crate::specs::Atom::literal_at))]
fn literal(text: &[u8], flags: Flags) -> (Piece, &[u8])
    ensures stands { IsPieceOf flags result.0 (literal_at flags.noescape text.now).0 }
    ensures rest { result.1.now ≡ (literal_at flags.noescape text.now).1 }
{
    match letter(text, flags.noescape) {
        Some((byte, after)) => (Piece::Plain(Step::Byte(lower_if(flags.fold, byte))), after),
        None => (Piece::Plain(Step::Never), &text[..0]),
    }
}

/// A class with these members.
fn class_piece(members: Members, negated: bool, flags: Flags) -> Piece
    ensures { (items : List Item) → AreMembers members items
        → IsPieceOf flags result (known_class record { negated = negated; items = items }) }
{
    if members.known {
        Piece::Held(class_set(&members.set, negated, flags.fold))
    } else {
        Piece::Plain(Step::Never)
    }
}

/// Whether a class is negated, by the text after its `[`.
fn is_negated(text: &[u8]) -> bool
    ensures { result ≡ begins is_negation text.now }
{
    begins(text, b'!') || begins(text, b'^')
}

/// The items of a class, by the text after its `[`.
fn items_of(text: &[u8]) -> &[u8]
    ensures { result.now ≡ (if begins is_negation text.now then drop 1 text.now else text.now) }
{
    if is_negated(text) { behind(text) } else { text }
}

/// The class after a `[`, and the rest.
fn one_of(text: &[u8], flags: Flags) -> (Piece, &[u8])
    ensures stands { IsPieceOf flags result.0 (one_of_at flags.noescape text.now).0 }
    ensures rest { result.1.now ≡ (one_of_at flags.noescape text.now).1 }
{
    match read_items(items_of(text), flags.noescape) {
        Some((members, after)) => (class_piece(members, is_negated(text), flags), after),
        None => (Piece::Plain(Step::Never), &text[..0]),
    }
}

/// How many stars a text begins with.
fn star_run(text: &[u8]) -> usize
    ensures run { result ≡ prefix_len is_star text.now }
    ensures within { result ≤ length text.now }
{
    text.iter().take_while(|b| **b == b'*').count()
}

/// The run of stars at the front of a text, and the rest.
#[tactic(auto, unfolding(crate::specs::Atom::stars_at))]
fn stars(text: &[u8], at_start: bool, flags: Flags) -> (Piece, &[u8])
    ensures stands { IsPieceOf flags result.0 (stars_at flags.wholename at_start text.now).0 }
    ensures rest { result.1.now ≡ (stars_at flags.wholename at_start text.now).1 }
{
    let run = star_run(text);
    let after = &text[run..];
    if !(flags.wholename && at_start && run >= 2) {
        (Piece::Plain(Step::Stars), after)
    } else if after.is_empty() {
        (Piece::Plain(Step::Tail), after)
    } else if begins(after, b'/') {
        (Piece::Plain(Step::Below), behind(after))
    } else {
        (Piece::Plain(Step::Stars), after)
    }
}

/// The atom at the front of a text, and the rest.
#[tactic(auto, unfolding(crate::specs::Atom::first_atom))]
fn first_piece(text: &[u8], at_start: bool, flags: Flags) -> (Piece, &[u8])
    requires { 0 < length text.now }
    ensures stands { IsPieceOf flags result.0 (first_atom flags at_start text.now).0 }
    ensures rest { result.1.now ≡ (first_atom flags at_start text.now).1 }
{
    if begins(text, b'*') {
        stars(text, at_start, flags)
    } else if begins(text, b'?') {
        (Piece::Plain(Step::AnyByte), behind(text))
    } else if begins(text, b'[') {
        one_of(behind(text), flags)
    } else {
        literal(text, flags)
    }
}

/// Whether a run of stars after the step may stand for directories.
fn opens(step: &Step) -> bool
    ensures { result ≡ step_opens step.now }
{
    match step {
        Step::Byte(byte) => *byte == b'/',
        Step::Below => true,
        _ => false,
    }
}

/// The step of a piece, whose set, if it has one, is put after the others.
fn kept(piece: Piece, sets: &mut Vec<ByteSet>) -> Result<Step, AllocError>
    requires room { length sets.old.items < 256 }
    ensures { IfOk result (λ step. IsKept piece sets.old.items sets.new.items step) }
{
    match piece {
        Piece::Plain(step) => Ok(step),
        Piece::Held(set) => {
            let number = sets.len() as u8;
            sets.push(set)?;
            Ok(Step::Set(number))
        }
    }
}

/// The steps of a pattern, one for each of its atoms, and the sets of its classes.
pub(crate) fn read_steps(alloc: Global, text: &[u8], flags: Flags) -> Result<Compiled, AllocError>
    requires short { length text.now ≤ MAX_PATTERN }
    ensures { IfOk result (λ compiled. (compiled.rules.flags ≡ flags)
        × AllStand compiled.rules compiled.steps.items
        (atoms_from (length text.now) flags true text.now)) }
{
    let mut steps = Vec::new(alloc);
    let mut sets = Vec::new(alloc);
    let mut rest = text;
    let mut at_start = true;
    while !rest.is_empty() {
        let (piece, after) = first_piece(rest, at_start, flags);
        let step = kept(piece, &mut sets)?;
        steps.push(step)?;
        at_start = opens(&step);
        rest = after;
    }
    Ok(Compiled {
        rules: Rules { flags, sets },
        steps,
    })
}
