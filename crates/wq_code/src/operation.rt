//! The instructions of a program. `specs/Signature.antt`, `specs/Flow.antt` and
//! `specs/Machine.antt` say what each needs, leaves and does, and `specs/Word.antt` how it is
//! written.

use wq_base::{Case, Relation};

/// The kind of a cell of the machine's stack.
#[derive(Clone, Copy, Debug)]
pub enum CellKind {
    /// Yes or no.
    Flag,
    /// A whole number of 64 bits, with a sign.
    Number,
    /// Bytes.
    Text,
}

/// An instruction. A number inside is the place of a constant in its table, or of an instruction in
/// the code; both count from 0.
#[derive(Clone, Copy, Debug)]
pub enum Op {
    /// `flag`: puts this flag on the stack.
    Flag(bool),
    /// `num`: puts a constant of the numbers on the stack.
    Number(u32),
    /// `text`: puts a constant of the texts on the stack.
    Text(u32),
    /// `wholename`: the file's name, relative to its root.
    WholeName,
    /// `basename`: the part after the last slash of the name.
    BaseName,
    /// `suffix`: the part after the last dot of the basename, or the empty text.
    Suffix,
    /// `size`: the file's size in bytes.
    Size,
    /// `mtime`: the file's modification time in seconds of the Unix epoch, rounded down.
    Mtime,
    /// `oclock`: the tick at which the file was last seen to change.
    Oclock,
    /// `cclock`: the tick at which the file was seen to come.
    Cclock,
    /// `osec`: the second of the pass at `oclock`.
    Osec,
    /// `csec`: the second of the pass at `cclock`.
    Csec,
    /// `kind`: the ASCII code of the letter of the file's kind.
    Kind,
    /// `exists`: whether the file exists.
    Exists,
    /// `cmp`: whether this relation holds between the number below the top and the one on top.
    Compare(Relation),
    /// `eq`: whether two texts are equal.
    Equal(Case),
    /// `depth`: how many slashes the name below the top has after the directory on top, or -1.
    Depth(Case),
    /// `oneof`: whether a text is an entry of a constant of the lists.
    OneOf(Case, u32),
    /// `match`: whether a text fits a constant of the patterns.
    Match(u32),
    /// `anymatch`: whether a text fits a pattern of a constant of the sets.
    AnyMatch(u32),
    /// `not`
    Not,
    /// `and`
    And,
    /// `or`
    Or,
    /// `drop`: takes the top away.
    Drop,
    /// `jump`: goes on at a place.
    Jump(u32),
    /// `jf`: goes on at a place if the flag on top is no.
    JumpIfNot(u32),
    /// `jt`: goes on at a place if the flag on top is yes.
    JumpIf(u32),
    /// `ret`: ends with the flag that is alone on the stack.
    Return,
}
