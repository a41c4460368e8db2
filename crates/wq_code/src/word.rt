//! Instructions as they are written in files: the byte of the operation, and the operands `a` and
//! `b`.
ghost use Rattle.std.specs.Prelude.{◌≡◌, ◌==◌, find};
ghost use Rattle.wq_code.specs.Word.{word_of, case_code, relation_code, op_of_code, code_of, first_ops, flag_of_code, case_of_code, relation_of_code, with_a, with_b};

use crate::operation::Op;
use crate::version::Version;
use wq_base::{Case, Relation};

/// An instruction as a file has it. Operands that an instruction does not have are 0.
#[derive(Clone, Copy, Debug)]
pub struct Word {
    /// Which operation it is.
    pub op: u8,
    /// A flag, a relation, or whether A to Z are compared as a to z.
    pub a: u8,
    /// The place of a constant in its table, or of an instruction in the code.
    pub b: u32,
}

impl Op {
    /// The instruction as a file has it.
    pub fn word(self) -> Word
        ensures { result ≡ word_of self }
    {
        match self {
            Op::Flag(flag) => with_operand(0x01, flag as u8),
            Op::Number(place) => at_place(0x02, place),
            Op::Text(place) => at_place(0x03, place),
            Op::WholeName => plain(0x04),
            Op::BaseName => plain(0x05),
            Op::Suffix => plain(0x06),
            Op::Size => plain(0x07),
            Op::Mtime => plain(0x08),
            Op::Oclock => plain(0x09),
            Op::Cclock => plain(0x0a),
            Op::Osec => plain(0x0b),
            Op::Csec => plain(0x0c),
            Op::Kind => plain(0x0d),
            Op::Exists => plain(0x0e),
            Op::Compare(relation) => with_operand(0x10, relation_byte(relation)),
            Op::Equal(case) => with_operand(0x11, case_byte(case)),
            Op::Depth(case) => with_operand(0x12, case_byte(case)),
            Op::OneOf(case, place) => Word {
                op: 0x13,
                a: case_byte(case),
                b: place,
            },
            Op::Match(place) => at_place(0x14, place),
            Op::AnyMatch(place) => at_place(0x19, place),
            Op::Not => plain(0x15),
            Op::And => plain(0x16),
            Op::Or => plain(0x17),
            Op::Drop => plain(0x18),
            Op::Jump(place) => at_place(0x20, place),
            Op::JumpIfNot(place) => at_place(0x21, place),
            Op::JumpIf(place) => at_place(0x22, place),
            Op::Return => plain(0x23),
        }
    }
}

/// An instruction without operands.
fn plain(op: u8) -> Word
    ensures { result ≡ record { op = op; a = 0; b = 0 } }
{
    Word { op, a: 0, b: 0 }
}

/// An instruction with the operand `a` alone.
fn with_operand(op: u8, a: u8) -> Word
    ensures { result ≡ record { op = op; a = a; b = 0 } }
{
    Word { op, a, b: 0 }
}

/// An instruction with the operand `b` alone: the place of a constant or of an instruction.
fn at_place(op: u8, b: u32) -> Word
    ensures { result ≡ record { op = op; a = 0; b = b } }
{
    Word { op, a: 0, b }
}

fn case_byte(case: Case) -> u8
    ensures { result ≡ case_code case }
{
    match case {
        Case::Exact => 0,
        Case::Folded => 1,
    }
}

fn relation_byte(relation: Relation) -> u8
    ensures { result ≡ relation_code relation }
{
    match relation {
        Relation::Eq => 0,
        Relation::Ne => 1,
        Relation::Lt => 2,
        Relation::Le => 3,
        Relation::Gt => 4,
        Relation::Ge => 5,
    }
}

/// The operation of a byte in a version, with operands that are yet to be read.
#[tactic(auto, unfolding(crate::specs::Word::op_of_code))]
pub(crate) fn op_of_byte(version: Version, byte: u8) -> Option<Op>
    ensures { result ≡ op_of_code version byte }
{
    match version {
        Version::First => first_op_of_byte(byte),
        Version::Second if byte == 0x19 => Some(Op::AnyMatch(0)),
        Version::Second => first_op_of_byte(byte),
    }
}

/// The operation of a byte in the first version, with operands that are yet to be read.
fn first_op_of_byte(byte: u8) -> Option<Op>
    ensures { result ≡ find (λ op. code_of op == byte) first_ops }
{
    match byte {
        0x01 => Some(Op::Flag(false)),
        0x02 => Some(Op::Number(0)),
        0x03 => Some(Op::Text(0)),
        0x04 => Some(Op::WholeName),
        0x05 => Some(Op::BaseName),
        0x06 => Some(Op::Suffix),
        0x07 => Some(Op::Size),
        0x08 => Some(Op::Mtime),
        0x09 => Some(Op::Oclock),
        0x0a => Some(Op::Cclock),
        0x0b => Some(Op::Osec),
        0x0c => Some(Op::Csec),
        0x0d => Some(Op::Kind),
        0x0e => Some(Op::Exists),
        0x10 => Some(Op::Compare(Relation::Eq)),
        0x11 => Some(Op::Equal(Case::Exact)),
        0x12 => Some(Op::Depth(Case::Exact)),
        0x13 => Some(Op::OneOf(Case::Exact, 0)),
        0x14 => Some(Op::Match(0)),
        0x15 => Some(Op::Not),
        0x16 => Some(Op::And),
        0x17 => Some(Op::Or),
        0x18 => Some(Op::Drop),
        0x20 => Some(Op::Jump(0)),
        0x21 => Some(Op::JumpIfNot(0)),
        0x22 => Some(Op::JumpIf(0)),
        0x23 => Some(Op::Return),
        _ => None,
    }
}

fn flag_of_byte(byte: u8) -> Option<bool>
    ensures { result ≡ flag_of_code byte }
{
    match byte {
        0 => Some(false),
        1 => Some(true),
        _ => None,
    }
}

fn case_of_byte(byte: u8) -> Option<Case>
    ensures { result ≡ case_of_code byte }
{
    match byte {
        0 => Some(Case::Exact),
        1 => Some(Case::Folded),
        _ => None,
    }
}

fn relation_of_byte(byte: u8) -> Option<Relation>
    ensures { result ≡ relation_of_code byte }
{
    match byte {
        0 => Some(Relation::Eq),
        1 => Some(Relation::Ne),
        2 => Some(Relation::Lt),
        3 => Some(Relation::Le),
        4 => Some(Relation::Gt),
        5 => Some(Relation::Ge),
        _ => None,
    }
}

/// An instruction with this operand `a`, if that is in its range.
#[tactic(auto, unfolding(crate::specs::Word::with_a))]
pub(crate) fn with_a(op: Op, a: u8) -> Option<Op>
    ensures { result ≡ with_a op a }
{
    match op {
        Op::Flag(_) => Some(Op::Flag(flag_of_byte(a)?)),
        Op::Compare(_) => Some(Op::Compare(relation_of_byte(a)?)),
        Op::Equal(_) => Some(Op::Equal(case_of_byte(a)?)),
        Op::Depth(_) => Some(Op::Depth(case_of_byte(a)?)),
        Op::OneOf(_, place) => Some(Op::OneOf(case_of_byte(a)?, place)),
        _ if a == 0 => Some(op),
        _ => None,
    }
}

/// An instruction with this operand `b`, if that is in its range.
#[tactic(auto, unfolding(crate::specs::Word::with_b))]
pub(crate) fn with_b(op: Op, b: u32) -> Option<Op>
    ensures { result ≡ with_b op b }
{
    match op {
        Op::Number(_) => Some(Op::Number(b)),
        Op::Text(_) => Some(Op::Text(b)),
        Op::OneOf(case, _) => Some(Op::OneOf(case, b)),
        Op::Match(_) => Some(Op::Match(b)),
        Op::AnyMatch(_) => Some(Op::AnyMatch(b)),
        Op::Jump(_) => Some(Op::Jump(b)),
        Op::JumpIfNot(_) => Some(Op::JumpIfNot(b)),
        Op::JumpIf(_) => Some(Op::JumpIf(b)),
        _ if b == 0 => Some(op),
        _ => None,
    }
}
