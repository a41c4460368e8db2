//! The cells that instructions take from the stack and leave there.
ghost use Rattle.std.specs.Prelude.{◌≡◌, ◌≤◌, length};
ghost use Rattle.wq_code.specs.Signature.{signature};

use crate::operation::{CellKind, Op};

/// The need for a cell in one place of the stack.
#[derive(Clone, Copy, Debug)]
pub enum CellNeed {
    /// A cell of any kind.
    AnyCell,
    /// A cell of this kind.
    Cell(CellKind),
}

const FLAG: CellNeed = CellNeed::Cell(CellKind::Flag);

const NUMBER: CellNeed = CellNeed::Cell(CellKind::Number);

const TEXT: CellNeed = CellNeed::Cell(CellKind::Text);

impl Op {
    /// The cells that the instruction takes from the stack, the top first.
    pub fn needs(self) -> &'static [CellNeed]
        ensures kinds { result.now ≡ (signature self).needs }
        ensures few { length result.now ≤ 2 }
    {
        match self {
            Op::Compare(_) => &[NUMBER, NUMBER],
            Op::Equal(_) | Op::Depth(_) => &[TEXT, TEXT],
            Op::OneOf(_, _) | Op::Match(_) | Op::AnyMatch(_) => &[TEXT],
            Op::Not | Op::JumpIfNot(_) | Op::JumpIf(_) | Op::Return => &[FLAG],
            Op::And | Op::Or => &[FLAG, FLAG],
            Op::Drop => &[CellNeed::AnyCell],
            _ => &[],
        }
    }

    /// The cells that the instruction puts there in their place.
    pub fn leaves(self) -> &'static [CellKind]
        ensures kinds { result.now ≡ (signature self).leaves }
        ensures few { length result.now ≤ 1 }
    {
        match self {
            Op::Flag(_) | Op::Exists => &[CellKind::Flag],
            Op::Compare(_) | Op::Equal(_) | Op::OneOf(_, _) => &[CellKind::Flag],
            Op::Match(_) | Op::AnyMatch(_) => &[CellKind::Flag],
            Op::Not | Op::And | Op::Or => &[CellKind::Flag],
            Op::JumpIfNot(_) | Op::JumpIf(_) => &[CellKind::Flag],
            Op::Text(_) | Op::WholeName | Op::BaseName | Op::Suffix => &[CellKind::Text],
            Op::Number(_) | Op::Size | Op::Mtime | Op::Kind => &[CellKind::Number],
            Op::Oclock | Op::Cclock | Op::Osec | Op::Csec => &[CellKind::Number],
            Op::Depth(_) => &[CellKind::Number],
            Op::Drop | Op::Jump(_) | Op::Return => &[],
        }
    }
}
