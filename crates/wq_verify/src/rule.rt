//! The rules that an instruction keeps, as tests, and the first that it breaks.
ghost use Rattle.std.specs.Prelude.{◌≡◌, ◌<◌, Some, length, slice_get};
ghost use Rattle.wq_code.specs.Constant.{constant, has_constant};
ghost use Rattle.wq_code.specs.Flow.{flow};
ghost use Rattle.wq_code.specs.Signature.{signature};
ghost use Rattle.wq_verify.specs.Fault.{lacks_cells, has_wrong_cell, is_bad_return, is_bad_jump, lacks_next, differs, is_other, fault_of};
ghost use Rattle.wq_verify.specs.Kinds.{kinds_after};
ghost use Rattle.wq_verify.specs.Shape.{kinds_of, lists_of};

use crate::fault::ProgramFault;
use crate::shape::{MAX_CELLS, Shape};
use wq_code::{Flow, Op, Raw};

/// Whether the stack has fewer cells than the instruction takes; the end has a test of its own.
fn lacks_cells(op: Op, shape: &Shape) -> bool
    ensures { result ≡ lacks_cells op (kinds_of shape.now) }
{
    !matches!(op.flow(), Flow::Stop) && shape.len() < op.needs().len()
}

/// Whether a cell is of the wrong kind.
fn has_wrong_cell(op: Op, shape: &Shape) -> bool
    ensures { result ≡ has_wrong_cell op (kinds_of shape.now) }
{
    !matches!(op.flow(), Flow::Stop) && !shape.meets(op.needs())
}

/// Whether the program ends here with another stack than one flag.
fn is_bad_return(op: Op, shape: &Shape) -> bool
    ensures { result ≡ is_bad_return op (kinds_of shape.now) }
{
    matches!(op.flow(), Flow::Stop) && !shape.is_one_flag()
}

/// Whether the program has the constant that the instruction names.
fn has_constant(raw: &Raw, op: Op) -> bool
    ensures { result ≡ has_constant raw.now (constant op) }
{
    match op {
        Op::Number(place) => (place as usize) < raw.nums.len(),
        Op::Text(place) => (place as usize) < raw.texts.len(),
        Op::OneOf(_, place) => (place as usize) < raw.lists.len(),
        Op::Match(place) => (place as usize) < raw.patterns.len(),
        Op::AnyMatch(place) => (place as usize) < raw.sets.len(),
        _ => true,
    }
}

/// Whether a jump at a place does not go to a later place of the code.
fn is_bad_jump(way: Flow, at: usize, len: usize) -> bool
    ensures { result ≡ is_bad_jump way at len }
{
    match way {
        Flow::To(target) | Flow::Fork(target, _) => target as usize <= at || len <= target as usize,
        Flow::Next | Flow::Stop => false,
    }
}

/// Whether an instruction can go on to the next place, though there is none.
fn lacks_next(way: Flow, at: usize, len: usize) -> bool
    requires { at < len }
    ensures { result ≡ lacks_next way at len }
{
    match way {
        Flow::Next | Flow::Fork(_, _) => len <= at + 1,
        Flow::To(_) | Flow::Stop => false,
    }
}

/// Whether a place was reached before with other kinds.
fn differs(reached: &[Option<Shape>], after: &Shape, place: usize) -> bool
    ensures { result ≡ differs (kinds_of after.now) (lists_of reached.now place) }
{
    match reached.get(place) {
        Some(Some(known)) => !known.is_same(after),
        _ => false,
    }
}

/// Whether a place that follows was reached before with other kinds.
fn is_other(reached: &[Option<Shape>], after: &Shape, way: Flow, at: usize) -> bool
    requires { at < length reached.now }
    ensures { result ≡ is_other (lists_of reached.now) (kinds_of after.now) way at }
{
    match way {
        Flow::Next => differs(reached, after, at + 1),
        Flow::To(target) => differs(reached, after, target as usize),
        Flow::Fork(target, _) => {
            differs(reached, after, target as usize) || differs(reached, after, at + 1)
        }
        Flow::Stop => false,
    }
}

/// The first fault of an instruction at a place that is reached with these kinds.
#[tactic(auto, unfolding(crate::specs::Fault::fault_of))]
pub(crate) fn fault_of(
    raw: &Raw,
    reached: &[Option<Shape>],
    at: usize,
    op: Op,
    shape: &Shape,
) -> Option<ProgramFault>
    requires within { at < length raw.now.code }
    requires places { length reached.now ≡ length raw.now.code }
    ensures { result ≡ fault_of raw.now (lists_of reached.now) at op (kinds_of shape.now) }
{
    if lacks_cells(op, shape) {
        return Some(ProgramFault::TooFewCells);
    }
    if has_wrong_cell(op, shape) {
        return Some(ProgramFault::WrongKind);
    }
    if is_bad_return(op, shape) {
        return Some(ProgramFault::BadReturn);
    }
    if !has_constant(raw, op) {
        return Some(ProgramFault::NoConstant);
    }
    if is_bad_jump(op.flow(), at, raw.code.len()) {
        return Some(ProgramFault::BadJump);
    }
    if op.leaves().len() + (shape.len() - op.needs().len()) > MAX_CELLS {
        return Some(ProgramFault::TooManyCells);
    }
    if lacks_next(op.flow(), at, raw.code.len()) {
        return Some(ProgramFault::NoNext);
    }
    if is_other(reached, &shape.after(op), op.flow(), at) {
        return Some(ProgramFault::OtherKinds);
    }
    None
}
