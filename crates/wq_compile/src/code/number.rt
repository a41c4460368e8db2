//! The code of terms over kinds, sizes and times.
ghost use Rattle.std.specs.Prelude.{◌≡◌, IsTrue, length, OnOk};
ghost use Rattle.wq_term.specs.CodeLength.{since_len};
ghost use Rattle.wq_term.specs.declared.expr.Since.TheVariants.{Observed};
ghost use Rattle.wq_term.specs.Expr.{empty, size_is};
ghost use Rattle.wq_term.specs.Fits.{bound_fits, since_fits};
ghost use Rattle.wq_compile.specs.Code.{bound_code, code_of, kind_code, later_code, since_code};
ghost use Rattle.wq_compile.specs.Code.{size_code};
ghost use Rattle.wq_compile.specs.Draft.{HasRoom};
ghost use Rattle.wq_compile.specs.Instruction.{put_all};

use crate::code::put_jump;
use crate::draft::Draft;
use std::alloc::AllocError;
use wq_base::Relation;
use wq_clock::Bound;
use wq_code::Op;
use wq_record::Kind;
use wq_term::Since;

/// Puts `type`.
pub(super) fn put_kind(draft: &mut Draft, kind: Kind) -> Result<(), AllocError>
    requires { HasRoom 3 draft.old }
    ensures { OnOk result (draft.new ≡ put_all (kind_code kind) draft.old) }
{
    draft.put(Op::Kind)?;
    draft.put_number(kind.letter() as i64)?;
    draft.put(Op::Compare(Relation::Eq))
}

/// Puts a comparison of the size, whether the file exists or not.
fn put_plain_size(draft: &mut Draft, relation: Relation, n: i64) -> Result<(), AllocError>
    requires { HasRoom 3 draft.old }
    ensures { OnOk result (draft.new ≡ put_all (size_code relation n) draft.old) }
{
    draft.put(Op::Size)?;
    draft.put_number(n)?;
    draft.put(Op::Compare(relation))
}

/// Puts `size`: existence first.
pub(super) fn put_size(draft: &mut Draft, relation: Relation, n: i64) -> Result<(), AllocError>
    requires { HasRoom 6 draft.old }
    ensures { OnOk result (draft.new
        ≡ put_all (code_of (size_is relation n) (length draft.old.code)) draft.old) }
{
    let end = draft.len() as u32 + 6;
    draft.put(Op::Exists)?;
    put_jump(draft, false, end)?;
    put_plain_size(draft, relation, n)
}

/// Puts `empty`: existence, then one of the two kinds, then size 0.
pub(super) fn put_empty(draft: &mut Draft) -> Result<(), AllocError>
    requires { HasRoom 16 draft.old }
    ensures { OnOk result (draft.new
        ≡ put_all (code_of empty (length draft.old.code)) draft.old) }
{
    let start = draft.len() as u32;
    draft.put(Op::Exists)?;
    put_jump(draft, false, start + 16)?;
    put_kind(draft, Kind::File)?;
    put_jump(draft, true, start + 11)?;
    put_kind(draft, Kind::Dir)?;
    put_jump(draft, false, start + 16)?;
    put_plain_size(draft, Relation::Eq, 0)
}

/// Puts `since`.
pub(super) fn put_since(draft: &mut Draft, since: Since) -> Result<(), AllocError>
    requires room { HasRoom (since_len since) draft.old }
    requires fits { IsTrue (since_fits since) }
    ensures { OnOk result (draft.new ≡ put_all (since_code since) draft.old) }
{
    match since {
        Since::Observed(bound) => put_bound(draft, Op::Oclock, Op::Osec, bound),
        Since::Created(bound) => put_bound(draft, Op::Cclock, Op::Csec, bound),
        Since::Modified(second) => put_later(draft, Op::Mtime, second),
    }
}

/// Puts whether a tick or a second, each by its instruction, lies after a bound.
fn put_bound(draft: &mut Draft, tick: Op, second: Op, bound: Bound) -> Result<(), AllocError>
    requires room { HasRoom (since_len (Observed bound)) draft.old }
    requires fits { IsTrue (bound_fits bound) }
    ensures { OnOk result (draft.new ≡ put_all (bound_code tick second bound) draft.old) }
{
    match bound {
        Bound::Fresh => draft.put(Op::Exists),
        Bound::Tick(n) => put_later(draft, tick, n as i64),
        Bound::Second(n) => put_later(draft, second, n),
    }
}

/// Puts whether the number of an instruction is greater than a point.
fn put_later(draft: &mut Draft, op: Op, n: i64) -> Result<(), AllocError>
    requires { HasRoom 3 draft.old }
    ensures { OnOk result (draft.new ≡ put_all (later_code op n) draft.old) }
{
    draft.put(op)?;
    draft.put_number(n)?;
    draft.put(Op::Compare(Relation::Gt))
}
