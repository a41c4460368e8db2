//! The code of terms over names.
ghost use Rattle.std.specs.Prelude.{◌≡◌, ◌+◌, ◌<◌, ◌∷◌, [], pos, length, OnOk, IfOk};
ghost use Rattle.wq_base.specs.declared.compare.Case.TheVariants.{Folded};
ghost use Rattle.wq_code.specs.declared.operation.Op.TheVariants.{Suffix};
ghost use Rattle.wq_term.specs.CodeLength.{below_len};
ghost use Rattle.wq_term.specs.Expr.{texts_in};
ghost use Rattle.wq_term.specs.NameFit.{scope_with};
ghost use Rattle.wq_compile.specs.Code.{below_code, depth_code, filled, scope_op};
ghost use Rattle.wq_compile.specs.Draft.{HasRoom};
ghost use Rattle.wq_compile.specs.Instruction.{fitting, one_of, plain, put_all};

use crate::code::put_jump;
use crate::draft::Draft;
use std::alloc::{AllocError, Global};
use wq_base::{Case, Relation, Table, TextList};
use wq_code::Op;
use wq_glob::Pattern;
use wq_term::{Depth, Scope};

/// The instruction for the part of the name that a scope asks for.
fn scope_op(scope: Scope) -> Op
    ensures { result ≡ scope_op scope }
{
    match scope {
        Scope::Basename => Op::BaseName,
        Scope::Wholename => Op::WholeName,
    }
}

/// A text as a constant.
fn text_of(alloc: Global, text: &[u8]) -> Result<Table<u8>, AllocError>
    ensures { IfOk result (λ table. table ≡ text.now) }
{
    Ok(Table::from_vec(Vec::from_slice(alloc, text)?))
}

/// The texts of a list as a constant.
fn list_of(alloc: Global, texts: &[Vec<u8>]) -> Result<TextList, AllocError>
    ensures { IfOk result (λ list. list ≡ texts_in texts.now) }
{
    let mut table = Table::new(alloc);
    for text in texts {
        table.push(text_of(alloc, text)?)?;
    }
    TextList::new(alloc, table)
}

/// The same without those that are empty.
fn filled_list_of(alloc: Global, texts: &[Vec<u8>]) -> Result<TextList, AllocError>
    ensures { IfOk result (λ list. list ≡ filled (texts_in texts.now)) }
{
    let mut table = Table::new(alloc);
    for text in texts {
        if !text.is_empty() {
            table.push(text_of(alloc, text)?)?;
        }
    }
    TextList::new(alloc, table)
}

/// Puts `name` or `iname`.
pub(super) fn put_name(
    alloc: Global,
    draft: &mut Draft,
    case: Case,
    scope: Scope,
    texts: &[Vec<u8>],
) -> Result<(), AllocError>
    requires { HasRoom 2 draft.old }
    ensures { OnOk result (draft.new
        ≡ put_all (plain (scope_op scope) ∷ one_of case (texts_in texts.now) ∷ []) draft.old) }
{
    draft.put(scope_op(scope))?;
    draft.put_list(case, list_of(alloc, texts)?)
}

/// Puts `match` or `imatch`.
pub(super) fn put_match(draft: &mut Draft, pattern: &Pattern) -> Result<(), AllocError>
    requires { HasRoom 2 draft.old }
    ensures { OnOk result (draft.new
        ≡ put_all (plain (scope_op (scope_with pattern.now.flags)) ∷ fitting pattern.now ∷ [])
        draft.old) }
{
    let op = if pattern.flags().wholename {
        Op::WholeName
    } else {
        Op::BaseName
    };
    draft.put(op)?;
    draft.put_pattern(pattern.clone()?)
}

/// Puts `suffix`.
pub(super) fn put_suffix(
    alloc: Global,
    draft: &mut Draft,
    texts: &[Vec<u8>],
) -> Result<(), AllocError>
    requires { HasRoom 2 draft.old }
    ensures { OnOk result (draft.new
        ≡ put_all (plain Suffix ∷ one_of Folded (filled (texts_in texts.now)) ∷ []) draft.old) }
{
    draft.put(Op::Suffix)?;
    draft.put_list(Case::Folded, filled_list_of(alloc, texts)?)
}

/// Puts how deep the file lies below a directory, against a number.
fn put_depth(
    alloc: Global,
    draft: &mut Draft,
    case: Case,
    dir: &[u8],
    relation: Relation,
    n: i64,
) -> Result<(), AllocError>
    requires { HasRoom 5 draft.old }
    ensures { OnOk result (draft.new
        ≡ put_all (depth_code case dir.now relation n) draft.old) }
{
    draft.put(Op::WholeName)?;
    draft.put_text(text_of(alloc, dir)?)?;
    draft.put(Op::Depth(case))?;
    draft.put_number(n)?;
    draft.put(Op::Compare(relation))
}

/// Puts `dirname` or `idirname`: below the directory at all, and then at this depth.
pub(super) fn put_below(
    alloc: Global,
    draft: &mut Draft,
    case: Case,
    dir: &[u8],
    depth: Depth,
) -> Result<(), AllocError>
    requires { HasRoom (below_len depth) draft.old }
    ensures { OnOk result (draft.new
        ≡ put_all (below_code case dir.now depth (length draft.old.code)) draft.old) }
{
    let Depth::Is(relation, n) = depth else {
        return put_depth(alloc, draft, case, dir, Relation::Ge, 0);
    };
    let end = draft.len() as u32 + 12;
    put_depth(alloc, draft, case, dir, Relation::Ge, 0)?;
    put_jump(draft, false, end)?;
    put_depth(alloc, draft, case, dir, relation, n)
}
