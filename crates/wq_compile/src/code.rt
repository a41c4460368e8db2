//! The code of expressions: the instructions that each term puts after a draft.
ghost use Rattle.std.specs.Prelude.{◌≡◌, ◌+◌, [], ◌∷◌, length, map, IsTrue, OnOk};
ghost use Rattle.wq_term.specs.CodeLength.{code_len, terms_len};
ghost use Rattle.wq_code.specs.declared.operation.Op.TheVariants.{Drop};
ghost use Rattle.wq_term.specs.Expr.{negation, term_of, terms_of};
ghost use Rattle.wq_term.specs.Fits.{all_keep_limits, keeps_limits};
ghost use Rattle.wq_compile.specs.Code.{code_of, joined, jump_if, parts_of};
ghost use Rattle.wq_compile.specs.Draft.{HasRoom};
ghost use Rattle.wq_compile.specs.Instruction.{plain, put_all};

mod name;
mod number;

use crate::draft::Draft;
use std::alloc::{AllocError, Global};
use wq_code::Op;
use wq_term::{Expr, code_len};

/// Puts the code of an expression, which leaves one flag: whether the record matches.
#[cycle(putting)]
pub(crate) fn put_code(alloc: Global, draft: &mut Draft, expr: &Expr) -> Result<(), AllocError>
    requires room { HasRoom (code_len (term_of expr.now)) draft.old }
    requires limits { IsTrue (keeps_limits (term_of expr.now)) }
    ensures { OnOk result (draft.new
        ≡ put_all (code_of (term_of expr.now) (length draft.old.code)) draft.old) }
{
    match expr {
        Expr::True => draft.put(Op::Flag(true)),
        Expr::False => draft.put(Op::Flag(false)),
        Expr::Exists => draft.put(Op::Exists),
        Expr::Empty => number::put_empty(draft),
        Expr::KindIs(kind) => number::put_kind(draft, *kind),
        Expr::Name { case, scope, texts } => name::put_name(alloc, draft, *case, *scope, texts),
        Expr::Match(pattern) => name::put_match(draft, pattern),
        Expr::Suffix(texts) => name::put_suffix(alloc, draft, texts),
        Expr::Size(relation, n) => number::put_size(draft, *relation, *n),
        Expr::Since(since) => number::put_since(draft, *since),
        Expr::Dirname { case, dir, depth } => name::put_below(alloc, draft, *case, dir, *depth),
        Expr::Not(term) => put_negation(alloc, draft, term),
        Expr::AllOf(terms) => put_terms(alloc, draft, false, terms, end_of(draft, expr)),
        Expr::AnyOf(terms) => put_terms(alloc, draft, true, terms, end_of(draft, expr)),
    }
}

/// Puts a term and `not`.
#[cycle(putting)]
#[tactic(auto, using(crate::proofs::Putting::negation_put))]
fn put_negation(alloc: Global, draft: &mut Draft, term: &Expr) -> Result<(), AllocError>
    requires room { HasRoom (code_len (term_of term.now) + 1) draft.old }
    requires limits { IsTrue (keeps_limits (term_of term.now)) }
    ensures { OnOk result (draft.new
        ≡ put_all (code_of (negation (term_of term.now)) (length draft.old.code)) draft.old) }
{
    put_code(alloc, draft, term)?;
    draft.put(Op::Not)
}

/// Puts terms of which the first that leaves this flag decides. They end before the place `end`.
#[cycle(putting)]
fn put_terms(
    alloc: Global,
    draft: &mut Draft,
    flag: bool,
    terms: &[Expr],
    end: u32,
) -> Result<(), AllocError>
    requires room { HasRoom (terms_len (terms_of (map term_of terms.now))) draft.old }
    requires limits { IsTrue (all_keep_limits (terms_of (map term_of terms.now))) }
    requires end { end ≡ length draft.old.code + terms_len (terms_of (map term_of terms.now)) }
    ensures { OnOk result (draft.new
        ≡ put_all (joined flag (parts_of (terms_of (map term_of terms.now)))
        (length draft.old.code)) draft.old) }
{
    let Some((first, others)) = terms.split_first() else {
        return draft.put(Op::Flag(!flag));
    };
    put_code(alloc, draft, first)?;
    for term in others {
        put_jump(draft, flag, end)?;
        put_code(alloc, draft, term)?;
    }
    Ok(())
}

/// Puts the jump that is taken if the flag on top is this one, and the `drop` after it.
fn put_jump(draft: &mut Draft, flag: bool, end: u32) -> Result<(), AllocError>
    ensures { OnOk result (draft.new
        ≡ put_all (plain (jump_if flag end) ∷ plain Drop ∷ []) draft.old) }
{
    let jump = if flag {
        Op::JumpIf(end)
    } else {
        Op::JumpIfNot(end)
    };
    draft.put(jump)?;
    draft.put(Op::Drop)
}

/// The place after the code of the expression, if it is put next.
fn end_of(draft: &Draft, expr: &Expr) -> u32
    requires { HasRoom (code_len (term_of expr.now)) draft.now }
    ensures { result ≡ length draft.now.code + code_len (term_of expr.now) }
{
    draft.len() as u32 + code_len(expr) as u32
}
