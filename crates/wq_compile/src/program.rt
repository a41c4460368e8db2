//! From an expression to its program.
ghost use Rattle.std.specs.Prelude.{◌≡◌, ◌≤◌, ◌+◌, ◌↔◌, false, IfOk, IsErrOf, IsTrue, length};
ghost use Rattle.wq_term.specs.CodeLength.{code_len};
ghost use Rattle.wq_term.specs.Expr.{term_of};
ghost use Rattle.wq_term.specs.Fits.{expr_fits};
ghost use Rattle.wq_verify.specs.Budget.{budget_of};
ghost use Rattle.wq_record.specs.Limit.{max_name};
ghost use Rattle.wq_compile.specs.Code.{program_of};
ghost use Rattle.wq_compile.specs.Cost.{most_steps_of};
ghost use Rattle.wq_compile.specs.Large.{is_too_large};
ghost use Rattle.wq_compile.specs.Meaning.{AnswersMeaning};

use crate::code::put_code;
use crate::draft::Draft;
use crate::fault::CompileFault;
use crate::large::is_too_large;
use std::alloc::{AllocError, Global};
use wq_code::{Op, Raw};
use wq_term::Expr;
use wq_verify::{Program, ProgramFault, verify};

/// The program of an expression. On every record its run answers the expression's meaning there.
///
/// ```text
/// ["allof", ["type", "f"], ["suffix", "c"]]   kind; num 0; cmp eq; jf 7; drop; suffix; oneof 0 fold; ret
/// ```
///
/// # Errors
/// [`CompileFault::TooLarge`] in two cases alone: the code of the expression and the end have over
/// 65,536 instructions; or a list of texts has over 65,536 entries, empty suffixes not counted.
/// [`CompileFault::NoMemory`] if a growth was refused.
#[tactic(auto, using(crate::proofs::Programs::program_answers, crate::proofs::Programs::program_long, crate::proofs::Sizes::program_valid))]
pub fn compile(alloc: Global, expr: &Expr) -> Result<Program, CompileFault>
    requires { IsTrue (expr_fits (term_of expr.now)) }

    ensures code { IfOk result (λ program. program ≡ program_of (term_of expr.now)) }
    ensures meaning { IfOk result (λ program. AnswersMeaning program (term_of expr.now)) }
    ensures length { IfOk result (λ program.
        length program.code ≡ code_len (term_of expr.now) + 1) }
    ensures cost { IfOk result (λ program.
        budget_of program max_name ≤ most_steps_of (term_of expr.now)) }
    ensures large { IsErrOf result CompileFault.TooLarge
        ↔ IsTrue (is_too_large (term_of expr.now)) }
{
    if is_too_large(expr) {
        return Err(CompileFault::TooLarge);
    }
    let raw = raw_of(alloc, expr)?;
    match verify(alloc, raw) {
        Ok(program) => Ok(program),
        Err((_, refusal)) => match refusal.code {
            ProgramFault::NoMemory => Err(CompileFault::NoMemory),
            _ => unreachable!(),
        },
    }
}

/// The program of an expression that is not too large, before it is verified.
#[tactic(auto, using(crate::proofs::Putting::program_put, crate::proofs::Putting::program_room, crate::proofs::Putting::program_limits))]
fn raw_of(alloc: Global, expr: &Expr) -> Result<Raw, AllocError>
    requires limits { IsTrue (expr_fits (term_of expr.now)) }
    requires small { is_too_large (term_of expr.now) ≡ false }
    ensures { IfOk result (λ raw. raw ≡ program_of (term_of expr.now)) }
{
    let mut draft = Draft::new(alloc);
    put_code(alloc, &mut draft, expr)?;
    draft.put(Op::Return)?;
    Ok(draft.into_raw())
}
