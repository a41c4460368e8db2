//! A law about the programs of expressions, the contract of a function without a body. A proof of
//! another crate gets the law by a call, which costs nothing.
ghost use Rattle.wq_compile.specs.Law.{ExpressionsHavePrograms};

/// The program of an expression that has one may run, answers what the expression means, and costs
/// no more than the expression's measure.
pub fn expressions_compile()
    ensures { ExpressionsHavePrograms }
{}
