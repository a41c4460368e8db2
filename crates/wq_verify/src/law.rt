//! Laws about typings and about the runs of programs that may run, each a function without a body
//! whose contract is the law. A proof of another crate gets a law by a call, which costs nothing.
ghost use Rattle.wq_verify.specs.Law.{FrontsAreUnique, FrontsGrow, OperandsAreNeeded, ValidAreTyped};
ghost use Rattle.wq_verify.specs.Law.{ValidAreAccepted, RunsBeginWell, StepsGoWell};
ghost use Rattle.wq_verify.specs.Law.{FirstProgramsStay, FirstBudgetsStay};

/// Two typings of the same first places are equal.
pub fn fronts_are_unique()
    ensures { FrontsAreUnique }
{}

/// A front typing grows by an instruction that has no fault.
#[tactic(auto, using(crate::proofs::Fronts::front_grows))]
pub fn fronts_grow()
    ensures { FrontsGrow }
{}

/// A program that may run has a typing.
pub fn valid_are_typed()
    ensures { ValidAreTyped }
{}

/// No program that may run has a first fault, so each is accepted.
pub fn valid_are_accepted()
    ensures { ValidAreAccepted }
{}

/// A run of a program that may run begins with a state that fits its typing.
#[tactic(auto, using(crate::proofs::Steps::runs_begin_well))]
pub fn runs_begin_well()
    ensures { RunsBeginWell }
{}

/// From a state that fits the typing, one step leads to a later place whose state fits, or to an
/// answer within all costs. It never leads to a trap.
pub fn steps_go_well()
    ensures { StepsGoWell }
{}

/// If the number of cells that an instruction takes were left out of the rules, a program might run
/// that has no answer. The proof that a machine never misses a cell rests on this number.
#[tactic(auto, using(crate::proofs::ShortPrograms::operands_are_needed))]
pub fn operands_are_needed()
    ensures { OperandsAreNeeded }
{}

/// A program that might run while there was one version of program files may run.
pub fn first_programs_stay()
    ensures { FirstProgramsStay }
{}

/// The budget of a program of that time is the same number, for every length of a name.
#[tactic(auto, using(crate::proofs::FirstPrograms::first_budgets_stay))]
pub fn first_budgets_stay()
    ensures { FirstBudgetsStay }
{}
