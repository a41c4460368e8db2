//! A law of the numbers of runs: a function without a body whose contract is the law.
ghost use Rattle.wq_launch.specs.Runs.{NumbersAreFree};

/// A command gets a number if fewer run than may, and no running command has that number.
pub fn numbers_are_free()
    ensures { NumbersAreFree }
{}
