//! Laws about plans, each a function whose contract is the law.
ghost use Rattle.wq_reply.specs.Law.{PlansKeepMeasures};

/// On each file that a view can have, the program of a plan takes no more steps than the measure of
/// its query's expression, unless the query names a program.
pub fn plans_keep_measures()
    ensures { PlansKeepMeasures }
{}
