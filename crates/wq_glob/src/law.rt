//! A law about patterns: a function without a body whose contract is the law.
//! A proof of another crate gets it by a call, which costs nothing.
ghost use Rattle.wq_glob.specs.Law.{FitsWhereItCanBeCut};

/// The test that [`Pattern::matches`](crate::Pattern::matches) answers holds exactly if the text
/// can be cut into parts, one for each atom.
pub fn fits_where_it_can_be_cut()
    ensures { FitsWhereItCanBeCut }
{}
