//! A law of shares, the contract of a function that does nothing.
ghost use Rattle.wq_server.specs.Share.{PartsMakeShare};

/// Roots of which each keeps to its part of a processor keep to the sum of the parts together, whatever a walk takes.
#[tactic(auto, using(crate::proofs::Cycles::parts_make_share))]
pub fn parts_make_share()
    ensures { PartsMakeShare }
{}
