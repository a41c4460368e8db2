//! Laws of views. Each law is the contract of a function that does nothing.
ghost use Rattle.wq_view.specs.Order.{NewestIsSorted, NewestIsSplit};
ghost use Rattle.wq_view.specs.Position.{KeptPositionsFilter, PositionsAreThere, PositionsFilter};
ghost use Rattle.wq_view.specs.View.{HasOneView};

/// A history has one view: two views of it are equal.
#[tactic(auto, using(crate::proofs::ViewSteps::one_view))]
pub fn history_has_one_view()
    ensures { HasOneView }
{}

/// The records at the positions of the records that pass a test are the records that pass it.
#[tactic(auto, using(crate::proofs::Positions::positions_filter))]
pub fn positions_filter()
    ensures { PositionsFilter }
{}

/// Filtering some positions by a test of their records keeps the records there that pass the test.
#[tactic(auto, using(crate::proofs::Positions::kept_positions_filter))]
pub fn kept_positions_filter()
    ensures { KeptPositionsFilter }
{}

/// The positions of the records that pass a test are below the number of records, and are at most
/// that many.
#[tactic(auto, using(crate::proofs::Positions::positions_are_there))]
pub fn positions_are_there()
    ensures { PositionsAreThere }
{}

/// The order of last change is that of a sort: by tick, falling, and then by position.
#[tactic(auto, using(crate::proofs::NewestLaw::newest_is_sorted))]
pub fn newest_is_sorted()
    ensures { NewestIsSorted }
{}

/// The positions of what changed after a tick come first in the order of last change.
pub fn newest_is_split()
    ensures { NewestIsSplit }
{}
