//! Laws of the result of a list of accepted calls, each the contract of a function that does
//! nothing.
ghost use Rattle.wq_registry.specs.Change.{LastChangeCounts, NamesStandInOrder, PlacesAreNames};
ghost use Rattle.wq_registry.specs.Use.{TheGreatestTickCounts};
ghost use Rattle.wq_registry.specs.History.{CursorsAreMade, ProgramsAreMade, ProgramsWereAdded};
ghost use Rattle.wq_registry.specs.History.{TriggersAreMade};

/// The thing under a name is the one that its last change put there; none, if the last change took
/// it out.
#[tactic(auto, using(crate::proofs::Changes::last_change_counts))]
pub fn last_change_counts<A>()
    ensures { LastChangeCounts A }
{}

/// Names are in the order in which they were brought in: when something was first put under them
/// since they were taken out.
#[tactic(auto, using(crate::proofs::Changes::names_stand_in_order))]
pub fn names_stand_in_order<A>()
    ensures { NamesStandInOrder A }
{}

/// Another thing that is put at a place is put under the name there. So a trigger that
/// [`Shelf::trigger_mut`](crate::Shelf::trigger_mut) changes is one that is added again.
#[tactic(auto, using(crate::proofs::Changes::places_are_names))]
pub fn places_are_names<A>()
    ensures { PlacesAreNames A }
{}

/// The tick of a cursor is the greatest that it was given since it was last unset.
#[tactic(auto, using(crate::proofs::Uses::the_greatest_tick_counts))]
pub fn the_greatest_tick_counts()
    ensures { TheGreatestTickCounts }
{}

/// The programs of a shelf are the result of the calls for programs.
#[tactic(auto, using(crate::proofs::Histories::programs_are_made))]
pub fn programs_are_made<T>()
    ensures { ProgramsAreMade T }
{}

/// Each program under a name was added by one of the calls.
#[tactic(auto, using(crate::proofs::Added::programs_were_added))]
pub fn programs_were_added<T>()
    ensures { ProgramsWereAdded T }
{}

/// The cursors of a root are the result of the uses of them since it was last added.
#[tactic(auto, using(crate::proofs::Watches::cursors_are_made))]
pub fn cursors_are_made<T>()
    ensures { CursorsAreMade T }
{}

/// The triggers of a root are the result of the changes of them since it was last added.
#[tactic(auto, using(crate::proofs::Watches::triggers_are_made))]
pub fn triggers_are_made<T>()
    ensures { TriggersAreMade T }
{}
