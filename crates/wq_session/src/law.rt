//! Laws of answers, each a function without a body whose contract is the law.
ghost use Rattle.wq_clock.specs.declared.run.Run.{Run};
ghost use Rattle.wq_crawl.specs.Basis.{basis_of};
ghost use Rattle.wq_session.specs.Accepted.{AddedAreAsked, AnswersAreCalls};
ghost use Rattle.wq_session.specs.Handing.{TakesAllHanded};
ghost use Rattle.wq_session.specs.Law.{WatchingAgainChangesNothing};
ghost use Rattle.wq_session.specs.Round.{FailedStartsAreCounted, RoundsAreCalls};
ghost use Rattle.wq_session.specs.Stays.{AcceptedStays};

use wq_live::Named;

/// Watching a root that is already watched, under the number of the root that is looked at, changes nothing. Its answer
/// is the same as the first time.
#[tactic(auto, using(crate::proofs::Again::watching_again_changes_nothing))]
pub fn watching_again_changes_nothing()
    ensures { WatchingAgainChangesNothing }
{}

/// An answer leaves the shared state that results from the calls that were accepted of the ask. So the laws of lists of
/// accepted calls are laws of sessions.
#[tactic(auto, using(crate::proofs::Accepting::answers_are_calls))]
pub fn answers_are_calls()
    ensures { AnswersAreCalls }
{}

/// A program that the accepted calls of an ask add to the shelf is the one that the ask hands in.
pub fn added_are_asked()
    ensures { AddedAreAsked }
{}

/// A round on a shelf that accepted calls lead to leaves the result of further accepted calls: each puts a trigger
/// under its name again.
#[tactic(auto, using(crate::proofs::Rounds::rounds_are_calls))]
pub fn rounds_are_calls()
    ensures { RoundsAreCalls }
{}

/// A start fails in a round only if the launcher's count of failures rose over the round.
#[tactic(auto, using(crate::proofs::Counted::failed_starts_are_counted))]
pub fn failed_starts_are_counted()
    ensures { FailedStartsAreCounted }
{}

/// At a desk that shows its shelf, all that a session accepted stays when the session ends, however
/// it ends: of the last event too, if the writer failed within its lines.
pub fn accepted_stays<N: Named>()
    ensures { (run : Run) → AcceptedStays (basis_of run (N.published N.book) (N.refused N.book)) }
{
    answers_are_calls();
}

/// If an inbox shows the events of its client that it has handed out, a session adds those that it took, in order, the
/// last one too: it leaves out none, and takes none twice.
pub fn takes_all_handed<N: Named>()
    ensures { (run : Run) → TakesAllHanded (basis_of run (N.published N.book) (N.refused N.book)) }
{}
