//! Laws of followers, each a function whose contract is the law.
ghost use Rattle.wq_follow.specs.Interval.{IntervalsAdjoin};
ghost use Rattle.wq_follow.specs.Missing.{NothingIsMissed, ViewsAreReached};
ghost use Rattle.wq_follow.specs.Plain.{DefinitionsAreShallow, DefinitionsHaveNoFloat};
ghost use Rattle.wq_follow.specs.Round.{FailedStartsStay};
ghost use Rattle.wq_follow.specs.Start.{LongestFront};

use wq_query::values_ask_what_they_write;

/// The intervals of all batches that are told adjoin. Each batch has the matching files whose last
/// change lies in its interval.
#[tactic(auto, using(crate::proofs::Intervals::intervals_adjoin))]
pub fn intervals_adjoin()
    ensures { IntervalsAdjoin }
{}

/// The names that are appended to a command are the longest front for which there is room.
pub fn longest_front()
    ensures { LongestFront }
{}

/// No file of the view of a history changed last at a later tick than that of the view.
#[tactic(auto, using(crate::proofs::Passes::views_are_reached))]
pub fn views_are_reached()
    ensures { ViewsAreReached }
{}

/// Nothing is missed between the first batch and the last. Take each matching file that changed last
/// after the end of the first, and no later than that of the last. It is in exactly one of the
/// batches after the first, as it is now.
#[tactic(auto, using(crate::proofs::Missed::nothing_is_missed))]
pub fn nothing_is_missed()
    ensures { NothingIsMissed }
{}

/// The object that a definition of a trigger keeps has no float, so its text is exact.
pub fn definitions_have_no_float()
    ensures { DefinitionsHaveNoFloat }
{
    values_ask_what_they_write();
}

/// The object that a definition of a trigger keeps is so shallow that its text reads as the object again.
pub fn definitions_are_shallow()
    ensures { DefinitionsAreShallow }
{
    values_ask_what_they_write();
}

/// A start that failed leaves the trigger's last tick, so the next batch begins where the last one that was told ended.
#[tactic(auto, using(crate::proofs::Rounds::failed_starts_stay))]
pub fn failed_starts_stay()
    ensures { FailedStartsStay }
{}
