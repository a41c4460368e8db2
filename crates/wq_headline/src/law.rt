//! The headline, each part a clause of one function.
ghost use Rattle.wq_clock.specs.declared.run.Run.{Run};
ghost use Rattle.wq_crawl.specs.Basis.{basis_of};
ghost use Rattle.wq_headline.specs.Exact.{ClocksNameViews, RepliesAreExact, ServedRepliesAreExact};
ghost use Rattle.wq_headline.specs.Headline.{ExpressionsCompile, ExpressionsSelect, ProgramsRun};
ghost use Rattle.wq_headline.specs.Triggers.{FollowersAreExact};

use wq_ask::asks_hand_in_valid;
use wq_compile::expressions_compile;
use wq_eval::{answers_are_said, runs_say, steps_are_said};
use wq_follow::{intervals_adjoin, nothing_is_missed, views_are_reached};
use wq_live::Named;
use wq_query::subscriptions_are_plain;
use wq_replay::programs_are_valid;
use wq_session::{answers_are_calls, reached_programs_are_valid};
use wq_verify::{runs_begin_well, steps_go_well};

/// A program that may run, whoever wrote it, gives one answer on each file, within its budget, and
/// never traps. The program of an expression may run and answers what the expression means. So the
/// files that it selects are those for which the expression is true.
///
/// Each reply to a line that asks for files lists exactly those that match, in a view of the root
/// that its clock names, or it says why there is no list. That holds of a session on threads,
/// whatever crawls, clients and workers come between, and of each world in which a script plays. On
/// threads each list of a subscription has exactly the files that changed since its last one.
///
/// In a world nothing is missed besides. The lists of each subscription together have each change
/// once, and so have the starts of each trigger.
pub fn headline<N: Named>()
    ensures programs { ProgramsRun }
    ensures compiled { ExpressionsCompile }
    ensures selected { ExpressionsSelect }
    ensures served { (run : Run) → ServedRepliesAreExact
        (basis_of run (N.published N.book) (N.refused N.book)) }
    ensures replies { RepliesAreExact }
    ensures followers { FollowersAreExact }
    ensures clocks { ClocksNameViews }
{
    runs_begin_well();
    steps_go_well();
    runs_say();
    answers_are_said();
    steps_are_said();
    expressions_compile();
    asks_hand_in_valid();
    programs_are_valid();
    reached_programs_are_valid();
    answers_are_calls();
    subscriptions_are_plain();
    intervals_adjoin();
    nothing_is_missed();
    views_are_reached();
}
