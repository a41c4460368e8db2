//! Laws about worlds and scripts, each a function without a body whose contract is the law.
//! A proof of another crate gets a law by a call, which costs nothing.
ghost use Rattle.wq_replay.specs.Accepted.{ShelvesAreCalls};
ghost use Rattle.wq_replay.specs.Overlap.{RunsDoNotOverlap};
ghost use Rattle.wq_replay.specs.Replay.{ScriptsAreRuns};
ghost use Rattle.wq_replay.specs.Playing.{RunsGoOn};
ghost use Rattle.wq_replay.specs.Valid.{ProgramsAreValid};

use wq_ask::asks_hand_in_valid;
use wq_session::{added_are_asked, answers_are_calls, rounds_are_calls};

/// Two runs, one after the other, are one run.
pub fn runs_go_on()
    ensures { RunsGoOn }
{}

/// The lines of a script make one run of its world, and each reply of that run is written.
pub fn scripts_are_runs()
    ensures { ScriptsAreRuns }
{}

/// The shelf of a world is the result of the accepted calls of all that happened. So the laws of lists of accepted
/// calls are laws of worlds.
pub fn shelves_are_calls()
    ensures { ShelvesAreCalls }
{
    answers_are_calls();
    rounds_are_calls();
}

/// Each program under a name on the shelf of a world may run, if the asks there are those of events.
pub fn programs_are_valid()
    ensures { ProgramsAreValid }
{
    shelves_are_calls();
    added_are_asked();
    asks_hand_in_valid();
}

/// Between a start of a trigger and the end of that run, which the launcher reports, no round starts the trigger. A
/// client may replace the trigger meanwhile, but not delete it.
pub fn runs_do_not_overlap()
    ensures { RunsDoNotOverlap }
{
    answers_are_calls();
    rounds_are_calls();
}
