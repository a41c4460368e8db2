//! Laws of sessions that are served alone, each a function whose contract is the law. Those of sessions hold for the
//! looks at each list of events.
ghost use Rattle.wq_clock.specs.declared.run.Run.{Run};
ghost use Rattle.wq_crawl.specs.Basis.{basis_of};
ghost use Rattle.wq_headline.specs.Alone.{AloneGoesOn, EndsShowAWorld, EventsAreRuns, GoingOnIsARun};
ghost use Rattle.wq_headline.specs.Alone.{ServedAloneIsARun};
ghost use Rattle.wq_headline.specs.Lists.{LooksFindRoots, NumbersFindRoots};

use wq_live::Named;
use wq_view::history_has_one_view;

/// A look at a root by its text finds what the table of the list has under that text.
pub fn looks_find_roots()
    ensures { LooksFindRoots }
{
    history_has_one_view();
}

/// A look at a root by its number finds what the table of the list has under that number.
pub fn numbers_find_roots()
    ensures { NumbersFindRoots }
{
    history_has_one_view();
}

/// Ends that show what they have show a world.
pub fn ends_show_a_world()
    ensures { EndsShowAWorld }
{}

/// An event of a session that is served alone is a run of the world, unless its look was refused, or the client had gone
/// when files were listed for it.
pub fn events_are_runs<N: Named>()
    ensures { (run : Run) → EventsAreRuns
        (basis_of run (N.published N.book) (N.refused N.book)) }
{
    history_has_one_view();
}

/// A session that goes on alone is a run of the world, unless one of its looks was refused. The run
/// sends the lines that the session writes.
pub fn going_on_is_a_run<N: Named>()
    ensures { (run : Run) → GoingOnIsARun
        (basis_of run (N.published N.book) (N.refused N.book)) }
{
    history_has_one_view();
}

/// A session that is served alone is a run of the world to its last event, unless one of its looks
/// was refused, or the client had gone when files were listed for the last one.
pub fn served_alone_is_a_run<N: Named>()
    ensures { (run : Run) → ServedAloneIsARun
        (basis_of run (N.published N.book) (N.refused N.book)) }
{
    history_has_one_view();
}

/// A session that goes on alone goes on as the contract of `serve` says of each session.
pub fn alone_goes_on<N: Named>()
    ensures { (run : Run) → AloneGoesOn
        (basis_of run (N.published N.book) (N.refused N.book)) }
{}
