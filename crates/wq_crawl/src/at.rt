//! The root that is looked at for an answer.
ghost use Rattle.std.specs.Prelude.{option_map};
ghost use Rattle.wq_crawl.specs.At.{at_data};
ghost use Rattle.wq_crawl.specs.Run.{ShowsNumber};

use wq_clock::{Instance, Run};
use wq_live::{Look, Named};
use wq_view::View;

/// A root that is looked at for an answer.
#[derive(Clone, Copy)]
pub struct At<'a> {
    /// The run of the server, and the number of the root there.
    pub instance: Instance,
    /// The view of that root, unless it has ended.
    pub view: Option<&'a View>,
}

impl<'a> At<'a> {
    /// The root of this number, as a look shows it, if it does.
    pub fn numbered<N: Named>(run: Run, number: u64, look: &'a Look<N>) -> Option<At<'a>>
        ensures { ShowsNumber run number look.now (option_map at_data result) }
    {
        let view = look.view(number)?;
        Some(At {
            instance: run.instance(number),
            view: Some(view),
        })
    }
}
