//! The views: a session meets the need of an ask there, and looks at its root.
ghost use Rattle.std.specs.Prelude.{◌≡◌, IfOk, option_map};
ghost use Rattle.wq_crawl.specs.Need.{need_data};
ghost use Rattle.wq_crawl.specs.At.{at_data};
ghost use Rattle.wq_crawl.specs.Run.{ShowsNumber};
ghost use Rattle.wq_crawl.specs.Views.{ReadyData, SaysReady, root_at_data};

use crate::at::At;
use crate::fault::CrawlFault;
use crate::need::Need;
use std::alloc::AllocError;
use std::sync::Arc;
use wq_clock::{Instance, Run};
use wq_live::{Look, Named};
use wq_view::View;

/// A session's way to the views of the roots. An answer is made after the views met its need, so that no look is open
/// while it is made.
///
/// Each kind of views says in its own words what it does for a need.
pub trait Views {
    ghost use Rattle.wq_crawl.specs.Need.{NeedData};
    ghost use Rattle.wq_crawl.specs.Views.{ReadyData};

    // The views do what an ask needs. Then it is ready at this root, or at none, or its line is refused; and these are
    // the views then.
    ghost readies: { Self → NeedData → ReadyData → Self → Type 0 };

    /// Does what an ask needs, and gives the views back with the root that the ask is answered at, if there is one.
    ///
    /// # Errors
    /// The root could not be crawled, watched or unwatched; or memory ran out, for that or for a share of its view.
    fn ready(self, need: Need<'_>) -> (Self, Result<Option<RootAt>, CrawlFault>)
        ensures { (ready : ReadyData) × readies self (need_data need.entry) ready result.0
            × SaysReady (need_data need.entry) ready result.1 };
}

/// A root that was looked at, with a share of its view, so that no look is open for it.
#[derive(Drop)]
pub struct RootAt {
    /// The run of the server, and the number of the root there.
    pub instance: Instance,
    /// The view of that root, unless it has ended.
    pub view: Option<Arc<View>>,
}

impl RootAt {
    /// The root of this number with a share of its view, as a look shows it, if it does. It is refused if there is no
    /// share.
    pub fn numbered<N: Named>(
        run: Run,
        number: u64,
        look: &Look<N>,
    ) -> Result<Option<RootAt>, AllocError>
        ensures { IfOk result (λ at. ShowsNumber run number look.now (option_map root_at_data at)) }
    {
        match look.share_of(number)? {
            None => Ok(None),
            Some(view) => Ok(Some(RootAt {
                instance: run.instance(number),
                view: Some(view),
            })),
        }
    }

    /// The root, for an answer.
    pub fn at(&self) -> At<'_>
        ensures { at_data result ≡ root_at_data self.now }
    {
        let view = match &self.view {
            Some(view) => Some(&**view),
            None => None,
        };
        At {
            instance: self.instance,
            view,
        }
    }
}
