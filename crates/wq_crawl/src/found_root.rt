//! The root that a look found.
ghost use Rattle.std.specs.Prelude.{◌≡◌, Option, option_map};
ghost use Rattle.wq_crawl.specs.At.{AtData};
ghost use Rattle.wq_crawl.specs.Run.{ShowsAt, found_data};

use wq_clock::{Instance, Run};
use wq_live::{Look, Named};

/// The root that a look found. Only a look makes one, and it cannot be copied. So whoever ends a root ends one that was
/// looked at for that.
#[derive(Drop)]
pub struct FoundRoot {
    instance: Instance,
}

impl FoundRoot {
    /// The root of this text, as a look shows it, if it does.
    pub fn seen<N: Named>(run: Run, root: &str, look: &Look<N>) -> Option<FoundRoot>
        ensures { (at : Option AtData) × ShowsAt run root.now look.now at
            × (option_map found_data result ≡ option_map (λ at. at.instance) at) }
    {
        match look.root(root) {
            Some((number, _)) => {
                let instance = run.instance(number);
                Some(FoundRoot { instance })
            }
            None => None,
        }
    }

    /// The run of the server, and the number of the root there.
    pub fn instance(&self) -> Instance
        ensures { result ≡ self.now.instance }
    {
        self.instance
    }

    /// The number of the root.
    pub fn number(&self) -> u64
        ensures { result ≡ self.now.instance.root }
    {
        self.instance.root
    }
}
