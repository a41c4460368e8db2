//! The keys of a query that are tested last, in one place.
ghost use Rattle.std.specs.Prelude.{◌≡◌};
ghost use Rattle.serde_json.specs.View.{view as data_of};
ghost use Rattle.wq_query.specs.Reading.{options_of};

use crate::key::{flag, is_flag, is_whole};
use serde_json::Value;

/// The options of a query, by the keys that are tested last: they say how its list is made.
#[derive(Clone, Copy, Debug, PartialEq, Eq)]
pub struct Options {
    /// Whether it wants no file if nothing is known to the client.
    pub empty_on_fresh_instance: bool,
}

impl Options {
    /// The options of an object, if these keys are right and so are `glob_includedotfiles` and `sync_timeout`, which
    /// are tested with them.
    pub(crate) fn read(query: &Value) -> Option<Options>
        ensures { result ≡ options_of (data_of query.now) }
    {
        let is_right = is_flag(query.get("glob_includedotfiles"))
            && is_whole(query.get("sync_timeout"));
        if !is_right {
            return None;
        }
        let empty_on_fresh_instance = flag(query.get("empty_on_fresh_instance"))?;
        Some(Options {
            empty_on_fresh_instance,
        })
    }
}
