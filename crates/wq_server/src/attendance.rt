//! The attendance of the commands that triggers started.

use crate::host::Host;
use crate::runtime::Runtime;
use std::alloc::Global;
use std::sync::Arc;
use wq_launch::{MAX_RUNS, Notices, attend};

/// Starts a thread for each command that was started, which attends it, and says whether all are attended. If no thread
/// can be made, the commands wait.
pub(crate) fn attend_all<R, H, O>(rt: R, alloc: Global, host: &H, notices: &Arc<O>) -> bool
where
    R: Runtime,
    H: Host,
    O: Notices + Drop + Send + Sync + 'static,
{
    for _ in 0..MAX_RUNS {
        let Some(run) = host.take_run() else {
            return true;
        };
        if let Some(run) = attend(rt, alloc, host.runs(), notices, run) {
            host.give_back(run);
            return false;
        }
    }
    false
}
