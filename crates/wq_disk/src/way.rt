//! Whether a walk goes on to its end. Another module reads directories for it.
ghost use Rattle.std.specs.Prelude.{◌≡◌, IfErr};
ghost use Rattle.wq_patch.specs.declared.tree.TreeFault.TheVariants.{GaveWay};

use std::sync::atomic::{AtomicU64, Ordering};
use wq_patch::TreeFault;

/// Whether a walk goes on to its end.
#[derive(Clone, Copy)]
pub enum Way<'a> {
    /// It goes on.
    Keeps,
    /// Nobody waits for it, so it ends as soon as this count of callers that wait is not 0.
    Gives(&'a AtomicU64),
}

impl Way<'_> {
    /// Fails if the walk gives way now.
    pub fn keep_on(&self) -> Result<(), TreeFault>
        ensures { IfErr result (λ fault. fault ≡ GaveWay) }
    {
        match self {
            Way::Gives(waiting) if waiting.load(Ordering::SeqCst) > 0 => Err(TreeFault::GaveWay),
            _ => Ok(()),
        }
    }
}
