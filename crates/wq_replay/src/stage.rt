//! The stage of a script: the world, the listing that a crawl of `/r` would give, the listing that is open, and the
//! number of the next run.

use crate::world::{World, no_files};
use std::alloc::{AllocError, Global};
use wq_clock::Run;
use wq_view::{Pass, Seen};

/// The run of the server that a script plays.
const RUN: Run = Run { start: 7, pid: 9 };

/// The name of its socket.
const SOCKET: &str = "replay";

#[derive(Drop)]
pub(crate) struct Stage {
    pub(crate) world: World,
    pub(crate) tree: Pass,
    pub(crate) draft: Option<OpenListing>,
    /// The number of the next run.
    pub(crate) next: u32,
}

impl Stage {
    ghost use Rattle.std.specs.Prelude.{IfOk};
    ghost use Rattle.wq_replay.specs.Stage.{start};
    ghost use Rattle.wq_replay.specs.Step.{IsAt};

    /// The first stage of a script: nothing has happened, and no listing is open.
    pub(crate) fn new(alloc: Global) -> Result<Stage, AllocError>
        ensures { IfOk result (λ stage. IsAt stage start) }
    {
        let socket = String::from_str(alloc, SOCKET)?;
        let world = World::new(alloc, RUN, socket)?;
        Ok(Stage {
            world,
            tree: no_files(alloc)?,
            draft: None,
            next: 1,
        })
    }
}

/// A listing that has not ended yet.
#[derive(Drop)]
pub(crate) struct OpenListing {
    /// Whether the root is crawled at its end.
    pub(crate) crawls: bool,
    /// The second of the Unix epoch at which it was seen.
    pub(crate) second: i64,
    pub(crate) rows: Vec<Seen>,
}
