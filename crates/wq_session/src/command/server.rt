//! The reply to `get-sockname`, the name of the server's socket.
ghost use Rattle.std.specs.Prelude.{Ok};
ghost use Rattle.wq_session.specs.Server.{socket_on};
ghost use Rattle.wq_session.specs.Shelved.{shelf_data};
ghost use Rattle.wq_session.specs.Work.{Begins, replying};

use crate::plain::Plain;
use crate::work::Rest;
use std::alloc::Global;
use wq_ask::{Refusal, socket_reply};
use wq_follow::Trigger;
use wq_registry::Shelf;

/// `get-sockname`
pub(super) fn socket_on(alloc: Global, shelf: &Shelf<Trigger>) -> Result<Rest, Refusal>
    ensures { Begins (replying (Ok (socket_on (shelf_data shelf.now))) (shelf_data shelf.now))
        (shelf_data shelf.now) result (shelf_data shelf.now) }
{
    let value = socket_reply(alloc, shelf.sockname())?;
    Ok(Rest::Prints(Plain { value }))
}
